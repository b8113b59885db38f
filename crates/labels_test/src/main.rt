// Cases for `labels`, a line for each on standard output.
//
// The file `stdout` does not come from this program: `model.py` writes it. The hashes there are the published vectors of
// the FNV reference test suite for 32-bit FNV-1a, each compared with an FNV-1a in Python. The places and numbers come
// from a table in Python that shares no code with the crate. The other lines are worked out by hand.
//
// A case is a kind and a text (`test_cases`). A label and a table stand from case to case.
//   w TEXT         writes its text, which the answer of the next case ends
//   h BYTES        the hash of the bytes, in hexadecimal
//   b label byte N writes its text, and whether a label may have the byte N
//   x WORD         the label is that of the word
//   n N            the label's length is N
//   y N            the label's first byte is N
//   o              the label is no label
//   l              writes the label's length, and its 24 bytes with dots for zeros
//   e WORD         whether the word's label is the same as the label
//   d TEXT         writes its text, and whether the label is sound
//   t              the table is that of no labels
//   f WORD         writes where the search for a word ends
//   p WORD         the same, and the table has the word's label then
#![tactic(auto)]

ghost use Rattle.labels.specs.Search.{Readable};

mod show;
mod table;

use labels::Label;
use std::io::Stdout;

// The bytes of a label with a length that need not be theirs.
fn of_length(x: Label, length: u8) -> Label {
    let bytes = x.bytes;
    Label { bytes, length }
}

// The label with another first byte.
fn begun_with(x: Label, first: u8) -> Label {
    let mut bytes = x.bytes;
    bytes[0] = first;
    let length = x.length;
    Label { bytes, length }
}

// The label after a case.
fn label_after(out: Stdout, x: Label, kind: u8, text: &[u8]) -> Label {
    if kind == b'x' {
        return table::label(text);
    }
    if kind == b'n' {
        return of_length(x, test_cases::byte(text, 0));
    }
    if kind == b'y' {
        return begun_with(x, test_cases::byte(text, 0));
    }
    if kind == b'o' {
        return labels::no_label();
    }
    show::case(out, x, kind, text);
    x
}

fn run(out: Stdout, input: &[u8]) {
    let mut t = table::empty();
    let mut x = labels::no_label();
    test_cases::each_case(
        input,
        |kind, text|
            requires { Readable t }
            ensures { Readable t.exit }
        {
            x = label_after(out, x, kind, text);
            t = table::after(out, t, kind, text);
        },
    );
}

fn main(rt: HostRuntime) {
    let out = rt.stdout();
    let mut input = test_cases::room();
    let n = test_cases::read_input(rt.stdin(), &mut input);
    run(out, &input[..n]);
}
