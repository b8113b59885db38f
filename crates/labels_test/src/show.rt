// What the calls answer.
use super::table;
use labels::{Label, Slot};
use std::io::Stdout;

fn wide_hash(h: u32) -> u64 {
    h as u64
}

fn answer(out: Stdout, yes: bool) {
    if yes {
        test_text::write(out, b": yes\n");
    } else {
        test_text::write(out, b": no\n");
    }
}

// A byte below 32 as a dot, any other as it is.
fn dotted(b: u8) -> u8 {
    if b < 32 { b'.' } else { b }
}

fn dotted_text(out: Stdout, bytes: &[u8]) {
    for b in bytes {
        test_text::write_byte(out, dotted(*b));
    }
}

// The hash of the bytes of a text, in hexadecimal.
fn hash(out: Stdout, text: &[u8]) {
    let mut word = [0u8; 32];
    let n = test_cases::bytes(text, &mut word);
    test_text::write(out, b": ");
    test_text::write_hex(out, wide_hash(labels::fnv1a(&word[..n])));
    test_text::write(out, b"\n");
}

fn label(out: Stdout, x: Label) {
    let bytes = x.bytes;
    let length = [test_text::wide(x.length)];
    test_text::write_filled(out, b"label of length %a: ", &length);
    dotted_text(out, &bytes);
    test_text::write(out, b"\n");
}

// Where the search for a label ends.
pub fn slot(out: Stdout, word: &[u8], s: Slot) {
    test_text::write(out, word);
    match s {
        Slot::Seen(n) => {
            test_text::write(out, b" has number ");
            test_text::write_number(out, test_text::wide(n.0));
        }
        Slot::Free(p) => {
            test_text::write(out, b" goes to place ");
            test_text::write_number(out, p as u64);
        }
        Slot::Full => test_text::write(out, b" finds no place"),
    }
    test_text::write(out, b"\n");
}

// The cases that write a text and whether something is so.
fn yes_or_no(out: Stdout, x: Label, kind: u8, text: &[u8]) {
    if kind == b'b' {
        test_text::write(out, text);
        answer(out, labels::label_byte(test_cases::byte(text, 2)));
    }
    if kind == b'd' {
        test_text::write(out, text);
        answer(out, labels::is_sound(x));
    }
    if kind == b'e' {
        answer(out, labels::equal_labels(table::label(text), x));
    }
}

// The cases that write.
pub fn case(out: Stdout, x: Label, kind: u8, text: &[u8]) {
    if kind == b'w' {
        test_text::write(out, text);
    }
    if kind == b'h' {
        hash(out, text);
    }
    if kind == b'l' {
        label(out, x);
    }
    yes_or_no(out, x, kind, text);
}
