// Packs records that lines leave, shows their bytes, and takes a line more on what unpacks from them.
//
// A case is a kind and a text (`test_cases`). The record stands packed in the first bytes of a buffer.
//   b N      the buffer has N bytes, at most 2640, all 9
//   z        packs the record that is started in the work area; Z also writes the outcome
//   l LINE   takes a line on what unpacks, and packs what it leaves; L also writes the outcome
//   n LINE   takes a line on what unpacks, and writes the answer: H, F or R and the refusal, and the counts of lines, runs and labels of
//            the record that is handed back; the buffer keeps its bytes
//   c N B    the same for the line `E 1000`, with byte N of the buffer changed to B, and changed back
//   : N M    writes N, and the bytes from place N to before place M
//   s        writes the sum of the buffer's bytes
//   u        writes whether the buffer unpacks, and the same counts
// `=` writes its text.
#![tactic(auto)]

mod calls;
mod show;

use std::io::Stdout;

// The cases that write what there is, and those that call.
fn case(out: Stdout, kind: u8, text: &[u8], bytes: &mut [u8], work: &mut [u8]) {
    if kind == b'b' {
        test_text::fill(bytes, 9);
    } else {
        show::case(out, kind, text, bytes);
        calls::case(out, kind, text, bytes, work);
    }
}

// The length of the buffer after a case.
fn length(n: usize, kind: u8, text: &[u8]) -> usize {
    if kind == b'b' {
        return test_cases::size(text, 0);
    }
    n
}

// A case on the first n bytes.
fn case_in(out: Stdout, kind: u8, text: &[u8], bytes: &mut [u8], n: usize, work: &mut [u8]) {
    if n <= bytes.len() {
        case(out, kind, text, &mut bytes[0..n], work);
    }
}

fn run(out: Stdout, input: &[u8], bytes: &mut [u8], work: &mut [u8]) {
    let mut n: usize = 0;
    test_cases::each_case(input, |kind, text| {
        n = length(n, kind, text);
        case_in(out, kind, text, bytes, n, work);
    });
}

fn main(rt: HostRuntime) {
    let out = rt.stdout();
    let mut input = test_cases::room();
    let mut bytes = [9u8; 2640];
    let mut work = [7u8; 16384];
    let n = test_cases::read_input(rt.stdin(), &mut input);
    run(out, &input[..n], &mut bytes, &mut work);
}
