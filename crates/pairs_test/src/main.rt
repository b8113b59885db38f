// Writes what a started record and taken lines leave in a work area.
//
// A case is a kind and a text (`test_cases`). A record and a work area stand from case to case.
//   a N       the work area has N bytes, at most 16400, all 7
//   y N       the layout: 0 square, 1 half. It is square at first
//   x N B     byte N of the work area is B
//   s         starts a record in the area, and writes the outcome; S writes nothing
//   o         the record of no lines; the area stays
//   i LINE    takes a line and brings the area up to date, or writes the refusal
//   m TEXT    writes its text, and whether the area matches the record
//   v TEXT    writes its text, and whether the record is one that lines leave
//   = TEXT    writes its text
// In a text `%a` to `%d` are the pair bytes of runs 0 and 1, 0 and 2, 1 and 2, and 1 and 0; `%e` and `%f` the area's first and last byte;
// `%g` to `%j` how many of its bytes are 0, 1, 6 and 7; and `%k` the record's count of lines. In the half layout the bytes of runs 0 and 1,
// 0 and 2, and 1 and 2 are the first three: `%e`, `%a` and `%b`.
#![tactic(auto)]

mod area;
mod calls;

use pairs::Layout;
use std::io::Stdout;
use trace::Record;

// A case in the first n bytes of a work area.
fn case_in(
    out: Stdout,
    l: Layout,
    r: Record,
    kind: u8,
    text: &[u8],
    work: &mut [u8],
    n: usize,
) -> Record {
    if n <= work.len() {
        return calls::case(out, l, r, kind, text, &mut work[0..n]);
    }
    r
}

fn run(out: Stdout, input: &[u8], work: &mut [u8]) {
    let mut l = Layout::Square;
    let mut r = trace::no_lines();
    let mut n: usize = 0;
    test_cases::each_case(input, |kind, text| {
        l = area::layout(l, kind, text);
        n = area::sized(n, kind, text, work);
        r = case_in(out, l, r, kind, text, work, n);
    });
}

fn main(rt: HostRuntime) {
    let out = rt.stdout();
    let mut input = test_cases::room();
    let mut work = [7u8; 16400];
    let n = test_cases::read_input(rt.stdin(), &mut input);
    run(out, &input[..n], &mut work);
}
