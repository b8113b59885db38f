// Writes what the calls on relations answer for the paper's cases and those at their edges.
//
// The expected output is worked out by a program that knows none of this code: it goes through the 90 orders in which the lines
// of three runs can stand, notes for each which of the six inequalities holds between the first and second, second and third,
// and first and third run, and joins these for each two sets. The orders of two runs, of positions and the refusals
// follow from the same inequalities and the order of the refusals.
//
// A case is a kind and a text (`test_cases`).
//   b N N N N  the relation of two runs by their positions
//   c N N      the composition of two sets
//   v N        the converse of a set
//   l LOG      the record of the log's lines
//   R C        the record, changed in one place (`test_records`)
//   r N N      the relation of two runs of the record
// The line of an answer is the text and what the call answers; `=` writes its text.
#![tactic(auto)]

mod runs;
mod sets;

use std::io::Stdout;

fn run(out: Stdout, input: &[u8]) {
    let mut r = trace::no_lines();
    test_cases::each_case(input, |kind, text| {
        sets::case(out, kind, text);
        r = runs::case(out, r, kind, text);
    });
}

fn main(rt: HostRuntime) {
    let out = rt.stdout();
    let mut input = test_cases::room();
    let n = test_cases::read_input(rt.stdin(), &mut input);
    run(out, &input[..n]);
}
