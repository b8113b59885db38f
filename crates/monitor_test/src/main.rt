// Drives each call of the check through the cases of its input: the paper's cases, the ends of a log, what is easily misread, tallies, each
// refusal and their order, 128 runs and 64 labels, records and work areas that are changed in one place, and tallies that are lent.
//
// A case is a kind and a text (`test_cases`). What the calls are handed:
//   r BYTES      the rule
//   y N          the layout: 0 square, 1 half. It is square at first
//   m N          the mode of `w`: 0 up to the first failure, 1 full. It is 0 at first
//   a N B        the work area: N bytes B, at most 16400
//   v N          the length of the verdict buffer, at most 260
//   s            a record that is started in the work area
//   z            the record of no lines
//   t N N N N N  the tally
//   k LOG        the record of a whole log, and its work area, which held 7s
//   A N B        the work area, whose byte N is B
//   R B N W P M C  the record, changed in one place (`test_records`)
// The calls, whose answers are written:
//   i LINE       one line, as it stands
//   l LOG        a log, line by line as a reader hands them out; q the same, with nothing written
//   T LOG        a log, line by line, with the tally
//   L LOG        a log, line by line, with the tally lent
//   D LINE       one line; then whether the record handed back is the one handed in, in each run, label, label place and count, and
//                whether each byte of the work area is as it was
//   w LOG        a whole log, in a work area of 7s and a verdict buffer of 9s, which are not kept
// `=` writes its text.
#![tactic(auto)]

mod answers;
mod calls;
mod handed;

use handed::{Sizes, State};
use monitor::Tallied;
use std::io::Stdout;

// A case with a rule and a work area of the given sizes.
fn case_in(
    out: Stdout,
    s: Tallied,
    kind: u8,
    text: &[u8],
    z: Sizes,
    file: &[u8],
    area: &mut [u8],
) -> Tallied {
    let n = z.rule;
    let w = z.work;
    let l = handed::layout(z.layout);
    let m = handed::mode(z.mode);
    if n <= file.len() {
        if w <= area.len() {
            return calls::case(
                out,
                l,
                m,
                s,
                kind,
                text,
                &file[0..n],
                &mut area[0..w],
                z.verdicts,
            );
        }
    }
    s
}

// The state after a case.
fn after(out: Stdout, s: State, kind: u8, text: &[u8], file: &mut [u8], area: &mut [u8]) -> State {
    let z = handed::sized(s.sizes, kind, text, file, area);
    let x = case_in(out, s.held, kind, text, z, file, area);
    State { held: x, sizes: z }
}

fn run(out: Stdout, first: State, input: &[u8], file: &mut [u8], area: &mut [u8]) {
    let mut s = first;
    test_cases::each_case(input, |kind, text| {
        s = after(out, s, kind, text, file, area);
    });
}

fn main(rt: HostRuntime) {
    let out = rt.stdout();
    let mut input = test_cases::room();
    let mut file = [0u8; 640];
    let mut area = [7u8; 16400];
    let n = test_cases::read_input(rt.stdin(), &mut input);
    run(out, handed::nothing(), &input[..n], &mut file, &mut area);
}
