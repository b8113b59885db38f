// Writes the verdicts of small rules over small logs.
//
// A case is a kind and a text (`test_cases`): `l` gives the log; `j` gives a rule file, each line of the log judged after its own line; `a`
// gives a rule file, all lines of the log judged at once; `=` writes its text. The verdicts are one line: a letter for no lines and one for
// each line of the log, H if the rule holds and F if it fails; a refused line ends it with R and the refusal.
#![tactic(auto)]

mod each;
mod verdicts;

use std::io::Stdout;

// Reads a rule file and writes its verdicts over a log.
fn judge(out: Stdout, kind: u8, text: &[u8], log: &[u8]) {
    let mut file = [0u8; 640];
    let n = test_cases::bytes(text, &mut file);
    verdicts::show(out, kind, &file[..n], log);
}

// The length of the log after a case, and n before it.
fn after(out: Stdout, n: usize, kind: u8, text: &[u8], log: &mut [u8]) -> usize {
    if kind == b'l' {
        return test_cases::bytes(text, log);
    }
    if kind == b'=' {
        test_text::write_line(out, text);
        return n;
    }
    if kind != b'#' {
        if n <= log.len() {
            judge(out, kind, text, &log[0..n]);
        }
    }
    n
}

fn run(out: Stdout, input: &[u8], log: &mut [u8]) {
    let mut n: usize = 0;
    test_cases::each_case(input, |kind, text| {
        n = after(out, n, kind, text, log);
    });
}

fn main(rt: HostRuntime) {
    let out = rt.stdout();
    let mut input = test_cases::room();
    let mut log = [0u8; 2048];
    let n = test_cases::read_input(rt.stdin(), &mut input);
    run(out, &input[..n], &mut log);
}
