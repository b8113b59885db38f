// Rule files and what reading them answers: each refusal, pairs of faults that show their order, and files that are taken.
// Each line of the output is a case's name and its answer.
//
// A case is a kind and a text (`test_cases`): `n` writes a name, `+` gives bytes of a file, `f` gives its last bytes and has it read.
#![tactic(auto)]

use rules::Rule;
use std::io::Stdout;

fn show_rule(out: Stdout, x: Rule) {
    test_text::write(out, b"labels ");
    test_text::write_number(out, x.labels as u64);
    test_text::write(out, b", nodes ");
    test_text::write_number(out, x.nodes as u64);
    test_text::write(out, b", count ");
    test_text::write_number(out, x.count as u64);
}

fn show(out: Stdout, file: &[u8]) {
    let r = rule_file::read_rule(file);
    match r {
        Ok(x) => show_rule(out, x),
        Err(e) => test_text::write_refusal(out, u8::from(e)),
    }
    test_text::write(out, b"\n");
}

// How many bytes the file has after a case, and n before it.
fn after(out: Stdout, file: &mut [u8], n: usize, kind: u8, text: &[u8]) -> usize {
    if kind == b'n' {
        test_text::write(out, text);
        test_text::write(out, b": ");
        return n;
    }
    if n <= file.len() {
        if kind == b'+' {
            return test_cases::append(text, file, n);
        }
        if kind == b'f' {
            let m = test_cases::append(text, file, n);
            show(out, &file[..m]);
        }
    }
    0
}

fn run(out: Stdout, input: &[u8], file: &mut [u8]) {
    let mut n: usize = 0;
    test_cases::each_case(input, |kind, text| {
        n = after(out, file, n, kind, text);
    });
}

fn main(rt: HostRuntime) {
    let out = rt.stdout();
    let mut input = test_cases::room();
    let mut file = [0u8; 640];
    let n = test_cases::read_input(rt.stdin(), &mut input);
    run(out, &input[..n], &mut file);
}
