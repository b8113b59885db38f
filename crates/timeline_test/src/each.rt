// A rule's verdicts over a log, each judged after its own line.
ghost use Rattle.rules.specs.Rules.{Taken};

use super::verdicts;
use refusals::Refusal;
use rules::Rule;
use std::io::Stdout;
use trace::{Record, RunNo};

// Writes the verdict after the lines that left a record: H or F.
fn write_last(out: Stdout, file: &[u8], x: Rule, r: Record)
    requires { Taken file.now x }
{
    if !replay::is_record(r) {
        return;
    }
    verdicts::write_verdict(out, timeline::judge_last(file, x, r));
}

// Writes what a line leads to, and answers whether it was taken.
fn show_line(out: Stdout, file: &[u8], x: Rule, r: Record, o: Result<RunNo, Refusal>) -> bool
    requires { Taken file.now x }
{
    match o {
        Ok(_) => {
            write_last(out, file, x, r);
            true
        }
        Err(why) => {
            test_text::write_refusal(out, u8::from(why));
            false
        }
    }
}

// Writes the verdicts over a log, up to the first refused line.
pub fn show_log(out: Stdout, file: &[u8], x: Rule, log: &[u8])
    requires { Taken file.now x }
{
    let mut r = trace::no_lines();
    write_last(out, file, x, r);
    let mut place: usize = 0;
    for _ in 0..256 {
        let n = lines::next_line(log, place);
        if n.is_none() {
            return;
        }
        let a = test_steps::take_next(r, log, n);
        r = a.state;
        let o = a.outcome;
        if !show_line(out, file, x, r, o) {
            return;
        }
        place = lines::place_after(n, place);
    }
}
