// A rule's verdicts over a log, all judged at once or each after its own line: one letter for no lines, and one for each line.
ghost use Rattle.std.specs.Prelude.{◌≤◌};
ghost use Rattle.rules.specs.Rules.{Taken};
ghost use Rattle.timeline.specs.AllLines.{FitsRuns};

use super::each;
use logic::Verdict;
use rules::Rule;
use std::io::Stdout;
use timeline::Timeline;
use trace::Record;

// Writes a verdict: H or F.
pub fn write_verdict(out: Stdout, v: Verdict) {
    match v {
        Verdict::Holds => test_text::write(out, b"H"),
        Verdict::Fails => test_text::write(out, b"F"),
    }
}

// Writes the verdicts up to a line.
fn write_verdicts(out: Stdout, y: Timeline, lines: usize)
    requires { FitsRuns y × (lines ≤ 256) }
{
    for line in 0..=lines {
        write_verdict(out, timeline::verdict_at(y, line));
    }
}

// Writes the verdicts of the lines that left a record.
fn write_record(out: Stdout, file: &[u8], x: Rule, r: Record)
    requires { Taken file.now x }
{
    if !replay::is_record(r) {
        return;
    }
    let lines = r.lines.0 as usize;
    if lines <= 256 {
        write_verdicts(out, timeline::judge_all(file, x, r), lines);
    }
}

// Writes a rule's verdicts over a log.
fn show_rule(out: Stdout, kind: u8, file: &[u8], x: Rule, log: &[u8])
    requires { Taken file.now x }
{
    if kind == b'a' {
        write_record(
            out,
            file,
            x,
            test_steps::read_from(out, trace::no_lines(), log, b'q'),
        );
    } else {
        each::show_log(out, file, x, log);
    }
}

// Reads a rule file and writes its verdicts over a log.
pub fn show(out: Stdout, kind: u8, file: &[u8], log: &[u8]) {
    let r = rule_file::read_rule(file);
    match r {
        Ok(x) => show_rule(out, kind, file, x, log),
        Err(e) => {
            test_text::write(out, b"0 ");
            test_text::write_refusal(out, u8::from(e));
        }
    }
    test_text::write(out, b"\n");
}
