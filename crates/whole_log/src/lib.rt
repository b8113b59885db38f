// The call on a whole log.
//
// `check_log` has `log::read_lines` read all lines of the log, and then judge them at once. Where it is to stop at the first failure,
// `stop::read_to_failure` looks for the first line that fails, and what it leaves is that of the lines through this one.
#![tactic(auto)]

ghost use Rattle.std.specs.Prelude.{◌≡◌, ◌≤◌, length};
ghost use Rattle.lists.specs.Limits.{max_lines};
ghost use Rattle.lines.specs.Log.{lines_of};
ghost use Rattle.trace.specs.Trace.{no_trace};
ghost use Rattle.rules.specs.Rules.{Taken};
ghost use Rattle.pairs.specs.Layout.{work_size};
ghost use Rattle.whole_log.specs.Log.{not_read, lines_from};
ghost use Rattle.whole_log.specs.Part.{lines_read, ChecksPart};

use lists::MAX_LINES;
use pairs::Layout;
use reading::{Ending, LogRead};
use rules::Rule;

mod log;
mod stop;

// How much of a log is read: the lines through the first that fails, or all of them.
// Kept: C names it by a number, and the two readings differ in a dozen lines: a closure in its place would be no plainer.
#[derive(Clone, Copy)]
pub enum Mode {
    FirstFailure,
    Full,
}

// A log of which no line is read.
fn not_read(n: u8) -> LogRead
    ensures { result ≡ not_read n }
{
    let none = trace::no_lines();
    LogRead {
        state: none,
        ending: Ending::Refused { number: n, line: 0 },
    }
}

// The part of a log that is read in a mode, with a rule that is taken and buffers that are long enough.
fn read_part(
    layout: Layout,
    mode: Mode,
    file: &[u8],
    rule: Rule,
    log: &[u8],
    work: &mut [u8],
    verdicts: &mut [u8],
) -> LogRead
    requires taken { Taken file.now rule }
    requires layout_in_bounds { (work_size layout ≤ length work.old) × (max_lines ≤ length verdicts.old) }
    ensures { (result, work.new, verdicts.new) ≡ lines_from layout file.now rule no_trace (lines_read mode file.now rule (lines_of log.now)) work.old verdicts.old }
{
    match mode {
        Mode::Full => return log::read_lines(layout, file, rule, log, work, verdicts),
        Mode::FirstFailure => {
            return stop::read_to_failure(layout, file, rule, log, work, verdicts);
        }
    }
}

// A whole log with a rule file: the record of the lines that are taken, their verdict bytes, and how the reading ended.
// Kept: the buffers are parameters, which `ChecksPart` and docs/API.md name one by one.
pub fn check_log(
    layout: Layout,
    mode: Mode,
    file: &[u8],
    log: &[u8],
    work: &mut [u8],
    verdicts: &mut [u8],
) -> LogRead
    ensures { ChecksPart layout mode file.now log.now work.old verdicts.old result work.new verdicts.new }
{
    let end = pairs::work_bytes(layout);
    if work.len() < end {
        return not_read(20);
    }
    if verdicts.len() < MAX_LINES {
        return not_read(20);
    }
    let x = rule_file::read_rule(file);
    match x {
        Err(e) => return not_read(u8::from(e)),
        Ok(rule) => return read_part(layout, mode, file, rule, log, work, verdicts),
    }
}
