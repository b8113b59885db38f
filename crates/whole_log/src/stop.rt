// The lines of a log through the first that fails: all lines are read once, and the first of them that fails is looked for. Where lines
// stand behind it, those up to it are read once more, since the record is that of these alone.
ghost use Rattle.std.specs.Prelude.{◌≡◌, cond, ◌≤◌, eqb, length};
ghost use Rattle.lists.specs.Limits.{max_lines};
ghost use Rattle.lines.specs.Log.{lines_of};
ghost use Rattle.trace.specs.Trace.{no_trace};
ghost use Rattle.rules.specs.Rules.{Taken};
ghost use Rattle.logic.specs.Verdict.{verdict_byte};
ghost use Rattle.reading.specs.Reading.{read_from, read_answer};
ghost use Rattle.timeline.specs.AllLines.{verdict_up_to};
ghost use Rattle.pairs.specs.Layout.{work_size};
ghost use Rattle.whole_log.specs.Log.{lines_from};
ghost use Rattle.whole_log.specs.Part.{to_failure};
ghost use Rattle.whole_log.specs.Written.{Written, EndsLines, first_or_all};

use pairs::Layout;
use reading::{Ending, LogRead};
use rules::Rule;

// The byte of line k, where line n is the first that fails.
fn byte_up_to(n: usize, k: usize) -> u8
    ensures { result ≡ verdict_byte (verdict_up_to n k) }
{
    if k == n { 0 } else { 1 }
}

// The verdict bytes of the first lines, of which line n is the first that fails, 0 for none.
fn write_up_to(n: usize, lines: usize, verdicts: &mut [u8])
    requires { (lines ≤ max_lines) × (max_lines ≤ length verdicts.old) }
    ensures { Written (verdict_up_to n) lines verdicts.old verdicts.new }
{
    for (k, byte) in verdicts[..lines].iter_mut().enumerate() {
        *byte = byte_up_to(n, k + 1);
    }
}

// Where the first n lines of a log end.
fn end_of(log: &[u8], n: usize) -> usize
    ensures { EndsLines log.now n result }
{
    let mut passed: usize = 0;
    for (place, b) in log.iter().enumerate() {
        if passed == n {
            return place;
        }
        passed += usize::from(*b == b'\n');
    }
    log.len()
}

// What is read of the first n lines of a log, all of them for 0, where a is read of the whole.
fn first_read(log: &[u8], a: LogRead, n: usize) -> LogRead
    requires a_value { a ≡ read_answer (read_from no_trace (lines_of log.now)) }
    requires n_le_lines { n ≤ a.state.lines.0 }
    ensures { result ≡ read_answer (read_from no_trace (first_or_all n (lines_of log.now))) }
{
    if n == 0 {
        return a;
    }
    let state = a.state;
    if n == state.lines.0 as usize {
        return LogRead {
            state: state,
            ending: Ending::Read,
        };
    }
    let end = end_of(log, n);
    reading::read_runs(&log[..end])
}

// The lines of a log through the first that fails, from no lines on.
pub fn read_to_failure(
    layout: Layout,
    file: &[u8],
    rule: Rule,
    log: &[u8],
    work: &mut [u8],
    verdicts: &mut [u8],
) -> LogRead
    requires taken { Taken file.now rule }
    requires layout_in_bounds { (work_size layout ≤ length work.old) × (max_lines ≤ length verdicts.old) }
    ensures { (result, work.new, verdicts.new) ≡ lines_from layout file.now rule no_trace (to_failure file.now rule no_trace (lines_of log.now)) work.old verdicts.old }
{
    let a = reading::read_runs(log);
    let whole = a.state;
    let n = timeline::first_failing(file, rule, whole);
    let b = first_read(log, a, n);
    let state = b.state;
    pairs::fill_pairs(layout, state, work);
    let lines = state.lines.0 as usize;
    write_up_to(n, lines, verdicts);
    b
}
