// The calls that are lent a work area, in one layout. Those on a whole log name a mode by its number.
ghost use Rattle.std.specs.Prelude.{◌≡◌};
ghost use Rattle.whole_log.specs.Part.{read_part};
ghost use Rattle.answer_numbers.specs.Numbers.{mode_named};
ghost use Rattle.scene_log.specs.Numbers.{ChecksLogNumber, ReportsNumber};
ghost use Rattle.scene_log.specs.InBytes.{StartsNumber, ChecksLineNumber, ChecksTalliedNumber, KeepsLogNumber};

use crate::{RECORD_BYTES, TOO_SHORT};
use pairs::Layout;

// The numbers of a tally.
const TALLY_COUNTS: usize = 5;

// The report of a rule file and a log at the start of the text: its length, or the refusal.
pub fn report(
    layout: Layout,
    mode: u32,
    rule: &[u8],
    log: &[u8],
    work: &mut [u8],
    verdicts: &mut [u8],
    text: &mut [u8],
) -> u32
    ensures { ReportsNumber layout rule.now (read_part (mode_named mode) rule.now log.now) work.old verdicts.old text.old result work.new verdicts.new text.new }
{
    let how = answer_numbers::mode_of(mode);
    let a = report::report(layout, how, rule, log, work, verdicts, text);
    answer_numbers::report_number(a)
}

// A whole log with a rule file: the number of lines that are taken; or the refusal and the number of the refused line.
pub fn check_log(
    layout: Layout,
    mode: u32,
    rule: &[u8],
    log: &[u8],
    work: &mut [u8],
    verdicts: &mut [u8],
) -> u32
    ensures { ChecksLogNumber layout rule.now (read_part (mode_named mode) rule.now log.now) work.old verdicts.old result work.new verdicts.new }
{
    let how = answer_numbers::mode_of(mode);
    let c = monitor::check_log(layout, how, rule, log, work, verdicts);
    answer_numbers::log_number(c)
}

// The same, with the record of the lines that are taken in bytes.
pub fn check_log_record(
    layout: Layout,
    mode: u32,
    rule: &[u8],
    log: &[u8],
    carried: &mut [u8],
    work: &mut [u8],
    verdicts: &mut [u8],
) -> u32
    ensures { KeepsLogNumber layout rule.now (read_part (mode_named mode) rule.now log.now) carried.old work.old verdicts.old result carried.new work.new verdicts.new }
{
    if carried.len() < RECORD_BYTES {
        return TOO_SHORT;
    }
    let how = answer_numbers::mode_of(mode);
    let c = monitor::check_log(layout, how, rule, log, work, verdicts);
    answer_numbers::keep_log(c, carried)
}

// Starts a record in bytes and its work area: 0, or the refusal.
pub fn start(layout: Layout, carried: &mut [u8], work: &mut [u8]) -> u32
    ensures { StartsNumber layout carried.old work.old result carried.new work.new }
{
    if carried.len() < RECORD_BYTES {
        return TOO_SHORT;
    }
    let s = pairs::start_record(layout, work);
    let state = s.state;
    let outcome = s.outcome;
    match outcome {
        Err(refused) => answer_numbers::refusal_number(refused),
        Ok(()) => {
            let _ = record_bytes::pack(state, carried);
            0
        }
    }
}

// One line on a record in bytes and its work area: 1 holds, 0 fails, or the refusal.
pub fn check_line(
    layout: Layout,
    rule: &[u8],
    carried: &mut [u8],
    work: &mut [u8],
    line: &[u8],
) -> u32
    ensures { ChecksLineNumber layout rule.now carried.old work.old line.now result carried.new work.new }
{
    if carried.len() < RECORD_BYTES {
        return TOO_SHORT;
    }
    let u = record_bytes::unpack(carried);
    let state = u.state;
    let c = monitor::check_line(layout, rule, state, work, line);
    answer_numbers::keep_record(c, carried)
}

// The same, with a tally: its five counts, which are updated where they stand.
pub fn check_line_tallied(
    layout: Layout,
    rule: &[u8],
    carried: &mut [u8],
    tally: &mut [u32],
    work: &mut [u8],
    line: &[u8],
) -> u32
    ensures { ChecksTalliedNumber layout rule.now carried.old tally.old work.old line.now result carried.new tally.new work.new }
{
    if carried.len() < RECORD_BYTES {
        return TOO_SHORT;
    }
    if tally.len() < TALLY_COUNTS {
        return TOO_SHORT;
    }
    let u = record_bytes::unpack(carried);
    let state = u.state;
    let y = answer_numbers::tally_from(tally);
    let c = monitor::check_line_tallied(layout, rule, state, y, work, line);
    answer_numbers::keep_tallied(c, carried, tally)
}
