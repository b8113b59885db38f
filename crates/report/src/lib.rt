// The report of a check: its whole output for a rule file and a log, as bytes in a lent buffer.
//
// `report` lends the work area and the verdict buffer to the whole-log call, and writes the text from what that answers.
#![tactic(auto)]

ghost use Rattle.std.specs.Prelude.{◌≡◌, ◌+◌, ◌≤◌, length};
ghost use Rattle.lists.specs.Limits.{max_lines};
ghost use Rattle.text_pieces.specs.Writing.{Writes, WritesFew};
ghost use Rattle.report.specs.Text.{tally_text};
ghost use Rattle.report.specs.RecordText.{lines_to, fails_to, Printable, OfTrace, PrintsRecord};
ghost use Rattle.report.specs.Report.{report_size, ReportsPart};

use lists::MAX_LINES;
use pairs::Layout;
use reading::LogRead;
use tallies::Tally;
use whole_log::Mode;

// The shortest text buffer that is taken: report_size of specs. The longest report has 256 lines of accepted lines, one of a refusal and one of a tally.
pub const REPORT_BYTES: usize = 2048;

// The length of the report, or the number of the refusal.
#[derive(Clone, Copy)]
pub enum Reported {
    Length(usize),
    Refused(u8),
}

// A line for each verdict byte.
fn put_lines(text: &mut [u8], verdicts: &[u8]) -> usize
    requires { (length verdicts.now ≤ max_lines) × (report_size ≤ length text.old) }
    ensures { Writes (lines_to verdicts.now (length verdicts.now)) text.old 0 text.new result × (result ≤ 1536) }
{
    let mut at: usize = 0;
    for (i, verdict) in verdicts.iter().enumerate() {
        at = text_pieces::put_line(text, at, (i + 1) as u32, *verdict);
    }
    at
}

// How many of the verdict bytes fail.
fn count_failing(verdicts: &[u8]) -> u32
    requires { length verdicts.now ≤ max_lines }
    ensures { (result ≡ fails_to verdicts.now (length verdicts.now)) × (result ≤ max_lines) }
{
    verdicts.iter().filter(|verdict| **verdict != 1).count() as u32
}

// The line of a tally.
pub fn put_tally(text: &mut [u8], at: usize, y: Tally) -> usize
    requires { (at + 22 ≤ length text.old) × Printable y }
    ensures { WritesFew 22 (tally_text y) text.old at text.new result }
{
    let letter = text_pieces::put_byte(text, at, b'T');
    let lines = text_pieces::put_count(text, letter, y.lines);
    let begun = text_pieces::put_count(text, lines, y.begun);
    let finished = text_pieces::put_count(text, begun, y.finished);
    let running = text_pieces::put_count(text, finished, y.running);
    let failing = text_pieces::put_count(text, running, y.failing);
    text_pieces::put_byte(text, failing, b'\n')
}

// The text of what a whole-log call answers, from the front of the buffer on: its length.
fn put_record(text: &mut [u8], verdicts: &[u8], c: LogRead) -> usize
    requires of_trace { OfTrace c }
    requires max_lines_in_bounds { (max_lines ≤ length verdicts.now) × (report_size ≤ length text.old) }
    ensures { PrintsRecord c verdicts.now text.old text.new result }
{
    let state = c.state;
    let ending = c.ending;
    let told = &verdicts[..state.lines.0 as usize];
    let taken = put_lines(text, told);
    let end = text_pieces::put_ending(text, taken, ending);
    if text_pieces::is_unread(ending) {
        return end;
    }
    let failing = count_failing(told);
    let tally = tallies::tally_of(state, failing);
    put_tally(text, end, tally)
}

// The check's whole output for a rule file and the part of a log that is read: its length, and the text in the buffer. Refused where a
// buffer is too short.
pub fn report(
    layout: Layout,
    mode: Mode,
    file: &[u8],
    log: &[u8],
    work: &mut [u8],
    verdicts: &mut [u8],
    text: &mut [u8],
) -> Reported
    ensures { ReportsPart layout mode file.now log.now work.old verdicts.old text.old result work.new verdicts.new text.new }
{
    let end = pairs::work_bytes(layout);
    if work.len() < end {
        return Reported::Refused(20);
    }
    if verdicts.len() < MAX_LINES {
        return Reported::Refused(20);
    }
    if text.len() < REPORT_BYTES {
        return Reported::Refused(20);
    }
    let c = whole_log::check_log(layout, mode, file, log, work, verdicts);
    let n = put_record(text, verdicts, c);
    Reported::Length(n)
}
