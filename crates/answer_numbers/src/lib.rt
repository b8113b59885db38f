// Answers as numbers, for programs in other languages: what is an enum in the library is a number here.
//
// `keep_record`, `keep_tallied` and `keep_log` also put the record of the lines that are taken into bytes, and the tally into five
// numbers; `tally_from` reads these, `as_byte` makes a byte of any number, `layout_of` a layout of its
// number, and `mode_of` a mode.
#![tactic(auto)]

ghost use Rattle.std.specs.Prelude.{◌≡◌, ℕ, ◌≤◌, length};
ghost use Rattle.std.proofs.Math.Option.{some};
ghost use Rattle.answer_numbers.specs.Numbers.{refusal, layout_named, NamesMode, NumberedAs, log_number, report_number, ReportFits, written_number, WrittenFits};
ghost use Rattle.answer_numbers.specs.InBytes.{as_byte, line_numbered, tally_from, tally_in, tallied_numbered, log_kept};

use output::Written;
use pairs::Layout;
use reading::{Ending, LogRead};
use report::Reported;
use single::{Checked, Outcome};
use tallies::{Tallied, Tally};
use whole_log::Mode;

// The verdicts.
// Kept: C interface: `scene_log_check_line` answers these numbers.
const HOLDS: u32 = 1;

const FAILS: u32 = 0;

// What the number of a refusal is multiplied by.
pub const REFUSAL_STEP: u32 = 65536;

// The layout that a number names.
// Kept: no plainer: a `From` of a number for `Layout` would have to stand in the crate of `Layout`, which knows no numbers of C.
pub fn layout_of(n: u32) -> Layout
    requires { n ≤ 1 }
    ensures { layout_named n ≡ some result }
{
    if n == 0 { Layout::Square } else { Layout::Half }
}

// The mode that a number names.
// Kept: no plainer: a `From` of a number for `Mode` would have to stand in the crate of `Mode`, which knows no numbers of C.
pub fn mode_of(n: u32) -> Mode
    ensures { NamesMode n result }
{
    if n == 1 {
        return Mode::Full;
    }
    Mode::FirstFailure
}

// The number of a refusal, by any error that tells it.
pub fn refusal_number<E: Into<u8>>(refused: E) -> u32
    ensures { (c : ℕ) × E.Into.converts refused c × (result ≡ refusal c) }
{
    let number: u8 = refused.into();
    u32::from(number) * REFUSAL_STEP
}

// The number of a set or of a relation, or the refusal, whose number the error tells.
pub fn answer_number<E: Into<u8>>(answered: Result<u8, E>) -> u32
    ensures { NumberedAs E.Into.converts (λ n. n) answered result }
{
    match answered {
        Ok(n) => u32::from(n),
        Err(refused) => refusal_number(refused),
    }
}

// The length of a report, or the refusal.
pub fn report_number(a: Reported) -> u32
    requires { ReportFits a }
    ensures { result ≡ report_number a }
{
    match a {
        Reported::Length(n) => return n as u32,
        Reported::Refused(c) => return (c as u32) * REFUSAL_STEP,
    }
}

// The length of what was written, or the refusal.
pub fn written_number(a: Written) -> u32
    requires { WrittenFits a }
    ensures { result ≡ written_number a }
{
    match a {
        Written::Length(n) => return n as u32,
        Written::Refused(c) => return (c as u32) * REFUSAL_STEP,
    }
}

// A number as a byte: 255 for every number above it. It is no run and no set, and neither is any number above it.
pub fn as_byte(a: u32) -> u8
    ensures { result ≡ as_byte a }
{
    u8::try_from(a).unwrap_or(u8::MAX)
}

// The verdict as a number, with the record of a line that is taken put into the bytes; or the refusal.
pub fn keep_record(c: Checked, carried: &mut [u8]) -> u32
    requires { 2628 ≤ length carried.old }
    ensures { (result, carried.new) ≡ line_numbered c carried.old }
{
    let state = c.state;
    let outcome = c.outcome;
    match outcome {
        Outcome::Refused(n) => return (n as u32) * REFUSAL_STEP,
        Outcome::Holds => {
            let _ = record_bytes::pack(state, carried);
            return HOLDS;
        }
        Outcome::Fails => {
            let _ = record_bytes::pack(state, carried);
            return FAILS;
        }
    }
}

// The tally that the first five numbers are.
pub fn tally_from(numbers: &[u32]) -> Tally
    requires { 5 ≤ length numbers.now }
    ensures { result ≡ tally_from numbers.now }
{
    Tally {
        lines: numbers[0],
        begun: numbers[1],
        finished: numbers[2],
        running: numbers[3],
        failing: numbers[4],
    }
}

// The tally's counts in the first five numbers.
fn put_tally(y: Tally, numbers: &mut [u32])
    requires { 5 ≤ length numbers.old }
    ensures { numbers.new ≡ tally_in y numbers.old }
{
    numbers[0] = y.lines;
    numbers[1] = y.begun;
    numbers[2] = y.finished;
    numbers[3] = y.running;
    numbers[4] = y.failing;
}

// The same as `keep_record`, with the tally of a line that is taken put into the numbers.
pub fn keep_tallied(c: Tallied, carried: &mut [u8], numbers: &mut [u32]) -> u32
    requires in_bounds { 2628 ≤ length carried.old }
    requires in_bounds_2 { 5 ≤ length numbers.old }
    ensures { (result, carried.new, numbers.new) ≡ tallied_numbered c carried.old numbers.old }
{
    let state = c.state;
    let tally = c.tally;
    let outcome = c.outcome;
    match outcome {
        Outcome::Refused(n) => return (n as u32) * REFUSAL_STEP,
        Outcome::Holds => {
            let _ = record_bytes::pack(state, carried);
            put_tally(tally, numbers);
            return HOLDS;
        }
        Outcome::Fails => {
            let _ = record_bytes::pack(state, carried);
            put_tally(tally, numbers);
            return FAILS;
        }
    }
}

// The number of lines that are taken; or the refusal and the line's number.
pub fn log_number(c: LogRead) -> u32
    ensures { result ≡ log_number c }
{
    let state = c.state;
    let ending = c.ending;
    match ending {
        Ending::Read => return state.lines.0 as u32,
        Ending::Refused { number, line } => return (number as u32) * REFUSAL_STEP + line as u32,
    }
}

// The same, with the record of the lines that are taken put into the bytes, unless no line is read.
pub fn keep_log(c: LogRead, carried: &mut [u8]) -> u32
    requires { 2628 ≤ length carried.old }
    ensures { (result, carried.new) ≡ log_kept c carried.old }
{
    let state = c.state;
    let ending = c.ending;
    let n = log_number(c);
    match ending {
        Ending::Read => {
            let _ = record_bytes::pack(state, carried);
            return n;
        }
        Ending::Refused { number: _, line } => {
            if line == 0 {
                return n;
            }
            let _ = record_bytes::pack(state, carried);
            return n;
        }
    }
}
