// The check program: holds the log on standard input against the rule in the file rule.rul, and writes the report.
//
// A rule file that can't be opened counts as no bytes. A read or a write that fails is said on standard error, and after a failed read
// no report is written. `full` as the first argument names the full mode; any other, or none, leaves the default, which stops at the
// first failure. Further arguments are ignored. What the report says is the work of the crate `report`. The work area has the half
// layout, which is the faster one (docs/PERFORMANCE.md); what is printed is the same in either.
#![tactic(auto)]

ghost use Rattle.std.specs.Prelude.{◌≤◌, ◌≡◌, length, take};
ghost use Rattle.lists.specs.Lists.{bytes, same?};
ghost use Rattle.input.specs.Counts.{IsPrefixLen};
ghost use Rattle.lists.specs.Limits.{max_lines};
ghost use Rattle.report.specs.Report.{report_size};
ghost use Rattle.input.specs.Filled.{Fills};
ghost use Rattle.log_check.specs.Printed.{rule_room, log_room, mode_said, Printed, Prints};
ghost use Rattle.pairs.specs.declared.Layout.TheVariants.{Half};
ghost use Rattle.pairs.specs.Layout.{work_size};

use input::Streams;
use lists::MAX_LINES;
use pairs::{HALF_BYTES, Layout};
use report::{REPORT_BYTES, Reported};
use std::io;
use std::rt::{Env, Files};
use whole_log::Mode;

// One byte more than the longest rule file, so that a longer one is seen to be too long.
const RULE_ROOM: usize = 600;

// The first bytes of a log. With those of the rule file they decide the report: `first_bytes_decide_report` of the crate `report`.
const LOG_ROOM: usize = 8192;

// Room for the word `full`, and a byte more. Of a word that is longer still no byte is taken.
const WORD_ROOM: usize = 5;

// Whether a word is `full`.
fn is_full(word: &[u8]) -> bool
    ensures { result ≡ same? word.now (bytes "full") }
{
    if word.len() != 4 {
        return false;
    }
    if word[0] != b'f' {
        return false;
    }
    if word[1] != b'u' {
        return false;
    }
    if word[2] != b'l' {
        return false;
    }
    word[3] == b'l'
}

// The mode that a word names.
fn mode_of(word: &[u8]) -> Mode
    ensures { result ≡ mode_said word.now }
{
    if is_full(word) {
        return Mode::Full;
    }
    Mode::FirstFailure
}

// Puts the rule file's first bytes at the start of the buffer.
fn read_rule<F: Files>(files: &F, streams: Streams, rule: &mut [u8]) -> io::Result<usize>
    requires { length rule.old ≡ rule_room }
    ensures { Fills result rule.new }
{
    let a = input::read_rule(files, rule);
    input::complain(a, b"log_check: rule.rul", streams.error);
    a
}

// Puts the log's first bytes at the start of the buffer.
fn read_log(streams: Streams, log: &mut [u8]) -> io::Result<usize>
    requires { length log.old ≡ log_room }
    ensures { Fills result log.new }
{
    let mut from = streams.input;
    let a = input::fill(&mut from, log);
    input::complain(a, b"log_check: standard input", streams.error);
    a
}

// Puts the report of a rule file and a log, in a mode, at the start of the text, and answers its length.
fn make_report(
    mode: Mode,
    rule: &[u8],
    log: &[u8],
    work: &mut [u8],
    verdicts: &mut [u8],
    text: &mut [u8],
) -> usize
    requires { (work_size Half ≤ length work.old) × (max_lines ≤ length verdicts.old) × (report_size ≤ length text.old) }
    ensures { Printed mode rule.now log.now text.new result }
{
    let answer = report::report(Layout::Half, mode, rule, log, work, verdicts, text);
    match answer {
        Reported::Length(n) => return n,
        // The buffers are long enough, so this does not occur.
        Reported::Refused(_) => return 0,
    }
}

// Puts what is to be printed at the start of the text, and answers its length: the report of the bytes that the two reads brought, in
// the mode that a word names, or nothing where a read failed.
fn text_of(
    word: &[u8],
    rule: &[u8],
    r: io::Result<usize>,
    log: &[u8],
    l: io::Result<usize>,
    work: &mut [u8],
    verdicts: &mut [u8],
    text: &mut [u8],
) -> usize
    requires work_size_in_bounds { (work_size Half ≤ length work.old) × (max_lines ≤ length verdicts.old) × (report_size ≤ length text.old) }
    requires fills { Fills r rule.now × Fills l log.now }
    ensures { IsPrefixLen result text.new × Prints word.now r rule.now l log.now (take result text.new) }
{
    match r {
        Err(_) => return 0,
        Ok(n) => match l {
            Err(_) => return 0,
            Ok(m) => {
                let mode = mode_of(word);
                return make_report(mode, &rule[..n], &log[..m], work, verdicts, text);
            }
        },
    }
}

// Writes a text to standard output, and says on standard error where that fails. It asks that this is the text to be printed of the
// word, the two buffers and what the two reads answered.
fn hand_on(
    streams: Streams,
    word: &[u8],
    rule: &[u8],
    r: io::Result<usize>,
    log: &[u8],
    l: io::Result<usize>,
    text: &[u8],
)
    requires { Prints word.now r rule.now l log.now text.now }
{
    if let Err(e) = streams.output.write_all(text) {
        input::fail(b"log_check: standard output", Some(e), streams.error);
    }
}

// Prints what is to be printed of the word, the two buffers and what the two reads answered.
fn print(
    streams: Streams,
    word: &[u8],
    rule: &[u8],
    r: io::Result<usize>,
    log: &[u8],
    l: io::Result<usize>,
)
    requires { Fills r rule.now × Fills l log.now }
{
    let mut work = [0u8; HALF_BYTES];
    let mut verdicts = [0u8; MAX_LINES];
    let mut text = [0u8; REPORT_BYTES];
    let size = text_of(word, rule, r, log, l, &mut work, &mut verdicts, &mut text);
    hand_on(streams, word, rule, r, log, l, &text[..size]);
}

// Puts the first argument at the start of the buffer, and answers its length: none where there is no such argument, or it is longer.
fn read_word<E: Env>(env: &E, word: &mut [u8]) -> usize
    ensures { IsPrefixLen result word.new }
{
    match env.arg(1, word) {
        Ok(n) => n,
        Err(_) => 0,
    }
}

fn main(rt: HostRuntime) {
    let streams = Streams {
        input: rt.stdin(),
        output: rt.stdout(),
        error: rt.stderr(),
    };
    let mut word = [0u8; WORD_ROOM];
    let size = read_word(&rt, &mut word);
    let mut rule = [0u8; RULE_ROOM];
    let mut log = [0u8; LOG_ROOM];
    let r = read_rule(&rt, streams, &mut rule);
    let l = read_log(streams, &mut log);
    print(streams, &word[..size], &rule, r, &log, l);
}
