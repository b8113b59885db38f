// Watches a log: answers each line on standard input as it comes, by the rule in the file rule.rul, with the text that the check prints
// for it. At the end of the input, or after a refused line, comes the line of the tally.
//
// A rule file that can't be opened counts as no bytes; a refused rule is all that is printed. A read or a write that fails is said on
// standard error, and nothing more is printed after it. Arguments are ignored. The work area has the half layout, which is the faster
// one (docs/PERFORMANCE.md); what is printed is the same in either.
#![tactic(auto)]

ghost use Rattle.std.specs.Prelude.{◌≤◌, ◌≡◌, length};
ghost use Rattle.pairs.specs.declared.Layout.TheVariants.{Half};
ghost use Rattle.pairs.specs.Layout.{work_size};
ghost use Rattle.rules.specs.Rules.{rule_of};
ghost use Rattle.text_pieces.specs.Writing.{WritesFew};
ghost use Rattle.report.specs.RecordText.{Printable};
ghost use Rattle.watch.specs.Watch.{LineRead, outcome_text, way_of, Watching, AnswersLine, AnswersEnd, AnswersRule, Follows, Onward, on?};

use input::Streams;
use pairs::{HALF_BYTES, Layout};
use rules::Rule;
use single::Outcome;
use std::io;
use std::io::Stdin;
use tallies::Tally;
use trace::Record;

// One byte more than the longest rule file, so that a longer one is seen to be too long.
const RULE_ROOM: usize = 600;

// The most bytes a line has, its LF among them: as many without an LF are refused at once.
const LINE_ROOM: usize = 40;

const TEXT_ROOM: usize = 32;

// Whether to read on, to print the tally and stop, or to stop at once.
#[derive(Clone, Copy)]
enum Way {
    On,
    End,
    Stop,
}

// What the lines so far leave, and how to go on.
#[derive(Clone, Copy)]
struct Watch {
    state: Record,
    tally: Tally,
    way: Way,
}

// What a line leaves, its outcome, and the length of its text.
#[derive(Clone, Copy)]
struct Answered {
    state: Record,
    tally: Tally,
    outcome: Outcome,
    size: usize,
}

// One byte of the input; none at its end.
fn read_byte(from: Stdin) -> io::Result<Option<u8>> {
    let mut from = from;
    let mut one = [0u8; 1];
    let n = input::fill(&mut from, &mut one)?;
    if n == 0 {
        return Ok(None);
    }
    Ok(Some(one[0]))
}

// Puts the bytes up to the next LF at the start of the buffer, or as many as it has room for, or those before the end of the input.
fn read_line(from: Stdin, line: &mut [u8]) -> io::Result<usize>
    requires { length line.old ≤ 40 }
    ensures { LineRead result line.new }
{
    for (n, place) in line.iter_mut().enumerate() {
        let Some(b) = read_byte(from)? else {
            return Ok(n);
        };
        *place = b;
        if b == b'\n' {
            return Ok(n + 1);
        }
    }
    Ok(line.len())
}

// The text of an outcome, where so many lines are accepted after it.
fn put_outcome(text: &mut [u8], lines: u32, o: Outcome) -> usize
    requires { (lines ≤ 256) × (9 ≤ length text.old) }
    ensures { WritesFew 9 (outcome_text lines o) text.old 0 text.new result }
{
    match o {
        Outcome::Holds => return text_pieces::put_line(text, 0, lines, 1),
        Outcome::Fails => return text_pieces::put_line(text, 0, lines, 0),
        Outcome::Refused(c) => return text_pieces::put_refused(text, 0, lines + 1, c as u32),
    }
}

// One line on what the lines before it leave, and its text at the start of the buffer. The call on it is lent a tally.
fn answer_line(
    file: &[u8],
    r: Record,
    y: Tally,
    work: &mut [u8],
    line: &[u8],
    text: &mut [u8],
) -> Answered
    requires watching { Watching file.now r y work.old }
    requires in_bounds { 9 ≤ length text.old }
    ensures { AnswersLine file.now r y work.old line.now result work.new text.new }
{
    let a = lent::lend_tally(Layout::Half, file, r, y, work, line);
    let state = a.state;
    let tally = a.tally;
    let outcome = a.outcome;
    let size = put_outcome(text, tally.lines, outcome);
    Answered {
        state: state,
        tally: tally,
        outcome: outcome,
        size: size,
    }
}

// How to go on after an outcome.
fn way_of(o: Outcome) -> Way
    ensures { result ≡ way_of o }
{
    match o {
        Outcome::Holds => return Way::On,
        Outcome::Fails => return Way::On,
        Outcome::Refused(_) => return Way::End,
    }
}

// Writes a text to standard output, or says on standard error that this fails.
fn hand_on(streams: Streams, text: &[u8]) -> bool {
    if let Err(e) = streams.output.write_all(text) {
        input::fail(b"watch: standard output", Some(e), streams.error);
        return false;
    }
    true
}

// Hands on the text of an outcome, and answers how to go on: as it says, or not at all if the text can't be written.
fn print_outcome(streams: Streams, lines: u32, o: Outcome, text: &[u8]) -> Way
    requires { text.now ≡ outcome_text lines o }
    ensures { Follows result o }
{
    if hand_on(streams, text) {
        return way_of(o);
    }
    Way::Stop
}

// Answers one line.
fn take_line(streams: Streams, file: &[u8], s: Watch, work: &mut [u8], line: &[u8]) -> Watch
    requires { Watching file.now s.state s.tally work.old }
    ensures { Watching file.now result.state result.tally work.new × Onward s.tally.lines result.tally result.way }
{
    let mut text = [0u8; TEXT_ROOM];
    let r = s.state;
    let y = s.tally;
    let a = answer_line(file, r, y, work, line, &mut text);
    let state = a.state;
    let tally = a.tally;
    let outcome = a.outcome;
    let size = a.size;
    let way = print_outcome(streams, tally.lines, outcome, &text[..size]);
    Watch {
        state: state,
        tally: tally,
        way: way,
    }
}

// Reads one line and answers it. After a read that fails nothing more is printed.
fn watch_line(streams: Streams, file: &[u8], s: Watch, work: &mut [u8]) -> Watch
    requires { Watching file.now s.state s.tally work.old }
    ensures { Watching file.now result.state result.tally work.new × Onward s.tally.lines result.tally result.way }
{
    let mut line = [0u8; LINE_ROOM];
    let a = read_line(streams.input, &mut line);
    input::complain(a, b"watch: standard input", streams.error);
    let state = s.state;
    let tally = s.tally;
    match a {
        Err(_) => {
            return Watch {
                state: state,
                tally: tally,
                way: Way::Stop,
            };
        }
        Ok(n) => {
            if n == 0 {
                return Watch {
                    state: state,
                    tally: tally,
                    way: Way::End,
                };
            }
            return take_line(streams, file, s, work, &line[..n]);
        }
    }
}

fn is_on(s: Watch) -> bool
    ensures { result ≡ on? s.way }
{
    let way = s.way;
    match way {
        Way::On => return true,
        Way::End => return false,
        Way::Stop => return false,
    }
}

// Reads and answers lines up to the end.
fn watch_lines(streams: Streams, file: &[u8], s: Watch, work: &mut [u8]) -> Watch
    requires { Watching file.now s.state s.tally work.old }
    ensures { Watching file.now result.state result.tally work.new }
{
    let mut last = s;
    // Kept: no count, since what comes of each line says whether another is read.
    while is_on(last) {
        last = watch_line(streams, file, last, work);
    }
    last
}

// The line of the tally at the start of the buffer.
fn answer_end(y: Tally, text: &mut [u8]) -> usize
    requires { Printable y × (22 ≤ length text.old) }
    ensures { AnswersEnd y text.new result }
{
    report::put_tally(text, 0, y)
}

// Prints the line of the tally, unless reading or writing failed.
fn finish(streams: Streams, s: Watch)
    requires { Printable s.tally }
{
    let tally = s.tally;
    let way = s.way;
    match way {
        Way::Stop => return,
        Way::On => return,
        Way::End => {
            let mut text = [0u8; TEXT_ROOM];
            let n = answer_end(tally, &mut text);
            hand_on(streams, &text[..n]);
            return;
        }
    }
}

// The line of a refused rule at the start of the buffer.
fn answer_rule(c: u8, text: &mut [u8]) -> usize
    requires { 9 ≤ length text.old }
    ensures { AnswersRule c text.new result }
{
    text_pieces::put_refused(text, 0, 0, c as u32)
}

// Prints the line of a refused rule.
fn refuse(streams: Streams, c: u8) {
    let mut text = [0u8; TEXT_ROOM];
    let n = answer_rule(c, &mut text);
    hand_on(streams, &text[..n]);
}

// No line is read yet.
fn start(file: &[u8], rule: Rule, work: &mut [u8]) -> Watch
    requires { (rule_of file.now ≡ Ok rule) × (work_size Half ≤ length work.old) }
    ensures { Watching file.now result.state result.tally work.new }
{
    let a = pairs::start_record(Layout::Half, work);
    let state = a.state;
    Watch {
        state: state,
        tally: Tally {
            lines: 0,
            begun: 0,
            finished: 0,
            running: 0,
            failing: 0,
        },
        way: Way::On,
    }
}

// Watches a log by a rule file.
fn watch_log(streams: Streams, file: &[u8]) {
    let x = rule_file::read_rule(file);
    match x {
        Err(e) => {
            refuse(streams, u8::from(e));
            return;
        }
        Ok(rule) => {
            let mut work = [0u8; HALF_BYTES];
            let s = start(file, rule, &mut work);
            let last = watch_lines(streams, file, s, &mut work);
            finish(streams, last);
            return;
        }
    }
}

fn main(rt: HostRuntime) {
    let streams = Streams {
        input: rt.stdin(),
        output: rt.stdout(),
        error: rt.stderr(),
    };
    let mut rule = [0u8; RULE_ROOM];
    let a = input::read_rule(&rt, &mut rule);
    input::complain(a, b"watch: rule.rul", streams.error);
    match a {
        Err(_) => return,
        Ok(n) => {
            watch_log(streams, &rule[..n]);
            return;
        }
    }
}
