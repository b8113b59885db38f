// Names the runs that break a rule: holds the log on standard input against the rule in the file rule.rul, and prints for each line with
// which the rule fails its number and the run numbers of the first slip.
//
// A rule file that can't be opened counts as no bytes. A read or a write that fails is said on standard error, and after a failed read
// nothing is printed. Arguments are ignored. What a slip is, and which is the first, is the work of the crate `slips`.
#![tactic(auto)]

ghost use Rattle.std.specs.Prelude.{◌+◌, ◌≤◌, ◌≡◌, true, IfOk, IfSome, length, take};
ghost use Rattle.input.specs.Filled.{Fills};
ghost use Rattle.rules.specs.Limits.{max_nested};
ghost use Rattle.lists.specs.Limits.{max_lines};
ghost use Rattle.trace.specs.Record.{Valid};
ghost use Rattle.text_pieces.specs.Writing.{WritesFew};
ghost use Rattle.slip_form.specs.Slips.{slip_runs};
ghost use Rattle.log_slips.specs.Printed.{rule_room, log_room, runs_text, slip_text, Printed, Prints, Prepared};
ghost use Rattle.log_slips.specs.Walk.{found_text, text_size, Walked, Refuses, Stops, TakesLine, Steps, ShowsLines};

use input::Streams;
use refusals::Refusal;
use slip_form::Slip;
use std::io;
use std::rt::Files;
use trace::Record;

// One byte more than the longest rule file, so that a longer one is seen to be too long.
const RULE_ROOM: usize = 600;

// The first bytes of a log. With those of the rule file they decide what is printed: `first_bytes_decide` of proofs.
const LOG_ROOM: usize = 8192;

// Room for the longest text: the lines of 256 accepted lines and of a refused one, of at most 20 bytes each.
const TEXT_ROOM: usize = 5140;

// What the lines so far leave: the record, where the next line starts, the length of the text, and whether lines are read on.
#[derive(Clone, Copy)]
struct Walk {
    state: Record,
    place: usize,
    size: usize,
    more: bool,
}

// Puts the rule file's first bytes at the start of the buffer.
fn read_rule<F: Files>(files: &F, streams: Streams, rule: &mut [u8]) -> io::Result<usize>
    requires { length rule.old ≡ rule_room }
    ensures { Fills result rule.new }
{
    let a = input::read_rule(files, rule);
    input::complain(a, b"log_slips: rule.rul", streams.error);
    a
}

// Puts the log's first bytes at the start of the buffer.
fn read_log(streams: Streams, log: &mut [u8]) -> io::Result<usize>
    requires { length log.old ≡ log_room }
    ensures { Fills result log.new }
{
    let mut from = streams.input;
    let a = input::fill(&mut from, log);
    input::complain(a, b"log_slips: standard input", streams.error);
    a
}

// The runs of a slip, a space before each.
fn put_runs(text: &mut [u8], at: usize, slip: Slip) -> usize
    requires { (at + 16 ≤ length text.old) × (slip.count ≤ max_nested) }
    ensures { WritesFew 16 (runs_text (slip_runs slip)) text.old at text.new result }
{
    let mut end = at;
    for run in &slip.run[..slip.count] {
        end = text_pieces::put_count(text, end, u32::from(run.0));
    }
    end
}

// The line of a slip: the number of the log's line, and the runs.
fn put_slip(text: &mut [u8], at: usize, n: u32, slip: Slip) -> usize
    requires { (at + 20 ≤ length text.old) × (n ≤ 999) × (slip.count ≤ max_nested) }
    ensures { WritesFew 20 (slip_text n (slip_runs slip)) text.old at text.new result }
{
    let number = text_pieces::put_number(text, at, n);
    let runs = put_runs(text, number, slip);
    text_pieces::put_byte(text, runs, b'\n')
}

// The line of what is found after line n: nothing where no slip is.
fn put_found(text: &mut [u8], at: usize, n: u32, found: Result<Option<Slip>, Refusal>) -> usize
    requires { (at + 20 ≤ length text.old) × (n ≤ 999) × IfOk found (λ o. IfSome o (λ x. x.count ≤ max_nested)) }
    ensures { WritesFew 20 (found_text n found) text.old at text.new result }
{
    match found {
        Ok(Some(slip)) => put_slip(text, at, n, slip),
        Ok(None) => at,
        Err(_) => at,
    }
}

// The line after those of the record is refused, and no later line is read.
fn refuse(text: &mut [u8], w: Walk, c: Refusal) -> Walk
    requires { (w.size + 20 ≤ length text.old) × (w.state.lines.0 ≤ max_lines) }
    ensures { Refuses w c text.old result text.new }
{
    let state = w.state;
    let place = w.place;
    let size = text_pieces::put_refused(text, w.size, state.lines.0 as u32 + 1, u8::from(c) as u32);
    Walk {
        state: state,
        place: place,
        size: size,
        more: false,
    }
}

// One line more, which ends before `place`.
fn take_line(file: &[u8], line: &[u8], place: usize, w: Walk, text: &mut [u8]) -> Walk
    requires { Valid w.state × (w.size + 20 ≤ length text.old) }
    ensures { TakesLine file.now line.now place w text.old result text.new }
{
    let said = reading::said_in(line);
    let before = w.state;
    let a = steps::take_event(before, said);
    let state = a.state;
    let o = a.outcome;
    match o {
        Err(c) => return refuse(text, w, c),
        Ok(_) => {
            let f = slips::first_slip(file, state);
            let size = put_found(text, w.size, state.lines.0 as u32, f);
            return Walk {
                state: state,
                place: place,
                size: size,
                more: true,
            };
        }
    }
}

// No line is left.
fn stop(w: Walk) -> Walk
    ensures { Stops w result }
{
    let state = w.state;
    Walk {
        state: state,
        place: w.place,
        size: w.size,
        more: false,
    }
}

// Reads the next line of the log, if there is one.
fn step(file: &[u8], log: &[u8], w: Walk, text: &mut [u8]) -> Walk
    requires { Walked file.now log.now w text.old × (w.more ≡ true) }
    ensures { Steps file.now log.now w result text.new }
{
    let a = lines::line_from(log, w.place);
    let next = a.next;
    match next {
        None => return stop(w),
        Some(Err(c)) => return refuse(text, w, c),
        Some(Ok(line)) => return take_line(file, &log[line.start..line.end], a.place, w, text),
    }
}

// The lines of slips of a log at the start of the text, with a rule that has slips: their length.
fn put_lines(file: &[u8], log: &[u8], text: &mut [u8]) -> usize
    requires { text_size ≤ length text.old }
    ensures { (result ≤ length text.new) × ShowsLines file.now log.now (take result text.new) }
{
    let none = trace::no_lines();
    let mut w = Walk {
        state: none,
        place: 0,
        size: 0,
        more: true,
    };
    // Kept: no count, since each line says where the next begins and whether there is one.
    while w.more {
        w = step(file, log, w, text);
    }
    w.size
}

// Puts what is said of a rule file and a log at the start of the text, and answers its length. A rule that is refused, or has another
// form, is refused for the record of no lines too.
fn make_text(file: &[u8], log: &[u8], text: &mut [u8]) -> usize
    requires { text_size ≤ length text.old }
    ensures { Printed file.now log.now text.new result }
{
    let none = trace::no_lines();
    match slips::first_slip(file, none) {
        Ok(_) => put_lines(file, log, text),
        Err(e) => text_pieces::put_refused(text, 0, 0, u32::from(u8::from(e))),
    }
}

// Puts what is to be printed at the start of the text, and answers its length: what is said of the bytes that the two reads brought, or
// nothing where a read failed.
fn text_of(
    rule: &[u8],
    r: io::Result<usize>,
    log: &[u8],
    l: io::Result<usize>,
    text: &mut [u8],
) -> usize
    requires text_size_in_bounds { text_size ≤ length text.old }
    requires fills { Fills r rule.now × Fills l log.now }
    ensures { Prepared r rule.now l log.now text.new result }
{
    match r {
        Err(_) => return 0,
        Ok(n) => match l {
            Err(_) => return 0,
            Ok(m) => return make_text(&rule[..n], &log[..m], text),
        },
    }
}

// Writes a text to standard output, and says on standard error where that fails. It asks that this is the text to be printed of the
// two buffers and what the two reads answered.
fn hand_on(
    streams: Streams,
    rule: &[u8],
    r: io::Result<usize>,
    log: &[u8],
    l: io::Result<usize>,
    text: &[u8],
)
    requires { Prints r rule.now l log.now text.now }
{
    if let Err(e) = streams.output.write_all(text) {
        input::fail(b"log_slips: standard output", Some(e), streams.error);
    }
}

// Prints what is to be printed of the two buffers and what the two reads answered.
fn print(streams: Streams, rule: &[u8], r: io::Result<usize>, log: &[u8], l: io::Result<usize>)
    requires { Fills r rule.now × Fills l log.now }
{
    let mut text = [0u8; TEXT_ROOM];
    let size = text_of(rule, r, log, l, &mut text);
    hand_on(streams, rule, r, log, l, &text[..size]);
}

fn main(rt: HostRuntime) {
    let streams = Streams {
        input: rt.stdin(),
        output: rt.stdout(),
        error: rt.stderr(),
    };
    let mut rule = [0u8; RULE_ROOM];
    let mut log = [0u8; LOG_ROOM];
    let r = read_rule(&rt, streams, &mut rule);
    let l = read_log(streams, &mut log);
    print(streams, &rule, r, &log, l);
}
