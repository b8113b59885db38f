// One line of a log, taken on any record: what the test programs drive the calls on runs with.
//
// `take_line` takes a line that is given with its LF, `take_next` what a log reader hands out. `read_from` takes all lines of a log
// and writes what happens to each. `numbered_line` makes one line of many.
#![tactic(auto)]

use lines::Span;
use refusals::Refusal;
use std::io::Stdout;
use trace::{Record, RunNo, Stepped};

// The answer to a line that is refused.
fn refused<E>(r: Record, why: E) -> Stepped<E> {
    Stepped {
        state: r,
        outcome: Err(why),
    }
}

// Takes one line, given with its LF, on a record that accepted lines leave; 21 on any other.
pub fn take_line(r: Record, line: &[u8]) -> Stepped {
    if !replay::is_record(r) {
        return refused(r, Refusal::NoRecord);
    }
    let said = reading::said_in(line);
    steps::take_event(r, said)
}

// Takes the line that stands in a log from start to before end.
fn take_part(r: Record, log: &[u8], start: usize, end: usize) -> Stepped {
    if start <= end {
        if end <= log.len() {
            return take_line(r, &log[start..end]);
        }
    }
    refused(r, Refusal::LineForm)
}

// Takes what a log reader hands out, with whatever stands for a refusal there.
pub fn take_next<E: From<Refusal> + Copy>(
    r: Record,
    log: &[u8],
    n: Option<Result<Span, E>>,
) -> Stepped<E> {
    match n {
        Some(Ok(line)) => {
            let a = take_part(r, log, line.start, line.end);
            let outcome = match a.outcome {
                Ok(run) => Ok(run),
                Err(why) => Err(E::from(why)),
            };
            Stepped {
                state: a.state,
                outcome,
            }
        }
        Some(Err(why)) => refused(r, why),
        None => refused(r, E::from(Refusal::LineForm)),
    }
}

// Writes what happened to a line.
fn write_outcome(out: Stdout, o: Result<RunNo, Refusal>) {
    match o {
        Ok(k) => {
            test_text::write(out, b"taken run ");
            test_text::write_number(out, k.0 as u64);
        }
        Err(why) => test_text::write_refusal(out, u8::from(why)),
    }
    test_text::write(out, b"\n");
}

// The record after the lines of a log. Kind `g` writes each, and stops at the first that is refused; `q` writes none; any other writes each.
pub fn read_from(out: Stdout, r: Record, log: &[u8], kind: u8) -> Record {
    let mut q = r;
    let mut place: usize = 0;
    for _ in 0..256 {
        let n = lines::next_line(log, place);
        if n.is_none() {
            return q;
        }
        let a = take_next(q, log, n);
        q = a.state;
        let o = a.outcome;
        if kind != b'q' {
            write_outcome(out, o);
        }
        if o.is_err() {
            if kind == b'g' {
                return q;
            }
        }
        place = lines::place_after(n, place);
    }
    q
}

// The last decimal digit of a number.
pub fn digit(n: u16) -> u8 {
    (48 + n % 10) as u8
}

// The line of a letter and the id `1..`, which ends in the last three digits of n.
pub fn numbered_line(letter: u8, n: u16) -> [u8; 7] {
    [
        letter,
        b' ',
        b'1',
        digit(n / 100),
        digit(n / 10),
        digit(n),
        b'\n',
    ]
}
