// Writes what `parse_line`, `next_line` and a reader answer for the paper's cases and those at their edges.
//
// A case is a kind and a text (`test_cases`). A log and a place in it stand from case to case.
//   p LINE  what a line says
//   l LOG   the log
//   @ N     the place
//   n       what stands at the place; the place is then the one after it
//   r       what a reader at the place answers, and its place after that, which is the place then
// `=` writes its text.
#![tactic(auto)]

use lines::{LineSays, Span};
use refusals::Refusal;
use std::io::Stdout;

// Writes what one line says.
fn show_line(out: Stdout, line: &[u8]) {
    match lines::parse_line(line) {
        Ok(LineSays::Begin { id, label, length }) => {
            let numbers = [id as u64, label as u64, length as u64];
            test_text::write_filled(out, b"B %a label at %b length %c", &numbers);
        }
        Ok(LineSays::End(id)) => {
            test_text::write(out, b"E ");
            test_text::write_number(out, id as u64);
        }
        Err(why) => test_text::write_refusal(out, u8::from(why)),
    }
    test_text::write(out, b"\n");
}

// Writes what stands at a place.
fn show_answer(out: Stdout, n: Option<Result<Span, Refusal>>) {
    match n {
        Some(Ok(line)) => {
            let numbers = [line.start as u64, line.end as u64];
            test_text::write_filled(out, b"line %a to %b", &numbers);
        }
        Some(Err(why)) => test_text::write_refusal(out, u8::from(why)),
        None => test_text::write(out, b"done"),
    }
}

// Writes what stands at a place of a log, and answers the place after it.
fn show_next(out: Stdout, log: &[u8], place: usize) -> usize {
    let n = lines::next_line(log, place);
    show_answer(out, n);
    test_text::write(out, b"\n");
    lines::place_after(n, place)
}

// Writes what a reader at a place answers, and its place after that.
fn show_reader(out: Stdout, log: &[u8], place: usize) -> usize {
    let a = lines::line_from(log, place);
    let n = a.next;
    show_answer(out, n);
    let numbers = [a.place as u64];
    test_text::write_filled(out, b", place %a\n", &numbers);
    a.place
}

// The place after a case.
fn moved(out: Stdout, place: usize, kind: u8, text: &[u8], log: &[u8]) -> usize {
    if kind == b'@' {
        return test_cases::size(text, 0);
    }
    if kind == b'n' {
        return show_next(out, log, place);
    }
    if kind == b'r' {
        return show_reader(out, log, place);
    }
    place
}

// The length of the log after a case, and m before it.
fn length(m: usize, kind: u8, text: &[u8], log: &mut [u8]) -> usize {
    if kind == b'l' {
        return test_cases::bytes(text, log);
    }
    m
}

// The cases of a text alone.
fn show(out: Stdout, kind: u8, text: &[u8]) {
    if kind == b'=' {
        test_text::write_line(out, text);
    }
    if kind == b'p' {
        let mut line = [0u8; 64];
        let n = test_cases::bytes(text, &mut line);
        show_line(out, &line[..n]);
    }
}

fn run(out: Stdout, input: &[u8], log: &mut [u8]) {
    let mut m: usize = 0;
    let mut place: usize = 0;
    test_cases::each_case(input, |kind, text| {
        show(out, kind, text);
        m = length(m, kind, text, log);
        if m <= log.len() {
            place = moved(out, place, kind, text, &log[0..m]);
        }
    });
}

fn main(rt: HostRuntime) {
    let out = rt.stdout();
    let mut input = test_cases::room();
    let mut log = [0u8; 64];
    let n = test_cases::read_input(rt.stdin(), &mut input);
    run(out, &input[..n], &mut log);
}
