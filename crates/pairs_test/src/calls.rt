// Lines that are taken, and what they leave.
use super::area;
use pairs::Layout;
use refusals::Refusal;
use std::io::Stdout;
use trace::{Record, RunNo};

// Writes how a record starts.
fn show_start(out: Stdout, o: Result<(), Refusal>) {
    match o {
        Ok(()) => test_text::write(out, b"ready"),
        Err(e) => test_text::write_refusal(out, u8::from(e)),
    }
}

// The record that is started in a work area.
fn started(out: Stdout, l: Layout, kind: u8, work: &mut [u8]) -> Record {
    let a = pairs::start_record(l, work);
    let o = a.outcome;
    if kind == b's' {
        show_start(out, o);
    }
    a.state
}

// Brings the area up to date after a line that is taken, or writes the refusal.
fn update(out: Stdout, l: Layout, r: Record, o: Result<RunNo, Refusal>, work: &mut [u8]) {
    match o {
        Ok(k) => area::refresh(l, r, k, work),
        Err(why) => {
            test_text::write_refusal(out, u8::from(why));
            test_text::write(out, b"\n");
        }
    }
}

// The record after a line.
fn taken(out: Stdout, l: Layout, r: Record, text: &[u8], work: &mut [u8]) -> Record {
    let mut line = [0u8; 48];
    let n = test_cases::bytes(text, &mut line);
    let a = test_steps::take_line(r, &line[..n]);
    let q = a.state;
    let o = a.outcome;
    update(out, l, q, o, work);
    q
}

// The cases that only write.
fn show(out: Stdout, l: Layout, r: Record, kind: u8, text: &[u8], work: &[u8]) {
    area::show(out, text, r.lines.0 as u64, work);
    if kind == b'm' {
        area::show_match(out, l, r, work);
        return;
    }
    if kind == b'v' {
        test_text::write_answer(out, replay::is_record(r));
        return;
    }
    test_text::write(out, b"\n");
}

// The record after a case.
pub fn case(out: Stdout, l: Layout, r: Record, kind: u8, text: &[u8], work: &mut [u8]) -> Record {
    if (kind | 32) == b's' {
        return started(out, l, kind, work);
    }
    if kind == b'i' {
        return taken(out, l, r, text, work);
    }
    if kind == b'o' {
        return trace::no_lines();
    }
    if kind == b'=' || kind == b'm' || kind == b'v' {
        show(out, l, r, kind, text, work);
    }
    r
}
