// What the calls answer.
//
// An answer to a line is H, F or R and the refusal; then the counts of lines, runs and labels of the record that is handed back; then the
// sum of the work area's bytes; with a tally, T and its five counts. With a lent tally it is H, F or R, and T. An answer to a whole log is
// `read` or the line and the refusal; then the same; then the first eight verdict bytes, and the sum of all.
use monitor::{Ending, LogRead, Outcome, Tallied, Tally};
use std::io::Stdout;
use trace::Record;

fn outcome(out: Stdout, o: Outcome) {
    match o {
        Outcome::Holds => test_text::write(out, b"H"),
        Outcome::Fails => test_text::write(out, b"F"),
        Outcome::Refused(n) => test_text::write_refusal(out, n),
    }
}

// The counts of lines, runs and labels, and the sum of the work area.
fn state(out: Stdout, r: Record, work: &[u8]) {
    let numbers = [
        r.lines.0 as u64,
        r.runs.count as u64,
        r.labels.count as u64,
        test_text::sum(work),
    ];
    test_text::write_filled(out, b", %a %b %c, %d", &numbers);
}

fn tally(out: Stdout, y: Tally) {
    let numbers = [
        y.lines as u64,
        y.begun as u64,
        y.finished as u64,
        y.running as u64,
        y.failing as u64,
    ];
    test_text::write_filled(out, b" T %a %b %c %d %e", &numbers);
}

// The answer to a line, and the work area after it.
pub fn line(out: Stdout, kind: u8, a: Tallied, work: &[u8]) {
    let o = a.outcome;
    outcome(out, o);
    if kind != b'L' {
        state(out, a.state, work);
    }
    if kind == b'T' {
        test_text::write(out, b",");
    }
    if kind == b'T' || kind == b'L' {
        tally(out, a.tally);
    }
}

// Puts bytes at the front of a buffer that has room for them.
pub fn copy(bytes: &[u8], to: &mut [u8]) {
    let n = bytes.len().min(to.len());
    to[..n].copy_from_slice(&bytes[..n]);
}

// Whether bytes stand at the front of a buffer.
fn same_bytes(bytes: &[u8], buffer: &[u8]) -> bool {
    buffer.starts_with(bytes)
}

fn same(out: Stdout, yes: bool) {
    if yes {
        test_text::write(out, b" same");
    } else {
        test_text::write(out, b" changed");
    }
}

// Whether a record and a work area are as they were.
pub fn kept(out: Stdout, r: Record, q: Record, before: &[u8], work: &[u8]) {
    test_text::write(out, b", record");
    same(out, test_records::same_record(r, q));
    test_text::write(out, b", work area");
    same(out, same_bytes(work, before));
    test_text::write(out, b"\n");
}

fn ending(out: Stdout, e: Ending) {
    match e {
        Ending::Read => test_text::write(out, b"read"),
        Ending::Refused { number, line } => {
            let numbers = [line as u64, number as u64];
            test_text::write_filled(out, b"line %a R%b", &numbers);
        }
    }
}

// The first eight bytes.
fn eight(out: Stdout, bytes: &[u8]) {
    if 8 <= bytes.len() {
        test_text::write_bytes(out, &bytes[0..8]);
    } else {
        test_text::write_bytes(out, bytes);
    }
}

// The answer to a whole log, with the work area and the verdict buffer after it.
pub fn log(out: Stdout, a: LogRead, work: &[u8], bytes: &[u8]) {
    let e = a.ending;
    ending(out, e);
    state(out, a.state, work);
    test_text::write(out, b",");
    eight(out, bytes);
    let total = [test_text::sum(bytes)];
    test_text::write_filled(out, b", %a\n", &total);
}
