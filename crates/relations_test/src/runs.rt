// Runs of records, related.
use super::sets;
use std::io::Stdout;
use trace::{Record, RunNo};

// The record of a log.
fn read(out: Stdout, text: &[u8]) -> Record {
    let mut log = [0u8; 2048];
    let n = test_cases::bytes(text, &mut log);
    test_steps::read_from(out, trace::no_lines(), &log[..n], b'q')
}

// Writes how two runs relate.
fn relate(out: Stdout, r: Record, text: &[u8]) {
    let a = RunNo(test_cases::byte(text, 0));
    let b = RunNo(test_cases::byte(text, 1));
    sets::show(out, text, relations::relate(r, a, b));
}

// The record after a case.
pub fn case(out: Stdout, r: Record, kind: u8, text: &[u8]) -> Record {
    if kind == b'l' {
        return read(out, text);
    }
    if kind == b'R' || kind == b'C' {
        return test_records::changed(r, kind, text);
    }
    if kind == b'r' {
        relate(out, r, text);
    }
    r
}
