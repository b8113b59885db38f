// The calls, on the record that the buffer holds.
use super::show;
use monitor::Checked;
use pairs::Layout;
use std::io::Stdout;
use trace::Record;

// Takes a line on the record that unpacks from bytes, with the rule "no EVENING includes a TEST".
fn taken(bytes: &[u8], work: &mut [u8], line: &[u8]) -> Checked {
    let u = record_bytes::unpack(bytes);
    monitor::check_line(
        Layout::Square,
        b"RUL\x01\x00\x02\x07EVENING\x04TEST\x08\x04\x00\x00\x04\x01\x01\x01\x00\x01\x07\x00\x01\x01\x02\x03\x03\x01\x04\x03\x00\x05\x02\x06\x00",
        u.state,
        work,
        line,
    )
}

// Packs a record, and writes the outcome where the kind is a capital letter.
fn pack(out: Stdout, kind: u8, r: Record, bytes: &mut [u8]) {
    let o = record_bytes::pack(r, bytes);
    if kind <= b'Z' {
        show::outcome(out, o);
    }
}

// Takes a line with the byte b at a place.
fn changed(out: Stdout, bytes: &mut [u8], work: &mut [u8], at: usize, b: u8) {
    if at < bytes.len() {
        let old = bytes[at];
        bytes[at] = b;
        test_text::write_next(out, at as u64);
        show::answer(out, taken(bytes, work, b"E 1000\n"));
        bytes[at] = old;
    }
}

// The cases of a line.
fn read_line(out: Stdout, kind: u8, text: &[u8], bytes: &mut [u8], work: &mut [u8]) {
    let mut line = [0u8; 48];
    let n = test_cases::bytes(text, &mut line);
    let c = taken(bytes, work, &line[..n]);
    if kind == b'n' {
        show::answer(out, c);
    } else {
        pack(out, kind, c.state, bytes);
    }
}

// The cases that call. Of a kind and its capital letter, k is the small one.
pub fn case(out: Stdout, kind: u8, text: &[u8], bytes: &mut [u8], work: &mut [u8]) {
    let k = kind | 32;
    if k == b'c' {
        changed(
            out,
            bytes,
            work,
            test_cases::size(text, 0),
            test_cases::byte(text, 1),
        );
        return;
    }
    if k == b'z' {
        let s = pairs::start_record(Layout::Square, work);
        pack(out, kind, s.state, bytes);
        return;
    }
    if k < b'l' {
        return;
    }
    if k <= b'n' {
        read_line(out, kind, text, bytes, work);
    }
}
