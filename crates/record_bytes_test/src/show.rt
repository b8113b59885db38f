// Bytes, and what the calls answer.
use monitor::Checked;
use refusals::Refusal;
use std::io::Stdout;

// Writes the bytes from a place to before another.
fn bytes(out: Stdout, s: &[u8], from: usize, to: usize) {
    test_text::write_number(out, from as u64);
    test_text::write(out, b":");
    if from <= to {
        if to <= s.len() {
            test_text::write_bytes(out, &s[from..to]);
        }
    }
}

// Writes whether bytes were read or written.
pub fn outcome(out: Stdout, o: Result<(), Refusal>) {
    match o {
        Ok(()) => test_text::write(out, b"done\n"),
        Err(e) => {
            test_text::write_refusal(out, u8::from(e));
            test_text::write(out, b"\n");
        }
    }
}

// Writes what unpacks from bytes.
fn unpacked(out: Stdout, s: &[u8]) {
    let u = record_bytes::unpack(s);
    let o = u.outcome;
    outcome(out, o);
    test_records::write_counts(out, u.state);
}

fn verdict(out: Stdout, o: monitor::Outcome) {
    match o {
        monitor::Outcome::Holds => test_text::write(out, b"H"),
        monitor::Outcome::Fails => test_text::write(out, b"F"),
        monitor::Outcome::Refused(n) => test_text::write_refusal(out, n),
    }
    test_text::write(out, b", ");
}

// Writes the answer to a line.
pub fn answer(out: Stdout, c: Checked) {
    let o = c.outcome;
    verdict(out, o);
    test_records::write_counts(out, c.state);
    test_text::write(out, b"\n");
}

// The cases that write what there is.
pub fn case(out: Stdout, kind: u8, text: &[u8], s: &[u8]) {
    if kind == b'=' {
        test_text::write(out, text);
    } else if kind == b':' {
        bytes(out, s, test_cases::size(text, 0), test_cases::size(text, 1));
    } else if kind == b's' {
        test_text::write(out, b"sum ");
        test_text::write_number(out, test_text::sum(s));
    } else if kind == b'u' {
        unpacked(out, s);
    } else {
        return;
    }
    test_text::write(out, b"\n");
}
