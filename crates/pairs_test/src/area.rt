// A work area: what stands in it, and its pair bytes brought up to date and compared.
use pairs::Layout;
use std::io::Stdout;
use trace::{Record, RunNo};

// The length of the area after a case; a new one holds 7s.
pub fn sized(n: usize, kind: u8, text: &[u8], work: &mut [u8]) -> usize {
    if kind == b'a' {
        test_text::fill(work, 7);
        return test_cases::size(text, 0);
    }
    if kind == b'x' {
        let at = test_cases::size(text, 0);
        if at < work.len() {
            work[at] = test_cases::byte(text, 1);
        }
    }
    n
}

// The layout after a case.
pub fn layout(l: Layout, kind: u8, text: &[u8]) -> Layout {
    if kind == b'y' {
        if test_cases::size(text, 0) == 0 {
            return Layout::Square;
        }
        return Layout::Half;
    }
    l
}

// The byte at a place, 256 past the end.
fn byte(work: &[u8], at: usize) -> u64 {
    if at < work.len() {
        return test_text::wide(work[at]);
    }
    256
}

// Writes a text with the numbers of the area and a count of lines.
pub fn show(out: Stdout, text: &[u8], lines: u64, work: &[u8]) {
    let last = std::num::wrapping_sub_usize(work.len(), 1);
    let numbers = [
        byte(work, 1),
        byte(work, 2),
        byte(work, 130),
        byte(work, 128),
        byte(work, 0),
        byte(work, last),
        test_text::count(work, 0),
        test_text::count(work, 1),
        test_text::count(work, 6),
        test_text::count(work, 7),
        lines,
    ];
    test_text::write_filled(out, text, &numbers);
}

// Brings the bytes of run k up to date.
pub fn refresh(l: Layout, r: Record, k: RunNo, work: &mut [u8]) {
    let n = r.runs.count;
    let end = pairs::work_bytes(l);
    if (k.0 as usize) < n {
        if n <= 128 {
            if end <= work.len() {
                pairs::refresh_run(l, r, k, work);
            }
        }
    }
}

// Ends a line with whether the area has the pair bytes of the record.
pub fn show_match(out: Stdout, l: Layout, r: Record, work: &[u8]) {
    let n = r.runs.count;
    let end = pairs::work_bytes(l);
    if n <= 128 {
        if end <= work.len() {
            test_text::write_answer(out, pairs::pairs_match(l, r, work));
        }
    }
}
