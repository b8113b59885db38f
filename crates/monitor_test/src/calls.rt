// The calls, on what they are handed.
use super::{answers, handed};
use lines::Span;
use monitor::{Mode, Tallied};
use pairs::Layout;
use refusals::Refusal;
use std::io::Stdout;

// The call on a line without a tally, which stays.
fn plain(l: Layout, s: Tallied, file: &[u8], work: &mut [u8], line: &[u8]) -> Tallied {
    let c = monitor::check_line(l, file, s.state, work, line);
    let q = c.state;
    let o = c.outcome;
    let y = s.tally;
    Tallied {
        state: q,
        tally: y,
        outcome: o,
    }
}

// The call on a line that a kind stands for.
fn call(l: Layout, s: Tallied, kind: u8, file: &[u8], work: &mut [u8], line: &[u8]) -> Tallied {
    if kind == b'T' {
        return monitor::check_line_tallied(l, file, s.state, s.tally, work, line);
    }
    if kind == b'L' {
        return monitor::lend_tally(l, file, s.state, s.tally, work, line);
    }
    plain(l, s, file, work, line)
}

// One line: the answer is written, and what is handed back is handed on.
fn one_line(
    out: Stdout,
    l: Layout,
    s: Tallied,
    kind: u8,
    file: &[u8],
    work: &mut [u8],
    line: &[u8],
) -> Tallied {
    let a = call(l, s, kind, file, work, line);
    if kind != b'q' {
        answers::line(out, kind, a, work);
        test_text::write(out, b"\n");
    }
    a
}

// The same, and whether the record and the work area are as they were.
fn compared(
    out: Stdout,
    l: Layout,
    s: Tallied,
    file: &[u8],
    work: &mut [u8],
    line: &[u8],
) -> Tallied {
    let mut before = [0u8; 16400];
    answers::copy(work, &mut before);
    let a = plain(l, s, file, work, line);
    answers::line(out, b'D', a, work);
    answers::kept(out, s.state, a.state, &before, work);
    a
}

// The line that stands in a log from start to before end.
fn part(
    out: Stdout,
    l: Layout,
    s: Tallied,
    kind: u8,
    file: &[u8],
    work: &mut [u8],
    log: &[u8],
    start: usize,
    end: usize,
) -> Tallied {
    if start <= end {
        if end <= log.len() {
            return one_line(out, l, s, kind, file, work, &log[start..end]);
        }
    }
    s
}

// What a reader hands out.
fn next(
    out: Stdout,
    l: Layout,
    s: Tallied,
    kind: u8,
    file: &[u8],
    work: &mut [u8],
    log: &[u8],
    n: Option<Result<Span, Refusal>>,
) -> Tallied {
    match n {
        Some(Ok(line)) => part(out, l, s, kind, file, work, log, line.start, line.end),
        Some(Err(_)) | None => s,
    }
}

// The lines of a log, at most 256, as a reader hands them out.
fn each_line(
    out: Stdout,
    l: Layout,
    s: Tallied,
    kind: u8,
    file: &[u8],
    work: &mut [u8],
    log: &[u8],
) -> Tallied {
    let mut q = s;
    let mut place: usize = 0;
    for _ in 0..256 {
        let a = lines::line_from(log, place);
        let n = a.next;
        q = next(out, l, q, kind, file, work, log, n);
        place = a.place;
    }
    q
}

// A whole log: the answer is written.
fn whole_in(
    out: Stdout,
    l: Layout,
    m: Mode,
    file: &[u8],
    log: &[u8],
    work: &mut [u8],
    bytes: &mut [u8],
) {
    let a = monitor::check_log(l, m, file, log, work, bytes);
    answers::log(out, a, work, bytes);
}

// The same in a work area of w bytes and a verdict buffer of v bytes.
fn whole(out: Stdout, l: Layout, m: Mode, file: &[u8], log: &[u8], w: usize, v: usize) {
    let mut area = [7u8; 16400];
    let mut bytes = [9u8; 260];
    if w <= 16400 {
        if v <= 260 {
            whole_in(out, l, m, file, log, &mut area[0..w], &mut bytes[0..v]);
        }
    }
}

// A whole log, in the full mode: the record and the work area are handed on.
fn kept(l: Layout, s: Tallied, file: &[u8], log: &[u8], work: &mut [u8]) -> Tallied {
    let mut bytes = [9u8; 260];
    test_text::fill(work, 7);
    let a = monitor::check_log(l, Mode::Full, file, log, work, &mut bytes);
    let mut q = s;
    let r = a.state;
    q.state = r;
    q
}

// The call of a kind: 1 on one line, 2 on a line with what it leaves compared, 3 on each line, 4 and 5 on a whole log; 0 for none.
fn call_of(kind: u8) -> u8 {
    match kind {
        b'i' => 1,
        b'D' => 2,
        b'l' | b'q' | b'T' | b'L' => 3,
        b'w' => 4,
        b'k' => 5,
        _ => 0,
    }
}

fn called(
    out: Stdout,
    l: Layout,
    m: Mode,
    s: Tallied,
    kind: u8,
    log: &[u8],
    file: &[u8],
    work: &mut [u8],
    v: usize,
) -> Tallied {
    let k = call_of(kind);
    if k == 1 {
        return one_line(out, l, s, kind, file, work, log);
    }
    if k == 2 {
        return compared(out, l, s, file, work, log);
    }
    if k == 3 {
        return each_line(out, l, s, kind, file, work, log);
    }
    if k == 5 {
        return kept(l, s, file, log, work);
    }
    whole(out, l, m, file, log, work.len(), v);
    s
}

// What a case leaves.
pub fn case(
    out: Stdout,
    l: Layout,
    m: Mode,
    s: Tallied,
    kind: u8,
    text: &[u8],
    file: &[u8],
    work: &mut [u8],
    v: usize,
) -> Tallied {
    if kind == b'=' {
        test_text::write_line(out, text);
        return s;
    }
    if call_of(kind) == 0 {
        return handed::set(l, s, kind, text, work);
    }
    let mut log = [0u8; 2048];
    let n = test_cases::bytes(text, &mut log);
    called(out, l, m, s, kind, &log[..n], file, work, v)
}
