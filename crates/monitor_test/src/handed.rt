// What the calls are handed, as the cases before say: a rule, a work area and a verdict buffer of some sizes, a record and a tally.
use monitor::{Mode, Outcome, Tallied, Tally};
use pairs::Layout;
use trace::Record;

// The layout, the mode, and how many bytes of the rule file, the work area and the verdict buffer are in use.
#[derive(Clone, Copy)]
pub struct Sizes {
    pub layout: usize,
    pub mode: usize,
    pub rule: usize,
    pub work: usize,
    pub verdicts: usize,
}

// What stands from case to case, beside the bytes. The outcome has no part.
#[derive(Clone, Copy)]
pub struct State {
    pub held: Tallied,
    pub sizes: Sizes,
}

// The layout of a number.
pub fn layout(n: usize) -> Layout {
    if n == 0 { Layout::Square } else { Layout::Half }
}

// The mode of a number.
pub fn mode(n: usize) -> Mode {
    if n == 1 {
        Mode::Full
    } else {
        Mode::FirstFailure
    }
}

// The sizes after a case that gives the layout, the mode, the rule, the verdict buffer or the work area, or changes a byte of it.
pub fn sized(z: Sizes, kind: u8, text: &[u8], file: &mut [u8], area: &mut [u8]) -> Sizes {
    let mut q = z;
    if kind == b'r' {
        q.rule = test_cases::bytes(text, file);
        return q;
    }
    let n = test_cases::size(text, 0);
    let b = test_cases::byte(text, 1);
    if kind == b'a' {
        test_text::fill(area, b);
        q.work = n;
        return q;
    }
    if kind == b'A' {
        if n < area.len() {
            area[n] = b;
        }
        return q;
    }
    if kind == b'v' {
        q.verdicts = n;
        return q;
    }
    if kind == b'y' {
        q.layout = n;
        return q;
    }
    if kind == b'm' {
        q.mode = n;
    }
    q
}

fn tally(text: &[u8]) -> Tally {
    Tally {
        lines: test_cases::count(text, 0),
        begun: test_cases::count(text, 1),
        finished: test_cases::count(text, 2),
        running: test_cases::count(text, 3),
        failing: test_cases::count(text, 4),
    }
}

// No rule, no lines, a tally of zeros, and a work area and a verdict buffer that are longer than is asked for.
pub fn nothing() -> State {
    let none = trace::no_lines();
    let zeros = tally(b"");
    let held = Tallied {
        state: none,
        tally: zeros,
        outcome: Outcome::Holds,
    };
    let sizes = Sizes {
        layout: 0,
        mode: 0,
        rule: 0,
        work: 16400,
        verdicts: 260,
    };
    State { held, sizes }
}

// The record that a case gives.
fn record(l: Layout, r: Record, kind: u8, text: &[u8], work: &mut [u8]) -> Record {
    if kind == b's' {
        let a = pairs::start_record(l, work);
        return a.state;
    }
    if kind == b'z' {
        return trace::no_lines();
    }
    test_records::changed(r, kind, text)
}

// The record and the tally that a case gives.
pub fn set(l: Layout, s: Tallied, kind: u8, text: &[u8], work: &mut [u8]) -> Tallied {
    let mut q = s;
    if kind == b't' {
        let y = tally(text);
        q.tally = y;
        return q;
    }
    let r = record(l, s.state, kind, text, work);
    q.state = r;
    q
}
