// Prints the report of rule files and logs, with its length and how many bytes after it are as before.
//
// A work area holds 7s before the call, a verdict buffer 9s, a text buffer dots. Where the call is refused, how many of each are left.
//
// A case is a kind and a text (`test_cases`): `r` gives the rule file, `y` the layout, 0 square (as at first) or 1 half, `m` the
// mode, 0 up to the first failure (as at first) or 1 full, `b` how many bytes of the work area, the verdict buffer and the text buffer are lent, of 16400, 260 and 2100; `+` gives lines of a log, `p` its last
// lines and has the report printed; `=` writes its text.
#![tactic(auto)]

use pairs::Layout;
use report::Reported;
use std::io::Stdout;
use whole_log::Mode;

// The layout, the mode, and how many bytes of the rule file, the log, the work area, the verdict buffer and the text buffer are in use.
#[derive(Clone, Copy)]
struct Sizes {
    layout: usize,
    mode: usize,
    rule: usize,
    log: usize,
    work: usize,
    verdicts: usize,
    text: usize,
}

// Writes the report, its length, and how many dots follow it.
fn front(out: Stdout, text: &[u8], n: usize) {
    if n <= text.len() {
        test_text::write(out, &text[0..n]);
        let numbers = [n as u64, test_text::count(&text[n..], b'.')];
        test_text::write_filled(out, b"length %a, then %b dots\n", &numbers);
    }
}

// Writes a refusal, and how many bytes are left as they were.
fn refused(out: Stdout, n: u8, work: &[u8], verdicts: &[u8], text: &[u8]) {
    let numbers = [
        test_text::wide(n),
        test_text::count(work, 7),
        test_text::count(verdicts, 9),
        test_text::count(text, b'.'),
    ];
    test_text::write_filled(out, b"refused %a, left %b %c %d\n", &numbers);
}

// Writes the answer.
fn show(out: Stdout, a: Reported, work: &[u8], verdicts: &[u8], text: &[u8]) {
    match a {
        Reported::Length(n) => front(out, text, n),
        Reported::Refused(n) => refused(out, n, work, verdicts, text),
    }
}

// The report with the first w, v and t bytes of three buffers.
fn report_in(
    l: Layout,
    m: Mode,
    file: &[u8],
    log: &[u8],
    work: &mut [u8],
    w: usize,
    verdicts: &mut [u8],
    v: usize,
    text: &mut [u8],
    t: usize,
) -> Reported {
    if w <= work.len() {
        if v <= verdicts.len() {
            if t <= text.len() {
                return report::report(
                    l,
                    m,
                    file,
                    log,
                    &mut work[0..w],
                    &mut verdicts[0..v],
                    &mut text[0..t],
                );
            }
        }
    }
    Reported::Refused(0)
}

// The layout of a number.
fn layout(n: usize) -> Layout {
    if n == 0 { Layout::Square } else { Layout::Half }
}

// The mode of a number.
fn mode(n: usize) -> Mode {
    if n == 1 {
        Mode::Full
    } else {
        Mode::FirstFailure
    }
}

// A rule file and a log.
fn print(out: Stdout, s: Sizes, file: &[u8], log: &[u8]) {
    let mut work = [7u8; 16400];
    let mut verdicts = [9u8; 260];
    let mut text = [b'.'; 2100];
    let l = layout(s.layout);
    let m = mode(s.mode);
    let a = report_in(
        l,
        m,
        file,
        log,
        &mut work,
        s.work,
        &mut verdicts,
        s.verdicts,
        &mut text,
        s.text,
    );
    show(out, a, &work, &verdicts, &text);
}

// The first bytes of a rule file and of a log.
fn print_first(out: Stdout, s: Sizes, file: &[u8], log: &[u8]) {
    let n = s.rule;
    let m = s.log;
    if n <= file.len() {
        if m <= log.len() {
            print(out, s, &file[0..n], &log[0..m]);
        }
    }
}

// How many bytes a log has after more of them.
fn longer(log: &mut [u8], n: usize, text: &[u8]) -> usize {
    if n <= log.len() {
        return test_cases::append(text, log, n);
    }
    n
}

// The sizes after a case.
fn after(out: Stdout, s: Sizes, file: &mut [u8], log: &mut [u8], kind: u8, text: &[u8]) -> Sizes {
    let mut q = s;
    if kind == b'=' {
        test_text::write_line(out, text);
        return q;
    }
    if kind == b'r' {
        q.rule = test_cases::bytes(text, file);
        return q;
    }
    if kind == b'y' {
        q.layout = test_cases::size(text, 0);
        return q;
    }
    if kind == b'm' {
        q.mode = test_cases::size(text, 0);
        return q;
    }
    if kind == b'b' {
        q.work = test_cases::size(text, 0);
        q.verdicts = test_cases::size(text, 1);
        q.text = test_cases::size(text, 2);
        return q;
    }
    if kind == b'+' {
        q.log = longer(log, s.log, text);
        return q;
    }
    if kind == b'p' {
        q.log = longer(log, s.log, text);
        print_first(out, q, file, log);
        q.log = 0;
        return q;
    }
    q
}

fn run(out: Stdout, input: &[u8], file: &mut [u8], log: &mut [u8]) {
    let mut s = Sizes {
        layout: 0,
        mode: 0,
        rule: 0,
        log: 0,
        work: 16400,
        verdicts: 260,
        text: 2100,
    };
    test_cases::each_case(input, |kind, text| {
        s = after(out, s, file, log, kind, text);
    });
}

fn main(rt: HostRuntime) {
    let out = rt.stdout();
    let mut input = test_cases::room();
    let mut file = [0u8; 640];
    let mut log = [0u8; 2048];
    let n = test_cases::read_input(rt.stdin(), &mut input);
    run(out, &input[..n], &mut file, &mut log);
}
