// Writes what logs leave, line by line, and what `is_record` says of records that are changed in one place.
//
// A case is a kind and a text (`test_cases`):
//   z          the record of no lines
//   g LOG      a log on the record; a line answers `taken run K` or `R` and the refusal, which ends the log
//   G LOG      the same, and no refusal ends it; q the same, with nothing written
//   h          the counts of lines, runs and labels, and whether accepted lines leave the record
//   a          each run, as `id begin end label`; x K is run K
//   R B N W P M C  a change of the record in one place (`test_records`)
//   r b n w p m c  the same; then as `?`
//   ? TEXT     the text, and 1 if accepted lines leave the record as it is changed, 0 if not; its changes are then undone
// `=` writes its text.
#![tactic(auto)]

use std::io::Stdout;
use trace::Record;

// The record, and the record as it is changed.
#[derive(Clone, Copy)]
struct State {
    left: Record,
    changed: Record,
}

// Writes run k.
fn show_run(out: Stdout, r: Record, k: usize) {
    if k < 128 {
        let runs = r.runs;
        let x = runs.list[k];
        test_text::write_next(out, x.id as u64);
        test_text::write_next(out, x.begin.0 as u64);
        test_text::write_next(out, x.end.0 as u64);
        test_text::write_number(out, x.label.0 as u64);
        test_text::write(out, b"\n");
    }
}

// Writes the counts, and whether accepted lines leave the record.
fn show_counts(out: Stdout, r: Record) {
    test_text::write_number(out, r.lines.0 as u64);
    test_text::write(out, b" lines, ");
    test_text::write_number(out, r.runs.count as u64);
    test_text::write(out, b" runs, ");
    test_text::write_number(out, r.labels.count as u64);
    test_text::write(out, b" labels, record");
    test_text::write_answer(out, replay::is_record(r));
}

// Writes each run.
fn show_runs(out: Stdout, r: Record) {
    for k in 0..r.runs.count {
        show_run(out, r, k);
    }
}

// Writes what a case shows of the record.
fn show(out: Stdout, r: Record, kind: u8, text: &[u8]) {
    if kind == b'h' {
        show_counts(out, r);
    }
    if kind == b'a' {
        show_runs(out, r);
    }
    if kind == b'x' {
        show_run(out, r, test_cases::size(text, 0));
    }
}

// The record after the lines of a log.
fn read(out: Stdout, r: Record, kind: u8, text: &[u8]) -> Record {
    let mut room = [0u8; 2048];
    let n = test_cases::bytes(text, &mut room);
    test_steps::read_from(out, r, &room[..n], kind)
}

// The state of a record that is not changed.
fn unchanged(r: Record) -> State {
    State {
        left: r,
        changed: r,
    }
}

// A change, which is asked about where its kind is in lower case.
fn change(out: Stdout, s: State, kind: u8, text: &[u8]) -> State {
    let r = s.left;
    let q = s.changed;
    if kind < b'a' {
        let x = test_records::changed(q, kind, text);
        return State {
            left: r,
            changed: x,
        };
    }
    test_text::write(out, text);
    test_text::write_answer(
        out,
        replay::is_record(test_records::changed(q, kind - 32, text)),
    );
    unchanged(r)
}

// The state after a case.
fn after(out: Stdout, s: State, kind: u8, text: &[u8]) -> State {
    let r = s.left;
    if kind == b'=' {
        test_text::write(out, text);
        test_text::write(out, b"\n");
        return s;
    }
    if kind == b'z' {
        return unchanged(trace::no_lines());
    }
    if kind == b'g' || kind == b'G' || kind == b'q' {
        return unchanged(read(out, r, kind, text));
    }
    if kind == b'h' || kind == b'a' || kind == b'x' {
        show(out, r, kind, text);
        return s;
    }
    if kind == b'?' {
        return change(out, s, 127, text);
    }
    if kind < b'A' {
        return s;
    }
    change(out, s, kind, text)
}

fn run(out: Stdout, input: &[u8]) {
    let mut s = unchanged(trace::no_lines());
    test_cases::each_case(input, |kind, text| {
        s = after(out, s, kind, text);
    });
}

fn main(rt: HostRuntime) {
    let out = rt.stdout();
    let mut input = test_cases::room();
    let n = test_cases::read_input(rt.stdin(), &mut input);
    run(out, &input[..n]);
}
