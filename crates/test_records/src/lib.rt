// Records that are changed in one place, as a case says, and whether two records are the same, for the test programs.
//
// A case is a kind and a text (`test_cases`): `R run 1 9 2 3 2` for the id, begin line, end line and label number of run 1, `B label 0 byte 6 103`,
// `N label 0 length 25`, `W label 0 TEST` for a label's bytes and length, `P place 15 2` and `M label number 2 at place 15` for what a place
// holds, `C counts 2 2 3` for those of runs, labels and lines. A place past an array's end is no change. Nothing is checked: most of these
// records are none that accepted lines leave.
#![tactic(auto)]

use labels::{Label, LabelNo, LabelTable};
use std::io::Stdout;
use trace::{LineNo, Record, Run, RunTable};

// The run that a text gives.
fn run_of(text: &[u8]) -> Run {
    Run {
        id: test_cases::short(text, 2),
        begin: LineNo(test_cases::short(text, 3)),
        end: LineNo(test_cases::short(text, 4)),
        label: LabelNo(test_cases::byte(text, 5)),
    }
}

// The table whose run k is x.
fn with_run(t: RunTable, k: usize, x: Run) -> RunTable {
    let mut q = t;
    if k < 128 {
        q.list[k] = x;
    }
    q
}

// The table whose label k is x.
fn with_label(t: LabelTable, k: usize, x: Label) -> LabelTable {
    let mut q = t;
    if k < 64 {
        q.labels[k] = x;
    }
    q
}

// The table whose place p holds n.
fn with_place(t: LabelTable, p: usize, n: u8) -> LabelTable {
    let mut q = t;
    if p < 128 {
        q.places[p] = LabelNo(n);
    }
    q
}

// A label whose bytes, length, or one of both a text gives.
fn label_of(x: Label, kind: u8, text: &[u8]) -> Label {
    let mut y = x;
    if kind == b'N' {
        y.length = test_cases::byte(text, 3);
    }
    if kind == b'B' {
        let at = test_cases::size(text, 3);
        if at < 24 {
            y.bytes[at] = test_cases::byte(text, 4);
        }
    }
    if kind == b'W' {
        if 8 <= text.len() {
            if text.len() <= 32 {
                return labels::label_from(&text[8..text.len()]);
            }
        }
    }
    y
}

// The table of labels that a text changes.
fn labels_of(t: LabelTable, kind: u8, text: &[u8]) -> LabelTable {
    if kind == b'P' {
        return with_place(t, test_cases::size(text, 1), test_cases::byte(text, 2));
    }
    if kind == b'M' {
        return with_place(t, test_cases::size(text, 5), test_cases::byte(text, 2));
    }
    let k = test_cases::size(text, 1);
    if k < 64 {
        let x = t.labels[k];
        return with_label(t, k, label_of(x, kind, text));
    }
    t
}

// The record that a case makes of a record.
pub fn changed(r: Record, kind: u8, text: &[u8]) -> Record {
    let mut runs = r.runs;
    let mut table = r.labels;
    let mut lines = r.lines;
    if kind == b'R' {
        runs = with_run(runs, test_cases::size(text, 1), run_of(text));
    } else {
        if kind == b'C' {
            runs.count = test_cases::size(text, 1);
            table.count = test_cases::size(text, 2);
            lines = LineNo(test_cases::short(text, 3));
        } else {
            table = labels_of(table, kind, text);
        }
    }
    Record {
        runs: runs,
        labels: table,
        lines: lines,
    }
}

// Whether two records are the same in each run, label, label place and count, used or not.
pub fn same_record(a: Record, b: Record) -> bool {
    a == b
}

// Writes the counts of lines, runs and labels.
pub fn write_counts(out: Stdout, r: Record) {
    test_text::write_three(
        out,
        r.lines.0 as u64,
        r.runs.count as u64,
        r.labels.count as u64,
    );
}
