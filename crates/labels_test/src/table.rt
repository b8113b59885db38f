// Tables that the cases fill, and searches in them.
ghost use Rattle.std.specs.Prelude.{◌≤◌};
ghost use Rattle.labels.specs.Search.{Readable};

use super::show;
use labels::{Label, LabelTable, Slot};
use std::io::Stdout;

// The label with the bytes of a word; no label if they are more than 24.
pub fn label(word: &[u8]) -> Label
    ensures { result.length ≤ 24 }
{
    if 24 < word.len() {
        return labels::no_label();
    }
    labels::label_from(word)
}

pub fn empty() -> LabelTable
    ensures { Readable result }
{
    labels::no_labels()
}

// The table with a label put where the search ends. A table of 64 labels, or one that has the label, stays as it is.
fn with_label(t: LabelTable, x: Label) -> LabelTable
    requires { (x.length ≤ 24) × Readable t }
    ensures { Readable result }
{
    let Slot::Free(p) = labels::find_label(t, x) else {
        return t;
    };
    if 64 <= t.count {
        return t;
    }
    labels::add_label(t, x, p)
}

// Writes where the search for a word ends.
fn find(out: Stdout, t: LabelTable, word: &[u8])
    requires { Readable t }
{
    show::slot(out, word, labels::find_label(t, label(word)));
}

// The table after a case.
pub fn after(out: Stdout, t: LabelTable, kind: u8, text: &[u8]) -> LabelTable
    requires { Readable t }
    ensures { Readable result }
{
    if kind == b't' {
        return empty();
    }
    if kind == b'f' || kind == b'p' {
        find(out, t, text);
    }
    if kind == b'p' {
        return with_label(t, label(text));
    }
    t
}
