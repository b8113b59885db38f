// The labels of a rule file: each a length byte and its bytes, the first at place `LABELS_AT`.
ghost use Rattle.std.specs.Prelude.{◌≡◌, ◌+◌, ◌≤◌, length};
ghost use Rattle.labels.specs.Label.{capitals, max_label_bytes, label_of};
ghost use Rattle.rules.specs.Parts.{byte};
ghost use Rattle.rules.specs.Labels.{label_start, label_from, label_bytes, listed, read_label, read_labels, LabelsOk};

use crate::LABELS_AT;
use labels::MAX_LABEL_BYTES;
use refusals::Refusal;

// Whether one of the first n labels is the label at a place, that of label n.
fn is_listed(file: &[u8], n: usize, at: usize) -> bool
    requires { (at ≡ label_start file.now n) × (at + 1 + byte file.now at ≤ length file.now) }
    ensures { result ≡ listed file.now n (label_from file.now at) }
{
    let from = at + 1;
    let end = from + file[at] as usize;
    let mut p: usize = LABELS_AT;
    for _m in 0..n {
        let a = p + 1;
        let e = a + file[p] as usize;
        if labels::same_label(&file[a..e], &file[from..end]) {
            return true;
        }
        p = e;
    }
    false
}

// Label n, at its place.
fn label(file: &[u8], n: usize, at: usize) -> Result<usize, Refusal>
    requires { (at ≡ label_start file.now n) × (at ≤ length file.now) }
    ensures { result ≡ read_label file.now n at }
{
    if file.len() - at < 1 {
        return Err(Refusal::RuleEndsEarly);
    }
    let size = file[at] as usize;
    if size < 1 {
        return Err(Refusal::RuleLabel);
    }
    if MAX_LABEL_BYTES < size {
        return Err(Refusal::RuleLabel);
    }
    let from = at + 1;
    if file.len() - from < size {
        return Err(Refusal::RuleEndsEarly);
    }
    let end = from + size;
    if !labels::is_label(&file[from..end]) {
        return Err(Refusal::RuleLabel);
    }
    if is_listed(file, n, at) {
        return Err(Refusal::RuleLabel);
    }
    Ok(end)
}

// All labels: the place after the last.
pub fn labels(file: &[u8], count: usize) -> Result<usize, Refusal>
    requires { 6 ≤ length file.now }
    ensures { result ≡ read_labels file.now count }
{
    let mut at: usize = LABELS_AT;
    for i in 0..count {
        at = label(file, i, at)?;
    }
    Ok(at)
}

// The place of label n: that of its length byte.
fn label_place(file: &[u8], n: usize) -> usize
    requires { LabelsOk file.now n }
    ensures { result ≡ label_start file.now n }
{
    let mut p: usize = LABELS_AT;
    for _i in 0..n {
        p = p + 1 + file[p] as usize;
    }
    p
}

// Label n.
pub fn label_of(file: &[u8], n: usize) -> labels::Label
    requires { LabelsOk file.now (n + 1) }
    ensures { (result ≡ label_of (label_bytes file.now n)) × (result.length ≤ max_label_bytes) }
{
    let p = label_place(file, n);
    let from = p + 1;
    let end = from + file[p] as usize;
    labels::label_from(&file[from..end])
}
