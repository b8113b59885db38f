// The labels of a rule file, by their numbers in a record.
ghost use Rattle.std.specs.Prelude.{◌≡◌, ℕ, ◌<◌, ◌≤◌, get_or};
ghost use Rattle.labels.specs.Label.{max_label_bytes, label_of};
ghost use Rattle.labels.specs.Search.{lookup, Readable};
ghost use Rattle.rules.specs.Labels.{label_bytes, LabelsOk};
ghost use Rattle.logic.specs.Shown.{slot_number};

use labels::{Label, LabelTable, Slot};
use rules::MAX_LABELS;

// A label's number in a table: 0 where it was never seen.
fn number_of(t: LabelTable, x: Label) -> u8
    requires { (x.length ≤ max_label_bytes) × Readable t }
    ensures { result ≡ slot_number (lookup t x) }
{
    let s = labels::find_label(t, x);
    match s {
        Slot::Seen(n) => n.0,
        Slot::Free(_) => 0,
        Slot::Full => 0,
    }
}

// The number of each label of a rule file in the record's table.
pub fn wanted_numbers(file: &[u8], count: usize, t: LabelTable) -> [u8; MAX_LABELS]
    requires count_bound { (count ≤ 16) × LabelsOk file.now count }
    requires readable { Readable t }
    ensures { (p : ℕ) → p < count → get_or result p 0 ≡ slot_number (lookup t (label_of (label_bytes file.now p))) }
{
    let mut numbers = [0u8; MAX_LABELS];
    for p in 0..count {
        let x = rules::file_labels::label_of(file, p);
        numbers[p] = number_of(t, x);
    }
    numbers
}
