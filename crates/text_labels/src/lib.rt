// Labels as pieces of a typed rule. A label is named by how many bytes stand behind its opening quote, to the text's end.
//
// `cut_label` finds the bytes of a label, `find` its number among others, `labels_ok` says whether each is one. Two labels are one
// where their capitals are the same.
#![tactic(auto)]

ghost use Rattle.std.specs.Prelude.{◌≡◌, ◌-◌, ◌≤◌, length, get_or, drop};
ghost use Rattle.lists.specs.Lists.{same?, up_to};
ghost use Rattle.typed_formula.specs.Meaning.{label_text};
ghost use Rattle.labels.specs.Label.{capitals, label_form?};
ghost use Rattle.text_labels.specs.Pieces.{EndsLabel, Cut, Finds, good_labels?, texts};

// The place of the first quote from a place on, or the text's end.
fn label_end(text: &[u8], at: usize) -> usize
    requires { at ≤ length text.now }
    ensures { EndsLabel text.now at result }
{
    for p in at..text.len() {
        if text[p] == b'\'' {
            return p;
        }
    }
    text.len()
}

// The place from which n bytes are left.
fn label_start(text: &[u8], n: usize) -> usize
    ensures { (result ≡ length text.now - n) × (result ≤ length text.now) }
{
    if text.len() < n {
        return 0;
    }
    text.len() - n
}

// The bytes of a label, as they are written.
pub fn cut_label(text: &[u8], n: usize) -> &[u8]
    ensures { Cut text.now n result.now }
{
    let from = label_start(text, n);
    let end = label_end(text, from);
    &text[from..end]
}

// The capital of the byte at a place; a quote behind the end.
fn capital_or_quote(text: &[u8], p: usize) -> u8
    ensures { result ≡ get_or (capitals text.now) p 39 }
{
    if p < text.len() {
        return labels::capital_byte(text[p]);
    }
    b'\''
}

// Whether two labels have the same capitals: those from two places to the first quote. Most differ in their first byte.
fn same_from(text: &[u8], a: usize, b: usize) -> bool
    requires { (a ≤ length text.now) × (b ≤ length text.now) }
    ensures { result ≡ same? (capitals (up_to 39 (drop a text.now))) (capitals (up_to 39 (drop b text.now))) }
{
    let left = text.len() - a;
    for i in 0..left {
        let x = capital_or_quote(text, a + i);
        if x != capital_or_quote(text, b + i) {
            return false;
        }
        if x == b'\'' {
            return true;
        }
    }
    capital_or_quote(text, b + left) == b'\''
}

// The same of two labels by how many bytes stand behind their opening quotes.
fn same_label(text: &[u8], m: usize, n: usize) -> bool
    ensures { result ≡ same? (label_text text.now m) (label_text text.now n) }
{
    let a = label_start(text, m);
    let b = label_start(text, n);
    same_from(text, a, b)
}

// The number of a label: its place among those listed, or their count.
// Kept: the count, and no Option, is what `place_in` of the grammar answers for a label that is not listed.
pub fn find(text: &[u8], places: &[usize], n: usize) -> usize
    ensures { Finds text.now places.now n result }
{
    places
        .iter()
        .position(|place| same_label(text, *place, n))
        .unwrap_or(places.len())
}

// Whether a label has the length and the bytes of one.
fn label_ok(text: &[u8], n: usize) -> bool
    ensures { result ≡ label_form? (label_text text.now n) }
{
    labels::is_label(cut_label(text, n))
}

// Whether each label has the length and the bytes of one.
pub fn labels_ok(text: &[u8], places: &[usize]) -> bool
    ensures { result ≡ good_labels? (texts text.now places.now) }
{
    places.iter().all(|place| label_ok(text, *place))
}
