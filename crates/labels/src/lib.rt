// Labels and the table that numbers them: up to 64 labels in order of first appearance, found through 128 places by
// their FNV-1a hash.
//
// `fnv1a` hashes bytes. `capital_byte` says what a byte of a label counts as, and is all that knows of small letters. `is_label` says
// which byte strings are labels as they are written, `same_label` whether two of them are one, and `label_from` makes a label of one: it
// holds the capitals.
// `no_labels` is the empty table, `find_label` looks a label up, `add_label` adds one at the place that the search found.
#![tactic(auto)]

ghost use Rattle.std.specs.Prelude.{◌≡◌, [], ℕ, ◌+◌, ◌*◌, ◌%◌, ◌<◌, ◌≤◌, length};
ghost use Rattle.lists.specs.Limits.{max_log_labels};
ghost use Rattle.lists.specs.Lists.{same?};
ghost use Rattle.lists.specs.Tells.{Tells};
ghost use Rattle.labels.specs.Fnv.{fnv_of, fnv_step};
ghost use Rattle.labels.specs.Label.{max_label_bytes, letter?, capital, capitals, label_form?, label_of, no_label, byte_sound, sound?};
ghost use Rattle.labels.specs.Table.{label_places, first_place, table_of};
ghost use Rattle.labels.specs.Search.{FindsLabel, AddsLabel, Readable};

use lists::MAX_LOG_LABELS;

// The most bytes of a label: max_label_bytes of specs.
pub const MAX_LABEL_BYTES: usize = 24;

// The places through which labels are found: label_places of specs.
pub const LABEL_PLACES: usize = 128;

// A label's number, from 1 in the order of first appearance; 0 for none.
#[derive(Clone, Copy, PartialEq, Eq)]
pub struct LabelNo(pub u8);

// The first `length` bytes are the label's, the others 0. Length 0: no label.
// Kept: fixed memory, with no heap: a label is an array and a length, as `label_of` and `sound?` say it.
#[derive(Clone, Copy, PartialEq, Eq)]
pub struct Label {
    pub bytes: [u8; MAX_LABEL_BYTES],
    pub length: u8,
}

// Kept: fixed memory, with no heap: the labels are an array and a count, as `table_of` says it.
// The first `count` labels are the table's. A place holds the number of the label that stands there, 0 where it is empty.
#[derive(Clone, Copy, PartialEq, Eq)]
pub struct LabelTable {
    pub labels: [Label; MAX_LOG_LABELS],
    pub places: [LabelNo; LABEL_PLACES],
    pub count: usize,
}

// What a search for a label finds: its number, or the empty place where it would go.
#[derive(Clone, Copy)]
pub enum Slot {
    Seen(LabelNo),
    Free(usize),
    Full,
}

// The product with FNV's prime, modulo 2^32.
pub fn times_prime(h: u32) -> u32
    ensures { result ≡ h * 16777619 % 4294967296 }
{
    h.wrapping_mul(16777619)
}

// The hash after one byte more.
pub fn fnv_step(h: u32, b: u8) -> u32
    ensures { result ≡ fnv_step h b }
{
    times_prime((b as u32) ^ h)
}

// The 32-bit FNV-1a hash of the bytes.
pub fn fnv1a(bytes: &[u8]) -> u32
    ensures { result ≡ fnv_of bytes.now }
{
    let mut h: u32 = 2166136261;
    for b in bytes {
        h = fnv_step(h, *b);
    }
    h
}

// The byte that a byte of a label counts as: a to z as A to Z, any other as itself.
pub fn capital_byte(b: u8) -> u8
    ensures { result ≡ capital b }
{
    match b {
        b'a'..=b'z' => b - 32,
        _ => b,
    }
}

// Whether a label in capitals may have the byte: A to Z, 0 to 9, underscore.
pub fn label_byte(b: u8) -> bool
    ensures { result ≡ letter? b }
{
    matches!(b, b'A'..=b'Z' | b'0'..=b'9' | b'_')
}

// Whether a byte string is a label as it is written: 1 to 24 bytes, each of which counts as one that a label may have.
pub fn is_label(s: &[u8]) -> bool
    ensures { result ≡ label_form? (capitals s.now) }
{
    (1..=MAX_LABEL_BYTES).contains(&s.len()) && s.iter().all(|b| label_byte(capital_byte(*b)))
}

// Whether two labels as they are written have the same capitals.
pub fn same_label(a: &[u8], b: &[u8]) -> bool
    ensures { result ≡ same? (capitals a.now) (capitals b.now) }
{
    a.len() == b.len()
        && a.iter()
            .zip(b)
            .all(|(x, y)| capital_byte(*x) == capital_byte(*y))
}

// The label that stands for a missing one.
pub fn no_label() -> Label
    ensures { result ≡ no_label }
{
    Label {
        bytes: [0; MAX_LABEL_BYTES],
        length: 0,
    }
}

// The label that is written with these bytes.
pub fn label_from(bytes: &[u8]) -> Label
    requires { length bytes.now ≤ max_label_bytes }
    ensures { result ≡ label_of (capitals bytes.now) }
{
    let mut text = [0u8; MAX_LABEL_BYTES];
    for (i, b) in bytes.iter().enumerate() {
        text[i] = capital_byte(*b);
    }
    Label {
        bytes: text,
        length: bytes.len() as u8,
    }
}

// Whether a byte is right inside a label, or behind its end.
fn byte_sound(inside: bool, b: u8) -> bool
    ensures { result ≡ byte_sound inside b }
{
    if inside { label_byte(b) } else { b == 0 }
}

// Whether a label handed in has the bytes of a label to its length, capitals only, and zeros behind.
pub fn is_sound(x: Label) -> bool
    ensures { (result ≡ sound? x) × (length x.bytes ≡ max_label_bytes) }
{
    let n = x.length as usize;
    if MAX_LABEL_BYTES < n {
        return false;
    }
    for (i, b) in x.bytes.iter().enumerate() {
        if !byte_sound(i < n, *b) {
            return false;
        }
    }
    true
}

// Whether two values hold the same bytes. This is no "same" of the logic: two missing labels are equal values.
pub fn equal_labels(a: Label, b: Label) -> bool
    ensures { Tells result (a ≡ b) }
{
    a == b
}

// The table of no labels.
pub fn no_labels() -> LabelTable
    ensures { result ≡ table_of [] }
{
    let blank = no_label();
    LabelTable {
        labels: [blank; MAX_LOG_LABELS],
        places: [LabelNo(0); LABEL_PLACES],
        count: 0,
    }
}

// A label's first place: its hash modulo 128.
pub fn first_place(x: Label) -> usize
    requires { x.length ≤ max_label_bytes }
    ensures { result ≡ first_place x }
{
    let bytes = x.bytes;
    let n = x.length as usize;
    (fnv1a(&bytes[..n]) as usize) % LABEL_PLACES
}

// The label's number if it is among the table's labels, otherwise the empty place where it would go.
pub fn find_label(t: LabelTable, x: Label) -> Slot
    requires { (x.length ≤ max_label_bytes) × Readable t }
    ensures { FindsLabel t x result }
{
    let first = first_place(x);
    for k in 0..LABEL_PLACES {
        let p = (first + k) % LABEL_PLACES;
        let n = t.places[p];
        if n.0 == 0 {
            return Slot::Free(p);
        }
        let m = (n.0 - 1) as usize;
        let y = t.labels[m];
        if equal_labels(y, x) {
            return Slot::Seen(n);
        }
    }
    Slot::Full
}

// The table with one label more, at an empty place that a search found.
pub fn add_label(t: LabelTable, x: Label, p: usize) -> LabelTable
    requires { (t.count < max_log_labels) × (p < label_places) }
    ensures { AddsLabel t x p result }
{
    let mut q = t;
    let m = q.count;
    q.labels[m] = x;
    let n = (m + 1) as u8;
    q.places[p] = LabelNo(n);
    q.count = m + 1;
    q
}

// Whether two tables are the same, unused places too.
pub fn same_table(t: LabelTable, u: LabelTable) -> bool
    ensures { Tells result (t ≡ u) }
{
    t == u
}
