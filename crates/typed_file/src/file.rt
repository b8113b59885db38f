// Writing a rule file: the head, the labels, the count of nodes, the nodes.
ghost use Rattle.std.specs.Prelude.{◌≡◌, ◌∷◌, [], ℕ, ◌+◌, ◌*◌, ◌<◌, ◌≤◌, length, get_or};
ghost use Rattle.output.specs.Output.{Appends};
ghost use Rattle.typed_formula.specs.Meaning.{label_text};
ghost use Rattle.text_labels.specs.Pieces.{texts};
ghost use Rattle.grammar.specs.Layout.{labels_part};
ghost use Rattle.typed_file.specs.File.{label_bytes, second, node_bytes, nodes_bytes, file_from, Short, Fit};

use output::append;
use text_labels::{cut_label, find};

// A label: its length and its capitals.
fn write_label(text: &[u8], n: usize, out: &mut [u8], at: usize) -> usize
    requires { (length (label_text text.now n) ≤ 24) × (at + 25 ≤ length out.old) }
    ensures { Appends out.old at (label_bytes (label_text text.now n)) out.new result }
{
    let label = labels::label_from(cut_label(text, n));
    let length = [label.length];
    let p = append(out, at, &length);
    let size = label.length as usize;
    let capitals = label.bytes;
    append(out, p, &capitals[..size])
}

// The labels at places.
fn write_labels(text: &[u8], places: &[usize], out: &mut [u8], at: usize) -> usize
    requires { Short text.now places.now × (at + 25 * length places.now ≤ length out.old) }
    ensures { Appends out.old at (labels_part (texts text.now places.now)) out.new result × (result ≤ at + 25 * length places.now) }
{
    let mut p = at;
    for place in places {
        p = write_label(text, *place, out, p);
    }
    p
}

// The second field of a node: a label's number, or as the table has it.
fn second_field(text: &[u8], places: &[usize], kind: usize, b: usize) -> u8
    requires { (length places.now ≤ 16) × ((kind ≡ 4 → ⊥) → b < 256) }
    ensures { result ≡ second (texts text.now places.now) text.now kind b }
{
    if kind == 4 {
        return find(text, places, b) as u8;
    }
    b as u8
}

// What a file is written of: the nodes of a text's rule, and the places of its labels.
#[derive(Clone, Copy)]
pub struct Parts<'a> {
    pub text: &'a [u8],
    pub table: &'a [usize],
    pub count: usize,
    pub places: &'a [usize],
}

// Node i.
fn write_node(parts: Parts<'_>, i: usize, out: &mut [u8], at: usize) -> usize
    requires fit { Fit parts.text.now parts.table.now parts.count parts.places.now }
    requires i_lt_n { (i < parts.count) × (at + 3 ≤ length out.old) }
    ensures { Appends out.old at (node_bytes (texts parts.entry.text.now parts.entry.places.now) parts.entry.text.now parts.entry.table.now i) out.new result }
{
    let table = parts.table;
    let kind = table[3 * i];
    let second = second_field(parts.text, parts.places, kind, table[3 * i + 2]);
    let node = [kind as u8, table[3 * i + 1] as u8, second];
    append(out, at, &node)
}

// The nodes.
fn write_nodes(parts: Parts<'_>, out: &mut [u8], at: usize) -> usize
    requires fit { Fit parts.text.now parts.table.now parts.count parts.places.now }
    requires n_in_bounds { at + 3 * parts.count ≤ length out.old }
    ensures { Appends out.old at (nodes_bytes (texts parts.entry.text.now parts.entry.places.now) parts.entry.text.now parts.entry.table.now parts.entry.count) out.new result }
{
    let mut p = at;
    for i in 0..parts.count {
        p = write_node(parts, i, out, p);
    }
    p
}

// The file: how many bytes it has.
pub fn write_file(parts: Parts<'_>, out: &mut [u8]) -> usize
    requires fit { Fit parts.text.now parts.table.now parts.count parts.places.now }
    requires in_bounds { 599 ≤ length out.old }
    ensures { Appends out.old 0 (file_from parts.entry.text.now parts.entry.table.now parts.entry.count (texts parts.entry.text.now parts.entry.places.now)) out.new result }
{
    let head = [b'R', b'U', b'L', 1, 0, parts.places.len() as u8];
    let labels = append(out, 0, &head);
    let count = write_labels(parts.text, parts.places, out, labels);
    let size = [parts.count as u8];
    let nodes = append(out, count, &size);
    write_nodes(parts, out, nodes)
}
