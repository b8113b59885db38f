// The text of a node without children.
ghost use Rattle.std.specs.Prelude.{◌≡◌, ◌∷◌, ◌++◌, [], ◌+◌, ◌<◌, ◌≤◌, length};
ghost use Rattle.output.specs.Output.{Appends};
ghost use Rattle.rules.specs.Labels.{label_bytes, LabelsOk};
ghost use Rattle.rules.specs.Parts.{label_count};
ghost use Rattle.rules.specs.Table.{AtomOk};
ghost use Rattle.levels.specs.Carried.{levels_of};
ghost use Rattle.typed_grammar.specs.Text.{letter};
ghost use Rattle.spelling.specs.Written.{write};
ghost use Rattle.rule_text.specs.Text.{atom_of, has_text, same_text, sign_text};

use levels::{VarLevels, level_of};
use output::append;

// "naming variables A to D by level"
pub fn letter_of(d: usize) -> u8
    ensures { result ≡ letter d }
{
    if d == 0 {
        return b'A';
    }
    if d == 1 {
        return b'B';
    }
    if d == 2 {
        return b'C';
    }
    b'D'
}

// The name of a variable.
fn name_of(levels: VarLevels, v: usize) -> u8
    requires { v < 4 }
    ensures { result ≡ letter (levels_of levels v) }
{
    letter_of(level_of(levels, v))
}

// A relation: its sign between two names, with a space on each side.
fn write_pair(sign: u8, a: u8, b: u8, out: &mut [u8], at: usize) -> usize
    requires { at + 5 ≤ length out.old }
    ensures { Appends out.old at (sign_text sign a b) out.new result }
{
    let text = [a, b' ', sign, b' ', b];
    append(out, at, &text[..])
}

// `same(A,B)`
fn write_same(a: u8, b: u8, out: &mut [u8], at: usize) -> usize
    requires { at + 9 ≤ length out.old }
    ensures { Appends out.old at (same_text a b) out.new result }
{
    let text = [b's', b'a', b'm', b'e', b'(', a, b',', b, b')'];
    append(out, at, &text[..])
}

// `A('TEST')`, with the capitals of label n.
fn write_has(file: &[u8], a: u8, n: usize, out: &mut [u8], at: usize) -> usize
    requires labels_ok { LabelsOk file.now (n + 1) }
    requires n_in_bounds { at + length (has_text a (label_bytes file.now n)) ≤ length out.old }
    ensures { Appends out.old at (has_text a (label_bytes file.now n)) out.new result }
{
    let label = rules::file_labels::label_of(file, n);
    let size = label.length as usize;
    let capitals = label.bytes;
    let open = [a, b'(', 39];
    let p = append(out, at, &open[..]);
    let q = append(out, p, &capitals[..size]);
    let close = [39, b')'];
    append(out, q, &close[..])
}

// A node of kinds 4 to 8.
pub fn write_atom(
    file: &[u8],
    x: rules::Node,
    levels: VarLevels,
    out: &mut [u8],
    at: usize,
) -> usize
    requires atom_ok { AtomOk (label_count file.now) x × LabelsOk file.now (label_count file.now) }
    requires x_in_bounds { at + length (write 0 (levels_of levels) (atom_of file.now x) []) ≤ length out.old }
    ensures { Appends out.old at (write 0 (levels_of levels) (atom_of file.now x) []) out.new result }
{
    let kind = x.kind;
    let a = name_of(levels, x.a);
    if kind == 4 {
        return write_has(file, a, x.b, out, at);
    }
    let b = name_of(levels, x.b);
    if kind == 5 {
        return write_pair(b'<', a, b, out, at);
    }
    if kind == 6 {
        return write_pair(b'o', a, b, out, at);
    }
    if kind == 7 {
        return write_pair(b'i', a, b, out, at);
    }
    write_same(a, b, out, at)
}
