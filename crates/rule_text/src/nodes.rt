// The text of a node: a recursion over the table, children first named.
ghost use Rattle.std.specs.Prelude.{◌∷◌, [], ◌+◌, ◌≤◌, length};
ghost use Rattle.output.specs.Output.{Appends};
ghost use Rattle.rules.specs.Table.{formula_at};
ghost use Rattle.levels.specs.Carried.{levels_of};
ghost use Rattle.spelling.specs.Written.{write};
ghost use Rattle.rule_text.specs.Text.{some_text, Ready};

use crate::leaves::{letter_of, write_atom};
use levels::{VarLevels, entered};
use output::append;

// One byte.
fn write_byte(b: u8, out: &mut [u8], at: usize) -> usize
    requires { at + 1 ≤ length out.old }
    ensures { Appends out.old at (b ∷ []) out.new result }
{
    let text = [b; 1];
    append(out, at, &text[..])
}

// `(exist A.`, for the name of level d.
fn write_some(d: usize, out: &mut [u8], at: usize) -> usize
    requires { at + 9 ≤ length out.old }
    ensures { Appends out.old at (some_text d) out.new result }
{
    let text = [b'(', b'e', b'x', b'i', b's', b't', b' ', letter_of(d), b'.'];
    append(out, at, &text[..])
}

// A node at level d.
pub fn write_node(
    file: &[u8],
    first: usize,
    node: usize,
    d: usize,
    levels: VarLevels,
    out: &mut [u8],
    at: usize,
) -> usize
    requires { Ready file.now first node d levels out.old at }
    ensures { Appends out.old at (write d (levels_of levels) (formula_at file.now first node) []) out.new result }
{
    let x = rules::table::node_at(file, first, node);
    if x.kind == 1 {
        let p = write_byte(b'(', out, at);
        let q = write_node(file, first, x.a, d, levels, out, p);
        let s = write_byte(b'&', out, q);
        let t = write_node(file, first, x.b, d, levels, out, s);
        return write_byte(b')', out, t);
    }
    if x.kind == 2 {
        let p = write_byte(b'!', out, at);
        return write_node(file, first, x.a, d, levels, out, p);
    }
    if x.kind == 3 {
        let p = write_some(d, out, at);
        let q = write_node(file, first, x.b, d + 1, entered(levels, x.a, d), out, p);
        return write_byte(b')', out, q);
    }
    write_atom(file, x, levels, out, at)
}
