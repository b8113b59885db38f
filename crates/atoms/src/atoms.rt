// The parts of a rule that have no rule inside.
ghost use Rattle.std.specs.Prelude.{◌≡◌, ◌≤◌, ◌<◌, ◌+◌, ◌*◌, length, drop};
ghost use Rattle.atoms.specs.Atoms.{read_atom, read_same, read_has, read_pair, relation as relation_of};
ghost use Rattle.atoms.specs.Readers.{Ready, ReadsAtom};
ghost use Rattle.signs.specs.Finding.{ReadsWord};

use crate::Reading;
use crate::names::level;
use crate::nodes::{put, put_pair};
use signs::{Word, label, name, same_sign, sign};

// Behind `same`.
fn same_atom(
    text: &[u8],
    at: usize,
    names: &[usize],
    k: usize,
    table: &mut [usize],
) -> Option<Reading>
    requires { Ready text.now at names.now k table.old }
    ensures { ReadsAtom read_same text.now at names.now k table.old result table.new }
{
    let open = sign(text, at, b'(')?;
    let first = name(text, open)?;
    let comma = sign(text, first.at, b',')?;
    let second = name(text, comma)?;
    let end = sign(text, second.at, b')')?;
    put_pair(table, k, 8, names, first.value, second.value);
    Some(Reading {
        at: end,
        count: k + 1,
    })
}

// Behind a name x and the bracket of its label.
fn has_atom(
    text: &[u8],
    at: usize,
    x: usize,
    names: &[usize],
    k: usize,
    table: &mut [usize],
) -> Option<Reading>
    requires { Ready text.now at names.now k table.old }
    ensures { ReadsAtom (read_has x) text.now at names.now k table.old result table.new }
{
    let quoted = label(text, at)?;
    let end = sign(text, quoted.at, b')')?;
    put(table, k, 4, level(names, x), quoted.value);
    Some(Reading {
        at: end,
        count: k + 1,
    })
}

// The kind of the relation whose sign is next, and the place behind it.
fn relation(text: &[u8], at: usize) -> Option<Word>
    requires { at ≤ length text.now }
    ensures { ReadsWord text.now at (relation_of (drop at text.now)) result }
{
    if let Some(p) = sign(text, at, b'<') {
        return Some(Word { value: 5, at: p });
    }
    if let Some(p) = sign(text, at, b'o') {
        return Some(Word { value: 6, at: p });
    }
    let p = sign(text, at, b'i')?;
    Some(Word { value: 7, at: p })
}

// Behind the first name of a relation, x.
fn pair_atom(
    text: &[u8],
    at: usize,
    x: usize,
    names: &[usize],
    k: usize,
    table: &mut [usize],
) -> Option<Reading>
    requires { Ready text.now at names.now k table.old }
    ensures { ReadsAtom (read_pair x) text.now at names.now k table.old result table.new }
{
    let kind = relation(text, at)?;
    let second = name(text, kind.at)?;
    put_pair(table, k, kind.value, names, x, second.value);
    Some(Reading {
        at: second.at,
        count: k + 1,
    })
}

// A label test, a relation or `same`.
pub fn atom(
    text: &[u8],
    at: usize,
    names: &[usize],
    k: usize,
    table: &mut [usize],
) -> Option<Reading>
    requires { Ready text.now at names.now k table.old }
    ensures { ReadsAtom read_atom text.now at names.now k table.old result table.new }
{
    if let Some(inner) = same_sign(text, at) {
        return same_atom(text, inner, names, k, table);
    }
    let first = name(text, at)?;
    if let Some(inner) = sign(text, first.at, b'(') {
        return has_atom(text, inner, first.value, names, k, table);
    }
    pair_atom(text, first.at, first.value, names, k, table)
}
