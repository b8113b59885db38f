// The readers of the grammar. They call each other in a cycle: at each call either the unread text is shorter, or the level of the
// grammar is lower.
//
// All share the words `names`, of which the first d are the names bound around the place; a reader changes only the words behind
// them. Signs that stand one behind another, `!` and brackets, are counted and not read one call inside the other, and no reader of
// further sides is called where their sign does not follow: a text as deep as it is long then takes little time and little stack.
ghost use Rattle.std.specs.Prelude.{◌≡◌, ◌≤◌, ◌<◌, ◌+◌, ◌*◌, length, drop};
ghost use Rattle.std.proofs.Math.Option.{none};
ghost use Rattle.signs.specs.Signs.{sign as sign_of, not_sign};
ghost use Rattle.typed.specs.Grammar.{read_or, more_or, read_and, more_and, read_not, read_some, read_body};
ghost use Rattle.atoms.specs.Emit.{or_size, and_size, emit_ors, emit_ands};
ghost use Rattle.typed.specs.Parsing.{Begins, ReadsRule, ReadsMore, Closes};

use atoms::Reading;
use atoms::atoms::atom;
use atoms::names::enter;
use atoms::nodes::{close_or, put, put_nots};
use signs::{exist_sign, name, repeated, sign, skip};

// Kept: the text, the names with their number and the table with its count stay parameters, since a struct is no plainer. The two
// numbers differ from call to call, a name goes out of scope with the call that bound it, and the further sides of an or or an and
// need the count before and behind a side.

// A whole rule: one or more ands, with bars between them.
#[cycle(readers)]
pub fn or_rule(
    text: &[u8],
    at: usize,
    names: &mut [usize],
    d: usize,
    k: usize,
    table: &mut [usize],
) -> Option<Reading>
    requires { Begins text.now at names.old d k table.old }
    ensures { ReadsRule read_or 3 text.now at names.old d k table.old result table.new names.new }
{
    let first = and_rule(text, at, names, d, k, table)?;
    if sign(text, first.at, b'|').is_none() {
        return Some(first);
    }
    or_rest(text, first.at, names, d, first.count, table)
}

// The further sides of an or, behind one that ends before node k.
#[cycle(readers)]
fn or_rest(
    text: &[u8],
    at: usize,
    names: &mut [usize],
    d: usize,
    k: usize,
    table: &mut [usize],
) -> Option<Reading>
    requires { Begins text.now at names.old d k table.old × (1 ≤ k) }
    ensures { ReadsMore more_or or_size emit_ors text.now at names.old d k table.old result table.new names.new }
{
    let mut here = at;
    let mut count = k;
    // Kept: no count, since each side says where the next begins.
    while let Some(p) = sign(text, here, b'|') {
        put(table, count, 2, count - 1, 0);
        let side = and_rule(text, p, names, d, count + 1, table)?;
        close_or(table, count, side.count);
        here = side.at;
        count = side.count + 3;
    }
    Some(Reading {
        at: skip(text, here),
        count,
    })
}

// One or more nots, with `&` between them.
#[cycle(readers)]
fn and_rule(
    text: &[u8],
    at: usize,
    names: &mut [usize],
    d: usize,
    k: usize,
    table: &mut [usize],
) -> Option<Reading>
    requires { Begins text.now at names.old d k table.old }
    ensures { ReadsRule read_and 2 text.now at names.old d k table.old result table.new names.new }
{
    let first = not_rule(text, at, names, d, k, table)?;
    if sign(text, first.at, b'&').is_none() {
        return Some(Reading {
            at: skip(text, first.at),
            count: first.count,
        });
    }
    and_rest(text, first.at, names, d, first.count, table)
}

// The further sides of an and, behind one that ends before node k.
#[cycle(readers)]
fn and_rest(
    text: &[u8],
    at: usize,
    names: &mut [usize],
    d: usize,
    k: usize,
    table: &mut [usize],
) -> Option<Reading>
    requires { Begins text.now at names.old d k table.old × (1 ≤ k) }
    ensures { ReadsMore more_and and_size emit_ands text.now at names.old d k table.old result table.new names.new }
{
    let mut here = at;
    let mut count = k;
    // Kept: no count, since each side says where the next begins.
    while let Some(p) = sign(text, here, b'&') {
        let side = not_rule(text, p, names, d, count, table)?;
        put(table, side.count, 1, count - 1, side.count - 1);
        here = side.at;
        count = side.count + 1;
    }
    Some(Reading {
        at: skip(text, here),
        count,
    })
}

// An operand with any number of `!` before it.
#[cycle(readers)]
fn not_rule(
    text: &[u8],
    at: usize,
    names: &mut [usize],
    d: usize,
    k: usize,
    table: &mut [usize],
) -> Option<Reading>
    requires { Begins text.now at names.old d k table.old }
    ensures { ReadsRule read_not 1 text.now at names.old d k table.old result table.new names.new }
{
    let start = skip(text, at);
    let marks = repeated(text, start, b'!', 4097);
    let inner = operand(text, marks.at, names, d, k, table)?;
    put_nots(table, inner.count, marks.count);
    Some(Reading {
        at: inner.at,
        count: inner.count + marks.count,
    })
}

// Where no `!` is next: an "exist", a rule in brackets, or one without a rule inside.
#[cycle(readers)]
fn operand(
    text: &[u8],
    at: usize,
    names: &mut [usize],
    d: usize,
    k: usize,
    table: &mut [usize],
) -> Option<Reading>
    requires { Begins text.now at names.old d k table.old × (sign_of not_sign (drop at text.now) ≡ none) }
    ensures { ReadsRule read_not 1 text.now at names.old d k table.old result table.new names.new }
{
    let opens = repeated(text, at, b'(', 4097);
    if opens.count == 0 {
        let Some(p) = exist_sign(text, at) else {
            return atom(text, at, &names[..d], k, table);
        };
        return some_rule(text, p, names, d, k, table);
    }
    let inner = not_rule(text, opens.at, names, d, k, table)?;
    closes(text, inner.at, names, d, inner.count, table, opens.count)
}

// Behind c open brackets and a first operand in the innermost, which ends before node k: what closes them.
#[cycle(readers)]
fn closes(
    text: &[u8],
    at: usize,
    names: &mut [usize],
    d: usize,
    k: usize,
    table: &mut [usize],
    c: usize,
) -> Option<Reading>
    requires { Begins text.now at names.old d k table.old × (1 ≤ k) }
    ensures { Closes text.now at names.old d k table.old c result table.new names.new }
{
    let mut here = at;
    let mut count = k;
    let mut open = c;
    // Kept: no count, since what stands between says where the next bracket closes.
    loop {
        let shut = repeated(text, here, b')', open);
        let left = open - shut.count;
        if left == 0 {
            return Some(Reading { at: shut.at, count });
        }
        let ands = and_rest(text, shut.at, names, d, count, table)?;
        let ors = or_rest(text, ands.at, names, d, ands.count, table)?;
        here = sign(text, ors.at, b')')?;
        count = ors.count;
        open = left - 1;
    }
}

// Behind "exist" or a comma: a name, and what it is bound in.
#[cycle(readers)]
fn some_rule(
    text: &[u8],
    at: usize,
    names: &mut [usize],
    d: usize,
    k: usize,
    table: &mut [usize],
) -> Option<Reading>
    requires { Begins text.now at names.old d k table.old }
    ensures { ReadsRule read_some 0 text.now at names.old d k table.old result table.new names.new }
{
    let bound = name(text, at)?;
    let e = enter(names, d, bound.value);
    let body = some_body(text, bound.at, names, e, k, table)?;
    put(table, body.count, 3, d, body.count - 1);
    Some(Reading {
        at: body.at,
        count: body.count + 1,
    })
}

// Behind a name that is bound: further names, or the rule.
#[cycle(readers)]
fn some_body(
    text: &[u8],
    at: usize,
    names: &mut [usize],
    d: usize,
    k: usize,
    table: &mut [usize],
) -> Option<Reading>
    requires { Begins text.now at names.old d k table.old }
    ensures { ReadsRule read_body 0 text.now at names.old d k table.old result table.new names.new }
{
    if let Some(p) = sign(text, at, b',') {
        return some_rule(text, p, names, d, k, table);
    }
    let p = sign(text, at, b'.')?;
    scope(text, p, names, d, k, table)
}

// What a name is bound in: a whole rule. An "exist" that is next is read at once.
#[cycle(readers)]
fn scope(
    text: &[u8],
    at: usize,
    names: &mut [usize],
    d: usize,
    k: usize,
    table: &mut [usize],
) -> Option<Reading>
    requires { Begins text.now at names.old d k table.old }
    ensures { ReadsRule read_or 3 text.now at names.old d k table.old result table.new names.new }
{
    let Some(p) = exist_sign(text, at) else {
        return or_rule(text, at, names, d, k, table);
    };
    let inner = some_rule(text, p, names, d, k, table)?;
    if sign(text, inner.at, b'&').is_some() {
        let ands = and_rest(text, inner.at, names, d, inner.count, table)?;
        return or_rest(text, ands.at, names, d, ands.count, table);
    }
    if sign(text, inner.at, b'|').is_some() {
        return or_rest(text, inner.at, names, d, inner.count, table);
    }
    Some(inner)
}
