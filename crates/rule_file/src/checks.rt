// The checks of a whole table: refusals 8, 9 and 10.
ghost use Rattle.std.specs.Prelude.{◌≡◌, ◌+◌, ◌*◌, ◌-◌, ◌<◌, ◌≤◌, length};
ghost use Rattle.rules.specs.Limits.{variables, max_nested};
ghost use Rattle.rules.specs.Formula.{no_scope, enter, scoped, shallow};
ghost use Rattle.rules.specs.Parts.{label_count};
ghost use Rattle.rules.specs.Table.{Good, formula_at};
ghost use Rattle.rules.specs.Checks.{field_names, node_names, times_named, named_once, scope_of, whole_table};

use crate::MAX_NESTED;
use refusals::Refusal;
use rules::table::node_at;
use rules::{Node, Rule, VARIABLES, Vars};

// Whether a field names node c, as a number.
fn field_names(field: usize, c: usize) -> usize
    ensures { (result ≡ field_names field c) × (result ≤ 1) }
{
    usize::from(field == c)
}

// How many fields of a node name node c.
fn node_names(x: Node, c: usize) -> usize
    ensures { (result ≡ node_names x c) × (result ≤ 2) }
{
    match x.kind {
        1 => field_names(x.a, c) + field_names(x.b, c),
        2 => field_names(x.a, c),
        3 => field_names(x.b, c),
        _ => 0,
    }
}

// How many fields of the table name node c.
fn times_named(file: &[u8], first: usize, count: usize, c: usize) -> usize
    requires { first + 3 * count ≤ length file.now }
    ensures { result ≡ times_named file.now first count c }
{
    let mut n: usize = 0;
    for i in 0..count {
        n += node_names(node_at(file, first, i), c);
    }
    n
}

// Whether each node but the last is named exactly once.
fn named_once(file: &[u8], first: usize, count: usize) -> bool
    requires { (1 ≤ count) × (first + 3 * count ≤ length file.now) }
    ensures { result ≡ named_once file.now first count }
{
    let last = count - 1;
    (0..last).all(|c| times_named(file, first, count, c) == 1)
}

// The variables bound inside a "some" that binds v.
// Kept: `levels::entered` stores a level alike; one generic store would be no plainer than this line in each.
fn entered(vars: Vars, v: usize) -> Vars
    requires { v < variables }
    ensures { scope_of result ≡ enter (scope_of vars) v }
{
    let mut next = vars;
    next.bound[v] = true;
    next
}

fn is_bound(vars: Vars, v: usize) -> bool
    requires { v < variables }
    ensures { result ≡ scope_of vars v }
{
    vars.bound[v]
}

// Whether every variable used below a node stands inside a "some" that binds it.
fn is_scoped(file: &[u8], first: usize, node: usize, vars: Vars) -> bool
    requires { Good file.now first node }
    ensures { result ≡ scoped (formula_at file.now first node) (scope_of vars) }
{
    let x = node_at(file, first, node);
    match x.kind {
        1 => is_scoped(file, first, x.a, vars) && is_scoped(file, first, x.b, vars),
        2 => is_scoped(file, first, x.a, vars),
        3 => is_scoped(file, first, x.b, entered(vars, x.a)),
        4 => is_bound(vars, x.a),
        _ => is_bound(vars, x.a) && is_bound(vars, x.b),
    }
}

// Whether every variable used in a node's formula stands inside a "some" of that formula that binds it.
fn is_closed(file: &[u8], first: usize, node: usize) -> bool
    requires { Good file.now first node }
    ensures { result ≡ scoped (formula_at file.now first node) no_scope }
{
    let none = Vars {
        bound: [false; VARIABLES],
    };
    is_scoped(file, first, node, none)
}

// Whether at most `left` "some" nodes lie one inside another, from a node down.
fn is_shallow(file: &[u8], first: usize, node: usize, left: usize) -> bool
    requires { Good file.now first node }
    ensures { result ≡ shallow left (formula_at file.now first node) }
{
    let x = node_at(file, first, node);
    match x.kind {
        1 => is_shallow(file, first, x.a, left) && is_shallow(file, first, x.b, left),
        2 => is_shallow(file, first, x.a, left),
        3 => left > 0 && is_shallow(file, first, x.b, left - 1),
        _ => true,
    }
}

// Whether no more "some" nodes lie one inside another than may, from a node down.
fn nesting_ok(file: &[u8], first: usize, node: usize) -> bool
    requires { Good file.now first node }
    ensures { result ≡ shallow max_nested (formula_at file.now first node) }
{
    is_shallow(file, first, node, MAX_NESTED)
}

// The rule of a table whose nodes are in range, or its first fault as a whole.
pub fn whole(file: &[u8], labels: usize, first: usize, count: usize) -> Result<Rule, Refusal>
    requires labels_value { (labels ≡ label_count file.now) × ((1 ≤ count) × (first + 3 * count ≤ length file.now)) }
    requires good { Good file.now first (count - 1) }
    ensures { result ≡ whole_table file.now first count }
{
    let root = count - 1;
    if !named_once(file, first, count) {
        return Err(Refusal::RuleNotATree);
    }
    if !is_closed(file, first, root) {
        return Err(Refusal::RuleUnbound);
    }
    if !nesting_ok(file, first, root) {
        return Err(Refusal::RuleTooDeep);
    }
    Ok(Rule {
        labels,
        nodes: first,
        count,
    })
}
