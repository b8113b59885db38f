// Typed rules, behind the grammar: the labels of a rule in order of first appearance, and refusals 4, 5, 9 and 10, all over
// the table of nodes that reading the text leaves.
//
// `decide` answers the first refusal, or how many labels there are.
#![tactic(auto)]

ghost use Rattle.std.specs.Prelude.{◌≡◌, true, ◌+◌, ◌<◌, ◌≤◌, length};
ghost use Rattle.typed_checks.specs.Fold.{fold_nodes};
ghost use Rattle.typed_checks.specs.Tests.{bound_step, few_step, Notes, ListsPlaces, Decides};

use refusals::Refusal;
use text_labels::{find, labels_ok};

// What all names before say, and whether those of a node are bound.
fn bound_step(ok: bool, kind: usize, a: usize, b: usize) -> bool
    ensures { result ≡ bound_step ok kind a b }
{
    ok && (kind < 4 || (a != 255 && (kind == 4 || b != 255)))
}

// What all nodes before say, and whether a node is no fifth "some" inside others.
fn few_step(ok: bool, kind: usize, a: usize) -> bool
    ensures { result ≡ few_step ok kind a 0 }
{
    ok && (kind != 3 || a < 4)
}

// Whether every name of the table is bound.
fn all_bound(table: &[usize], n: usize) -> bool
    requires { (n ≤ 64) × (192 ≤ length table.now) }
    ensures { result ≡ fold_nodes bound_step true table.now 0 n }
{
    let mut ok = true;
    for i in 0..n {
        ok = bound_step(ok, table[3 * i], table[3 * i + 1], table[3 * i + 2]);
    }
    ok
}

// Whether at most four "some" of the table lie one inside another.
fn few_nested(table: &[usize], n: usize) -> bool
    requires { (n ≤ 64) × (192 ≤ length table.now) }
    ensures { result ≡ fold_nodes few_step true table.now 0 n }
{
    let mut ok = true;
    for i in 0..n {
        ok = few_step(ok, table[3 * i], table[3 * i + 1]);
    }
    ok
}

// The label places, of which there are m, with that of a node where its label is none of them.
fn note(text: &[u8], places: &mut [usize], m: usize, kind: usize, b: usize) -> usize
    requires { m < length places.old }
    ensures { Notes text.now places.old m kind b places.new result }
{
    if kind != 4 {
        return m;
    }
    if find(text, &places[..m], b) < m {
        return m;
    }
    places[m] = b;
    m + 1
}

// The places of the labels, in order of first appearance: how many.
fn label_places(text: &[u8], table: &[usize], n: usize, places: &mut [usize]) -> usize
    requires { ((n ≤ 64) × (192 ≤ length table.now)) × (64 ≤ length places.old) }
    ensures { ListsPlaces text.now table.now n places.old places.new result }
{
    let mut m: usize = 0;
    for i in 0..n {
        m = note(text, places, m, table[3 * i], table[3 * i + 2]);
    }
    m
}

// The first refusal of a table of n nodes; or how many labels it has, whose places are handed out.
// Kept: n beside the table, since a text may have more nodes than the table has room for, which is refused here.
pub fn decide(
    text: &[u8],
    table: &[usize],
    n: usize,
    places: &mut [usize],
) -> Result<usize, Refusal>
    requires { (192 ≤ length table.now) × (64 ≤ length places.old) }
    ensures { Decides text.now table.now n places.old places.new result }
{
    if rules::MAX_NODES < n {
        return Err(Refusal::RuleCount);
    }
    let m = label_places(text, table, n, places);
    if rules::MAX_LABELS < m {
        return Err(Refusal::RuleCount);
    }
    if !labels_ok(text, &places[..m]) {
        return Err(Refusal::RuleLabel);
    }
    if !all_bound(table, n) {
        return Err(Refusal::RuleUnbound);
    }
    if !few_nested(table, n) {
        return Err(Refusal::RuleTooDeep);
    }
    Ok(m)
}
