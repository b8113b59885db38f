// The moments at which the formula of a node is true. A rule is evaluated from its root by descending into children, whose numbers are
// always smaller.
ghost use Rattle.std.specs.Prelude.{◌≡◌, ◌<◌, get_or};
ghost use Rattle.sets.specs.Sets.{bit};
ghost use Rattle.rules.specs.Limits.{variables};
ghost use Rattle.rules.specs.Formula.{exists};
ghost use Rattle.rules.specs.Table.{formula_at};
ghost use Rattle.logic.specs.Model.{Model};
ghost use Rattle.row_table.specs.Truth.{Fixed, TrueAt, FalseWithout};
ghost use Rattle.row_table.specs.Rows.{RowsOf};
ghost use Rattle.moments.specs.Open.{Keeps};
ghost use Rattle.row_table.specs.Ranks.{binding};
ghost use Rattle.moments.specs.Ready.{Ready};

use crate::search::{by_rows, closed, marked, unmarked_height};
use crate::{Bindings, Rank};
use matrix::keep::some_rows;
use row_table::EACH;
use row_table::ranks::{fixed, rebound};
use row_table::table::atom_set;
use rules::table::node_at;
use set_table::left_of;
use sets::RunSet;

// The moments of dom at which the formula of a node is true. What it answers for a table that is no model's rows is left free.
#[cycle(kept_opened_some_some_flat_some_loop_times)]
pub fn times(
    file: &[u8],
    first: usize,
    heights: &[u8],
    frees: &[u8],
    table: &[u64],
    runs: usize,
    node: usize,
    b: Bindings,
    dom: RunSet,
) -> RunSet
    requires { Ready file.now first heights.now frees.now table.now runs node b }
    ensures { (M : Model) → RowsOf table.now file.now runs M
        → TrueAt M (formula_at file.now first node) (binding b) dom result }
{
    let x = node_at(file, first, node);
    let kind = x.kind;
    if kind == 1 {
        let l = times(file, first, heights, frees, table, runs, x.a, b, dom);
        if sets::none(l) {
            l
        } else {
            times(file, first, heights, frees, table, runs, x.b, b, l)
        }
    } else if kind == 2 {
        let l = times(file, first, heights, frees, table, runs, x.a, b, dom);
        sets::minus(dom, l)
    } else if kind == 3 {
        some(file, first, heights, frees, table, runs, x.b, x.a, b, dom)
    } else {
        sets::meet(dom, atom_set(table, x, b))
    }
}

// The moments of dom at which the formula of a node is true with variable v at some finished run.
#[cycle(kept_opened_some_some_flat_some_loop_times)]
fn some(
    file: &[u8],
    first: usize,
    heights: &[u8],
    frees: &[u8],
    table: &[u64],
    runs: usize,
    child: usize,
    v: usize,
    b: Bindings,
    dom: RunSet,
) -> RunSet
    requires ready { Ready file.now first heights.now frees.now table.now runs child b }
    requires v_lt_variables { v < variables }
    ensures { (M : Model) → RowsOf table.now file.now runs M
        → TrueAt M (exists v (formula_at file.now first child)) (binding b) dom result }
{
    let height = unmarked_height(heights, child, b);
    if height == 0 {
        return some_flat(file, first, heights, frees, table, runs, child, v, b, dom);
    }
    let keep = kept(file, first, heights, frees, table, runs, child, v, b);
    if by_rows(height, keep) {
        some_rows(file, first, table, runs, child, v, b, dom, keep)
    } else {
        some_loop(
            file, first, heights, frees, table, runs, child, v, b, dom, keep,
        )
    }
}

// The same for a node without "some", whose truth does not depend on the moment: from the first run on that satisfies it.
#[cycle(kept_opened_some_some_flat_some_loop_times)]
fn some_flat(
    file: &[u8],
    first: usize,
    heights: &[u8],
    frees: &[u8],
    table: &[u64],
    runs: usize,
    child: usize,
    v: usize,
    b: Bindings,
    dom: RunSet,
) -> RunSet
    requires ready { Ready file.now first heights.now frees.now table.now runs child b }
    requires v_lt_variables { v < variables }
    requires child_value { (get_or heights.now child 0 ≡ 0) × Fixed (binding b) }
    ensures { (M : Model) → RowsOf table.now file.now runs M
        → TrueAt M (exists v (formula_at file.now first child)) (binding b) dom result }
{
    let each = rebound(b, v, Rank(EACH as u8));
    let all = sets::below(runs);
    let found = times(file, first, heights, frees, table, runs, child, each, all);
    sets::meet(dom, sets::upward(found))
}

// The same for any node, where no run outside keep serves: run after run, from each run's own moment on, as long as moments are left.
#[cycle(kept_opened_some_some_flat_some_loop_times)]
fn some_loop(
    file: &[u8],
    first: usize,
    heights: &[u8],
    frees: &[u8],
    table: &[u64],
    runs: usize,
    child: usize,
    v: usize,
    b: Bindings,
    dom: RunSet,
    keep: RunSet,
) -> RunSet
    requires ready { Ready file.now first heights.now frees.now table.now runs child b }
    requires v_lt_variables { v < variables }
    ensures { (M : Model) → RowsOf table.now file.now runs M
        → FalseWithout M (formula_at file.now first child) (binding b) v keep
        → TrueAt M (exists v (formula_at file.now first child)) (binding b) dom result }
{
    let mut got = sets::empty();
    for r in 0..runs {
        let left = left_of(dom, got, keep, r);
        if !sets::none(left) {
            let at_r = rebound(b, v, Rank(r as u8));
            let found = times(file, first, heights, frees, table, runs, child, at_r, left);
            got = sets::join(got, found);
        }
    }
    got
}

// A set that keeps each run of dom for which the formula of a node may be true, whatever the variables of a mask stand for.
#[cycle(kept_opened_some_some_flat_some_loop_times)]
fn opened(
    file: &[u8],
    first: usize,
    heights: &[u8],
    frees: &[u8],
    table: &[u64],
    runs: usize,
    node: usize,
    b: Bindings,
    dom: RunSet,
    any: u8,
) -> RunSet
    requires { Ready file.now first heights.now frees.now table.now runs node b }
    ensures { (M : Model) → RowsOf table.now file.now runs M
        → Keeps M (binding b) (formula_at file.now first node) (bit any) dom result }
{
    let x = node_at(file, first, node);
    let kind = x.kind;
    if kind == 1 {
        let l = opened(file, first, heights, frees, table, runs, x.a, b, dom, any);
        opened(file, first, heights, frees, table, runs, x.b, b, l, any)
    } else if kind == 3 {
        let more = marked(any, x.a);
        opened(file, first, heights, frees, table, runs, x.b, b, dom, more)
    } else if closed(heights, frees, node, any) {
        times(file, first, heights, frees, table, runs, node, b, dom)
    } else {
        dom
    }
}

// A set without runs at which variable v makes the formula of a node false at all moments: what a search leaves out.
#[cycle(kept_opened_some_some_flat_some_loop_times)]
pub fn kept(
    file: &[u8],
    first: usize,
    heights: &[u8],
    frees: &[u8],
    table: &[u64],
    runs: usize,
    child: usize,
    v: usize,
    b: Bindings,
) -> RunSet
    requires ready { Ready file.now first heights.now frees.now table.now runs child b }
    requires v_lt_variables { v < variables }
    ensures { (M : Model) → RowsOf table.now file.now runs M
        → FalseWithout M (formula_at file.now first child) (binding b) v result }
{
    let all = sets::below(runs);
    if fixed(b) {
        let each = rebound(b, v, Rank(EACH as u8));
        opened(
            file, first, heights, frees, table, runs, child, each, all, 0,
        )
    } else {
        all
    }
}
