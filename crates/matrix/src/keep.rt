// The search for a run in a formula with one "some" inside: all runs and all moments at once. A matrix has a row for each run that the
// variable may stand for, and each part of the formula keeps in it the moments at which it is true.
ghost use Rattle.std.specs.Prelude.{◌≡◌, List, ℕ, ◌+◌, ◌*◌, ◌<◌, ◌≤◌, length};
ghost use Rattle.lists.specs.Limits.{max_runs};
ghost use Rattle.sets.specs.Sets.{mem};
ghost use Rattle.rules.specs.Limits.{variables};
ghost use Rattle.rules.specs.Formula.{neg, exists};
ghost use Rattle.rules.specs.Parts.{label_count};
ghost use Rattle.rules.specs.Table.{AtomOk, formula_at};
ghost use Rattle.logic.specs.Model.{Model};
ghost use Rattle.shape.specs.Shape.{height};
ghost use Rattle.row_table.specs.Truth.{each, stands_for, at, Fixed, TrueAt, FalseWithout};
ghost use Rattle.set_table.specs.Rows.{row as row_of, Rowwise, Narrowed};
ghost use Rattle.row_table.specs.Rows.{label_row, label_rows, table_words, pair_of, atom_of, RowsOf};
ghost use Rattle.matrix.specs.Matrix.{each_row, in_row, rowed, as_each, matrix_words};
ghost use Rattle.row_table.specs.Ranks.{binding};
ghost use Rattle.matrix.specs.Ready.{RowsReady};

use crate::ROWS;
use lists::MAX_RUNS;
use row_table::ranks::{bound, rebound};
use row_table::table::{SECOND_GIVEN, label_set, pair_set, wide};
use row_table::{Bindings, EACH, Rank};
use rules::Node;
use rules::table::node_at;
use set_table::{
    all_rows, copy_rows, meet_each, meet_rows, meet_upward, minus_rows, no_rows, pick_rows,
    set_each, start_rows,
};
use sets::RunSet;

// The words of a matrix: matrix_words of specs.
const MATRIX_WORDS: usize = 256;

// The mark for each run in place of the mark for each row.
fn each_row(x: usize) -> usize
    requires { x ≤ each_row }
    ensures { (result ≡ as_each x) × (result ≤ each) }
{
    if x == ROWS { EACH } else { x }
}

// The rows keep the moments at which the run of x has the label at place p of the rule file.
fn label_rows(table: &[u64], p: usize, x: usize, runs: usize, m: &mut [u64])
    requires table_words_in_bounds { (table_words ≤ length table.now) × (runs ≤ max_runs) × (matrix_words ≤ length m.old) }
    requires p_lt_label_rows { (p < label_rows) × (x ≤ each_row) }
    ensures { (length m.new ≡ length m.old)
        × Rowwise (λ k. Narrowed (λ j. mem (row_of table.now (label_row + p)) (stands_for (in_row x k) j)))
        runs m.old m.new }
{
    if x == ROWS {
        pick_rows(m, runs, label_set(table, p, EACH));
    } else {
        meet_each(m, runs, label_set(table, p, x));
    }
}

// The rows keep the moments at which relation r holds of the runs of x and y.
fn pair_rows(table: &[u64], r: usize, x: usize, y: usize, runs: usize, m: &mut [u64])
    requires table_words_in_bounds { (table_words ≤ length table.now) × (runs ≤ max_runs) × (matrix_words ≤ length m.old) }
    requires r_bound { (r < 4) × (x ≤ each_row) × (y ≤ each_row) }
    ensures { (length m.new ≡ length m.old)
        × ((file : List ℕ) (n : ℕ) (M : Model) → RowsOf table.now file n M
        → Rowwise (λ k. Narrowed (λ j. pair_of M r (stands_for (in_row x k) j) (stands_for (in_row y k) j)))
        runs m.old m.new) }
{
    if x == ROWS {
        if y == EACH {
            meet_rows(m, runs, table, MAX_RUNS * r);
        } else {
            pick_rows(m, runs, pair_set(table, r, EACH, each_row(y)));
        }
    } else if y == ROWS {
        if x == EACH {
            meet_rows(m, runs, table, SECOND_GIVEN + MAX_RUNS * r);
        } else {
            pick_rows(m, runs, pair_set(table, r, x, EACH));
        }
    } else {
        meet_each(m, runs, pair_set(table, r, x, y));
    }
}

// The rows keep the moments at which a node of kinds 4 to 8 is true.
fn atom_rows(table: &[u64], x: Node, b: Bindings, runs: usize, m: &mut [u64])
    requires table_words_in_bounds { (table_words ≤ length table.now) × (runs ≤ max_runs) × (matrix_words ≤ length m.old) }
    requires atom_ok { AtomOk label_rows x × ((v : ℕ) → binding b v ≤ each_row) }
    ensures { (length m.new ≡ length m.old)
        × ((file : List ℕ) (n : ℕ) (M : Model) → RowsOf table.now file n M → AtomOk (label_count file) x
        → Rowwise (λ k. Narrowed (λ j. atom_of M file x (at (rowed (binding b) k) j))) runs m.old m.new) }
{
    let kind = x.kind;
    let second = x.b;
    let i = bound(b, x.a);
    if kind == 4 {
        label_rows(table, second, i, runs, m);
    } else {
        pair_rows(table, wide(kind) - 5, i, bound(b, second), runs, m);
    }
}

// The rows keep the moments at which the formula of a node is true.
#[cycle(keep_not_keep_rows_keep_some)]
fn keep_rows(
    file: &[u8],
    first: usize,
    table: &[u64],
    runs: usize,
    node: usize,
    b: Bindings,
    m: &mut [u64],
)
    requires { RowsReady file.now first table.now runs node b × (matrix_words ≤ length m.old) }
    ensures { (length m.new ≡ length m.old)
        × ((M : Model) → RowsOf table.now file.now runs M
        → Rowwise (λ k. TrueAt M (formula_at file.now first node) (rowed (binding b) k)) runs m.old m.new) }
{
    let x = node_at(file, first, node);
    let kind = x.kind;
    if kind == 1 {
        keep_rows(file, first, table, runs, x.a, b, m);
        if no_rows(m, runs) {
            return;
        }
        keep_rows(file, first, table, runs, x.b, b, m);
    } else if kind == 2 {
        keep_not(file, first, table, runs, x.a, b, m);
    } else if kind == 3 {
        keep_some(file, first, table, runs, x.b, x.a, b, m);
    } else {
        atom_rows(table, x, b, runs, m);
    }
}

// The rows keep the moments at which the formula of a node is false. A function of its own, as is keep_some, so that only the nodes that
// need a second matrix take stack for one.
#[cycle(keep_not_keep_rows_keep_some)]
fn keep_not(
    file: &[u8],
    first: usize,
    table: &[u64],
    runs: usize,
    child: usize,
    b: Bindings,
    m: &mut [u64],
)
    requires { RowsReady file.now first table.now runs child b × (matrix_words ≤ length m.old) }
    ensures { (length m.new ≡ length m.old)
        × ((M : Model) → RowsOf table.now file.now runs M
        → Rowwise (λ k. TrueAt M (neg (formula_at file.now first child)) (rowed (binding b) k)) runs m.old m.new) }
{
    let mut inner = [0u64; MATRIX_WORDS];
    copy_rows(&mut inner, runs, m);
    keep_rows(file, first, table, runs, child, b, &mut inner);
    minus_rows(m, runs, &inner);
}

// The rows keep the moments at which the formula of a node without "some" is true with variable v at some finished run.
#[cycle(keep_not_keep_rows_keep_some)]
fn keep_some(
    file: &[u8],
    first: usize,
    table: &[u64],
    runs: usize,
    child: usize,
    v: usize,
    b: Bindings,
    m: &mut [u64],
)
    requires rows_ready { RowsReady file.now first table.now runs child b × (matrix_words ≤ length m.old) }
    requires v_lt_variables { (v < variables) × (height (formula_at file.now first child) ≡ 0) × ((w : ℕ) → binding b w ≡ each → ⊥) }
    ensures { (length m.new ≡ length m.old)
        × ((M : Model) → RowsOf table.now file.now runs M
        → Rowwise (λ k. TrueAt M (exists v (formula_at file.now first child)) (rowed (binding b) k)) runs m.old m.new) }
{
    let mut found = [0u64; MATRIX_WORDS];
    set_each(&mut found, runs, sets::below(runs));
    let each = rebound(b, v, Rank(EACH as u8));
    keep_rows(file, first, table, runs, child, each, &mut found);
    meet_upward(m, runs, &found);
}

// The moments of dom at which the formula of a node is true with variable v at some finished run, where no run outside keep serves.
pub fn some_rows(
    file: &[u8],
    first: usize,
    table: &[u64],
    runs: usize,
    child: usize,
    v: usize,
    b: Bindings,
    dom: RunSet,
    keep: RunSet,
) -> RunSet
    requires { RowsReady file.now first table.now runs child b × Fixed (binding b) × (v < variables) }
    ensures { (M : Model) → RowsOf table.now file.now runs M
        → FalseWithout M (formula_at file.now first child) (binding b) v keep
        → TrueAt M (exists v (formula_at file.now first child)) (binding b) dom result }
{
    let mut m = [0u64; MATRIX_WORDS];
    start_rows(&mut m, runs, dom, keep);
    let rows = rebound(b, v, Rank(ROWS as u8));
    keep_rows(file, first, table, runs, child, rows, &mut m);
    all_rows(&m, runs)
}
