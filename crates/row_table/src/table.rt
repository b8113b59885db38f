// Nodes of kinds 4 to 8, for all runs at once: each is one row of the table, or one bit of a row.
ghost use Rattle.std.specs.Prelude.{◌≡◌, List, ℕ, ◌+◌, ◌*◌, ◌<◌, ◌≤◌, length};
ghost use Rattle.lists.specs.Limits.{max_runs};
ghost use Rattle.sets.specs.Sets.{mem};
ghost use Rattle.rules.specs.Parts.{label_count};
ghost use Rattle.rules.specs.Table.{AtomOk};
ghost use Rattle.logic.specs.Model.{Model};
ghost use Rattle.row_table.specs.Truth.{each, stands_for, at};
ghost use Rattle.set_table.specs.Rows.{row as row_of};
ghost use Rattle.row_table.specs.Rows.{label_row, label_rows, table_words, pair_of, atom_of, RowsOf};
ghost use Rattle.row_table.specs.Ranks.{binding, InRange};

use crate::ranks::bound;
use crate::{Bindings, EACH};
use lists::MAX_RUNS;
use rules::Node;
use set_table::row;
use sets::RunSet;

// The places in the table of rows, as the definitions of specs/Rows.antt name them: the first row with the second run given, the row
// of the first label, the first row of runs that are related to themselves, all rows, and the words that they take.
pub const SECOND_GIVEN: usize = 512;

pub const LABEL_ROW: usize = 1024;

const SELF_ROW: usize = 1088;

pub const TABLE_ROWS: usize = 1092;

pub const TABLE_WORDS: usize = 2184;

// All runs or none.
fn all(yes: bool) -> RunSet
    ensures { (j : ℕ) → j < max_runs → mem result j ≡ yes }
{
    if yes {
        sets::below(MAX_RUNS)
    } else {
        sets::empty()
    }
}

// The runs j for which run x has the label at place p of the rule file, EACH standing for j.
pub fn label_set(table: &[u64], p: usize, x: usize) -> RunSet
    requires table_words_in_bounds { table_words ≤ length table.now }
    requires p_lt_label_rows { (p < label_rows) × (x ≤ each) }
    ensures { (j : ℕ) → j < max_runs → mem result j ≡ mem (row_of table.now (label_row + p)) (stands_for x j) }
{
    let r = row(table, LABEL_ROW + p);
    if x == EACH { r } else { all(sets::has(r, x)) }
}

// The runs j for which relation k holds of x and y, EACH standing for j.
pub fn pair_set(table: &[u64], k: usize, x: usize, y: usize) -> RunSet
    requires table_words_in_bounds { table_words ≤ length table.now }
    requires k_bound { (k < 4) × (x ≤ each) × (y ≤ each) }
    ensures { (file : List ℕ) (runs : ℕ) (M : Model) → RowsOf table.now file runs M
        → (j : ℕ) → j < max_runs → mem result j ≡ pair_of M k (stands_for x j) (stands_for y j) }
{
    if x == EACH {
        if y == EACH {
            row(table, SELF_ROW + k)
        } else {
            row(table, SECOND_GIVEN + MAX_RUNS * k + y)
        }
    } else {
        let r = row(table, MAX_RUNS * k + x);
        if y == EACH { r } else { all(sets::has(r, y)) }
    }
}

// A byte as a number.
pub fn wide(x: u8) -> usize
    ensures { result ≡ x }
{
    x as usize
}

// The runs j for which a node of kinds 4 to 8 is true, EACH standing for j.
pub fn atom_set(table: &[u64], x: Node, b: Bindings) -> RunSet
    requires table_words_in_bounds { table_words ≤ length table.now }
    requires atom_ok { AtomOk label_rows x }
    requires in_range { InRange b }
    ensures { (file : List ℕ) (runs : ℕ) (M : Model) → RowsOf table.now file runs M → AtomOk (label_count file) x
        → (j : ℕ) → j < max_runs → mem result j ≡ atom_of M file x (at (binding b) j) }
{
    let kind = x.kind;
    let second = x.b;
    let i = bound(b, x.a);
    if kind == 4 {
        label_set(table, second, i)
    } else {
        pair_set(table, wide(kind) - 5, i, bound(b, second))
    }
}
