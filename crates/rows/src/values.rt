// The rows of the table, each a few operations on the sets of ranks that start or finish before a line.
ghost use Rattle.std.specs.Prelude.{◌≡◌, not, ◌&&◌, ℕ, ◌<◌, ◌≤◌, eqb, length};
ghost use Rattle.lists.specs.Limits.{max_runs, max_lines, max_log_labels};
ghost use Rattle.sets.specs.Sets.{mem};
ghost use Rattle.set_table.specs.Rows.{row};
ghost use Rattle.rank_tables.specs.Tables.{line_words, label_words};
ghost use Rattle.row_table.specs.Rows.{table_rows, table_words};
ghost use Rattle.rows.specs.Values.{seconds_test, firsts_test, listed_test, given_value, row_value, Wanted, Ranks, Tables, Filled};

use lists::MAX_RUNS;
use row_table::table::{LABEL_ROW, TABLE_ROWS};
use set_table::{row as row_at, store_row};
use sets::RunSet;

// The row of the ranks with a label, among those after the rows with a rank given: any_label of specs.
const ANY_LABEL: usize = 67;

// What the first set has and neither of the others.
fn without(a: RunSet, b: RunSet, c: RunSet) -> RunSet
    ensures { (j : ℕ) → mem result j ≡ ((mem a j && not (mem b j)) && not (mem c j)) }
{
    sets::minus(sets::minus(a, b), c)
}

// The ranks to which the run from line s to line f has relation k: 0 before, 1 overlaps, 2 includes.
fn seconds_of(k: usize, s: usize, f: usize, begun: &[u64], ended: &[u64]) -> RunSet
    requires { (s ≤ max_lines) × (f ≤ max_lines) × (length begun.now ≡ line_words) × (length ended.now ≡ line_words) }
    ensures { (j : ℕ) → mem result j ≡ seconds_test k s f begun.now ended.now j }
{
    if k == 0 {
        without(
            sets::below(MAX_RUNS),
            row_at(begun, f + 1),
            row_at(ended, 1),
        )
    } else if k == 1 {
        without(row_at(begun, f), row_at(begun, s + 1), row_at(ended, f + 1))
    } else {
        without(row_at(ended, f), row_at(begun, s + 1), row_at(ended, 1))
    }
}

// The ranks that have relation k to the run from line s to line f.
fn firsts_of(k: usize, s: usize, f: usize, begun: &[u64], ended: &[u64]) -> RunSet
    requires { (s ≤ max_lines) × (f ≤ max_lines) × (length begun.now ≡ line_words) × (length ended.now ≡ line_words) }
    ensures { (j : ℕ) → mem result j ≡ firsts_test k s f begun.now ended.now j }
{
    if k == 0 {
        sets::minus(row_at(ended, s), row_at(ended, 1))
    } else if k == 1 {
        let both = sets::meet(row_at(begun, s), row_at(ended, f));
        sets::minus(both, row_at(ended, s + 1))
    } else {
        sets::minus(row_at(begun, s), row_at(ended, f + 1))
    }
}

// The ranks with the label of number n: none for 0.
fn with_label(n: usize, labelled: &[u64]) -> RunSet
    requires { (n ≤ max_log_labels) × (length labelled.now ≡ label_words) }
    ensures { (j : ℕ) → mem result j ≡ (not (eqb n 0) && mem (row labelled.now n) j) }
{
    if n == 0 {
        sets::empty()
    } else {
        row_at(labelled, n)
    }
}

// The row of relation q % 4 with the run of rank i given: as the first of the pair for q below 4, as the second from there on.
fn given_row<'a>(
    q: usize,
    i: usize,
    start: &'a [usize],
    finish: &'a [usize],
    number: &'a [usize],
    begun: &'a [u64],
    ended: &'a [u64],
    labelled: &'a [u64],
) -> RunSet
    requires q_bound { (q < 8) × (i < max_runs) × Ranks start.now finish.now number.now }
    requires tables { Tables start.now finish.now number.now begun.now ended.now labelled.now }
    ensures { (j : ℕ) → j < max_runs → mem result j ≡ given_value start.now finish.now number.now q i j }
{
    let k = q % 4;
    let s = start[i];
    let f = finish[i];
    if k == 3 {
        with_label(number[i], labelled)
    } else if f == 0 {
        sets::empty()
    } else if q < 4 {
        seconds_of(k, s, f, begun, ended)
    } else {
        firsts_of(k, s, f, begun, ended)
    }
}

// Row p of those after the rows with a rank given: the ranks of a label of the rule file, or those with any label.
fn listed_row(p: usize, wanted: &[u8], labels: usize, labelled: &[u64]) -> RunSet
    requires { Wanted wanted.now labels × (length labelled.now ≡ label_words) }
    ensures { (j : ℕ) → mem result j ≡ listed_test wanted.now labels labelled.now p j }
{
    if p == ANY_LABEL {
        sets::minus(sets::below(MAX_RUNS), row_at(labelled, 0))
    } else if p < labels {
        with_label(wanted[p] as usize, labelled)
    } else {
        sets::empty()
    }
}

// Row r of the table.
fn row_of<'a>(
    r: usize,
    start: &'a [usize],
    finish: &'a [usize],
    number: &'a [usize],
    wanted: &'a [u8],
    labels: usize,
    begun: &'a [u64],
    ended: &'a [u64],
    labelled: &'a [u64],
) -> RunSet
    requires r_lt_table_rows { (r < table_rows) × Ranks start.now finish.now number.now × Wanted wanted.now labels }
    requires tables { Tables start.now finish.now number.now begun.now ended.now labelled.now }
    ensures { (j : ℕ) → j < max_runs
        → mem result j ≡ row_value start.now finish.now number.now wanted.now labels r j }
{
    if r < LABEL_ROW {
        given_row(
            r / MAX_RUNS,
            r % MAX_RUNS,
            start,
            finish,
            number,
            begun,
            ended,
            labelled,
        )
    } else {
        listed_row(r - LABEL_ROW, wanted, labels, labelled)
    }
}

// Fills the table, row by row.
pub fn fill_table<'a>(
    start: &'a [usize],
    finish: &'a [usize],
    number: &'a [usize],
    wanted: &'a [u8],
    labels: usize,
    begun: &'a [u64],
    ended: &'a [u64],
    labelled: &'a [u64],
    table: &mut [u64],
)
    requires ranks { Ranks start.now finish.now number.now × Wanted wanted.now labels × (table_words ≤ length table.old) }
    requires tables { Tables start.now finish.now number.now begun.now ended.now labelled.now }
    ensures { Filled start.now finish.now number.now wanted.now labels
        table.old table.new table_rows }
{
    for r in 0..TABLE_ROWS {
        let s = row_of(
            r, start, finish, number, wanted, labels, begun, ended, labelled,
        );
        store_row(table, r, s);
    }
}
