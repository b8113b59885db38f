// Tables of the ranks by a value that each of them has: its start, its finish or its label number.
//
// Each row gains the ranks that have its number as their value: this is what `numbered` answers. For `earlier` it is then spread over
// the rows after it, so that a row has the ranks whose value is below its number.
#![tactic(auto)]

ghost use Rattle.std.specs.Prelude.{◌≡◌, ◌&&◌, ◌||◌, ℕ, ◌+◌, ◌*◌, ◌<◌, ◌≤◌, eqb, length};
ghost use Rattle.lists.specs.Limits.{max_runs, max_lines, max_log_labels};
ghost use Rattle.sets.specs.Sets.{mem};
ghost use Rattle.set_table.specs.Rows.{row};
ghost use Rattle.rank_tables.specs.Tables.{line_words, label_words, Gained, Spread, Earlier, Numbered, FitsBelow};

use lists::{MAX_LINES, MAX_LOG_LABELS, MAX_RUNS};
use set_table::{row as row_at, store_row};
use sets::RunSet;

// A row for each line, for place 0 and for the place after the last line: line_rows and line_words of specs.
const LINE_ROWS: usize = 258;

const LINE_WORDS: usize = 516;

// A row for each label, and row 0 for none: label_words of specs.
const LABEL_WORDS: usize = 130;

// The set of one rank.
fn single(i: usize) -> RunSet
    requires { i < max_runs }
    ensures { (j : ℕ) → mem result j ≡ eqb j i }
{
    sets::from(sets::below(i + 1), i)
}

// Row v of a table gains rank i.
fn gain(table: &mut [u64], v: usize, i: usize)
    requires { (2 * v + 1 < length table.old) × (i < max_runs) }
    ensures { (length table.new ≡ length table.old)
        × ((r j : ℕ) → mem (row table.new r) j ≡ (mem (row table.old r) j || (eqb j i && eqb v r))) }
{
    let s = sets::join(row_at(table, v), single(i));
    store_row(table, v, s);
}

// Each row gains the ranks that have its number as their value.
fn gain_values(values: &[usize], limit: usize, table: &mut [u64])
    requires { FitsBelow values.now limit × (2 * limit + 1 < length table.old) }
    ensures { Gained values.now table.old table.new max_runs }
{
    for (i, v) in values[..MAX_RUNS].iter().enumerate() {
        gain(table, *v, i);
    }
}

// Each row becomes what the rows before it had.
fn spread(table: &mut [u64], rows: usize)
    requires { 2 * rows ≤ length table.old }
    ensures { Spread table.old table.new rows }
{
    let mut seen = sets::empty();
    for r in 0..rows {
        let here = row_at(table, r);
        store_row(table, r, seen);
        seen = sets::join(seen, here);
    }
}

// For each line, the ranks whose value is below it.
pub fn earlier(values: &[usize]) -> [u64; LINE_WORDS]
    requires { FitsBelow values.now max_lines }
    ensures { (length result ≡ line_words) × Earlier values.now result }
{
    let mut table = [0u64; LINE_WORDS];
    gain_values(values, MAX_LINES, &mut table);
    spread(&mut table, LINE_ROWS);
    table
}

// For each label number, the ranks that have it.
pub fn numbered(values: &[usize]) -> [u64; LABEL_WORDS]
    requires { FitsBelow values.now max_log_labels }
    ensures { (length result ≡ label_words) × Numbered values.now result }
{
    let mut table = [0u64; LABEL_WORDS];
    gain_values(values, MAX_LOG_LABELS, &mut table);
    table
}
