// A search among the moments, which may stop where the rule is false.
ghost use Rattle.std.specs.Prelude.{◌≡◌, true, ℕ, ◌<◌, ◌≤◌, length};
ghost use Rattle.lists.specs.Limits.{max_runs};
ghost use Rattle.lists.specs.Tells.{Tells};
ghost use Rattle.sets.specs.Sets.{mem};
ghost use Rattle.rules.specs.Rules.{formula_of, Taken};
ghost use Rattle.logic.specs.Model.{Model};
ghost use Rattle.row_table.specs.Rows.{table_words, RowsOf};
ghost use Rattle.timeline.specs.Root.{Shaped, TrueUntil, SearchEnd};

use crate::true_moments;
use rules::Rule;
use sets::RunSet;

// Whether a set has all moments from `low` to below `end`.
fn has_all(s: RunSet, low: usize, end: usize) -> bool
    requires { (low ≤ max_runs) × (end ≤ max_runs) }
    ensures { Tells result ((j : ℕ) → low ≤ j → j < end → mem s j ≡ true) }
{
    let dom = sets::from(sets::below(end), low);
    sets::none(sets::minus(dom, s))
}

// How many runs the search goes by first: all of them, unless it may stop.
fn first_end(low: usize, count: usize, stop: bool) -> usize
    requires { (low ≤ max_runs) × (count ≤ max_runs) }
    ensures { SearchEnd count stop result }
{
    if stop && low < count {
        return low + 1;
    }
    count
}

// Below this many runs, which cost little, the next part has four times as many; from it on twice as many.
const FEW_RUNS: usize = 16;

// Twice as many runs, or four times.
fn more_than(end: usize) -> usize
    requires { (0 < end) × (end ≤ max_runs) }
    ensures { end < result }
{
    if end < FEW_RUNS {
        return 4 * end;
    }
    2 * end
}

// How many runs the search goes by next.
fn next_end(end: usize, count: usize) -> usize
    requires { (0 < end) × (end < count) × (count ≤ max_runs) }
    ensures { (end < result) × (result ≤ count) }
{
    let more = more_than(end);
    if count < more {
        return count;
    }
    more
}

// Of the moments from `low` to below `count` those at which the rule of a file is true, by a table of rows. A search that may stop goes
// by one run first, and by more as long as the rule is true at all their moments.
pub fn true_until(
    file: &[u8],
    rule: Rule,
    heights: &[u8],
    frees: &[u8],
    table: &[u64],
    low: usize,
    count: usize,
    stop: bool,
) -> RunSet
    requires taken { Taken file.now rule }
    requires shaped { Shaped file.now rule heights.now frees.now }
    requires table_words_in_bounds { (table_words ≤ length table.now) × (low ≤ max_runs) × (count ≤ max_runs) }
    ensures { (M : Model) → RowsOf table.now file.now count M
        → TrueUntil stop M (formula_of file.now rule) low count result }
{
    let mut end = first_end(low, count, stop);
    // Kept: the new form is no plainer. The end grows by what each part shows, which no range or iterator gives.
    loop {
        let s = true_moments(file, rule, heights, frees, table, end, low, end);
        if count <= end {
            return s;
        }
        if !has_all(s, low, end) {
            return s;
        }
        end = next_end(end, count);
    }
}
