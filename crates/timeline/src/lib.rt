// The verdicts of all lines of a log at once.
//
// `judge_all` evaluates a rule for all moments of a record's log: the moments at which it is true, its truth before the first run
// finishes, and how many runs are finished by each line. `verdict_at` reads the verdict of a line off these. A begin line changes no
// finished run, so its verdict is that of the line before. `judge_last` evaluates the rule at the last line's moment only, and
// `first_failing` up to the first line that fails, by more and more runs.
#![tactic(auto)]

ghost use Rattle.std.specs.Prelude.{◌≡◌, cond, ◌-◌, ◌≤◌, length, get_or};
ghost use Rattle.lists.specs.Limits.{max_runs, max_lines};
ghost use Rattle.trace.specs.Record.{Valid};
ghost use Rattle.rules.specs.Rules.{formula_of, Taken};
ghost use Rattle.logic.specs.declared.Verdict.TheVariants.{Holds, Fails};
ghost use Rattle.logic.specs.Model.{Model};
ghost use Rattle.row_table.specs.Truth.{truth};
ghost use Rattle.row_table.specs.Rows.{table_words, RowsOf};
ghost use Rattle.rows.specs.Values.{Wanted};
ghost use Rattle.rows.specs.ByRank.{OrderFits};
ghost use Rattle.timeline.specs.Root.{no_runs, Shaped, TrueAmong, TrueOfRanks};
ghost use Rattle.timeline.specs.AllLines.{truth_after, verdict_at, FitsRuns, JudgesFrom, JudgesAll, JudgesLast, FirstFails, FindsFailing};

use logic::Verdict;
use moments::{Bindings, Rank};
use order::{LINE_PLACES, Order};
use row_table::table::TABLE_WORDS;
use rules::{Rule, VARIABLES};
use sets::RunSet;
use trace::{Record, RunTable};

mod search;

// The moments at which a rule is true, whether it is true before the first of them, and how many runs are finished by each line. What
// `verdict_at` reads off it is promised.
#[derive(Clone, Copy)]
pub struct Timeline {
    pub moments: RunSet,
    pub first: bool,
    pub done: [u8; LINE_PLACES],
}

// Of the moments from `low` to below `count` those at which the rule of a file is true, by a table of rows.
fn true_moments(
    file: &[u8],
    rule: Rule,
    heights: &[u8],
    frees: &[u8],
    table: &[u64],
    runs: usize,
    low: usize,
    count: usize,
) -> RunSet
    requires taken { Taken file.now rule }
    requires shaped { Shaped file.now rule heights.now frees.now }
    requires table_words_in_bounds { (table_words ≤ length table.now) × (runs ≤ max_runs) × (low ≤ max_runs) × (count ≤ max_runs) }
    ensures { (M : Model) → RowsOf table.now file.now runs M
        → TrueAmong M (formula_of file.now rule) low count result }
{
    let none = Bindings {
        run: [Rank(0); VARIABLES],
    };
    let root = rule.count - 1;
    let dom = sets::from(sets::below(count), low);
    moments::times::times(
        file, rule.nodes, heights, frees, table, runs, root, none, dom,
    )
}

// Whether the rule of a file is true before any run is finished.
fn before_first(file: &[u8], rule: Rule, heights: &[u8], frees: &[u8]) -> bool
    requires taken { Taken file.now rule }
    requires shaped { Shaped file.now rule heights.now frees.now }
    ensures { result ≡ truth no_runs (formula_of file.now rule) (λ _. 0) 0 }
{
    let table = [0u64; TABLE_WORDS];
    let s = true_moments(file, rule, heights, frees, &table, 0, 0, 1);
    sets::has(s, 0)
}

// The moment at which n runs are finished: moment 0 where none is.
fn moment_of(n: usize) -> usize
    requires { n ≤ max_runs }
    ensures { (result ≡ n - 1) × (result ≤ max_runs) }
{
    if n == 0 {
        return 0;
    }
    n - 1
}

// The moments from that of a line on at which the rule of a file is true of the runs of a record, in the order in which they finish.
fn ranked_moments(
    file: &[u8],
    rule: Rule,
    heights: &[u8],
    frees: &[u8],
    wanted: &[u8],
    t: RunTable,
    o: Order,
    line: usize,
    stop: bool,
) -> RunSet
    requires taken { Taken file.now rule }
    requires shaped { Shaped file.now rule heights.now frees.now }
    requires order_fits { OrderFits t o × Wanted wanted.now rule.labels }
    requires line_le_max_lines { (line ≤ max_lines) × (get_or o.done line 0 ≤ max_runs) }
    ensures { TrueOfRanks stop file.now rule wanted.now t o (get_or o.done line 0 - 1) result }
{
    let low = moment_of(o.done[line] as usize);
    let mut table = [0u64; TABLE_WORDS];
    rows::fill_rows(t, o, wanted, rule.labels, &mut table);
    search::true_until(file, rule, heights, frees, &table, low, o.count, stop)
}

// Judges the lines from `line` on of the log that left a record: all of them, unless it may stop at the first that fails.
fn judge_from(file: &[u8], rule: Rule, r: Record, line: usize, stop: bool) -> Timeline
    requires taken { Taken file.now rule }
    requires valid { Valid r × (line ≤ max_lines) }
    ensures { JudgesFrom file.now rule r line stop result }
{
    let runs = r.runs;
    let labels = r.labels;
    let lines = r.lines.0 as usize;
    let o = order::finish_order(runs, lines);
    let heights = shape::heights(file, rule.nodes, rule.count);
    let frees = shape::free_variables(file, rule.nodes, rule.count);
    let wanted = logic::shown::wanted_numbers(file, rule.labels, labels);
    let first = before_first(file, rule, &heights, &frees);
    let moments = ranked_moments(file, rule, &heights, &frees, &wanted, runs, o, line, stop);
    let done = o.done;
    Timeline {
        moments: moments,
        first: first,
        done: done,
    }
}

// Judges all lines of the log that left a record.
pub fn judge_all(file: &[u8], rule: Rule, r: Record) -> Timeline
    requires taken { Taken file.now rule }
    requires valid { Valid r }
    ensures { JudgesAll file.now rule r result }
{
    judge_from(file, rule, r, 0, false)
}

// The truth value once n runs are finished.
fn truth_after(first: bool, moments: RunSet, n: usize) -> bool
    requires { n ≤ max_runs }
    ensures { result ≡ truth_after first moments n }
{
    if n == 0 {
        return first;
    }
    sets::has(moments, n - 1)
}

// The verdict of a line.
pub fn verdict_at(x: Timeline, line: usize) -> Verdict
    requires { (line ≤ max_lines) × (get_or x.done line 0 ≤ max_runs) }
    ensures { result ≡ verdict_at x line }
{
    let n = x.done[line] as usize;
    let first = x.first;
    let moments = x.moments;
    if truth_after(first, moments, n) {
        return Verdict::Holds;
    }
    Verdict::Fails
}

// Judges the last line of the log that left a record, at its one moment.
pub fn judge_last(file: &[u8], rule: Rule, r: Record) -> Verdict
    requires taken { Taken file.now rule }
    requires valid { Valid r }
    ensures { JudgesLast file.now rule r result }
{
    let last = r.lines.0 as usize;
    let x = judge_from(file, rule, r, last, false);
    verdict_at(x, last)
}

// Whether the rule of a file holds while no run is finished, as with line 1.
fn holds_of_none(file: &[u8], rule: Rule) -> bool
    requires { Taken file.now rule }
    ensures { result ≡ truth no_runs (formula_of file.now rule) (λ _. 0) 0 }
{
    let heights = shape::heights(file, rule.nodes, rule.count);
    let frees = shape::free_variables(file, rule.nodes, rule.count);
    before_first(file, rule, &heights, &frees)
}

// Whether a verdict is that the rule fails.
fn fails(v: Verdict) -> bool
    ensures { v ≡ cond result Fails Holds }
{
    match v {
        Verdict::Holds => false,
        Verdict::Fails => true,
    }
}

// The first of the lines that fails, 0 where none does.
fn first_fails(x: Timeline, lines: usize) -> usize
    requires fits_runs { FitsRuns x }
    requires lines_le_max_lines { lines ≤ max_lines }
    ensures { FirstFails x lines result }
{
    for line in 1..lines + 1 {
        if fails(verdict_at(x, line)) {
            return line;
        }
    }
    0
}

// The first line that fails of the log that left a record, 0 where none does.
pub fn first_failing(file: &[u8], rule: Rule, r: Record) -> usize
    requires taken { Taken file.now rule }
    requires valid { Valid r }
    ensures { FindsFailing file.now rule r result }
{
    let lines = r.lines.0 as usize;
    if lines == 0 {
        return 0;
    }
    if !holds_of_none(file, rule) {
        return 1;
    }
    let x = judge_from(file, rule, r, 0, true);
    first_fails(x, lines)
}
