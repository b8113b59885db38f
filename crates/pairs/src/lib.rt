// Pair bytes in a lent work area: how each two runs of a record stand to each other.
//
// A work area has one of two layouts: `work_bytes` says how many bytes it has, `pair_place` where the byte of two runs stands. All
// else goes by these two; only `fill_pairs` looks at the layout too, to store the bytes in the order in which they stand.
// `start_record` starts a record in a lent work area. `pair_byte` gives the byte of two runs. `clear_pairs` clears the bytes,
// `fill_pairs` writes those of a record, `refresh_run` brings those of one run up to date after its begin or end line,
// and `pairs_match` compares the whole area with a record.
#![tactic(auto)]

ghost use Rattle.std.specs.Prelude.{◌≡◌, cond, ◌<◌, ◌≤◌, length};
ghost use Rattle.lists.specs.Tells.{Tells};
ghost use Rattle.lists.specs.Limits.{max_runs};
ghost use Rattle.pairs.specs.Layout.{work_size, place};
ghost use Rattle.pairs.specs.Pairs.{pair_set, pair_byte, work_of, held_trace};
ghost use Rattle.pairs.specs.Code.{lines_set, Stored, Rows, Columns, SameTo};
ghost use Rattle.pairs.specs.Refresh.{Refreshes};
ghost use Rattle.pairs.specs.Start.{start_of};
ghost use Rattle.trace.specs.Trace.{no_trace};
ghost use Rattle.trace.specs.Steps.{held};

use lists::MAX_RUNS;
use refusals::Refusal;
use trace::{Record, Run, RunNo, RunTable};

// Where the pair bytes lie: in a row for each run, or each pair of runs once.
#[derive(Clone, Copy)]
pub enum Layout {
    Square,
    Half,
}

// The pair bytes at the front of a work area in each layout: `work_size` of the specs.
pub const SQUARE_BYTES: usize = 16384;

pub const HALF_BYTES: usize = 8128;

// The record of no lines, and whether the work area is ready for it.
// Kept: what may not change: `start_of` names the record that comes with a refusal.
#[derive(Clone, Copy)]
pub struct Started {
    pub state: Record,
    pub outcome: Result<(), Refusal>,
}

// The fewest bytes of a work area in the layout.
pub fn work_bytes(layout: Layout) -> usize
    ensures { result ≡ work_size layout }
{
    match layout {
        Layout::Square => SQUARE_BYTES,
        Layout::Half => HALF_BYTES,
    }
}

// The place of the byte of two runs, of which `first` begins first.
fn pair_place(layout: Layout, first: usize, second: usize) -> usize
    requires { (first < second) × (second < max_runs) }
    ensures { (result ≡ place layout first second) × (result < work_size layout) }
{
    match layout {
        Layout::Square => MAX_RUNS * first + second,
        Layout::Half => second * (second - 1) / 2 + first,
    }
}

// One of two bytes. It has no branch when compiled.
fn choose(first: bool, a: u8, b: u8) -> u8
    ensures { result ≡ cond first a b }
{
    if first { a } else { b }
}

// The byte of two runs, by the end line of the one that begins first and both lines of the other. All cases are computed, so
// that many bytes are made at once.
fn set_of(end: u16, begin: u16, finish: u16) -> u8
    ensures { result ≡ lines_set end begin finish }
{
    let open = finish == 0;
    let first_open = choose(open, 1, 4);
    let apart = choose(open, 2, 5);
    let both_closed = choose(end < finish, 6, 7);
    let meeting = choose(open, 3, both_closed);
    let first_closed = choose(end < begin, apart, meeting);
    choose(end == 0, first_open, first_closed)
}

// The byte of two runs of which `x` begins first.
pub fn pair_byte(x: Run, y: Run) -> u8
    ensures { result ≡ pair_set x y }
{
    set_of(x.end.0, y.begin.0, y.end.0)
}

// Clears the pair bytes: those of no runs.
pub fn clear_pairs(layout: Layout, work: &mut [u8])
    requires { work_size layout ≤ length work.old }
    ensures { work.new ≡ work_of layout no_trace work.old }
{
    let end = work_bytes(layout);
    work[..end].fill(0);
}

// The bytes of the runs from `from` to below `to`, each with the runs that begin before it.
fn store_columns(layout: Layout, t: RunTable, from: usize, to: usize, work: &mut [u8])
    requires { (work_size layout ≤ length work.old) × (from ≤ to) × (to ≤ t.count) × (t.count ≤ max_runs) }
    ensures { Stored (place layout) (pair_byte (held t)) (Columns from to) work.old work.new }
{
    for z in from..to {
        let begin = t.list[z].begin.0;
        let end = t.list[z].end.0;
        for k in 0..z {
            let at = pair_place(layout, k, z);
            work[at] = set_of(t.list[k].end.0, begin, end);
        }
    }
}

// The bytes of the runs from `from` to below `to`, each with the runs that begin after it.
fn store_rows(layout: Layout, t: RunTable, from: usize, to: usize, work: &mut [u8])
    requires { (work_size layout ≤ length work.old) × (from ≤ to) × (to ≤ t.count) × (t.count ≤ max_runs) }
    ensures { Stored (place layout) (pair_byte (held t)) (Rows from to t.count) work.old work.new }
{
    let n = t.count;
    for z in from..to {
        let end = t.list[z].end.0;
        for k in z + 1..n {
            let at = pair_place(layout, z, k);
            work[at] = set_of(end, t.list[k].begin.0, t.list[k].end.0);
        }
    }
}

// Brings the bytes of run `z` up to date after its begin or end line: those with each other run that has begun.
pub fn refresh_run(layout: Layout, r: Record, z: RunNo, work: &mut [u8])
    requires { (work_size layout ≤ length work.old) × (z.0 < r.runs.count) × (r.runs.count ≤ max_runs) }
    ensures { Refreshes layout r z.0 work.old work.new }
{
    let t = r.runs;
    let at = z.0 as usize;
    store_columns(layout, t, at, at + 1, work);
    store_rows(layout, t, at, at + 1, work);
}

// Fills the pair bytes with those of the record's runs, in the order in which they stand.
pub fn fill_pairs(layout: Layout, r: Record, work: &mut [u8])
    requires { (work_size layout ≤ length work.old) × (r.runs.count ≤ max_runs) }
    ensures { work.new ≡ work_of layout (held_trace r) work.old }
{
    let t = r.runs;
    clear_pairs(layout, work);
    match layout {
        Layout::Square => store_rows(layout, t, 0, t.count, work),
        Layout::Half => store_columns(layout, t, 0, t.count, work),
    }
}

// Whether two areas have the same first bytes.
fn same_bytes<'a>(work: &'a [u8], right: &'a [u8], end: usize) -> bool
    requires { (end ≤ length work.now) × (end ≤ length right.now) }
    ensures { Tells result (SameTo end work.now right.now) }
{
    work[..end] == right[..end]
}

// Whether the pair bytes of the work area are those of the record's runs.
pub fn pairs_match(layout: Layout, r: Record, work: &[u8]) -> bool
    requires { (work_size layout ≤ length work.now) × (r.runs.count ≤ max_runs) }
    ensures { Tells result (work.now ≡ work_of layout (held_trace r) work.now) }
{
    let mut bytes = [0u8; SQUARE_BYTES];
    let right: &mut [u8] = &mut bytes;
    fill_pairs(layout, r, right);
    let end = work_bytes(layout);
    same_bytes(work, right, end)
}

// Starts a record: clears the pair bytes and answers the record of no lines, or refuses a short area and touches nothing.
pub fn start_record(layout: Layout, work: &mut [u8]) -> Started
    ensures { (result, work.new) ≡ start_of layout work.old }
{
    let state = trace::no_lines();
    let end = work_bytes(layout);
    if work.len() < end {
        return Started {
            state: state,
            outcome: Err(Refusal::ShortBuffer),
        };
    }
    clear_pairs(layout, work);
    Started {
        state: state,
        outcome: Ok(()),
    }
}
