// Tables of sets: a row is two words of a lent table.
//
// `row` and `store_row` read and write one row. The other calls go once over the first rows. They serve a matrix, which has for each
// run a row with moments.
#![tactic(auto)]

ghost use Rattle.std.specs.Prelude.{◌≡◌, true, false, not, ℕ, ◌+◌, ◌*◌, ◌<◌, ◌≤◌, length};
ghost use Rattle.lists.specs.Lists.{any_below};
ghost use Rattle.lists.specs.Limits.{max_runs};
ghost use Rattle.sets.specs.Sets.{mem, any_up_to};
ghost use Rattle.sets.specs.declared.RunSet.{RunSet};
ghost use Rattle.set_table.specs.Rows.{row as row_of, Stored, RowByRow, Narrowed, StartOf, LeftOf};

use sets::RunSet;

// Row r of a table.
pub fn row(table: &[u64], r: usize) -> RunSet
    requires { 2 * r + 1 < length table.now }
    ensures { result ≡ row_of table.now r }
{
    RunSet {
        lo: table[2 * r],
        hi: table[2 * r + 1],
    }
}

// Row k is the set from now on.
pub fn store_row(m: &mut [u64], k: usize, s: RunSet)
    requires { 2 * k + 1 < length m.old }
    ensures { Stored m.old m.new k s }
{
    m[2 * k] = s.lo;
    m[2 * k + 1] = s.hi;
}

// Row k becomes what f makes of it, for each of the first rows.
fn each_row<F: Fn(usize, RunSet) -> RunSet>(m: &mut [u64], runs: usize, f: F)
    requires room { 2 * runs ≤ length m.old }
    requires calls { (k : ℕ) → k < runs → (s : RunSet) → F.pre f k s }
    ensures { RowByRow (λ k old new. F.post f k old new) runs m.old m.new }
{
    for k in 0..runs {
        let s = f(k, row(m, k));
        store_row(m, k, s);
    }
}

// Row k keeps what row base + k of a table has.
pub fn meet_rows(m: &mut [u64], runs: usize, table: &[u64], base: usize)
    requires { (2 * runs ≤ length m.old) × (base ≤ 896) × (2 * (base + runs) ≤ length table.now) }
    ensures { RowByRow (λ k. Narrowed (mem (row_of table.now (base + k)))) runs m.old m.new }
{
    each_row(m, runs, |k, s| sets::meet(s, row(table, base + k)));
}

// Each row keeps what a set has.
pub fn meet_each(m: &mut [u64], runs: usize, s: RunSet)
    requires { 2 * runs ≤ length m.old }
    ensures { RowByRow (λ k. Narrowed (mem s)) runs m.old m.new }
{
    each_row(m, runs, |_, t| sets::meet(t, s));
}

// Row k, here t, if a set has k, and nothing otherwise.
fn picked(t: RunSet, k: usize, s: RunSet) -> RunSet
    requires { k < max_runs }
    ensures { Narrowed (λ _. mem s k) t result }
{
    if sets::has(s, k) { t } else { sets::empty() }
}

// The rows of the runs of a set stay, and the others become empty.
pub fn pick_rows(m: &mut [u64], runs: usize, s: RunSet)
    requires { (2 * runs ≤ length m.old) × (runs ≤ max_runs) }
    ensures { RowByRow (λ k. Narrowed (λ _. mem s k)) runs m.old m.new }
{
    each_row(m, runs, |k, t| picked(t, k, s));
}

// Row k loses what row k of another matrix has.
pub fn minus_rows(m: &mut [u64], runs: usize, other: &[u64])
    requires { (2 * runs ≤ length m.old) × (2 * runs ≤ length other.now) }
    ensures { RowByRow (λ k. Narrowed (λ j. not (mem (row_of other.now k) j))) runs m.old m.new }
{
    each_row(m, runs, |k, s| sets::minus(s, row(other, k)));
}

// Row k keeps the moments from the first on that row k of another matrix has.
pub fn meet_upward(m: &mut [u64], runs: usize, other: &[u64])
    requires { (2 * runs ≤ length m.old) × (2 * runs ≤ length other.now) }
    ensures { RowByRow (λ k. Narrowed (λ j. any_up_to j (mem (row_of other.now k)))) runs m.old m.new }
{
    each_row(m, runs, |k, s| sets::meet(s, sets::upward(row(other, k))));
}

// Each row is a set from now on.
pub fn set_each(m: &mut [u64], runs: usize, s: RunSet)
    requires { 2 * runs ≤ length m.old }
    ensures { RowByRow (λ k old new. new ≡ s) runs m.old m.new }
{
    each_row(m, runs, |_, _| s);
}

// Row k is row k of another matrix from now on.
pub fn copy_rows(m: &mut [u64], runs: usize, other: &[u64])
    requires { (2 * runs ≤ length m.old) × (2 * runs ≤ length other.now) }
    ensures { RowByRow (λ k old new. new ≡ row_of other.now k) runs m.old m.new }
{
    each_row(m, runs, |k, _| row(other, k));
}

// The moments of dom from r on that are not in got; none if r is not in keep.
pub fn left_of(dom: RunSet, got: RunSet, keep: RunSet, r: usize) -> RunSet
    requires { r < max_runs }
    ensures { LeftOf dom got keep r result }
{
    if sets::has(keep, r) {
        sets::minus(sets::from(dom, r), got)
    } else {
        sets::empty()
    }
}

// Row k has the moments of dom from k on, and none if k is not in keep.
pub fn start_rows(m: &mut [u64], runs: usize, dom: RunSet, keep: RunSet)
    requires { (2 * runs ≤ length m.old) × (runs ≤ max_runs) }
    ensures { RowByRow (λ k old. StartOf dom keep k) runs m.old m.new }
{
    let none = sets::empty();
    each_row(m, runs, |k, _| left_of(dom, none, keep, k));
}

// Whether no row has a moment. Only a yes is promised: it saves work.
pub fn no_rows(m: &[u64], runs: usize) -> bool
    requires { 2 * runs ≤ length m.now }
    ensures { result ≡ true → (k : ℕ) → k < runs → (j : ℕ) → mem (row_of m.now k) j ≡ false }
{
    (0..runs).all(|k| sets::none(row(m, k)))
}

// What the rows have together.
pub fn all_rows(m: &[u64], runs: usize) -> RunSet
    requires { 2 * runs ≤ length m.now }
    ensures { (j : ℕ) → mem result j ≡ any_below runs (λ k. mem (row_of m.now k) j) }
{
    let mut s = sets::empty();
    for k in 0..runs {
        s = sets::join(s, row(m, k));
    }
    s
}
