// The search for slips, by the evaluator of all moments.
//
// `search` finds the first slip of a chain of "some" in order of run numbers. It fixes the outermost run first: of the
// runs in order of their numbers, the first for which the evaluator says that the rest of the chain is true at the last
// moment; then the next. So a chain of four asks at most 4 times 128 questions, and one of the part below it.
// `is_true_of` asks one: whether that part is true of given runs.
#![tactic(auto)]

ghost use Rattle.std.specs.Prelude.{◌≡◌, ◌&&◌, ℕ, ◌<◌, ◌≤◌, IfSome, ltb, length, get_or};
ghost use Rattle.lists.specs.Limits.{max_runs};
ghost use Rattle.lists.specs.Tells.{Tells};
ghost use Rattle.sets.specs.Sets.{mem};
ghost use Rattle.rules.specs.Limits.{variables, max_nested};
ghost use Rattle.rules.specs.Table.{formula_at};
ghost use Rattle.logic.specs.Model.{Model};
ghost use Rattle.shape.specs.Shape.{height};
ghost use Rattle.row_table.specs.Truth.{truth, Fixed};
ghost use Rattle.row_table.specs.Rows.{RowsOf};
ghost use Rattle.row_table.specs.Ranks.{binding};
ghost use Rattle.moments.specs.Ready.{Ready};
ghost use Rattle.timeline.proofs.Root.{from_zero};
ghost use Rattle.slip_form.specs.Slips.{slip_runs};
ghost use Rattle.slip_search.specs.First.{FirstOf, serves, of_ranks, true_for, RanksOf, AsksOf, Seeks, Tidy, Whole};

use lists::MAX_RUNS;
use moments::{Bindings, Rank};
use order::Order;
use row_table::ranks::rebound;
use rule_file::MAX_NESTED;
use rules::VARIABLES;
use rules::table::node_at;
use sets::RunSet;
use slip_form::Slip;
use trace::RunNo;

// The rank of each run, MAX_RUNS where it is not finished.
pub fn ranks_of(o: Order) -> [u8; MAX_RUNS]
    requires { (o.count ≤ max_runs) × ((i : ℕ) → i < o.count → get_or o.run i 0 < max_runs) }
    ensures { RanksOf o result }
{
    let mut ranks = [MAX_RUNS as u8; MAX_RUNS];
    for (rank, run) in o.run[..o.count].iter().enumerate() {
        ranks[*run as usize] = rank as u8;
    }
    ranks
}

// Whether the formula of a node is true at a moment, of the ranks that the variables stand for.
fn holds_at(
    file: &[u8],
    first: usize,
    heights: &[u8],
    frees: &[u8],
    table: &[u64],
    runs: usize,
    node: usize,
    b: Bindings,
    moment: usize,
) -> bool
    requires { Ready file.now first heights.now frees.now table.now runs node b × Fixed (binding b) × (moment < max_runs) }
    ensures { (M : Model) → RowsOf table.now file.now runs M
        → result ≡ truth M (formula_at file.now first node) (binding b) moment }
{
    let dom = sets::from(sets::below(moment + 1), moment);
    let s = moments::times::times(file, first, heights, frees, table, runs, node, b, dom);
    sets::has(s, moment)
}

// Whether a rank is below `runs` and in a set.
fn is_kept(keep: RunSet, r: u8, runs: usize) -> bool
    requires { runs ≤ max_runs }
    ensures { result ≡ (ltb r runs && mem keep r) }
{
    let i = r as usize;
    i < runs && sets::has(keep, i)
}

// The first run, by its number, that serves as variable v of the formula of a node at a moment.
fn first_run(
    file: &[u8],
    first: usize,
    heights: &[u8],
    frees: &[u8],
    table: &[u64],
    runs: usize,
    child: usize,
    v: usize,
    b: Bindings,
    ranks: &[u8],
    moment: usize,
) -> Option<usize>
    requires ready { Ready file.now first heights.now frees.now table.now runs child b × Fixed (binding b) × (moment < max_runs) }
    requires v_lt_variables { (v < variables) × (length ranks.now ≡ max_runs) }
    ensures { IfSome result (λ k. (k < max_runs) × (get_or ranks.now k 0 < runs)) × ((M : Model) → RowsOf table.now file.now runs M
        → FirstOf (serves (of_ranks M ranks.now runs moment) (formula_at file.now first child) (binding b) v) max_runs result) }
{
    let keep = moments::times::kept(file, first, heights, frees, table, runs, child, v, b);
    for (k, rank) in ranks.iter().enumerate() {
        if is_kept(keep, *rank, runs) {
            let at_rank = rebound(b, v, Rank(*rank));
            if holds_at(
                file, first, heights, frees, table, runs, child, at_rank, moment,
            ) {
                return Some(k);
            }
        }
    }
    None
}

// The first slip of the chain of "some" at a node, in order of run numbers.
pub fn search(
    file: &[u8],
    first: usize,
    heights: &[u8],
    frees: &[u8],
    table: &[u64],
    runs: usize,
    top: usize,
    ranks: &[u8],
    moment: usize,
) -> Option<Slip>
    requires ready { Ready file.now first heights.now frees.now table.now runs top from_zero × (moment < max_runs) × (length ranks.now ≡ max_runs) }
    requires top_bound { height (formula_at file.now first top) ≤ max_nested }
    ensures { IfSome result Tidy × ((M : Model) → AsksOf table.now file.now ranks.now runs moment M
        → Seeks (of_ranks M ranks.now runs moment) (binding from_zero) (formula_at file.now first top) result) }
{
    let mut slip = Slip {
        count: 0,
        run: [RunNo(0); MAX_NESTED],
    };
    let mut b = Bindings {
        run: [Rank(0); VARIABLES],
    };
    let mut node = top;
    let mut x = node_at(file, first, node);
    // Kept: no plainer. The walk goes down a chain of nodes and may end at each; `successors` would need a step that fails.
    while x.kind == 3 {
        let v = x.a;
        let child = x.b;
        let k = first_run(
            file, first, heights, frees, table, runs, child, v, b, ranks, moment,
        )?;
        let at = slip.count;
        slip.run[at] = RunNo(k as u8);
        slip.count = at + 1;
        b = rebound(b, v, Rank(ranks[k]));
        node = child;
        x = node_at(file, first, node);
    }
    if holds_at(file, first, heights, frees, table, runs, node, b, moment) {
        return Some(slip);
    }
    None
}

// Whether a run has a rank below `runs`.
fn has_rank(run: RunNo, ranks: &[u8], runs: usize) -> bool
    requires { length ranks.now ≡ max_runs }
    ensures { result ≡ (ltb run.0 max_runs && ltb (get_or ranks.now run.0 0) runs) }
{
    let k = run.0 as usize;
    k < MAX_RUNS && (ranks[k] as usize) < runs
}

// Whether a slip has n runs, each of them with a rank below `runs`.
pub fn is_whole(slip: Slip, n: usize, ranks: &[u8], runs: usize) -> bool
    requires { (n ≤ max_nested) × (length ranks.now ≡ max_runs) }
    ensures { Tells result (Whole slip n ranks.now runs) }
{
    slip.count == n
        && slip
            .run
            .iter()
            .take(n)
            .all(|run| has_rank(*run, ranks, runs))
}

// Whether the part below the chain of "some" at a node is true of the runs of a slip.
pub fn is_true_of(
    file: &[u8],
    first: usize,
    heights: &[u8],
    frees: &[u8],
    table: &[u64],
    runs: usize,
    top: usize,
    ranks: &[u8],
    moment: usize,
    slip: Slip,
) -> bool
    requires ready { Ready file.now first heights.now frees.now table.now runs top from_zero × (moment < max_runs) × (length ranks.now ≡ max_runs) }
    requires top_bound { (height (formula_at file.now first top) ≤ max_nested) × Whole slip (height (formula_at file.now first top)) ranks.now runs }
    ensures { (M : Model) → RowsOf table.now file.now runs M
        → result ≡ true_for (of_ranks M ranks.now runs moment) (binding from_zero) (formula_at file.now first top) (slip_runs slip) }
{
    let mut i: usize = 0;
    let mut b = Bindings {
        run: [Rank(0); VARIABLES],
    };
    let mut node = top;
    let mut x = node_at(file, first, node);
    // Kept: the new form is no plainer. The chain says where the walk ends, which a `for` over the slip's runs would test and break at.
    while x.kind == 3 {
        let run = slip.run[i];
        let k = run.0 as usize;
        b = rebound(b, x.a, Rank(ranks[k]));
        i += 1;
        node = x.b;
        x = node_at(file, first, node);
    }
    holds_at(file, first, heights, frees, table, runs, node, b, moment)
}
