// The table of rows that rules are judged by: for each relation and each rank the ranks so related to it, and the ranks of each label.
//
// A rank is a place in the order in which runs finish. `fill_rows` writes the table from the runs of a record. With the ranks
// that start before each line and those that finish before each line at hand, every row is a few operations on sets.
#![tactic(auto)]

ghost use Rattle.std.specs.Prelude.{◌≤◌, length};
ghost use Rattle.row_table.specs.Rows.{table_words};
ghost use Rattle.rows.specs.Values.{Wanted, Ranks};
ghost use Rattle.rows.specs.ByRank.{OrderFits, ByRank, RowsFilled};

mod values;

use crate::values::fill_table;
use lists::MAX_RUNS;
use order::Order;
use rank_tables::{earlier, numbered};
use trace::RunTable;

// Start, finish and label number of the run of each rank; 0 where no run has the rank.
#[derive(Clone, Copy)]
struct Positions {
    start: [usize; MAX_RUNS],
    finish: [usize; MAX_RUNS],
    number: [usize; MAX_RUNS],
}

// The positions of the runs of a table, by their ranks.
fn by_rank(t: RunTable, o: Order) -> Positions
    requires { OrderFits t o }
    ensures { ByRank t o o.count result.start result.finish result.number × Ranks result.start result.finish result.number }
{
    let mut start = [0usize; MAX_RUNS];
    let mut finish = [0usize; MAX_RUNS];
    let mut number = [0usize; MAX_RUNS];
    for i in 0..o.count {
        let k = o.run[i] as usize;
        let r = t.list[k];
        start[i] = r.begin.0 as usize;
        finish[i] = r.end.0 as usize;
        number[i] = r.label.0 as usize;
    }
    Positions {
        start: start,
        finish: finish,
        number: number,
    }
}

// Fills the table with the rows of the runs of a record in the order in which they finish.
pub fn fill_rows(t: RunTable, o: Order, wanted: &[u8], labels: usize, table: &mut [u64])
    requires { OrderFits t o × Wanted wanted.now labels × (table_words ≤ length table.old) }
    ensures { RowsFilled t o wanted.now labels table.old table.new }
{
    let p = by_rank(t, o);
    let start = p.start;
    let finish = p.finish;
    let number = p.number;
    let begun = earlier(&start);
    let ended = earlier(&finish);
    let labelled = numbered(&number);
    fill_table(
        &start, &finish, &number, wanted, labels, &begun, &ended, &labelled, table,
    );
}
