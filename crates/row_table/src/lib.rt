// The table of rows that the evaluator asks, and what variables stand for.
//
// Finished runs are numbered by rank, in the order in which they finished, and moment m is the one at which the runs of rank 0 to m
// are finished. `table` reads the table of rows, `ranks` what variables stand for.
#![tactic(auto)]

pub mod ranks;
pub mod table;

use rules::VARIABLES;

// The rank of a run that a variable stands for, or a mark.
#[derive(Clone, Copy)]
pub struct Rank(pub u8);

// The rank that each variable stands for.
#[derive(Clone, Copy)]
pub struct Bindings {
    pub run: [Rank; VARIABLES],
}

// The mark of a variable that stands at moment j for run j: each of specs.
pub const EACH: usize = 128;
