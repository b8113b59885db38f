// The evaluator: all moments at once.
//
// Finished runs are numbered by rank, in the order in which they finished, and moment m is the one at which the runs of rank 0 to m
// are finished. `times::times` answers the moments at which the formula of a node is true, as one set.
#![tactic(auto)]

mod search;
pub mod times;

pub use row_table::{Bindings, Rank};
