// The search for a run by rows: all runs and all moments at once.
//
// `keep::some_rows` searches in a matrix.
#![tactic(auto)]

pub mod keep;

// The mark of a variable that stands in row k of a matrix for run k: each_row of specs.
const ROWS: usize = 129;
