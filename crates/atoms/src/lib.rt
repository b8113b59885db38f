// The parts of a typed rule that have no rule inside, the names bound around a place, and the table of nodes that reading fills.
#![tactic(auto)]

pub mod atoms;
pub mod names;
pub mod nodes;

// The place behind what was read, and how many nodes there are now.
#[derive(Clone, Copy)]
pub struct Reading {
    pub at: usize,
    pub count: usize,
}
