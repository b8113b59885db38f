// The parts of a rule file, each read at its place: `front::head`, `file_labels::labels`, `table::node_count` and
// `table::nodes` answer the place after their part, or its first fault.
//
// Nothing is copied: a rule names places of its file. For a file that is taken, `file_labels::label_of` gives a label, in
// capitals, and `table::node_at` a node.
#![tactic(auto)]

pub mod file_labels;
pub mod front;
pub mod table;

// The most labels of a file.
pub const MAX_LABELS: usize = 16;

// The most nodes of a table.
pub const MAX_NODES: usize = 64;

// Variables are numbered from 0 to one less.
pub const VARIABLES: usize = 4;

// The place of the label count.
pub const LABEL_COUNT_AT: usize = 5;

// The place of the first label.
const LABELS_AT: usize = 6;

// A node of the table.
#[derive(Clone, Copy)]
pub struct Node {
    pub kind: u8,
    pub a: usize,
    pub b: usize,
}

// Which variables a "some" around the place binds.
#[derive(Clone, Copy)]
pub struct Vars {
    pub bound: [bool; VARIABLES],
}

// How many labels the file lists; the place of the first node, and how many nodes.
#[derive(Clone, Copy)]
pub struct Rule {
    pub labels: usize,
    pub nodes: usize,
    pub count: usize,
}
