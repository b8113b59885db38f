// Lists, bytes, tests that decide and the limits of a log: definitions and laws that the other crates share.
#![tactic(auto)]

// "At most 128 runs and 64 labels, hence 256 lines": max_runs, max_lines and max_log_labels of specs.
pub const MAX_RUNS: usize = 128;

pub const MAX_LINES: usize = 256;

pub const MAX_LOG_LABELS: usize = 64;
