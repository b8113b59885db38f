// The calls of the check: one line, one line with a tally, a whole log. It hands them on, and has no function of its own.
//
// `check_line` takes one line on a record and a work area, `check_line_tallied` the same with a tally (`check_line_lent` is lent it), and
// `check_log` a whole log.
#![tactic(auto)]

pub use lent::{check_line_lent, lend_tally};
pub use reading::{Ending, LogRead};
pub use single::{Checked, Outcome, check_line};
pub use tallies::{Tallied, Tally, check_line_tallied, tally_of};
pub use whole_log::{Mode, check_log};
