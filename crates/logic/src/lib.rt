// The interval logic: what a rule says of the lines read so far, and the labels of a rule file among those of a record.
//
// What a rule means stands in specs: `Satisfies`, the logic's own definition, `Model`, the same as a test, and `Verdict`, what a verdict
// says. The verdict itself is computed by `timeline`, for all lines of a log at once.
#![tactic(auto)]

pub mod shown;

// What the check says after a line: the rule holds, or it fails.
#[derive(Clone, Copy)]
pub enum Verdict {
    Holds,
    Fails,
}
