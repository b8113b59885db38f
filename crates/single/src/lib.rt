// The call on one line.
//
// `check_line` takes one line on a record and a work area. Inside, `advance` takes a line on a record and a work area that are known to be good;
// every call on one line ends in it.
#![tactic(auto)]

ghost use Rattle.std.specs.Prelude.{◌≡◌};
ghost use Rattle.single.specs.Line.{ChecksLine};

use pairs::Layout;
pub use step::advance;
use trace::Record;

mod step;

// The verdict of a line that is taken, or the number of the refusal.
#[derive(Clone, Copy)]
pub enum Outcome {
    Holds,
    Fails,
    Refused(u8),
}

// The record after a line, and the line's outcome: the same record where the line is refused.
#[derive(Clone, Copy)]
pub struct Checked {
    pub state: Record,
    pub outcome: Outcome,
}

// One line on a record and a work area in the layout, with a rule file: the new record and the verdict, or the refusal and the same record.
// Kept: the record and the buffers are parameters, which `ChecksLine` and docs/API.md name one by one.
pub fn check_line(layout: Layout, file: &[u8], r: Record, work: &mut [u8], line: &[u8]) -> Checked
    ensures { ChecksLine layout file.now r work.old line.now result work.new }
{
    let end = pairs::work_bytes(layout);
    if work.len() < end {
        return Checked {
            state: r,
            outcome: Outcome::Refused(20),
        };
    }
    let x = rule_file::read_rule(file);
    match x {
        Err(e) => {
            return Checked {
                state: r,
                outcome: Outcome::Refused(u8::from(e)),
            };
        }
        Ok(rule) => {
            if !reading::known(layout, r, work) {
                return Checked {
                    state: r,
                    outcome: Outcome::Refused(21),
                };
            }
            return step::advance(layout, file, rule, r, work, line);
        }
    }
}
