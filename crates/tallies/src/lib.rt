// The call on one line with a tally.
//
// `check_line_tallied` takes one line and a tally by value. `tally_of` counts a record.
#![tactic(auto)]

ghost use Rattle.std.specs.Prelude.{◌≡◌};
ghost use Rattle.tallies.specs.Tally.{ChecksTallied};

pub use counts::tally_of;
use pairs::Layout;
use single::Outcome;
use trace::Record;

mod counts;

// Counts over accepted lines: lines, runs begun, finished and open, and lines whose verdict fails.
#[derive(Clone, Copy, PartialEq, Eq)]
pub struct Tally {
    pub lines: u32,
    pub begun: u32,
    pub finished: u32,
    pub running: u32,
    pub failing: u32,
}

// The record after a line, the tally, and the line's outcome: the same record and tally where the line is refused.
#[derive(Clone, Copy)]
pub struct Tallied {
    pub state: Record,
    pub tally: Tally,
    pub outcome: Outcome,
}

// One line on a record and a work area in the layout, with a rule file and a tally, which is updated where the line is taken.
// Kept: the record, the tally and the buffers are parameters, which `ChecksTallied` and docs/API.md name one by one.
pub fn check_line_tallied(
    layout: Layout,
    file: &[u8],
    r: Record,
    y: Tally,
    work: &mut [u8],
    line: &[u8],
) -> Tallied
    ensures { ChecksTallied layout file.now r y work.old line.now result work.new }
{
    let end = pairs::work_bytes(layout);
    if work.len() < end {
        return counts::refuse_tallied(r, y, 20);
    }
    let x = rule_file::read_rule(file);
    match x {
        Err(e) => return counts::refuse_tallied(r, y, u8::from(e)),
        Ok(rule) => {
            if !reading::known(layout, r, work) {
                return counts::refuse_tallied(r, y, 21);
            }
            return counts::advance_tallied(layout, file, rule, r, y, work, line);
        }
    }
}
