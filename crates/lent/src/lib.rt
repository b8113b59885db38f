// The call on one line that is lent a tally.
//
// `check_line_lent` updates the tally where it stands, by `update`; `lend_tally` calls it for a caller that holds a tally by value.
#![tactic(auto)]

ghost use Rattle.std.specs.Prelude.{◌≡◌};
ghost use Rattle.tallies.specs.Tally.{untallied, ChecksTallied, ChecksLent};

use pairs::Layout;
use single::Checked;
use tallies::{Tallied, Tally, check_line_tallied};
use trace::Record;

// The lent tally becomes that of the answer; the rest of the answer.
pub fn update(tally: &mut Tally, a: Tallied) -> Checked
    ensures { (result ≡ untallied a) × (tally.new ≡ a.tally) }
{
    *tally = a.tally;
    Checked {
        state: a.state,
        outcome: a.outcome,
    }
}

// One line with a tally that is lent: it is updated where it stands, and the answer has the other parts.
pub fn check_line_lent(
    layout: Layout,
    file: &[u8],
    r: Record,
    tally: &mut Tally,
    work: &mut [u8],
    line: &[u8],
) -> Checked
    ensures { ChecksLent layout file.now r tally.old work.old line.now result tally.new work.new }
{
    let a = check_line_tallied(layout, file, r, *tally, work, line);
    update(tally, a)
}

// The same for a caller that holds the tally by value: a tally of its own is lent.
pub fn lend_tally(
    layout: Layout,
    file: &[u8],
    r: Record,
    y: Tally,
    work: &mut [u8],
    line: &[u8],
) -> Tallied
    ensures { ChecksTallied layout file.now r y work.old line.now result work.new }
{
    let mut tally = y;
    let c = check_line_lent(layout, file, r, &mut tally, work, line);
    Tallied {
        state: c.state,
        tally: tally,
        outcome: c.outcome,
    }
}
