// Tallies: the counts of a record, whether a tally has them, the tally after a line, and its update where it stands.
ghost use Rattle.std.specs.Prelude.{◌≡◌, ◌≤◌};
ghost use Rattle.lists.specs.Limits.{max_runs, max_lines};
ghost use Rattle.trace.specs.Steps.{held};
ghost use Rattle.rules.specs.Rules.{Taken};
ghost use Rattle.reading.specs.Left.{Standing};
ghost use Rattle.trace.specs.Orderly.{finished_runs};
ghost use Rattle.tallies.specs.Tally.{refusing_with, CountsRecord, MatchesRecord, CountsLine, AdvancesTallied};

use crate::{Tallied, Tally};
use pairs::Layout;
use rules::Rule;
use single::{Checked, Outcome, advance};
use trace::{Record, RunTable};

// The answer of a refused line, with the same record and tally.
pub fn refuse_tallied(r: Record, y: Tally, n: u8) -> Tallied
    ensures { result ≡ refusing_with r y n }
{
    Tallied {
        state: r,
        tally: y,
        outcome: Outcome::Refused(n),
    }
}

// How many runs of the table are finished.
fn finished_count(t: RunTable) -> u32
    requires { t.count ≤ max_runs }
    ensures { result ≡ finished_runs (held t) }
{
    let runs = t.list[..t.count].iter();
    runs.filter(|run| run.end.0 != 0).count() as u32
}

// The tally of a record, with the count of failing lines.
pub fn tally_of(r: Record, failing: u32) -> Tally
    requires { r.runs.count ≤ max_runs }
    ensures { CountsRecord r failing result }
{
    let runs = r.runs;
    let finished = finished_count(runs);
    let begun = runs.count as u32;
    Tally {
        lines: r.lines.0 as u32,
        begun: begun,
        finished: finished,
        running: begun - finished,
        failing: failing,
    }
}

// Whether a tally has the counts of a record.
fn counts_match(r: Record, y: Tally) -> bool
    requires { r.runs.count ≤ max_runs }
    ensures { MatchesRecord r y result }
{
    y == tally_of(r, y.failing) && y.failing <= y.lines
}

// The answer with the tally after a line: the same tally where the line is refused.
fn count_line(c: Checked, y: Tally) -> Tallied
    requires { (c.state.runs.count ≤ max_runs) × (y.failing ≤ max_lines) }
    ensures { CountsLine c y result }
{
    let state = c.state;
    let o = c.outcome;
    match o {
        Outcome::Refused(n) => {
            return Tallied {
                state: state,
                tally: y,
                outcome: Outcome::Refused(n),
            };
        }
        Outcome::Holds => {
            let z = tally_of(state, y.failing);
            return Tallied {
                state: state,
                tally: z,
                outcome: Outcome::Holds,
            };
        }
        Outcome::Fails => {
            let z = tally_of(state, y.failing + 1);
            return Tallied {
                state: state,
                tally: z,
                outcome: Outcome::Fails,
            };
        }
    }
}

// One line with a tally, on a record and a work area that accepted lines leave: 24 before the line.
pub fn advance_tallied(
    layout: Layout,
    file: &[u8],
    rule: Rule,
    r: Record,
    y: Tally,
    work: &mut [u8],
    line: &[u8],
) -> Tallied
    requires taken { Taken file.now rule }
    requires standing { Standing layout r work.old }
    ensures { AdvancesTallied layout file.now rule r y work.old line.now result work.new }
{
    if !counts_match(r, y) {
        return refuse_tallied(r, y, 24);
    }
    let c = advance(layout, file, rule, r, work, line);
    count_line(c, y)
}
