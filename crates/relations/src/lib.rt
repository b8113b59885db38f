// How runs of a log relate, and sets of relations.
//
// `relation_between` compares the positions of two runs, `relate` two runs of a record. `compose` and `converse` answer the
// composition of two sets of relations and the converse of one.
#![tactic(auto)]

ghost use Rattle.std.specs.Prelude.{◌≡◌, get_or};
ghost use Rattle.trace.specs.Trace.{no_run};
ghost use Rattle.relations.specs.Relation.{Compared};
ghost use Rattle.relations.specs.Runs.{span_of, Relating, Conversed};
ghost use Rattle.relations.specs.Compose.{Composition};

use lists::MAX_RUNS;
use positions::{all_fit, cut, signs_narrow, signs_wide};
use refusals::Refusal;
use trace::{Record, RunNo, RunTable};

mod naming;
mod table;

// The six relations by their numbers.
// Kept: C interface: `scene_log_relate` answers these numbers, and `scene_log_compose` takes and answers their sums.
const BEFORE: u8 = 1;

const AFTER: u8 = 2;

const OVERLAPS: u8 = 4;

const OVERLAPPED: u8 = 8;

const INCLUDES: u8 = 16;

const DURING: u8 = 32;

// The set of all six.
const ALL: u8 = 63;

// Before, overlaps and includes; and their converses, whose numbers are twice as large.
const FORWARDS: u8 = BEFORE + OVERLAPS + INCLUDES;

const BACKWARDS: u8 = AFTER + OVERLAPPED + DURING;

// The lines where a run starts and finishes: 0 for none.
#[derive(Clone, Copy)]
struct Span {
    start: u64,
    finish: u64,
}

// The number of the relation of a to b, by where they start and finish, or 0.
// Kept: what may not change: the clause `Compared` names 0 where none of the six holds.
pub fn relation_between(start_a: u64, finish_a: u64, start_b: u64, finish_b: u64) -> u8
    ensures { Compared start_a finish_a start_b finish_b result }
{
    if all_fit(start_a, finish_a, start_b, finish_b) {
        return naming::name_of(signs_narrow(
            cut(start_a),
            cut(finish_a),
            cut(start_b),
            cut(finish_b),
        ));
    }
    naming::name_of(signs_wide(start_a, finish_a, start_b, finish_b))
}

// Where run k of the table starts and finishes.
fn span_of(t: RunTable, k: RunNo) -> Span
    ensures { result ≡ span_of (get_or t.list k.0 no_run) }
{
    let at = k.0 as usize;
    if at < MAX_RUNS {
        let r = t.list[at];
        return Span {
            start: r.begin.0 as u64,
            finish: r.end.0 as u64,
        };
    }
    Span {
        start: 0,
        finish: 0,
    }
}

// The number of the relation of run a to run b of the record.
pub fn relate(r: Record, a: RunNo, b: RunNo) -> Result<u8, Refusal>
    ensures { Relating r a b result }
{
    if !replay::is_record(r) {
        return Err(Refusal::NoRecord);
    }
    let runs = r.runs;
    let x = span_of(runs, a);
    if x.finish == 0 {
        return Err(Refusal::NoFinishedRun);
    }
    let y = span_of(runs, b);
    if y.finish == 0 {
        return Err(Refusal::NoFinishedRun);
    }
    if a.0 == b.0 {
        return Err(Refusal::SameRun);
    }
    Ok(relation_between(x.start, x.finish, y.start, y.finish))
}

// A set as a number that a place of the table is reckoned with.
fn wide(x: u8) -> usize
    ensures { result ≡ x }
{
    x as usize
}

// The composition of two sets.
pub fn compose(a: u8, b: u8) -> Result<u8, Refusal>
    ensures { Composition a b result }
{
    if a > ALL {
        return Err(Refusal::NoSet);
    }
    if b > ALL {
        return Err(Refusal::NoSet);
    }
    Ok(table::entry(64 * wide(a) + wide(b)))
}

// The converses of a set's members.
pub fn converse(c: u8) -> Result<u8, Refusal>
    ensures { Conversed c result }
{
    if c > ALL {
        return Err(Refusal::NoSet);
    }
    Ok((c & FORWARDS) * 2 + (c & BACKWARDS) / 2)
}
