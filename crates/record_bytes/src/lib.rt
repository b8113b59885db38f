// The carried record as bytes, for callers to whom only numbers and byte slices pass.
//
// `pack` writes a record's 2,628 bytes into a lent buffer, `unpack` reads them back. Any bytes give a record; whether accepted
// lines leave it is asked where it is used, and refused there with 21.
//
// The form: bytes 0 and 1 hold the line count, low byte first, byte 2 the count of runs, byte 3 the count of labels. From byte 4
// on there are 7 bytes for each of 128 runs: id, begin line and end line, each low byte first, and the label's number. From byte
// 900 on there are 25 bytes for each of 64 labels: its length and its 24 bytes. From byte 2,500 on the 128 places.
#![tactic(auto)]

ghost use Rattle.record_bytes.specs.Calls.{Unpacks, Packs};

use refusals::Refusal;
use trace::Record;

mod read;
mod write;

// The bytes of a record.
pub const RECORD_BYTES: usize = 2628;

// The places of the two counts that follow the line count.
const RUN_COUNT_AT: usize = 2;

const LABEL_COUNT_AT: usize = 3;

// The first run's place, and the bytes of a run.
const RUNS_AT: usize = 4;

const RUN_BYTES: usize = 7;

// The first label's place, and the bytes of a label: its length and its bytes.
const LABELS_AT: usize = 900;

const LABEL_BYTES: usize = 25;

// The place of the first of the 128 label places, of one byte each.
const PLACES_AT: usize = 2500;

// The record that bytes hold: the record of no lines where they are refused.
// Kept: what may not change: `Unpacks` names the record that comes with a refusal.
#[derive(Clone, Copy)]
pub struct Unpacked {
    pub state: Record,
    pub outcome: Result<(), Refusal>,
}

// The record that the first 2,628 bytes hold; fewer are refused.
pub fn unpack(bytes: &[u8]) -> Unpacked
    ensures { Unpacks bytes.now result }
{
    if bytes.len() < RECORD_BYTES {
        let none = trace::no_lines();
        return Unpacked {
            state: none,
            outcome: Err(Refusal::ShortBuffer),
        };
    }
    let r = read::record_from(bytes);
    Unpacked {
        state: r,
        outcome: Ok(()),
    }
}

// Writes the record's bytes to the front of a buffer, or refuses a short one and touches nothing.
pub fn pack(r: Record, out: &mut [u8]) -> Result<(), Refusal>
    ensures { Packs r out.old result out.new }
{
    if out.len() < RECORD_BYTES {
        return Err(Refusal::ShortBuffer);
    }
    write::put_record(out, r);
    Ok(())
}
