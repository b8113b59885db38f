// A record's fields, written as its bytes.
ghost use Rattle.std.specs.Prelude.{◌≡◌, ◌+◌, ◌*◌, ◌<◌, ◌≤◌, length};
ghost use Rattle.lists.specs.Limits.{max_runs, max_log_labels};
ghost use Rattle.record_bytes.specs.Joined.{stored};
ghost use Rattle.record_bytes.specs.Form.{runs_at, run_size, labels_at, label_size, places_at, record_size, u16_bytes, count_byte, head_bytes, run_bytes, runs_bytes, packed_label, labels_bytes, places_bytes, record_bytes};

use crate::{LABEL_BYTES, LABEL_COUNT_AT, LABELS_AT, PLACES_AT, RUN_BYTES, RUN_COUNT_AT, RUNS_AT};
use labels::{LABEL_PLACES, Label, LabelNo};
use lists::{MAX_LOG_LABELS, MAX_RUNS};
use trace::{Record, Run};

// A number of 16 bits at a place, low byte first.
fn put_u16(out: &mut [u8], at: usize, n: u16)
    requires { at + 1 < length out.old }
    ensures { out.new ≡ stored out.old at (u16_bytes n) }
{
    out[at..at + 2].copy_from_slice(&n.to_le_bytes());
}

// Run i.
fn put_run(out: &mut [u8], i: usize, r: Run)
    requires { (record_size ≤ length out.old) × (i < max_runs) }
    ensures { out.new ≡ stored out.old (runs_at + run_size * i) (run_bytes r) }
{
    let at = RUNS_AT + RUN_BYTES * i;
    put_u16(out, at, r.id);
    put_u16(out, at + 2, r.begin.0);
    put_u16(out, at + 4, r.end.0);
    out[at + 6] = r.label.0;
}

// The 128 runs.
fn put_runs(out: &mut [u8], list: [Run; MAX_RUNS])
    requires { record_size ≤ length out.old }
    ensures { out.new ≡ stored out.old runs_at (runs_bytes list) }
{
    for (i, run) in list.iter().enumerate() {
        put_run(out, i, *run);
    }
}

// Label i, from 0.
fn put_label(out: &mut [u8], i: usize, x: Label)
    requires { (record_size ≤ length out.old) × (i < max_log_labels) }
    ensures { out.new ≡ stored out.old (labels_at + label_size * i) (packed_label x) }
{
    let at = LABELS_AT + LABEL_BYTES * i;
    out[at] = x.length;
    out[at + 1..at + LABEL_BYTES].copy_from_slice(&x.bytes);
}

// The 64 labels.
fn put_labels(out: &mut [u8], list: [Label; MAX_LOG_LABELS])
    requires { record_size ≤ length out.old }
    ensures { out.new ≡ stored out.old labels_at (labels_bytes list) }
{
    for (i, label) in list.iter().enumerate() {
        put_label(out, i, *label);
    }
}

// The 128 places.
fn put_places(out: &mut [u8], list: [LabelNo; LABEL_PLACES])
    requires { record_size ≤ length out.old }
    ensures { out.new ≡ stored out.old places_at (places_bytes list) }
{
    for (i, place) in list.iter().enumerate() {
        out[PLACES_AT + i] = place.0;
    }
}

// A count in one byte; 255 for one that has no room there.
fn count_byte(n: usize) -> u8
    ensures { result ≡ count_byte n }
{
    if n < 256 { n as u8 } else { 255 }
}

// The counts: of lines, of runs and of labels.
fn put_head(out: &mut [u8], lines: u16, runs: usize, labels: usize)
    requires { record_size ≤ length out.old }
    ensures { out.new ≡ stored out.old 0 (head_bytes lines runs labels) }
{
    put_u16(out, 0, lines);
    out[RUN_COUNT_AT] = count_byte(runs);
    out[LABEL_COUNT_AT] = count_byte(labels);
}

// The whole record.
pub fn put_record(out: &mut [u8], r: Record)
    requires { record_size ≤ length out.old }
    ensures { out.new ≡ stored out.old 0 (record_bytes r) }
{
    let runs = r.runs;
    let labels = r.labels;
    put_head(out, r.lines.0, runs.count, labels.count);
    let list = runs.list;
    put_runs(out, list);
    let names = labels.labels;
    put_labels(out, names);
    let places = labels.places;
    put_places(out, places);
}
