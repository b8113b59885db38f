// A record's fields, read from its bytes.
ghost use Rattle.std.specs.Prelude.{◌≡◌, ◌+◌, ◌<◌, ◌≤◌, length};
ghost use Rattle.lists.specs.Limits.{max_runs, max_log_labels};
ghost use Rattle.record_bytes.specs.Form.{record_size, u16_at, run_from, runs_from, label_from, labels_from, places_from, record_from};

use crate::{LABEL_BYTES, LABEL_COUNT_AT, LABELS_AT, PLACES_AT, RUN_BYTES, RUN_COUNT_AT, RUNS_AT};
use labels::{LABEL_PLACES, Label, LabelNo, LabelTable, MAX_LABEL_BYTES};
use lists::{MAX_LOG_LABELS, MAX_RUNS};
use trace::{LineNo, Record, Run, RunTable};

// The number of 16 bits at a place, low byte first.
fn u16_at(bytes: &[u8], at: usize) -> u16
    requires { at + 1 < length bytes.now }
    ensures { result ≡ u16_at bytes.now at }
{
    u16::from_le_bytes([bytes[at], bytes[at + 1]])
}

// Run i.
fn run_at(bytes: &[u8], i: usize) -> Run
    requires { (record_size ≤ length bytes.now) × (i < max_runs) }
    ensures { result ≡ run_from bytes.now i }
{
    let at = RUNS_AT + RUN_BYTES * i;
    let id = u16_at(bytes, at);
    let begin = u16_at(bytes, at + 2);
    let end = u16_at(bytes, at + 4);
    let label = bytes[at + 6];
    Run {
        id: id,
        begin: LineNo(begin),
        end: LineNo(end),
        label: LabelNo(label),
    }
}

// The 128 runs.
fn runs_from(bytes: &[u8]) -> [Run; MAX_RUNS]
    requires { record_size ≤ length bytes.now }
    ensures { result ≡ runs_from bytes.now }
{
    let mut list = [run_at(bytes, 0); MAX_RUNS];
    for (i, run) in list.iter_mut().enumerate() {
        *run = run_at(bytes, i);
    }
    list
}

// Label i, from 0.
fn label_at(bytes: &[u8], i: usize) -> Label
    requires { (record_size ≤ length bytes.now) × (i < max_log_labels) }
    ensures { result ≡ label_from bytes.now i }
{
    let at = LABELS_AT + LABEL_BYTES * i;
    let mut text = [0u8; MAX_LABEL_BYTES];
    text.copy_from_slice(&bytes[at + 1..at + LABEL_BYTES]);
    Label {
        bytes: text,
        length: bytes[at],
    }
}

// The 64 labels.
fn labels_from(bytes: &[u8]) -> [Label; MAX_LOG_LABELS]
    requires { record_size ≤ length bytes.now }
    ensures { result ≡ labels_from bytes.now }
{
    let mut list = [label_at(bytes, 0); MAX_LOG_LABELS];
    for (i, label) in list.iter_mut().enumerate() {
        *label = label_at(bytes, i);
    }
    list
}

// The 128 places.
fn places_from(bytes: &[u8]) -> [LabelNo; LABEL_PLACES]
    requires { record_size ≤ length bytes.now }
    ensures { result ≡ places_from bytes.now }
{
    let mut list = [LabelNo(0); LABEL_PLACES];
    for (i, place) in list.iter_mut().enumerate() {
        *place = LabelNo(bytes[PLACES_AT + i]);
    }
    list
}

// The record of these bytes.
pub fn record_from(bytes: &[u8]) -> Record
    requires { record_size ≤ length bytes.now }
    ensures { result ≡ record_from bytes.now }
{
    let lines = u16_at(bytes, 0);
    let list = runs_from(bytes);
    let names = labels_from(bytes);
    let places = places_from(bytes);
    let runs = RunTable {
        list: list,
        count: bytes[RUN_COUNT_AT] as usize,
    };
    let labels = LabelTable {
        labels: names,
        places: places,
        count: bytes[LABEL_COUNT_AT] as usize,
    };
    Record {
        runs: runs,
        labels: labels,
        lines: LineNo(lines),
    }
}
