// Slips of a rule and a record: the runs that make the rule fail.
//
// `first_slip` answers the first slip that passes, in order of run numbers. `passes` reads a slip, whoever wrote it.
// Both take any rule file, record and slip, and refuse a rule of another form.
#![tactic(auto)]

ghost use Rattle.std.specs.Prelude.{◌≡◌};
ghost use Rattle.trace.specs.Record.{Valid};
ghost use Rattle.rules.specs.Rules.{Taken};
ghost use Rattle.slip_form.specs.Chain.{ChainAt};
ghost use Rattle.slips.specs.Answers.{FindsFirst, ReadsSlip};
ghost use Rattle.slips.specs.Parts.{PreparedFor, FindsOf, ReadsOf};

use lists::MAX_RUNS;
use refusals::Refusal;
use row_table::table::TABLE_WORDS;
use rules::{MAX_NODES, Rule};
use slip_form::Slip;
use trace::Record;

// What the evaluator is handed for a rule and a record: the shapes of the rule's nodes, the ranks of the record's runs,
// the table of their rows, and how many runs are finished.
#[derive(Clone, Copy)]
struct Prepared {
    heights: [u8; MAX_NODES],
    frees: [u8; MAX_NODES],
    ranks: [u8; MAX_RUNS],
    table: [u64; TABLE_WORDS],
    runs: usize,
}

fn prepare(file: &[u8], rule: Rule, r: Record) -> Prepared
    requires { Taken file.now rule × Valid r }
    ensures { PreparedFor file.now rule r result }
{
    let runs = r.runs;
    let labels = r.labels;
    let lines = r.lines.0 as usize;
    let o = order::finish_order(runs, lines);
    let heights = shape::heights(file, rule.nodes, rule.count);
    let frees = shape::free_variables(file, rule.nodes, rule.count);
    let wanted = logic::shown::wanted_numbers(file, rule.labels, labels);
    let ranks = slip_search::ranks_of(o);
    let mut table = [0u64; TABLE_WORDS];
    rows::fill_rows(runs, o, &wanted, rule.labels, &mut table);
    Prepared {
        heights: heights,
        frees: frees,
        ranks: ranks,
        table: table,
        runs: o.count,
    }
}

// The first slip of the runs of a record, for the rule whose chain of "some" begins at node `top`.
fn first_of(file: &[u8], rule: Rule, top: usize, r: Record) -> Option<Slip>
    requires taken { Taken file.now rule × Valid r }
    requires chain_at { ChainAt file.now rule top }
    ensures { FindsOf file.now rule r (Ok result) }
{
    let p = prepare(file, rule, r);
    let runs = p.runs;
    if runs == 0 {
        return None;
    }
    let heights = p.heights;
    let frees = p.frees;
    let ranks = p.ranks;
    let table = p.table;
    slip_search::search(
        file,
        rule.nodes,
        &heights,
        &frees,
        &table,
        runs,
        top,
        &ranks,
        runs - 1,
    )
}

// Whether a slip passes, for the same rule and record.
fn read_slip(file: &[u8], rule: Rule, top: usize, r: Record, slip: Slip) -> Result<bool, Refusal>
    requires taken { Taken file.now rule × Valid r }
    requires chain_at { ChainAt file.now rule top }
    ensures { ReadsOf file.now rule r slip result }
{
    let p = prepare(file, rule, r);
    let runs = p.runs;
    let heights = p.heights;
    let frees = p.frees;
    let ranks = p.ranks;
    let table = p.table;
    let n = heights[top] as usize;
    if !slip_search::is_whole(slip, n, &ranks, runs) {
        return Err(Refusal::NoFinishedRun);
    }
    Ok(slip_search::is_true_of(
        file,
        rule.nodes,
        &heights,
        &frees,
        &table,
        runs,
        top,
        &ranks,
        runs - 1,
        slip,
    ))
}

// The first slip of a rule and a record that passes, in order of run numbers, the outermost compared first; or that none does.
pub fn first_slip(file: &[u8], r: Record) -> Result<Option<Slip>, Refusal>
    ensures { FindsFirst file.now r result }
{
    let rule = rule_file::read_rule(file)?;
    let Some(top) = slip_form::chain_top(file, rule) else {
        return Err(Refusal::RuleNoSlips);
    };
    if !replay::is_record(r) {
        return Err(Refusal::NoRecord);
    }
    Ok(first_of(file, rule, top, r))
}

// Whether a slip passes: all its runs are finished, and the part below the chain of "some" is true of them.
pub fn passes(file: &[u8], r: Record, slip: Slip) -> Result<bool, Refusal>
    ensures { ReadsSlip file.now r slip result }
{
    let rule = rule_file::read_rule(file)?;
    let Some(top) = slip_form::chain_top(file, rule) else {
        return Err(Refusal::RuleNoSlips);
    };
    if !replay::is_record(r) {
        return Err(Refusal::NoRecord);
    }
    read_slip(file, rule, top, r, slip)
}
