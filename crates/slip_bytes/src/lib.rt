// Slips in bytes, and their answers as numbers, for programs in other languages.
//
// `slip_from` makes a slip of bytes, `keep_slip` puts the slip of an answer into bytes, and `passing_number` is the
// number of an answer.
#![tactic(auto)]

ghost use Rattle.std.specs.Prelude.{◌≡◌, ◌≤◌, IfOk, IfSome, length};
ghost use Rattle.rules.specs.Limits.{max_nested};
ghost use Rattle.slip_form.specs.Slips.{slip_runs};
ghost use Rattle.answer_numbers.specs.Numbers.{NumberedAs};
ghost use Rattle.slip_bytes.specs.InBytes.{slip_from, runs_in, FoundAs, passes_number};

use answer_numbers::refusal_number;
use rule_file::MAX_NESTED;
use slip_form::Slip;
use trace::RunNo;

// The slip that bytes are: a run a byte.
pub fn slip_from(bytes: &[u8]) -> Slip
    ensures { result ≡ slip_from bytes.now }
{
    let n = bytes.len();
    let mut run = [RunNo(0); MAX_NESTED];
    for (i, byte) in bytes[..n.min(MAX_NESTED)].iter().enumerate() {
        run[i] = RunNo(*byte);
    }
    Slip { count: n, run }
}

// The runs of a slip in the first bytes.
fn put_runs(x: Slip, bytes: &mut [u8])
    requires { (x.count ≤ max_nested) × (max_nested ≤ length bytes.old) }
    ensures { bytes.new ≡ runs_in (slip_runs x) bytes.old }
{
    for (i, run) in x.run[..x.count].iter().enumerate() {
        bytes[i] = run.0;
    }
}

// How many runs the slip that is found has, with its runs put into the first bytes; 0 for none, or the refusal, whose number the error tells.
pub fn keep_slip<E: Into<u8>>(a: Result<Option<Slip>, E>, bytes: &mut [u8]) -> u32
    requires { IfOk a (λ o. IfSome o (λ x. x.count ≤ max_nested)) × (max_nested ≤ length bytes.old) }
    ensures { FoundAs E.Into.converts a bytes.old (result, bytes.new) }
{
    match a {
        Ok(Some(slip)) => {
            put_runs(slip, bytes);
            slip.count as u32
        }
        Ok(None) => 0,
        Err(refused) => refusal_number(refused),
    }
}

// 1 a slip passes, 0 it does not, or the refusal, whose number the error tells.
pub fn passing_number<E: Into<u8>>(a: Result<bool, E>) -> u32
    ensures { NumberedAs E.Into.converts passes_number a result }
{
    match a {
        Ok(passes) => u32::from(passes),
        Err(e) => refusal_number(e),
    }
}
