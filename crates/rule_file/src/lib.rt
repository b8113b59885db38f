// A rule file as a whole: the rule that its bytes hold, or its first fault, of the first ten refusals.
//
// `read_rule` reads a file of any bytes, part by part from its front, and then checks its table of nodes as a whole.
#![tactic(auto)]

ghost use Rattle.rules.specs.Rules.{ReadsRule};

use refusals::Refusal;
use rules::{LABEL_COUNT_AT, Rule};

mod checks;

// The most "some" nodes that lie one inside another.
pub const MAX_NESTED: usize = 4;

// The rule of a file, or its first refusal.
pub fn read_rule(file: &[u8]) -> Result<Rule, Refusal>
    ensures { ReadsRule file.now result }
{
    rules::front::head(file)?;
    let labels = file[LABEL_COUNT_AT] as usize;
    let at = rules::file_labels::labels(file, labels)?;
    let first = rules::table::node_count(file, at)?;
    let count = file[at] as usize;
    let end = rules::table::nodes(file, labels, first, count)?;
    if end != file.len() {
        return Err(Refusal::RuleTooLong);
    }
    checks::whole(file, labels, first, count)
}
