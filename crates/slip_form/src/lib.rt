// Slips: the runs that make a rule fail, and the rules that have them.
//
// A rule that is "not" over a chain of one to four "some" over a part without "some" has slips: run numbers, one for
// each "some", outermost first. `chain_top` answers where the chain of a rule begins.
#![tactic(auto)]

ghost use Rattle.std.specs.Prelude.{◌≡◌};
ghost use Rattle.rules.specs.Table.{Good, formula_at};
ghost use Rattle.rules.specs.Rules.{Taken};
ghost use Rattle.shape.specs.Shape.{flat?};
ghost use Rattle.moments.specs.Shape.{Heights};
ghost use Rattle.slip_form.specs.Chain.{part_of, TopOf};

use rule_file::MAX_NESTED;
use rules::Rule;
use rules::table::node_at;
use trace::RunNo;

// A slip: the numbers of its first `count` runs, outermost first.
#[derive(Clone, Copy)]
pub struct Slip {
    pub count: usize,
    pub run: [RunNo; MAX_NESTED],
}

// Whether no "some" stands below the chain of "some" at a node.
fn is_chain(file: &[u8], first: usize, heights: &[u8], top: usize) -> bool
    requires { Good file.now first top × Heights file.now first top heights.now }
    ensures { result ≡ flat? (part_of (formula_at file.now first top)) }
{
    let mut node = top;
    let mut x = node_at(file, first, node);
    // Kept: no plainer. The walk goes down a chain of nodes; `successors` with a `last` would hide that the node at its end is wanted.
    while x.kind == 3 {
        node = x.b;
        x = node_at(file, first, node);
    }
    heights[node] == 0
}

// The node below the "not" of a rule that has the form, at which its chain of "some" begins.
pub fn chain_top(file: &[u8], rule: Rule) -> Option<usize>
    requires { Taken file.now rule }
    ensures { TopOf file.now rule result }
{
    let x = node_at(file, rule.nodes, rule.count - 1);
    if x.kind != 2 {
        return None;
    }
    let top = x.a;
    let y = node_at(file, rule.nodes, top);
    if y.kind != 3 {
        return None;
    }
    let heights = shape::heights(file, rule.nodes, rule.count);
    if !is_chain(file, rule.nodes, &heights, top) {
        return None;
    }
    Some(top)
}
