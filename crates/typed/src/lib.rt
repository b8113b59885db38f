// Typed rules: reading the text of a rule into a table of nodes.
//
// `parse` reads a whole text. The readers of the grammar's levels call each other in a cycle.
#![tactic(auto)]

ghost use Rattle.std.specs.Prelude.{◌≡◌, ◌≤◌, length};
ghost use Rattle.typed.specs.Parsing.{Parses};

use crate::reader::or_rule;
use signs::skip;

mod reader;

// The most bytes of a text.
pub const MAX_TEXT: usize = 4096;

// How many nodes a whole text takes, in a table that has room for 64; none where the text is outside the grammar.
pub fn parse(text: &[u8], table: &mut [usize]) -> Option<usize>
    requires { 192 ≤ length table.old }
    ensures { Parses text.now table.old result table.new }
{
    if MAX_TEXT < text.len() {
        return None;
    }
    let mut names = [0usize; 64];
    let rule = or_rule(text, 0, &mut names, 0, 0, table)?;
    let end = skip(text, rule.at);
    if end < text.len() {
        return None;
    }
    Some(rule.count)
}
