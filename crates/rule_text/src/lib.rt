// The text of a rule: "brackets stand round each "and" and each "some" (of one name each) and round no other node".
//
// `text_from_rule` reads a rule file and writes the text of its rule into a lent buffer, or refuses and leaves the buffer as it was.
#![tactic(auto)]

ghost use Rattle.std.specs.Prelude.{◌≤◌, length};
ghost use Rattle.rule_text.specs.Text.{WritesText};

use crate::nodes::write_node;
use output::Written;

mod leaves;
mod nodes;

// The fewest bytes of a buffer for a text.
pub const TEXT_ROOM: usize = 4096;

// The text of a rule file's rule.
pub fn text_from_rule(file: &[u8], out: &mut [u8]) -> Written
    ensures { WritesText file.now out.old result out.new }
{
    if out.len() < TEXT_ROOM {
        return Written::Refused(20);
    }
    let read = rule_file::read_rule(file);
    match read {
        Err(e) => Written::Refused(u8::from(e)),
        Ok(x) => {
            let first = x.nodes;
            let root = x.count - 1;
            let none = levels::no_levels();
            Written::Length(write_node(file, first, root, 0, none, out, 0))
        }
    }
}
