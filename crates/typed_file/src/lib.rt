// A typed rule read into a rule file.
//
// `rule_from_text` reads the text and writes the file into a lent buffer, or refuses and leaves the buffer as it was.
#![tactic(auto)]

ghost use Rattle.std.specs.Prelude.{◌≤◌, length};
ghost use Rattle.typed_file.specs.Answer.{ReadsText};

use crate::file::{Parts, write_file};
use output::Written;

mod file;

// The fewest bytes of a buffer for a rule file.
pub const FILE_ROOM: usize = 599;

// The rule file of a text.
pub fn rule_from_text(text: &[u8], out: &mut [u8]) -> Written
    ensures { ReadsText text.now out.old result out.new }
{
    if out.len() < FILE_ROOM {
        return Written::Refused(20);
    }
    let mut table = [0usize; 192];
    let Some(n) = typed::parse(text, &mut table[..]) else {
        return Written::Refused(25);
    };
    let mut places = [0usize; 64];
    match typed_checks::decide(text, &table[..], n, &mut places[..]) {
        Err(refusal) => Written::Refused(u8::from(refusal)),
        Ok(m) => {
            let parts = Parts {
                text,
                table: &table[..],
                count: n,
                places: &places[..m],
            };
            Written::Length(write_file(parts, out))
        }
    }
}
