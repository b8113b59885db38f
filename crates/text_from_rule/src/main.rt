// Reads a rule file on standard input, and writes the text of its rule to standard output.
//
// A file that is refused gives no text: `R` and the refusal's number go to standard error, as `R2`. A read or a write that fails is said
// on standard error, and after a failed read nothing is written. Nothing follows the text, not even an LF. Arguments are ignored. What
// the text is, is the work of the crate `rule_text`.
#![tactic(auto)]

ghost use Rattle.std.specs.Prelude.{◌≡◌, length};
ghost use Rattle.input.specs.Filled.{Fills};
ghost use Rattle.told.specs.Told.{Answered};
ghost use Rattle.text_from_rule.specs.Printed.{rule_room, text_size, text_printed, refusal_printed, PrintsText, PrintsRefusal};

use input::Streams;
use output::Written;
use rule_text::TEXT_ROOM;
use std::io;
use told::LINE_BYTES;

// One byte more than the longest rule file, so that a longer one is seen to be too long.
const RULE_ROOM: usize = 600;

// Puts the rule file's first bytes at the start of the buffer.
fn read_rule(streams: Streams, rule: &mut [u8]) -> io::Result<usize>
    requires { length rule.old ≡ rule_room }
    ensures { Fills result rule.new }
{
    let mut from = streams.input;
    let a = input::fill(&mut from, rule);
    input::complain(a, b"text_from_rule: standard input", streams.error);
    a
}

// Puts the text of the bytes that the read brought at the start of the buffer, or refuses. Of a failed read it makes a text of no bytes,
// so that nothing is told of it.
fn make_text(rule: &[u8], a: io::Result<usize>, text: &mut [u8]) -> Written
    requires { Fills a rule.now × (length text.old ≡ text_size) }
    ensures { Answered text_printed refusal_printed rule_room a rule.now result text.new }
{
    match a {
        Err(_) => return Written::Length(0),
        Ok(n) => return rule_text::text_from_rule(&rule[..n], text),
    }
}

// Writes a text to standard output, and says on standard error where that fails. It asks that this is the text to be printed of the
// buffer and what the read answered.
fn print_text(streams: Streams, rule: &[u8], a: io::Result<usize>, text: &[u8])
    requires { PrintsText a rule.now text.now }
{
    if let Err(e) = streams.output.write_all(text) {
        input::fail(b"text_from_rule: standard output", Some(e), streams.error);
    }
}

// Writes a refusal's line to standard error. It asks that this is the line to be printed of the buffer and what the read answered.
fn print_refusal(streams: Streams, rule: &[u8], a: io::Result<usize>, line: &[u8])
    requires { PrintsRefusal a rule.now line.now }
{
    let _ = streams.error.write_all(line);
}

// Prints what is to be printed of the buffer and what the read answered.
fn print(streams: Streams, rule: &[u8], a: io::Result<usize>)
    requires { Fills a rule.now }
{
    let mut text = [0u8; TEXT_ROOM];
    let w = make_text(rule, a, &mut text);
    let size = told::size_of(w);
    print_text(streams, rule, a, &text[..size]);
    let mut line = [0u8; LINE_BYTES];
    let end = told::put_error(&mut line, w);
    print_refusal(streams, rule, a, &line[..end]);
}

fn main(rt: HostRuntime) {
    let streams = Streams {
        input: rt.stdin(),
        output: rt.stdout(),
        error: rt.stderr(),
    };
    let mut rule = [0u8; RULE_ROOM];
    let a = read_rule(streams, &mut rule);
    print(streams, &rule, a);
}
