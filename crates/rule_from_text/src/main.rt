// Reads a typed rule on standard input, and writes its rule file to standard output.
//
// A text that is refused gives no file: `R` and the refusal's number go to standard error, as `R25`. A read or a write that fails is said
// on standard error, and after a failed read nothing is written. Arguments are ignored. What the file is, is the work of the crate
// `typed_file`.
#![tactic(auto)]

ghost use Rattle.std.specs.Prelude.{◌≡◌, length};
ghost use Rattle.rules.specs.Limits.{max_file_bytes};
ghost use Rattle.input.specs.Filled.{Fills};
ghost use Rattle.told.specs.Told.{Answered};
ghost use Rattle.rule_from_text.specs.Printed.{text_room, file_printed, refusal_printed, PrintsFile, PrintsRefusal};

use input::Streams;
use output::Written;
use std::io;
use told::LINE_BYTES;
use typed_file::FILE_ROOM;

// One byte more than the longest text, so that a longer one is seen to be too long.
const TEXT_ROOM: usize = 4097;

// Puts the text's first bytes at the start of the buffer.
fn read_text(streams: Streams, text: &mut [u8]) -> io::Result<usize>
    requires { length text.old ≡ text_room }
    ensures { Fills result text.new }
{
    let mut from = streams.input;
    let a = input::fill(&mut from, text);
    input::complain(a, b"rule_from_text: standard input", streams.error);
    a
}

// Puts the rule file of the bytes that the read brought at the start of the buffer, or refuses. Of a failed read it makes a file of no
// bytes, so that nothing is told of it.
fn make_file(text: &[u8], a: io::Result<usize>, file: &mut [u8]) -> Written
    requires { Fills a text.now × (length file.old ≡ max_file_bytes) }
    ensures { Answered file_printed refusal_printed text_room a text.now result file.new }
{
    match a {
        Err(_) => return Written::Length(0),
        Ok(n) => return typed_file::rule_from_text(&text[..n], file),
    }
}

// Writes a rule file to standard output, and says on standard error where that fails. It asks that this is the file to be printed of the
// buffer and what the read answered.
fn print_file(streams: Streams, text: &[u8], a: io::Result<usize>, file: &[u8])
    requires { PrintsFile a text.now file.now }
{
    if let Err(e) = streams.output.write_all(file) {
        input::fail(b"rule_from_text: standard output", Some(e), streams.error);
    }
}

// Writes a refusal's line to standard error. It asks that this is the line to be printed of the buffer and what the read answered.
fn print_refusal(streams: Streams, text: &[u8], a: io::Result<usize>, line: &[u8])
    requires { PrintsRefusal a text.now line.now }
{
    let _ = streams.error.write_all(line);
}

// Prints what is to be printed of the buffer and what the read answered.
fn print(streams: Streams, text: &[u8], a: io::Result<usize>)
    requires { Fills a text.now }
{
    let mut file = [0u8; FILE_ROOM];
    let w = make_file(text, a, &mut file);
    let size = told::size_of(w);
    print_file(streams, text, a, &file[..size]);
    let mut line = [0u8; LINE_BYTES];
    let end = told::put_error(&mut line, w);
    print_refusal(streams, text, a, &line[..end]);
}

fn main(rt: HostRuntime) {
    let streams = Streams {
        input: rt.stdin(),
        output: rt.stdout(),
        error: rt.stderr(),
    };
    let mut text = [0u8; TEXT_ROOM];
    let a = read_text(streams, &mut text);
    print(streams, &text, a);
}
