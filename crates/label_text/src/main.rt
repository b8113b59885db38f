// Reads the file `book` in the current folder and a label on standard input, and writes the text that the book has for the label to
// standard output, or the label as it was given. The label is exactly the bytes of the input.
//
// Where the call refuses, nothing goes to standard output: `R` and the refusal's number go to standard error, `R27` for a book outside
// its form, `R13` for bytes without a label's form. A book that can't be opened counts as no bytes; one of 1,048,576 bytes or more is too
// long, which is said on standard error, and nothing is printed. A read or a write that fails is said on standard error, and after a
// failed read nothing is written. Nothing follows the text, not even an LF. Arguments are ignored. What the text is, is the work of the
// crate `label_book`.
#![tactic(auto)]

ghost use Rattle.std.specs.Prelude.{◌<◌, ◌≡◌, length};
ghost use Rattle.input.specs.Filled.{Fills};
ghost use Rattle.told.specs.Told.{error_of};
ghost use Rattle.label_text.specs.Printed.{book_room, label_room, refused_line, PrintsText, PrintsRefusal};

use input::Streams;
use label_book::Piece;
use output::Written;
use refusals::Refusal;
use std::io;
use std::rt::Files;
use told::LINE_BYTES;

// One byte more than the longest book that is taken, so that a longer one is seen to be too long.
const BOOK_ROOM: usize = 1048576;

// One byte more than the longest label, so that a longer one is seen to be too long.
const LABEL_ROOM: usize = 25;

// Room for a book. Its length is all that is said of it, so that no proof looks at its bytes.
fn book_buffer() -> [u8; BOOK_ROOM]
    ensures { book_room ≡ length result }
{
    [0; BOOK_ROOM]
}

// Says on standard error that the book is too long, if it fills the buffer.
fn complain_of_length(streams: Streams, a: io::Result<usize>) {
    match a {
        Err(_) => return,
        Ok(n) => {
            if n < BOOK_ROOM {
                return;
            }
            let _ = streams
                .error
                .write_all(b"label_text: the book is too long\n");
            return;
        }
    }
}

// Puts the book's first bytes at the start of the buffer.
fn read_book<F: Files>(files: &F, streams: Streams, book: &mut [u8]) -> io::Result<usize>
    requires { length book.old ≡ book_room }
    ensures { Fills result book.new }
{
    let a = input::read_file(files, b"book", book);
    input::complain(a, b"label_text: book", streams.error);
    complain_of_length(streams, a);
    a
}

// Puts the input's first bytes at the start of the buffer.
fn read_label(streams: Streams, label: &mut [u8]) -> io::Result<usize>
    requires { length label.old ≡ label_room }
    ensures { Fills result label.new }
{
    let mut from = streams.input;
    let a = input::fill(&mut from, label);
    input::complain(a, b"label_text: standard input", streams.error);
    a
}

// What standard error is to be told of a piece: the refusal, or nothing.
fn refusal_of(p: Result<Piece, Refusal>) -> Written
    ensures { error_of result ≡ refused_line p }
{
    match p {
        Err(refusal) => Written::Refused(u8::from(refusal)),
        Ok(_) => Written::Length(0),
    }
}

// Writes a text to standard output, and says on standard error where that fails. It asks that this is the text to be printed of the two
// buffers and what the two reads answered.
fn print_text(
    streams: Streams,
    book: &[u8],
    a: io::Result<usize>,
    label: &[u8],
    b: io::Result<usize>,
    text: &[u8],
)
    requires { PrintsText a book.now b label.now text.now }
{
    if let Err(e) = streams.output.write_all(text) {
        input::fail(b"label_text: standard output", Some(e), streams.error);
    }
}

// Writes a refusal's line to standard error. It asks that this is the line to be printed of the two buffers and what the two reads
// answered.
fn print_refusal(
    streams: Streams,
    book: &[u8],
    a: io::Result<usize>,
    label: &[u8],
    b: io::Result<usize>,
    line: &[u8],
)
    requires { PrintsRefusal a book.now b label.now line.now }
{
    let _ = streams.error.write_all(line);
}

// Writes the text of n bytes of the book and m of the label, which is what the two reads brought.
fn show_text<'a>(
    streams: Streams,
    book: &'a [u8],
    a: io::Result<usize>,
    n: usize,
    label: &'a [u8],
    b: io::Result<usize>,
    m: usize,
)
    requires { (a ≡ Ok n) × (b ≡ Ok m) × Fills a book.now × Fills b label.now × (n < book_room) }
{
    let text = label_book::text_for(&book[..n], &label[..m], 0, m);
    print_text(streams, book, a, label, b, text);
}

// Writes the line of their refusal, if they are refused.
fn show_refusal<'a>(
    streams: Streams,
    book: &'a [u8],
    a: io::Result<usize>,
    n: usize,
    label: &'a [u8],
    b: io::Result<usize>,
    m: usize,
)
    requires { (a ≡ Ok n) × (b ≡ Ok m) × Fills a book.now × Fills b label.now × (n < book_room) }
{
    let p = label_book::piece_for(&book[..n], &label[..m], 0, m);
    let w = refusal_of(p);
    let mut line = [0u8; LINE_BYTES];
    let end = told::put_error(&mut line, w);
    print_refusal(streams, book, a, label, b, &line[..end]);
}

// Prints what is to be printed of the two buffers and what the two reads answered: nothing where one failed or the book is too long.
fn print<'a>(
    streams: Streams,
    book: &'a [u8],
    a: io::Result<usize>,
    label: &'a [u8],
    b: io::Result<usize>,
)
    requires { Fills a book.now × Fills b label.now }
{
    match a {
        Err(_) => return,
        Ok(n) => match b {
            Err(_) => return,
            Ok(m) => {
                if n < BOOK_ROOM {
                    show_text(streams, book, a, n, label, b, m);
                    show_refusal(streams, book, a, n, label, b, m);
                }
                return;
            }
        },
    }
}

fn main(rt: HostRuntime) {
    let streams = Streams {
        input: rt.stdin(),
        output: rt.stdout(),
        error: rt.stderr(),
    };
    let mut book = book_buffer();
    let mut label = [0u8; LABEL_ROOM];
    let a = read_book(&rt, streams, &mut book);
    let b = read_label(streams, &mut label);
    print(streams, &book, a, &label, b);
}
