// What a program tells of a call that writes to a lent buffer: on standard output the bytes that were written, or on standard error the
// refusal's number.
//
// `size_of` answers how many bytes of the buffer are to be handed on, and `put_error` writes the line for standard error.
#![tactic(auto)]

ghost use Rattle.std.specs.Prelude.{◌≤◌, ◌≡◌, length};
ghost use Rattle.text_pieces.specs.Writing.{WritesFew};
ghost use Rattle.told.specs.Told.{line_size, refusal_line, size_of, PutsError};

use output::Written;

// The most bytes of a refusal's line: `R`, three digits and LF.
pub const LINE_BYTES: usize = 5;

// How many bytes were written: none where the call refused.
pub fn size_of(w: Written) -> usize
    ensures { result ≡ size_of w }
{
    match w {
        Written::Length(n) => return n,
        Written::Refused(_) => return 0,
    }
}

// The line of a refusal, at the start of the buffer.
fn put_refusal(line: &mut [u8], number: u8) -> usize
    requires { line_size ≤ length line.old }
    ensures { WritesFew 5 (refusal_line number) line.old 0 line.new result }
{
    let letter = text_pieces::put_byte(line, 0, b'R');
    let end = text_pieces::put_number(line, letter, number as u32);
    text_pieces::put_byte(line, end, b'\n')
}

// What standard error is told, at the start of the buffer: the line of a refusal, or nothing.
pub fn put_error(line: &mut [u8], w: Written) -> usize
    requires { line_size ≤ length line.old }
    ensures { PutsError w line.new result }
{
    match w {
        Written::Length(_) => return 0,
        Written::Refused(number) => return put_refusal(line, number),
    }
}
