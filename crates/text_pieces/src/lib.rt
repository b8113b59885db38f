// Pieces of text, written into a lent buffer: each call answers the place after what it wrote.
//
// `put_line` writes the line of a verdict byte, `put_ending` that of a refusal, `put_count` a count of a tally, `put_number` a number.
#![tactic(auto)]

ghost use Rattle.std.specs.Prelude.{◌≡◌, [], ◌∷◌, ◌+◌, ◌%◌, ◌<◌, ◌≤◌, length};
ghost use Rattle.text_pieces.specs.Pieces.{decimal, letter_line, refused_text, count_text};
ghost use Rattle.text_pieces.specs.Writing.{byte_letter, ending_text, unread?, LineLow, Writes, WritesFew};

use reading::Ending;

// One byte.
pub fn put_byte(text: &mut [u8], at: usize, b: u8) -> usize
    requires { at < length text.old }
    ensures { Writes (b ∷ []) text.old at text.new result }
{
    text[at] = b;
    at + 1
}

// The last decimal digit of a number.
fn last_digit(n: u32) -> u8
    ensures { result ≡ 48 + n % 10 }
{
    (48 + n % 10) as u8
}

// A number in decimal.
pub fn put_number(text: &mut [u8], at: usize, n: u32) -> usize
    requires { (at + 3 ≤ length text.old) × (n ≤ 999) }
    ensures { WritesFew 3 (decimal n) text.old at text.new result }
{
    // Kept: `write!` answers a Result that can't fail here, and not the place behind the digits, which each caller writes on from.
    if n < 10 {
        return put_byte(text, at, last_digit(n));
    }
    if n < 100 {
        let tens = put_byte(text, at, last_digit(n / 10));
        return put_byte(text, tens, last_digit(n));
    }
    let hundreds = put_byte(text, at, last_digit(n / 100));
    let tens = put_byte(text, hundreds, last_digit(n / 10));
    put_byte(text, tens, last_digit(n))
}

// `H` or `F`.
fn letter_of(verdict: u8) -> u8
    ensures { result ≡ byte_letter verdict }
{
    if verdict == 1 { b'H' } else { b'F' }
}

// The line of a verdict byte.
pub fn put_line(text: &mut [u8], at: usize, n: u32, verdict: u8) -> usize
    requires { (at + 6 ≤ length text.old) × (n ≤ 999) }
    ensures { WritesFew 6 (letter_line n (byte_letter verdict)) text.old at text.new result }
{
    let number = put_number(text, at, n);
    let space = put_byte(text, number, b' ');
    let letter = put_byte(text, space, letter_of(verdict));
    put_byte(text, letter, b'\n')
}

// The line of a refusal.
pub fn put_refused(text: &mut [u8], at: usize, n: u32, refusal: u32) -> usize
    requires { (at + 9 ≤ length text.old) × (n ≤ 999) × (refusal ≤ 999) }
    ensures { WritesFew 9 (refused_text n refusal) text.old at text.new result }
{
    let number = put_number(text, at, n);
    let space = put_byte(text, number, b' ');
    let letter = put_byte(text, space, b'R');
    let end = put_number(text, letter, refusal);
    put_byte(text, end, b'\n')
}

// The line of the refusal, if there is one.
pub fn put_ending(text: &mut [u8], at: usize, e: Ending) -> usize
    requires { (at + 9 ≤ length text.old) × LineLow e }
    ensures { WritesFew 9 (ending_text e) text.old at text.new result }
{
    match e {
        Ending::Read => return at,
        Ending::Refused { number, line } => return put_refused(
            text,
            at,
            line as u32,
            number as u32,
        ),
    }
}

// Whether no line is to blame for the refusal.
pub fn is_unread(e: Ending) -> bool
    ensures { result ≡ unread? e }
{
    match e {
        Ending::Read => false,
        Ending::Refused { number: _, line } => line == 0,
    }
}

// A space and a count.
pub fn put_count(text: &mut [u8], at: usize, n: u32) -> usize
    requires { (at + 4 ≤ length text.old) × (n ≤ 999) }
    ensures { WritesFew 4 (count_text n) text.old at text.new result }
{
    let space = put_byte(text, at, b' ');
    put_number(text, space, n)
}
