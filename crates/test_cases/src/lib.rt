// Cases as data: what a test program reads from its standard input.
//
// A line of the input is a case: a byte that says its kind, a space, and its text. A text is bytes, in which `\n` stands for LF, `\xNN` for
// the byte with these two digits (0 to 9, a to f), and a backslash before any other byte for that byte; or it is numbers with one space
// between. Each program says which kinds it has.
#![tactic(auto)]

ghost use Rattle.std.specs.Prelude.{◌<◌, ◌≡◌, ◌≤◌, length};
ghost use Rattle.input.specs.Counts.{IsPrefixLen};

use std::io::{Read, Stdin};

// What a byte of a text is part of: a backslash that is read, `\x`, its first digit, or a byte that the text has.
#[derive(Clone, Copy)]
enum Reading {
    Escape,
    Hex,
    Low(u8),
    Byte(u8),
}

// The text of a case: what stands behind its kind and a space, up to the LF.
fn text_of(line: &[u8]) -> &[u8] {
    let text = line.strip_suffix(b"\n").unwrap_or(line);
    text.get(2..).unwrap_or(&[])
}

// Calls f with the kind and the text of each case.
pub fn each_case<F: FnMut(u8, &[u8])>(input: &[u8], mut f: F)
    requires { F.IsAlwaysCallable f }
{
    for line in input.split_inclusive(|b| *b == b'\n') {
        if let Some(kind) = line.first() {
            f(*kind, text_of(line));
        }
    }
}

// The value of a hexadecimal digit.
fn digit(c: u8) -> u8
    ensures { result < 16 }
{
    if c >= b'a' {
        (c - b'a' + 10) % 16
    } else {
        c % 16
    }
}

// What the byte c is, after what was read before it.
fn read(r: Reading, c: u8) -> Reading {
    match r {
        Reading::Escape => {
            if c == b'x' {
                return Reading::Hex;
            }
            if c == b'n' {
                return Reading::Byte(b'\n');
            }
            Reading::Byte(c)
        }
        Reading::Hex => Reading::Low(16 * digit(c)),
        Reading::Low(high) => Reading::Byte(high | digit(c)),
        Reading::Byte(_) => {
            if c == b'\\' {
                return Reading::Escape;
            }
            Reading::Byte(c)
        }
    }
}

// Puts a byte that is read at a place of a buffer, if there is room, and answers the place behind it.
fn put(r: Reading, out: &mut [u8], n: usize) -> usize
    requires { n ≤ length out.old }
    ensures { result ≤ length out.new }
{
    if n < out.len() {
        if let Reading::Byte(b) = r {
            out[n] = b;
            return n + 1;
        }
    }
    n
}

// Puts the bytes of a text into a buffer, from a place on, and answers the place behind them. What does not fit is left out.
pub fn append(text: &[u8], out: &mut [u8], from: usize) -> usize
    requires { from ≤ length out.old }
    ensures { IsPrefixLen result out.new }
{
    let mut r = Reading::Byte(0);
    let mut n = from;
    for c in text {
        r = read(r, *c);
        n = put(r, out, n);
    }
    n
}

// Puts the bytes of a text at the front of a buffer, and answers how many.
pub fn bytes(text: &[u8], out: &mut [u8]) -> usize
    ensures { IsPrefixLen result out.new }
{
    append(text, out, 0)
}

// Ten times n, and a decimal digit; the rest where it is too large for 64 bits.
fn shifted(n: u64, c: u8) -> u64 {
    n.wrapping_mul(10).wrapping_add(u64::from(c % 16))
}

// The number after a byte, where so many spaces are left before it.
fn number_after(n: u64, left: usize, c: u8) -> u64 {
    if left == 0 {
        if c != b' ' {
            return shifted(n, c);
        }
    }
    n
}

// How many spaces are left before a number, after a byte.
fn left_after(left: usize, c: u8) -> usize {
    if c == b' ' {
        return left.wrapping_sub(1);
    }
    left
}

// Number k of a text, counted from 0; 0 where there is none.
pub fn number(text: &[u8], k: usize) -> u64 {
    let mut left = k;
    let mut n: u64 = 0;
    for c in text {
        n = number_after(n, left, *c);
        left = left_after(left, *c);
    }
    n
}

// Number k as one of 8 bits.
pub fn byte(text: &[u8], k: usize) -> u8 {
    (number(text, k) % 256) as u8
}

// Number k as one of 16 bits.
pub fn short(text: &[u8], k: usize) -> u16 {
    (number(text, k) % 65536) as u16
}

// Number k as one of 32 bits.
pub fn count(text: &[u8], k: usize) -> u32 {
    (number(text, k) % 4294967296) as u32
}

// Number k as a place or a length.
pub fn size(text: &[u8], k: usize) -> usize {
    number(text, k) as usize
}

// 65,536 zeros, which hold the input of any test. Its length is all that is said of it.
pub fn room() -> [u8; 65536]
    ensures { 65536 ≡ length result }
{
    [0; 65536]
}

// How many bytes a read put at the start of a buffer: none where it failed.
fn read_once(from: Stdin, buf: &mut [u8]) -> usize
    ensures { result ≤ length buf.new }
{
    let mut from = from;
    match from.read(buf) {
        Ok(n) => n,
        Err(_) => 0,
    }
}

// Reads standard input until a buffer is full, the input ends or a read fails, and answers how many bytes it put at the buffer's start.
pub fn read_input(from: Stdin, buf: &mut [u8]) -> usize
    ensures { IsPrefixLen result buf.new }
{
    let mut done: usize = 0;
    // Kept: a turn is one read, which takes as many bytes as come: no range or iterator counts them.
    while done < buf.len() {
        let n = read_once(from, &mut buf[done..]);
        if n == 0 {
            return done;
        }
        done += n;
    }
    done
}
