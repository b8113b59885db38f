// Bytes and numbers on standard output, as the test programs write them. A write that fails is left out.
#![tactic(auto)]

use std::io::Stdout;

pub fn write(out: Stdout, text: &[u8]) {
    let _ = out.write_all(text);
}

// Writes a text and ends the line.
pub fn write_line(out: Stdout, text: &[u8]) {
    write(out, text);
    write(out, b"\n");
}

pub fn write_number(out: Stdout, n: u64) {
    let _ = print!(out; "{n}");
}

// Writes a number and a space.
pub fn write_next(out: Stdout, n: u64) {
    write_number(out, n);
    write(out, b" ");
}

// Writes a number in hexadecimal, of eight digits at least.
pub fn write_hex(out: Stdout, n: u64) {
    let _ = print!(out; "{n:08x}");
}

// Writes a refusal: R and its number.
pub fn write_refusal(out: Stdout, code: u8) {
    write(out, b"R");
    write_number(out, code as u64);
}

// Ends a line with 1 or 0.
pub fn write_answer(out: Stdout, yes: bool) {
    if yes {
        write(out, b": 1\n");
    } else {
        write(out, b": 0\n");
    }
}

// A byte as a number to write.
pub fn wide(b: u8) -> u64 {
    b as u64
}

// Writes three numbers, with a space between.
pub fn write_three(out: Stdout, a: u64, b: u64, c: u64) {
    write_next(out, a);
    write_next(out, b);
    write_number(out, c);
}

// Writes each byte as a number, with a space before it.
pub fn write_bytes(out: Stdout, bytes: &[u8]) {
    for b in bytes {
        write(out, b" ");
        write_number(out, wide(*b));
    }
}

// The sum of the bytes.
pub fn sum(bytes: &[u8]) -> u64 {
    bytes
        .iter()
        .fold(0, |total: u64, b| total.wrapping_add(wide(*b)))
}

// How many bytes are b.
pub fn count(bytes: &[u8], b: u8) -> u64 {
    bytes.iter().filter(|x| **x == b).count() as u64
}

// Makes all bytes b.
pub fn fill(bytes: &mut [u8], b: u8) {
    bytes.fill(b);
}

// Writes a byte; after a `%` it is a letter, and stands for one of the numbers: `a` for the first.
fn write_part(out: Stdout, mark: bool, b: u8, numbers: &[u64]) {
    if !mark {
        if b != b'%' {
            write_byte(out, b);
        }
        return;
    }
    let k = (b % 32) as usize;
    if k <= numbers.len() {
        if 0 < k {
            write_number(out, numbers[k - 1]);
        }
    }
}

pub fn write_byte(out: Stdout, b: u8) {
    let one = [b];
    write(out, &one);
}

// Writes a text in which `%a` stands for the first of the numbers, `%b` for the second, and so on.
pub fn write_filled(out: Stdout, text: &[u8], numbers: &[u64]) {
    let mut mark = false;
    for b in text {
        write_part(out, mark, *b, numbers);
        mark = *b == b'%';
    }
}
