// Reading for the programs: the bytes of a file or of standard input, or why a read failed.
//
// `fill` reads until a buffer is full, the input ends or a read fails, and tells the last two apart. `read_file` reads a file,
// `read_rule` the rule file, and `complain` says on standard error that a read failed, and why. `fail` says the same of any call that
// failed, and `Streams` are the three streams that a program is given.
#![tactic(auto)]

ghost use Rattle.std.specs.Prelude.{◌≡◌, length, ◌≤◌, IfOk};
ghost use Rattle.input.specs.Filled.{Fills, brought};

use std::fs::File;
use std::io;
use std::io::{Read, Stderr, Stdin, Stdout, Write};
use std::rt::Files;

// What a program reads, writes, and complains on.
#[derive(Clone, Copy)]
pub struct Streams {
    pub input: Stdin,
    pub output: Stdout,
    pub error: Stderr,
}

// What a read into the buffer brought: no more bytes than there is room for. A read that fails is not the end of the input.
fn brought(got: io::Result<usize>, buf: &[u8]) -> io::Result<usize>
    ensures { result ≡ brought got (length buf.now) }
{
    match got {
        Err(e) => Err(e),
        Ok(n) => Ok(n.min(buf.len())),
    }
}

// Reads once.
fn read_some<R: Read>(from: &mut R, buf: &mut [u8]) -> io::Result<usize>
    ensures { IfOk result (λ n. n ≤ length buf.old) }
{
    let got = from.read(buf);
    brought(got, buf)
}

// Reads until the buffer is full, the input ends or a read fails: how many bytes stand at the start of the buffer.
pub fn fill<R: Read>(from: &mut R, buf: &mut [u8]) -> io::Result<usize>
    ensures { Fills result buf.new }
{
    let mut done: usize = 0;
    // Kept: no count, since each read says how many bytes it brings.
    while done < buf.len() {
        let n = read_some(from, &mut buf[done..])?;
        if n == 0 {
            return Ok(done);
        }
        done += n;
    }
    Ok(done)
}

// Puts the first bytes of the file with a name at the start of the buffer. One that can't be opened counts as no bytes.
pub fn read_file<F: Files>(files: &F, name: &[u8], buf: &mut [u8]) -> io::Result<usize>
    ensures { Fills result buf.new }
{
    let Ok(path) = std::str::from_utf8(name) else {
        return Ok(0);
    };
    match File::open(files, path) {
        Err(_) => Ok(0),
        Ok(mut file) => fill(&mut file, buf),
    }
}

// Puts the first bytes of the file rule.rul at the start of the buffer, as `read_file` does.
pub fn read_rule<F: Files>(files: &F, buf: &mut [u8]) -> io::Result<usize>
    ensures { Fills result buf.new }
{
    read_file(files, b"rule.rul", buf)
}

// Says on standard error that a read failed, and why, if that is known; the name is that of the program and of what it reads.
pub fn complain<E: Into<Option<io::Error>>>(a: Result<usize, E>, name: &[u8], error: Stderr) {
    if let Err(e) = a {
        fail(name, e.into(), error);
    }
}

// How many bytes of an error's text are told: those before the system's number for it, which std puts behind as ` (os error 21)`.
fn told_len(text: &[u8]) -> usize
    ensures { result ≤ length text.now }
{
    let Ok(whole) = std::str::from_utf8(text) else {
        return text.len();
    };
    match whole.find(" (os error ") {
        None => text.len(),
        Some(n) => n.min(text.len()),
    }
}

// The text of an error at the start of the buffer, or as much of it as there is room for: its length.
fn put_error(e: io::Error, buf: &mut [u8; 128]) -> usize
    ensures { result ≤ 128 }
{
    let room = buf.len();
    let mut rest = &mut buf[..];
    let _ = write!(rest, "{e}");
    let left = rest.len();
    room.saturating_sub(left)
}

// Writes a line to standard error: what failed, as the caller names it, a colon and why, if that is known.
pub fn fail(what: &[u8], why: Option<io::Error>, error: Stderr) {
    let mut text = [0u8; 128];
    let size = match why {
        None => 0,
        Some(e) => put_error(e, &mut text),
    };
    let told = told_len(&text[..size]);
    let _ = error.write_all(what);
    let _ = error.write_all(b": ");
    let _ = error.write_all(&text[..told]);
    let _ = error.write_all(b"\n");
}

#[cfg(test)]
mod tests {
    use super::*;

    // A reader that gives so many bytes, one at a time, and then ends or fails.
    #[derive(Drop)]
    struct Slow {
        left: usize,
        fails: bool,
    }

    impl Read for Slow {
        fn read(&mut self, buf: &mut [u8]) -> io::Result<usize> {
            if buf.is_empty() {
                return Ok(0);
            }
            if self.left == 0 {
                if self.fails {
                    return Err(io::Error::other("gone"));
                }
                return Ok(0);
            }
            self.left -= 1;
            buf[0] = b'x';
            Ok(1)
        }
    }

    // How many of four bytes are filled, or 5 where a read failed.
    fn filled(left: usize, fails: bool) -> usize {
        let mut buf = [0u8; 4];
        let mut from = Slow { left, fails };
        fill(&mut from, &mut buf).unwrap_or(5)
    }

    #[test]
    fn tells_a_failed_read_from_the_end(rt: HostRuntime) {
        for (left, fails, want) in [
            (0, false, 0),
            (3, false, 3),
            (9, false, 4),
            (0, true, 5),
            (3, true, 5),
            (4, true, 4),
        ] {
            assert_eq!(rt;
                filled(left, fails),
                want,
                "{left} bytes, then a failure: {fails}"
            );
        }
    }

    #[test]
    fn leaves_the_systems_number_out(rt: HostRuntime) {
        assert_eq!(rt; told_len(b"Is a directory (os error 21)"), 14);
        assert_eq!(rt; told_len(b"gone"), 4);
    }
}
