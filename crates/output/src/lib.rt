// Bytes written over those of a lent buffer, from a place on; and what a call answers that writes to one.
#![tactic(auto)]

ghost use Rattle.std.specs.Prelude.{◌+◌, ◌≤◌, length};
ghost use Rattle.output.specs.Output.{Appends};

// How many bytes were written to the front of the buffer; or the refusal's number, and nothing was.
#[derive(Clone, Copy)]
pub enum Written {
    Length(usize),
    Refused(u8),
}

// The bytes, at a place of the buffer: the place behind them.
pub fn append(out: &mut [u8], at: usize, bytes: &[u8]) -> usize
    requires { at + length bytes.now ≤ length out.old }
    ensures { Appends out.old at bytes.now out.new result }
{
    let end = at + bytes.len();
    out[at..end].copy_from_slice(bytes);
    end
}
