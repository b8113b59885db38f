// How the positions of two runs stand to each other, in 16 bits where they fit.
//
// `signs_narrow` compares four positions of 16 bits two by two; what it answers, their signs, has no width.
// `signs_wide` answers the signs of any positions: those of their ranks, which fit in 16 bits and stand to each other
// as the positions do. `all_fit` tells whether four positions fit, and `cut` cuts one to 16 bits. `have_common` tells
// by the signs whether two runs have a common moment.
#![tactic(auto)]

ghost use Rattle.std.specs.Prelude.{ℕ, ◌%◌, ◌≡◌};
ghost use Rattle.lists.specs.Tells.{Tells};
ghost use Rattle.positions.specs.Comparison.{sign_of, signs_of, CommonMoment, AllFit, one_below, rank_of};

// The signs of two positions: the first is below the second, the same, or above it.
// Kept: `signs_of`, which `signs_narrow` and `signs_wide` promise, is in the numbers 0, 1 and 2 (`sign_of`).
pub const BELOW: u8 = 0;

pub const SAME: u8 = 1;

pub const ABOVE: u8 = 2;

// The first position that does not fit in 16 bits.
const BEYOND: u64 = 65536;

// The signs of the positions of two runs a and b, two by two.
#[derive(Clone, Copy)]
pub struct Signs {
    // The starts of a and b; their finishes.
    pub starts: u8,
    pub finishes: u8,
    // The finish of a and the start of b; the finish of b and the start of a.
    pub before: u8,
    pub after: u8,
    // The start and the finish of a; those of b.
    pub first: u8,
    pub second: u8,
}

// The sign of a and b.
fn sign(a: u16, b: u16) -> u8
    ensures { result ≡ sign_of a b }
{
    if a < b {
        return BELOW;
    }
    if b < a {
        return ABOVE;
    }
    SAME
}

// The signs of positions in 16 bits.
pub fn signs_narrow(start_a: u16, finish_a: u16, start_b: u16, finish_b: u16) -> Signs
    ensures { result ≡ signs_of start_a finish_a start_b finish_b }
{
    Signs {
        starts: sign(start_a, start_b),
        finishes: sign(finish_a, finish_b),
        before: sign(finish_a, start_b),
        after: sign(finish_b, start_a),
        first: sign(start_a, finish_a),
        second: sign(start_b, finish_b),
    }
}

// 1 if q is below p, else 0.
fn one_below(q: u64, p: u64) -> u16
    ensures { result ≡ one_below q p }
{
    u16::from(q < p)
}

// How many of four positions are below p.
fn rank(p: u64, a: u64, b: u64, c: u64, d: u64) -> u16
    ensures { result ≡ rank_of p a b c d }
{
    one_below(a, p) + one_below(b, p) + one_below(c, p) + one_below(d, p)
}

// The signs of any positions.
pub fn signs_wide(start_a: u64, finish_a: u64, start_b: u64, finish_b: u64) -> Signs
    ensures { result ≡ signs_of start_a finish_a start_b finish_b }
{
    signs_narrow(
        rank(start_a, start_a, finish_a, start_b, finish_b),
        rank(finish_a, start_a, finish_a, start_b, finish_b),
        rank(start_b, start_a, finish_a, start_b, finish_b),
        rank(finish_b, start_a, finish_a, start_b, finish_b),
    )
}

// Whether all four positions fit in 16 bits.
pub fn all_fit(a: u64, b: u64, c: u64, d: u64) -> bool
    ensures { Tells result (AllFit a b c d) }
{
    if a >= BEYOND {
        return false;
    }
    if b >= BEYOND {
        return false;
    }
    if c >= BEYOND {
        return false;
    }
    if d >= BEYOND {
        return false;
    }
    true
}

// The lowest 16 bits of a position.
pub fn cut(p: u64) -> u16
    ensures { result ≡ p % 65536 }
{
    (p % BEYOND) as u16
}

// Whether two runs have a common moment, by the signs of their positions.
pub fn have_common(w: Signs) -> bool
    ensures { (s f t g : ℕ) → w ≡ signs_of s f t g → Tells result (CommonMoment s f t g) }
{
    if w.before != ABOVE {
        return false;
    }
    if w.after != ABOVE {
        return false;
    }
    if w.first != BELOW {
        return false;
    }
    if w.second != BELOW {
        return false;
    }
    true
}
