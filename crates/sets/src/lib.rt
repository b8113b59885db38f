// Sets of runs, as two words, and what the operations on them do to each member.
#![tactic(auto)]

ghost use Rattle.std.specs.Prelude.{◌≡◌, false, not, ◌&&◌, ◌||◌, ℕ, ◌+◌, ◌-◌, ◌^◌, ◌<◌, ◌≤◌, ltb, leb};
ghost use Rattle.lists.specs.Tells.{Tells};
ghost use Rattle.sets.specs.Sets.{mem, any_up_to};

// A set of runs: bit j of lo for j below 64, bit j - 64 of hi from there on.
#[derive(Clone, Copy)]
pub struct RunSet {
    pub lo: u64,
    pub hi: u64,
}

// What both sets have.
pub fn meet(a: RunSet, b: RunSet) -> RunSet
    ensures { (j : ℕ) → mem result j ≡ (mem a j && mem b j) }
{
    RunSet {
        lo: a.lo & b.lo,
        hi: a.hi & b.hi,
    }
}

// What one of the sets has.
pub fn join(a: RunSet, b: RunSet) -> RunSet
    ensures { (j : ℕ) → mem result j ≡ (mem a j || mem b j) }
{
    RunSet {
        lo: a.lo | b.lo,
        hi: a.hi | b.hi,
    }
}

// What the first set has and the second has not.
pub fn minus(a: RunSet, b: RunSet) -> RunSet
    ensures { (j : ℕ) → mem result j ≡ (mem a j && not (mem b j)) }
{
    RunSet {
        lo: a.lo ^ (a.lo & b.lo),
        hi: a.hi ^ (a.hi & b.hi),
    }
}

// The set that has nothing.
pub fn empty() -> RunSet
    ensures { (j : ℕ) → mem result j ≡ false }
{
    RunSet { lo: 0, hi: 0 }
}

// Whether the set has nothing.
pub fn none(s: RunSet) -> bool
    ensures { Tells result ((j : ℕ) → mem s j ≡ false) }
{
    s.lo == 0 && s.hi == 0
}

// Whether the set has i.
pub fn has(s: RunSet, i: usize) -> bool
    requires { i < 128 }
    ensures { result ≡ mem s i }
{
    if i < 64 {
        (s.lo >> i) % 2 == 1
    } else {
        (s.hi >> (i - 64)) % 2 == 1
    }
}

// The k lowest bits of a word.
fn ones(k: usize) -> u64
    requires { k < 64 }
    ensures { result ≡ 2 ^ k - 1 }
{
    (1u64 << k) - 1
}

// The numbers below k.
pub fn below(k: usize) -> RunSet
    requires { k ≤ 128 }
    ensures { (j : ℕ) → mem result j ≡ ltb j k }
{
    if k < 64 {
        RunSet { lo: ones(k), hi: 0 }
    } else if k < 128 {
        RunSet {
            lo: 18446744073709551615,
            hi: ones(k - 64),
        }
    } else {
        RunSet {
            lo: 18446744073709551615,
            hi: 18446744073709551615,
        }
    }
}

// What the set has from k on.
pub fn from(s: RunSet, k: usize) -> RunSet
    requires { k ≤ 128 }
    ensures { (j : ℕ) → mem result j ≡ (mem s j && leb k j) }
{
    minus(s, below(k))
}

// From the least member of s on.
pub fn upward(s: RunSet) -> RunSet
    ensures { (j : ℕ) → j < 128 → mem result j ≡ any_up_to j (mem s) }
{
    if s.lo != 0 {
        from(below(128), u64::trailing_zeros(s.lo) as usize)
    } else if s.hi != 0 {
        from(below(128), 64 + u64::trailing_zeros(s.hi) as usize)
    } else {
        s
    }
}
