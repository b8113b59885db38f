// How the search for a run goes, and what it leaves out: moments and runs that need no look.
ghost use Rattle.std.specs.Prelude.{◌≡◌, true, ◌<◌, length, get_or};
ghost use Rattle.lists.specs.Tells.{Tells};
ghost use Rattle.rules.specs.Limits.{variables};
ghost use Rattle.row_table.specs.Truth.{Fixed};
ghost use Rattle.moments.specs.Open.{NoneShared, Marked};
ghost use Rattle.row_table.specs.Ranks.{binding, InRange};

use crate::Bindings;
use row_table::ranks::fixed;
use sets::RunSet;

// Up to so many runs of a word are few.
const FEW: u32 = 8;

// How many "some" lie one inside another in a node, if no variable is marked; two otherwise.
pub fn unmarked_height(heights: &[u8], node: usize, b: Bindings) -> u8
    requires node_in_bounds { node < length heights.now }
    requires in_range { InRange b }
    ensures { result < 2 → (get_or heights.now node 0 ≡ result) × Fixed (binding b) }
{
    if fixed(b) { heights[node] } else { 2 }
}

// Whether a search goes by rows: where one "some" lies below and more than a few runs are left. For few, run after run is faster.
pub fn by_rows(height: u8, keep: RunSet) -> bool
    ensures { result ≡ true → height ≡ 1 }
{
    if height == 1 { many(keep) } else { false }
}

// Whether a set has more than a few runs.
fn many(s: RunSet) -> bool {
    u64::count_ones(s.lo) > FEW || u64::count_ones(s.hi) > FEW
}

// Whether two masks have no variable in common.
fn apart(a: u8, b: u8) -> bool
    ensures { Tells result (NoneShared a b) }
{
    a & b == 0
}

// The mask with variable v.
pub fn marked(b: u8, v: usize) -> u8
    requires { v < variables }
    ensures { Marked b v result }
{
    b | (1u8 << v)
}

// Whether a node has no "some" and none of the variables of a mask stands free in it.
pub fn closed(heights: &[u8], frees: &[u8], node: usize, any: u8) -> bool
    requires { (node < length heights.now) × (node < length frees.now) }
    ensures { Tells result ((get_or heights.now node 0 ≡ 0) × NoneShared (get_or frees.now node 0) any) }
{
    if heights[node] == 0 {
        apart(frees[node], any)
    } else {
        false
    }
}
