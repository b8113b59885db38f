// The shape of a rule's nodes, which an evaluator wants to know before it starts.
//
// Each call goes once over the nodes of a rule, from the first, since children have smaller numbers, and answers a table with a number
// for each node: `free_variables` the mask of the variables that stand free in it, and `heights` how many "some" lie one inside another
// in it.
#![tactic(auto)]

ghost use Rattle.std.specs.Prelude.{◌≡◌, not, ◌&&◌, ℕ, ◌-◌, ◌<◌, ◌≤◌, max, eqb, length};
ghost use Rattle.rules.specs.Limits.{variables, max_nodes};
ghost use Rattle.rules.specs.Table.{Good, formula_at};
ghost use Rattle.sets.specs.Sets.{bit};
ghost use Rattle.shape.specs.Tables.{FreeMask, Height, Passed, TableOf};

use rules::MAX_NODES;
use rules::table::node_at;

// The mask that has variable v alone.
fn digit(v: usize) -> u8
    requires { v < variables }
    ensures { (w : ℕ) → bit result w ≡ eqb v w }
{
    1u8 << v
}

// What the first mask has and the second has not.
fn without(mask: u8, other: u8) -> u8
    ensures { (w : ℕ) → bit result w ≡ (bit mask w && not (bit other w)) }
{
    mask ^ (mask & other)
}

// The mask of node n, from those of the nodes before it.
fn free_in_node(file: &[u8], first: usize, n: usize, masks: &[u8]) -> u8
    requires good { Good file.now first n }
    requires n_in_bounds { n ≤ length masks.now }
    requires passed { Passed FreeMask file.now first n masks.now }
    ensures { FreeMask (formula_at file.now first n) result }
{
    let x = node_at(file, first, n);
    let kind = x.kind;
    let a = x.a;
    let b = x.b;
    if kind == 1 {
        masks[a] | masks[b]
    } else if kind == 2 {
        masks[a]
    } else if kind == 3 {
        without(masks[b], digit(a))
    } else if kind == 4 {
        digit(a)
    } else {
        digit(a) | digit(b)
    }
}

// The variables that stand free in each node's formula: digit v of its mask for variable v.
pub fn free_variables(file: &[u8], first: usize, count: usize) -> [u8; MAX_NODES]
    requires count_le_max_nodes { count ≤ max_nodes }
    requires good { Good file.now first (count - 1) }
    ensures { TableOf FreeMask file.now first count result }
{
    let mut masks = [0u8; MAX_NODES];
    for n in 0..count {
        masks[n] = free_in_node(file, first, n, &masks);
    }
    masks
}

// The greater of two numbers.
fn greater(a: u8, b: u8) -> u8
    ensures { result ≡ max a b }
{
    if a < b {
        return b;
    }
    a
}

// The height of node n, from those of the nodes before it.
fn height_of_node(file: &[u8], first: usize, n: usize, heights: &[u8]) -> u8
    requires good { Good file.now first n }
    requires n_in_bounds { (n ≤ length heights.now) × (n < max_nodes) }
    requires passed { Passed Height file.now first n heights.now }
    ensures { Height (formula_at file.now first n) result }
{
    let x = node_at(file, first, n);
    let kind = x.kind;
    let a = x.a;
    let b = x.b;
    if kind == 1 {
        greater(heights[a], heights[b])
    } else if kind == 2 {
        heights[a]
    } else if kind == 3 {
        heights[b] + 1
    } else {
        0
    }
}

// How many "some" lie one inside another in each node's formula.
pub fn heights(file: &[u8], first: usize, count: usize) -> [u8; MAX_NODES]
    requires count_le_max_nodes { count ≤ max_nodes }
    requires good { Good file.now first (count - 1) }
    ensures { TableOf Height file.now first count result }
{
    let mut heights = [0u8; MAX_NODES];
    for n in 0..count {
        heights[n] = height_of_node(file, first, n, &heights);
    }
    heights
}
