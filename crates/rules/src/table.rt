// The table of nodes, three bytes a node.
ghost use Rattle.std.specs.Prelude.{◌≡◌, ◌&&◌, ◌+◌, ◌*◌, ◌<◌, ◌≤◌, ltb, length};
ghost use Rattle.rules.specs.Parts.{label_count, read_node_count};
ghost use Rattle.rules.specs.Table.{node_at, fields_ok, read_node, read_nodes};

use crate::{MAX_NODES, Node, VARIABLES};
use refusals::Refusal;

// Node n of the table whose first node stands at a place.
pub fn node_at(file: &[u8], first: usize, n: usize) -> Node
    requires { first + 3 * n + 2 < length file.now }
    ensures { result ≡ node_at file.now first n }
{
    let at = first + 3 * n;
    Node {
        kind: file[at],
        a: file[at + 1] as usize,
        b: file[at + 2] as usize,
    }
}

// Whether two fields are below their bounds.
fn within(a: usize, m: usize, b: usize, n: usize) -> bool
    ensures { result ≡ (ltb a m && ltb b n) }
{
    a < m && b < n
}

// Whether the kind and fields of node i are in range.
fn fields_ok(labels: usize, i: usize, x: Node) -> bool
    ensures { result ≡ fields_ok labels i x }
{
    match x.kind {
        1 => within(x.a, i, x.b, i),
        2 => within(x.a, i, x.b, 1),
        3 => within(x.a, VARIABLES, x.b, i),
        4 => within(x.a, VARIABLES, x.b, labels),
        5 | 6 | 7 | 8 => within(x.a, VARIABLES, x.b, VARIABLES),
        _ => false,
    }
}

// The count of nodes, at a place.
pub fn node_count(file: &[u8], at: usize) -> Result<usize, Refusal>
    ensures { result ≡ read_node_count file.now at }
{
    if file.len() <= at {
        return Err(Refusal::RuleEndsEarly);
    }
    let count = file[at] as usize;
    if count < 1 {
        return Err(Refusal::RuleCount);
    }
    if MAX_NODES < count {
        return Err(Refusal::RuleCount);
    }
    Ok(at + 1)
}

// Node i.
fn node(file: &[u8], labels: usize, first: usize, i: usize) -> Result<usize, Refusal>
    requires { (labels ≡ label_count file.now) × (first + 3 * i ≤ length file.now) }
    ensures { result ≡ read_node file.now first i }
{
    let at = first + 3 * i;
    if file.len() - at < 3 {
        return Err(Refusal::RuleEndsEarly);
    }
    if !fields_ok(labels, i, node_at(file, first, i)) {
        return Err(Refusal::RuleNode);
    }
    Ok(at + 3)
}

// All nodes: the place after the last.
pub fn nodes(file: &[u8], labels: usize, first: usize, count: usize) -> Result<usize, Refusal>
    requires { (labels ≡ label_count file.now) × (first ≤ length file.now) }
    ensures { result ≡ read_nodes file.now first count }
{
    for i in 0..count {
        node(file, labels, first, i)?;
    }
    Ok(first + 3 * count)
}
