// The table of nodes.
ghost use Rattle.std.specs.Prelude.{◌≡◌, ◌≤◌, ◌<◌, ◌+◌, ◌*◌, length};
ghost use Rattle.atoms.specs.Emit.{put as put_of, close_or, level as level_of};
ghost use Rattle.atoms.specs.Readers.{Stored, put_nots};

use crate::names::level;

// Node k of the table, if it has room.
// Kept: three words a node, the kind by its number in a rule file: `emit`, which `Parses` and `ReadsText` stand on, has them so.
pub fn put(table: &mut [usize], k: usize, kind: usize, a: usize, b: usize)
    requires { 192 ≤ length table.old }
    ensures { Stored table.old (put_of table.old k kind a b) table.new }
{
    if k < 64 {
        table[3 * k] = kind;
        table[3 * k + 1] = a;
        table[3 * k + 2] = b;
    }
}

// Node k of two names; their levels are looked up only where the table has room.
pub fn put_pair(table: &mut [usize], k: usize, kind: usize, names: &[usize], x: usize, y: usize)
    requires { (192 ≤ length table.old) × (length names.now ≤ 64) }
    ensures { Stored table.old (put_of table.old k kind (level_of names.now x) (level_of names.now y)) table.new }
{
    if k < 64 {
        put(table, k, kind, level(names, x), level(names, y));
    }
}

// Behind the two sides of an or: the not of the second, the and, and its not.
pub fn close_or(table: &mut [usize], k: usize, n: usize)
    requires { (192 ≤ length table.old) × (1 ≤ n) × (n ≤ 65536) }
    ensures { Stored table.old (close_or table.old k n) table.new }
{
    put(table, n, 2, n - 1, 0);
    put(table, n + 1, 1, k, n);
    put(table, n + 2, 2, n + 1, 0);
}

// Behind an operand that ends before node n: c nots, each of the node before it.
pub fn put_nots(table: &mut [usize], n: usize, c: usize)
    requires { (192 ≤ length table.old) × (1 ≤ n) × (n + c ≤ 65536) }
    ensures { Stored table.old (put_nots table.old n c) table.new }
{
    for i in n..n + c {
        put(table, i, 2, i - 1, 0);
    }
}
