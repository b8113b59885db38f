// Variables and the ranks that they stand for.
ghost use Rattle.std.specs.Prelude.{◌≡◌, ◌<◌};
ghost use Rattle.lists.specs.Tells.{Tells};
ghost use Rattle.rules.specs.Limits.{variables};
ghost use Rattle.logic.specs.Satisfies.{bind};
ghost use Rattle.row_table.specs.Truth.{Fixed};
ghost use Rattle.row_table.specs.Ranks.{binding, InRange};

use crate::{Bindings, EACH, Rank};

// The rank that variable v stands for.
pub fn bound(b: Bindings, v: usize) -> usize
    requires { v < variables }
    ensures { result ≡ binding b v }
{
    let r = b.run[v];
    r.0 as usize
}

// The bindings with variable v at rank j.
pub fn rebound(b: Bindings, v: usize, j: Rank) -> Bindings
    requires { v < variables }
    ensures { binding result ≡ bind (binding b) v j.0 }
{
    let mut next = b;
    next.run[v] = j;
    next
}

// Whether no variable is marked.
pub fn fixed(b: Bindings) -> bool
    requires { InRange b }
    ensures { Tells result (Fixed (binding b)) }
{
    b.run.iter().all(|rank| rank.0 as usize != EACH)
}
