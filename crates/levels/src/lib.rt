// Levels of variables: the number of "some" around the one that binds a use, from 0.
//
// `no_levels` is outside every "some", `entered` inside one more, and `level_of` answers the level of a variable.
#![tactic(auto)]

ghost use Rattle.std.specs.Prelude.{◌≡◌, ◌<◌};
ghost use Rattle.rules.specs.Limits.{variables};
ghost use Rattle.levels.specs.Levels.{binds, no_levels};
ghost use Rattle.levels.specs.Carried.{levels_of};

use rules::VARIABLES;

// The level of the "some" that binds each variable; 0 where none does.
#[derive(Clone, Copy)]
pub struct VarLevels {
    pub of: [usize; VARIABLES],
}

// No variable is bound.
pub fn no_levels() -> VarLevels
    ensures { levels_of result ≡ no_levels }
{
    VarLevels { of: [0; VARIABLES] }
}

// The levels inside a "some" at level d that binds v.
pub fn entered(levels: VarLevels, v: usize, d: usize) -> VarLevels
    requires { v < variables }
    ensures { levels_of result ≡ binds (levels_of levels) v d }
{
    let mut next = levels;
    next.of[v] = d;
    next
}

// The level of a variable.
pub fn level_of(levels: VarLevels, v: usize) -> usize
    requires { v < variables }
    ensures { result ≡ levels_of levels v }
{
    levels.of[v]
}
