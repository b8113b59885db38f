// The names bound around a place, outermost first.
ghost use Rattle.std.specs.Prelude.{◌≡◌, ◌≤◌, ◌<◌, ◌+◌, ◌*◌, length};
ghost use Rattle.atoms.specs.Emit.{level as level_of};
ghost use Rattle.atoms.specs.Readers.{Enters};

// The level of the innermost binding of a name; 255 where there is none.
// Kept: 255 is what the table has for such a name, by `level` of specs/Emit.antt, and an Option would be turned back at each call.
pub fn level(names: &[usize], x: usize) -> usize
    requires { length names.now ≤ 64 }
    ensures { result ≡ level_of names.now x }
{
    let mut found: usize = 255;
    for (i, name) in names.iter().enumerate() {
        if *name == x {
            found = i;
        }
    }
    found
}

// Name x inside the first d names, of which 64 are kept: how many there are now.
pub fn enter(names: &mut [usize], d: usize, x: usize) -> usize
    requires { (d ≤ 64) × (length names.old ≡ 64) }
    ensures { Enters names.old d x result names.new }
{
    if d < 64 {
        names[d] = x;
        return d + 1;
    }
    d
}
