// The instants of the lines of a log, in 256 places: the first are the log's, the others are all zero.
//
// `instant_of` reads one from a record. On a lent column, `date_line` gives the next line its instant, and `joins_none` and `in_instant` tell
// which lines cannot join the one before; `spread_instants` and `instant_list` go from a record's instants to a column and back, and
// `same_instants` compares two columns.
#![tactic(auto)]

ghost use Rattle.std.specs.Prelude.{◌≡◌, ◌&&◌, cond, eqb, ◌+◌, ◌-◌, ◌<◌, ◌≤◌, length, Some, IfSome, IfNone, slice_get};
ghost use Rattle.lists.specs.Limits.{max_lines, max16};
ghost use Rattle.lists.specs.Tells.{Tells};
ghost use Rattle.instants.specs.Instants.{instant_at};
ghost use Rattle.instants.specs.Column.{instants_in, dated_in};

use lists::MAX_LINES;

// An instant's number, from 1; 0 for none.
#[derive(Clone, Copy)]
pub struct InstantNo(pub u16);

// What a list has for line `l`, counted from 1.
fn of_line<T: Copy>(list: &[T], l: u16) -> Option<T>
    ensures found { IfSome result (λ x. (0 < l) × (slice_get list.now (l - 1) ≡ Some x)) }
    ensures missing { IfNone result (0 < l → length list.now ≤ l - 1) }
{
    if l == 0 {
        return None;
    }
    list.get((l - 1) as usize).copied()
}

// The instant of line `l`: 0 for no line.
pub fn instant_of(instants: [InstantNo; MAX_LINES], l: u16) -> u16
    ensures { result ≡ instant_at instants l }
{
    match of_line(&instants, l) {
        Some(x) => x.0,
        None => 0,
    }
}

// The same, in a column.
pub fn instant_in(instants: &[u16], l: u16) -> u16
    requires { length instants.now ≡ max_lines }
    ensures { result ≡ instant_at (instants_in instants.now) l }
{
    match of_line(instants, l) {
        Some(x) => x,
        None => 0,
    }
}

// Whether a line after `lines` lines would join a line and there is none.
pub fn joins_none(joins: bool, lines: u16) -> bool
    ensures { result ≡ joins && eqb lines 0 }
{
    if joins {
        return lines == 0;
    }
    false
}

// Whether a line after `lines` lines falls in the instant of line `begin`.
pub fn in_instant(instants: &[u16], begin: u16, lines: u16, joins: bool) -> bool
    requires { length instants.now ≡ max_lines }
    ensures { result ≡ joins && eqb (instant_at (instants_in instants.now) begin) (instant_at (instants_in instants.now) lines) }
{
    if joins {
        let a = instant_in(instants, begin);
        let b = instant_in(instants, lines);
        return a == b;
    }
    false
}

// The instant of a line after one at instant `i`: the same, or one more.
fn next_instant(i: u16, joins: bool) -> u16
    requires { i < max16 }
    ensures { result ≡ cond joins i (i + 1) }
{
    if joins {
        return i;
    }
    i + 1
}

// The line after `lines` lines gets its instant: that of the line before, or one more.
pub fn date_line(instants: &mut [u16], lines: u16, joins: bool)
    requires { (length instants.old ≡ max_lines) × (instant_at (instants_in instants.old) lines < max16) }
    ensures { instants.new ≡ dated_in instants.old lines joins }
{
    let i = instant_in(instants, lines);
    let n = next_instant(i, joins);
    let k = lines as usize;
    if k < MAX_LINES {
        instants[k] = n;
    }
}

// The column of a record's instants.
pub fn spread_instants(list: [InstantNo; MAX_LINES], instants: &mut [u16])
    requires { length instants.old ≡ max_lines }
    ensures { (length instants.new ≡ max_lines) × (list ≡ instants_in instants.new) }
{
    for (i, x) in list.iter().enumerate() {
        instants[i] = x.0;
    }
}

// The instants of a column.
pub fn instant_list(instants: &[u16]) -> [InstantNo; MAX_LINES]
    requires { length instants.now ≡ max_lines }
    ensures { result ≡ instants_in instants.now }
{
    let mut list = [InstantNo(0); MAX_LINES];
    for (i, x) in instants.iter().enumerate() {
        list[i] = InstantNo(*x);
    }
    list
}

// Whether two columns hold the same instants.
pub fn same_instants(instants: &[u16], others: &[u16]) -> bool
    requires { (length instants.now ≡ max_lines) × (length others.now ≡ max_lines) }
    ensures { Tells result (instants.now ≡ others.now) }
{
    instants == others
}
