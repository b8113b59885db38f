// The relation of two runs, named by the signs of their positions. Signs have no width.
ghost use Rattle.std.specs.Prelude.{ℕ, ◌≡◌};
ghost use Rattle.positions.specs.Comparison.{sign_of, signs_of, CommonMoment};
ghost use Rattle.relations.specs.Relation.{relation_of};

use super::{AFTER, BEFORE, DURING, INCLUDES, OVERLAPPED, OVERLAPS};
use positions::{BELOW, Signs};

// The number of the relation of two runs that have a common moment, or 0: the signs of their starts and of their
// finishes are a place of a table of three times three.
fn common_name(starts: u8, finishes: u8) -> u8
    ensures { (s f t g : ℕ) → starts ≡ sign_of s t → finishes ≡ sign_of f g → CommonMoment s f t g
        → result ≡ relation_of s f t g }
{
    // In 16 bits, where no two bytes are too large for it.
    match 3 * (starts as u16) + (finishes as u16) {
        // a starts first, and finishes first or last
        0 => OVERLAPS,
        2 => INCLUDES,
        // b starts first, and a finishes first or last
        6 => DURING,
        8 => OVERLAPPED,
        _ => 0,
    }
}

// The number of the relation of two runs by the signs of their positions, or 0.
pub fn name_of(w: Signs) -> u8
    ensures { (s f t g : ℕ) → w ≡ signs_of s f t g → result ≡ relation_of s f t g }
{
    if w.before == BELOW {
        return BEFORE;
    }
    if w.after == BELOW {
        return AFTER;
    }
    if positions::have_common(w) {
        return common_name(w.starts, w.finishes);
    }
    0
}
