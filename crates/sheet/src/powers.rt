// What a group may do to each label, worked out once: bit l, it writes label l; bit 32 + l, it reads label l.
ghost use Rattle.std.specs.Prelude.{◌≡◌, ◌+◌, ◌*◌, ◌<◌, ◌≤◌, if◌then◌else◌, ltb};
ghost use Rattle.logic.specs.Booleans.{both};
ghost use Rattle.sets.specs.Sets.{member, union, single};
ghost use Rattle.sheet.specs.Sheet.{max_labels};
ghost use Rattle.sheet.specs.Internal.Powers.{powers_in, may_write, may_read};

use crate::{MOST_LABELS, Word};
use sets::Set;

pub type Powers = u64;

// Where the bits for reading start.
const READING: u32 = MOST_LABELS;

// These powers, with power p where it is held.
#[tactic(auto, unfolding(sets::specs::Sets::union))]
fn with(powers: Powers, p: u32, held: bool) -> Powers
    requires { p < 2 * max_labels }
    ensures { result ≡ (if held then union powers (single p) else powers) }
{
    if held { powers | (1 << p) } else { powers }
}

// All powers of a group over the labels that are there.
pub fn powers(table: &[Word], group: Set) -> Powers
    ensures { result ≡ powers_in table.now group }
{
    let mut out = 0;
    for l in 0..crate::labels(table).min(MOST_LABELS) {
        out = with(out, l, crate::writes(table, group, l));
        out = with(out, READING + l, crate::reads(table, group, l));
    }
    out
}

// Whether the power over label l is there whose bits start at `from`.
#[tactic(auto, unfolding(logic::specs::Booleans::both, sets::specs::Sets::member))]
fn over(powers: Powers, from: u32, l: u32) -> bool
    requires { from ≤ max_labels }
    ensures { result ≡ both (ltb l max_labels) (member (from + l) powers) }
{
    l < MOST_LABELS && (powers >> (from + l)) % 2 == 1
}

// Whether these powers let one write label l.
#[tactic(auto, unfolding(crate::specs::Internal::Powers::may_write))]
pub fn may_write(powers: Powers, l: u32) -> bool
    ensures { result ≡ may_write powers l }
{
    over(powers, 0, l)
}

// Whether they let one read it.
#[tactic(auto, unfolding(crate::specs::Internal::Powers::may_read))]
pub fn may_read(powers: Powers, l: u32) -> bool
    ensures { result ≡ may_read powers l }
{
    over(powers, READING, l)
}
