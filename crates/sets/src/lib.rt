// Sets of principals as masks: bit p of a set is principal p.
#![tactic(auto)]

ghost use Rattle.std.specs.Prelude.{◌≡◌};
ghost use Rattle.sets.specs.Sets.{width, union, intersection, within, meets, single, everyone, restrict};

pub type Set = u16;

// The number of bits of a set, and so of principals that it has room for.
pub const WIDTH: usize = 16;

// The members of x and those of y.
#[tactic(auto, unfolding(crate::specs::Sets::union))]
pub fn union(x: Set, y: Set) -> Set
    ensures { result ≡ union x y }
{
    x | y
}

// The members that x and y have in common.
#[tactic(auto, unfolding(crate::specs::Sets::intersection))]
pub fn intersection(x: Set, y: Set) -> Set
    ensures { result ≡ intersection x y }
{
    x & y
}

// Whether every member of x is one of y.
#[tactic(auto, unfolding(crate::specs::Sets::within))]
pub fn contained(x: Set, y: Set) -> bool
    ensures { result ≡ within x y }
{
    x & y == x
}

// Whether x and y have a member in common.
#[tactic(auto, unfolding(crate::specs::Sets::meets))]
pub fn meets(x: Set, y: Set) -> bool
    ensures { result ≡ meets x y }
{
    x & y != 0
}

// The set {p}; without a member if p is at or above the width.
pub fn single(p: usize) -> Set
    ensures { result ≡ restrict width (single p) }
{
    if p >= WIDTH {
        return 0;
    }
    (1 as Set) << p
}

// The first n principals; the full set if n is above the width.
pub fn everyone(n: usize) -> Set
    ensures { result ≡ restrict width (everyone n) }
{
    if n >= WIDTH {
        return Set::MAX;
    }
    single(n) - 1
}
