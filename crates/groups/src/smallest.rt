// The smallest groups that read, one after another, rising as numbers.
ghost use Rattle.std.specs.Prelude.{◌≡◌, ◌≤◌, ◌<◌, ◌^◌};
ghost use Rattle.std.specs.Iterator.{YieldsFirst, item_count};
ghost use Rattle.sets.specs.Sets.{width};
ghost use Rattle.groups.specs.Internal.Readers.{reads_by};
ghost use Rattle.groups.specs.Internal.Walk.{past_holders, reads_without, needs_each, smallest_up_to};

use crate::readers::Readers;
use sets::Set;

// Where the groups begin: the empty group reads nothing.
const FIRST: u32 = 1;

// One past the last of the numbers from a group on that all hold it. Where it reads, none of them but itself is
// smallest.
fn past_holders(group: u32) -> u32
    requires { (1 ≤ group) × (group < 2 ^ width) }
    ensures { result ≡ past_holders group }
{
    (group | (group - 1)) + 1
}

// Whether p is a member of a group that reads without it.
fn reads_without(readers: &Readers, group: Set, p: usize) -> bool
    requires { p < width }
    ensures { result ≡ reads_without (reads_by readers.now) group p }
{
    let member = sets::single(p);
    sets::meets(group, member) && readers.reads(group - member)
}

// Whether a group doesn't read without any one of its members. One that reads is then smallest.
fn needs_each(readers: &Readers, group: Set) -> bool
    ensures { result ≡ needs_each (reads_by readers.now) group }
{
    for p in 0..sets::WIDTH {
        if reads_without(readers, group, p) {
            return false;
        }
    }
    true
}

// The smallest groups from `from` on, below `end`.
#[derive(Clone, Copy)]
pub(crate) struct Smallest {
    readers: Readers,
    from: u32,
    end: u32,
    ghost some: { 1 ≤ from },
    ghost few: { end ≤ 2 ^ width },
}

impl Smallest {
    // All of them below `end`.
    pub(crate) fn below(end: u32, readers: Readers) -> Smallest
        requires { end ≤ 2 ^ width }
        ensures { smallest_up_to (reads_by result.readers) result.end result.from
            ≡ smallest_up_to (reads_by readers) end 1 }
    {
        Smallest {
            readers,
            from: FIRST,
            end,
        }
    }
}

impl Iterator for Smallest {
    ghost use Rattle.groups.specs.Internal.Smallest.{to_come};

    type Item = Set;

    ghost next_gives = { YieldsFirst to_come };

    ghost remaining = { item_count to_come };

    fn next(&mut self) -> Option<Set> {
        // A variable, since a store to the field at each turn takes instructions; and a `while`, since a turn may pass
        // more than one group.
        let mut from = self.from;
        while from < self.end {
            let group = from as Set;
            if !self.readers.reads(group) {
                from += 1;
                continue;
            }
            from = past_holders(from);
            if needs_each(&self.readers, group) {
                self.from = from;
                return Some(group);
            }
        }
        self.from = from;
        None
    }
}
