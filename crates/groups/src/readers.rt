// Who reads a label, by the sheet's rule of reading: fetched once, for a call that asks it of many groups.
ghost use Rattle.std.specs.Prelude.{◌≡◌};
ghost use Rattle.groups.specs.Internal.Readers.{reads_by, readers_in};

use labels::{OWNERS, Rule};
use sets::Set;

// The sets that a group meets if it reads. Pooled: the readers of each owner; a place that has no principal holds
// everyone, whom each group meets that reads. Alone: in each place those who read by themselves.
#[derive(Clone, Copy)]
pub(crate) struct Readers {
    pub(crate) sets: [Set; OWNERS],
}

impl Readers {
    // Whether a group meets each of the sets. All places are tested, since a loop that always goes to its end
    // takes fewer instructions than one that may stop.
    pub(crate) fn reads(&self, group: Set) -> bool
        ensures { result ≡ reads_by self.now group }
    {
        self.sets
            .iter()
            .fold(true, |all, &set| all & sets::meets(group, set))
    }
}

// Who reads label l.
pub(crate) fn readers_of(table: &[sheet::Word], l: u32) -> Readers
    ensures { result ≡ readers_in table.now l }
{
    match sheet::rule(table) {
        Rule::Pooled => {
            let label = sheet::label_of(table, l);
            let sets = label.readers;
            Readers { sets }
        }
        Rule::Alone => Readers {
            sets: [sheet::sole_readers(table, l); OWNERS],
        },
    }
}
