// The smallest groups that read a label. The groups are gone through rising as numbers, and counted before the first
// is written; to be written they are gone through again, up to the last.
#![tactic(auto)]

mod readers; // readers.rt: who reads a label
mod smallest; // smallest.rt: the smallest groups, one after another

ghost use Rattle.std.specs.Prelude.{◌≡◌, ◌≤◌, length};
ghost use Rattle.stages.specs.Refusals.{refusal_number};
ghost use Rattle.groups.specs.Answers.{grouped};
ghost use Rattle.groups.specs.Internal.Smallest.{to_come};
ghost use Rattle.groups.specs.Internal.Stages.{groups_in, answered_groups};

use crate::readers::readers_of;
use crate::smallest::Smallest;
use sets::Set;
use stages::Refusal;

// The answer, and how many groups stand in the first places.
#[repr(C)]
#[derive(Clone, Copy, Debug, PartialEq, Eq)]
pub struct Groups {
    pub answer: u8,
    pub count: u32,
}

// A refused call lists nothing.
pub fn refused(answer: u8) -> Groups
    ensures { result ≡ record { answer = answer; count = 0 } }
{
    Groups { answer, count: 0 }
}

impl From<Refusal> for Groups {
    ghost from_gives = { λ refusal groups. groups ≡ record { answer = refusal_number refusal; count = 0 } };

    fn from(refusal: Refusal) -> Groups {
        refused(refusal.into())
    }
}

// Writes them into the first places, as many as were found.
fn list(smallest: Smallest, found: usize, groups: &mut [Set])
    requires { (found ≡ length (to_come smallest)) × (found ≤ length groups.old) }
    ensures { groups.new ≡ (grouped groups.old (to_come smallest)).places }
{
    for (i, group) in smallest.enumerate().take(found) {
        groups[i] = group;
    }
}

// Lists the smallest groups that read label l on the sheet of a table.
pub fn list_on(table: &[sheet::Word], l: u32, groups: &mut [Set]) -> Result<Groups, Refusal>
    ensures { answered_groups result groups.new ≡ groups_in table.now l groups.old }
{
    if sheet::labels(table) <= l {
        return Err(Refusal::NotListed);
    }
    let end = sheet::everyone(table) as u32 + 1;
    let smallest = Smallest::below(end, readers_of(table, l));
    let found = smallest.count();
    if groups.len() < found {
        return Err(Refusal::NotListed);
    }
    list(smallest, found, groups);
    Ok(Groups {
        answer: stages::DONE,
        count: found as u32,
    })
}
