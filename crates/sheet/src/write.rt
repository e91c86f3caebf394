// What is stored in a table where its sheet grows, a line at a time, each behind what is there. A table without room
// for more stays as it is. That what a line names is there is for the caller to see.
ghost use Rattle.std.specs.Prelude.{◌≡◌};
ghost use Rattle.sheet.specs.Internal.Tables.{right_word};
ghost use Rattle.sheet.specs.Internal.Writers.{low, principals_put, rule_put, entry_put, compound_put};
ghost use Rattle.sheet.specs.Internal.Writers.{location_put, open_put, policy_put};

use super::{
    ALONE, ERROR, EVERYONE, EntryList, GIVEN_TYPES, Kind, LABEL_COUNT, LOCATIONS, MOST_LABELS,
    MOST_LOCATIONS, MOST_TYPES, PARTS, PKG, PKG_OR_ERROR, PRINCIPAL_COUNT, RULE_PLACE, TYPE_COUNT,
    TYPES, WORDS, Word,
};
use labels::Label;
use sets::Set;

// Where the parts of pkg+error stand.
const PKG_PLACE: usize = (PARTS + 2 * PKG_OR_ERROR) as usize;

// The numbers from 0 to the most of anything that is counted, locations.
const COUNTS: u32 = MOST_LOCATIONS + 1;

// One of these numbers, so that it fits a word, however wide.
#[tactic(auto, unfolding(crate::specs::Internal::Writers::low))]
fn low(n: u32) -> Word
    ensures { result ≡ low n }
{
    (n % COUNTS) as Word
}

// The number of principals, and the types that every sheet has. Of these only pkg+error has parts other than 0 0.
pub fn put_principals(table: &mut [Word; WORDS], n: u32)
    ensures { table.new ≡ principals_put n table.old }
{
    table[PRINCIPAL_COUNT] = low(n);
    table[EVERYONE] = sets::everyone(n as usize);
    table[TYPE_COUNT] = GIVEN_TYPES as Word;
    table[PKG_PLACE] = PKG as Word;
    table[PKG_PLACE + 1] = ERROR as Word;
}

// The rule of the line `R 1`.
#[tactic(auto, unfolding(crate::specs::Internal::Tables::rule_word))]
pub fn put_rule(table: &mut [Word; WORDS])
    ensures { table.new ≡ rule_put table.old }
{
    table[RULE_PLACE] = ALONE;
}

impl EntryList {
    // An entry of two words behind the others.
    #[tactic(auto, unfolding(crate::specs::Internal::Writers::entry_put))]
    fn add(self, table: &mut [Word; WORDS], a: u32, b: u32)
        ensures { table.new ≡ entry_put self.base self.count self.most a b table.old }
    {
        let n = super::number(table, self.count);
        if self.most <= n {
            return;
        }
        let at = (self.base + 2 * n) as usize;
        table[at] = low(a);
        table[at + 1] = low(b);
        table[self.count] = low(n + 1);
    }
}

// The second word of a type of a kind with the right part b.
#[tactic(auto, unfolding(crate::specs::Internal::Tables::right_word))]
fn right_word(kind: Kind, b: u32) -> u32
    ensures { result ≡ right_word kind b }
{
    match kind {
        Kind::Sum => b % MOST_TYPES,
        Kind::Pair => MOST_TYPES + b % MOST_TYPES,
    }
}

// The sum or the pair of two types.
pub fn add_compound(table: &mut [Word; WORDS], kind: Kind, a: u32, b: u32)
    ensures { table.new ≡ compound_put kind a b table.old }
{
    TYPES.add(table, a, right_word(kind, b));
}

// A location.
pub fn add_location(table: &mut [Word; WORDS], ty: u32, label: u32)
    ensures { table.new ≡ location_put ty label table.old }
{
    LOCATIONS.add(table, ty, label);
}

// A label without policies.
#[tactic(auto, unfolding(crate::specs::Internal::Writers::open_put))]
pub fn add_label(table: &mut [Word; WORDS])
    ensures { table.new ≡ open_put table.old }
{
    let l = super::labels(table);
    if MOST_LABELS <= l {
        return;
    }
    let label = Label::open(super::principals(table) as usize, super::everyone(table));
    labels::put_label(table, super::label_place(l), label);
    table[LABEL_COUNT] = low(l + 1);
}

// A policy of the last label.
#[tactic(auto, unfolding(crate::specs::Internal::Writers::policy_put, crate::specs::Internal::Tables::label_in))]
pub fn add_policy(table: &mut [Word; WORDS], owner: u32, readers: Set, writers: Set)
    ensures { table.new ≡ policy_put owner readers writers table.old }
{
    let Some(last) = super::labels(table).checked_sub(1) else {
        return;
    };
    labels::put_policy(
        table,
        super::label_place(last),
        owner as usize,
        readers,
        writers,
    );
}
