// Labels in effective form, by value: for each owner a set of readers and a set of writers.
#![tactic(auto)]

ghost use Rattle.std.specs.Prelude.{◌≡◌, ◌↔◌, ◌+◌, ◌≤◌, IsTrue, length, get_or, take, drop};
ghost use Rattle.sets.specs.Sets.{within, meets, every, tab};
ghost use Rattle.labels.specs.Labels.{owners, open_of, policy_of, below_of, join_of, confidentiality_of, integrity_of};
ghost use Rattle.labels.specs.Labels.{bottom_of, reads_pooled_of, writes_of};
ghost use Rattle.labels.specs.Internal.Tables.{label_size, sets_at, label_at, label_put};
ghost use Rattle.labels.specs.Internal.Sole.{common_of, sole_readers_of};

use sets::Set;
use std::array;

// A label has a place for each principal that a set has room for.
pub const OWNERS: usize = sets::WIDTH;

// The number of words that a label takes in a table.
pub const LABEL_SIZE: usize = 2 * OWNERS;

// The rule of reading: for each owner one of a group's members is a reader, or one of its members is a reader for every
// owner.
#[derive(Clone, Copy, Debug, PartialEq, Eq)]
pub enum Rule {
    Pooled,
    Alone,
}

#[derive(Clone, Copy, Debug, PartialEq, Eq)]
pub struct Label {
    pub readers: [Set; OWNERS],
    pub writers: [Set; OWNERS],
}

// {o} for each owner o, as a table: a constant that computes it would need a loop.
const OWN: [Set; OWNERS] = [
    1 << 0,
    1 << 1,
    1 << 2,
    1 << 3,
    1 << 4,
    1 << 5,
    1 << 6,
    1 << 7,
    1 << 8,
    1 << 9,
    1 << 10,
    1 << 11,
    1 << 12,
    1 << 13,
    1 << 14,
    1 << 15,
];

impl Label {
    // The label without policies, of n principals, `all` being the set of them.
    pub fn open(n: usize, all: Set) -> Label
        ensures { result ≡ open_of n all }
    {
        Label {
            readers: [all; OWNERS],
            writers: array::from_fn(|o| if o < n { all } else { OWN[o] }),
        }
    }

    // Whether this label is at or below the other: its readers contain the other's, as for C, and its writers lie
    // within the other's.
    pub fn at_or_below(self, other: Label) -> bool
        ensures { result ≡ below_of self other }
    {
        self.confidentiality_at_or_below(other) && contained_each(&self.writers, &other.writers)
    }

    // The least label that both are at or below: readers intersected, writers united.
    pub fn join(self, other: Label) -> Label
        ensures { result ≡ join_of self other }
    {
        Label {
            readers: array::from_fn(|o| sets::intersection(self.readers[o], other.readers[o])),
            writers: array::from_fn(|o| sets::union(self.writers[o], other.writers[o])),
        }
    }

    // C(A): the readers, and for each owner o the writers {o}.
    pub fn confidentiality(self) -> Label
        ensures { result ≡ confidentiality_of self }
    {
        let readers = self.readers;
        Label {
            readers,
            writers: OWN,
        }
    }

    // I(A): the writers, and all principals as readers.
    #[tactic(auto, unfolding(crate::specs::Labels::integrity_of))]
    pub fn integrity(self, all: Set) -> Label
        ensures { result ≡ integrity_of all self }
    {
        let writers = self.writers;
        Label {
            readers: [all; OWNERS],
            writers,
        }
    }

    // The least label: all readers, and for each owner o the writers {o}.
    pub fn bottom(all: Set) -> Label
        ensures { result ≡ bottom_of all }
    {
        Label {
            readers: [all; OWNERS],
            writers: OWN,
        }
    }

    // Whether C of this label is at or below C of the other: for each owner its readers contain the other's. Both are
    // read owner by owner, and neither C is built.
    pub fn confidentiality_at_or_below(self, other: Label) -> bool
        ensures { result ≡ below_of (confidentiality_of self) (confidentiality_of other) }
    {
        contained_each(&other.readers, &self.readers)
    }

    // Whether C of bottom, `all` being the principals, is at or below C of this label: its readers are among them.
    pub fn readers_within(self, all: Set) -> bool
        ensures { result ≡ below_of (confidentiality_of (bottom_of all)) (confidentiality_of self) }
    {
        self.readers.iter().fold(
            true,
            |within, &readers| within & sets::contained(readers, all),
        )
    }

    // Whether a group reads by the pooled rule: it holds a reader for each owner below n.
    #[tactic(auto, unfolding(crate::specs::Labels::reads_pooled_of))]
    pub fn reads_pooled(self, n: usize, group: Set) -> bool
        ensures { result ≡ reads_pooled_of n group self }
    {
        meets_each(&self.readers, n, group)
    }

    // The principals who read by themselves: the readers for each owner below n, in common.
    #[tactic(auto, unfolding(crate::specs::Internal::Sole::sole_readers_of))]
    pub fn sole_readers(self, n: usize) -> Set
        ensures { result ≡ sole_readers_of n self }
    {
        common(&self.readers, n)
    }

    // Whether a group holds a writer for each owner below n.
    #[tactic(auto, unfolding(crate::specs::Labels::writes_of))]
    pub fn writes(self, n: usize, group: Set) -> bool
        ensures { result ≡ writes_of n group self }
    {
        meets_each(&self.writers, n, group)
    }
}

// The label whose words start at `at`; words past the end of the table count as 0.
pub fn label_at(table: &[Set], at: usize) -> Label
    ensures { result ≡ label_at table.now at }
{
    let words = words_at(table, at);
    Label {
        readers: sets_of(words),
        writers: sets_of(words_at(words, OWNERS)),
    }
}

// Stores the words of a label from `at` on; the table stays as it is where they don't fit.
pub fn put_label(table: &mut [Set], at: usize, label: Label)
    ensures { table.new ≡ label_put table.old at label }
{
    if there(table, at) {
        table[at..at + OWNERS].copy_from_slice(&label.readers);
        table[at + OWNERS..at + LABEL_SIZE].copy_from_slice(&label.writers);
    }
}

// A policy of an owner for the label whose words start at `at`, stored in place; the table stays as it is where the
// label's words don't fit, or where it has no place for that owner.
pub fn put_policy(table: &mut [Set], at: usize, owner: usize, readers: Set, writers: Set)
    ensures { table.new
        ≡ label_put table.old at (policy_of (label_at table.old at) owner readers writers) }
{
    if there(table, at) && owner < OWNERS {
        let own = sets::single(owner);
        table[at + owner] = sets::union(readers, own);
        table[at + OWNERS + owner] = sets::union(writers, own);
    }
}

// Whether a group meets each of the first n sets from the word at `at` on: a label's readers, or its writers,
// without the label.
pub fn meets_at(table: &[Set], at: usize, n: usize, group: Set) -> bool
    ensures { result ≡ every n (λ o. meets group (get_or (sets_at table.now at) o 0)) }
{
    meets_each(row_at(table, at), n, group)
}

// What the first n sets from the word at `at` on have in common: of a label's readers, without the label, those who
// read by themselves.
pub fn common_at(table: &[Set], at: usize, n: usize) -> Set
    ensures { result ≡ common_of n (λ o. get_or (sets_at table.now at) o 0) }
{
    common(row_at(table, at), n)
}

// Whether a group meets each of the first n sets; past the last set there is none to meet.
fn meets_each(row: &[Set], n: usize, group: Set) -> bool
    ensures { result ≡ every n (λ o. meets group (get_or row.now o 0)) }
{
    n <= row.len() && row[..n].iter().all(|&set| sets::meets(group, set))
}

// What the first n sets have in common; nothing where there are fewer.
fn common(row: &[Set], n: usize) -> Set
    ensures { result ≡ common_of n (λ o. get_or row.now o 0) }
{
    if n > row.len() {
        return 0;
    }
    row[..n]
        .iter()
        .copied()
        .fold(sets::everyone(OWNERS), sets::intersection)
}

// Whether each set of x is contained in that of y at the same place. All places are tested, since a loop that always
// goes to its end takes fewer instructions than one that may stop.
fn contained_each(x: &[Set; OWNERS], y: &[Set; OWNERS]) -> bool
    ensures { result ≡ every owners (λ o. within (get_or x.now o 0) (get_or y.now o 0)) }
{
    x.iter()
        .zip(y)
        .fold(true, |all, (&x, &y)| all & sets::contained(x, y))
}

// Whether a label's words, from `at` on, stand in the table.
fn there(table: &[Set], at: usize) -> bool
    ensures { IsTrue result ↔ (at + label_size ≤ length table.now) }
{
    words_at(table, at).len() >= LABEL_SIZE
}

// The words of a table from `at` on; none past its end.
fn words_at(table: &[Set], at: usize) -> &[Set]
    ensures { result.now ≡ drop at table.now }
{
    table.get(at..).unwrap_or(&[])
}

// One set for each owner, from the word at `at` on; fewer where the table ends before.
fn row_at(table: &[Set], at: usize) -> &[Set]
    ensures { result.now ≡ take owners (drop at table.now) }
{
    let words = words_at(table, at);
    words.get(..OWNERS).unwrap_or(words)
}

// One set for each owner; a word past the last counts as 0.
fn sets_of(words: &[Set]) -> [Set; OWNERS]
    ensures { result ≡ tab owners (λ o. get_or words.now o 0) }
{
    match words.first_chunk() {
        Some(row) => *row,
        None => filled_up(words),
    }
}

// The same, word by word. It is kept out of line, so that `sets_of` is a few instructions.
#[cold]
#[inline(never)]
fn filled_up(words: &[Set]) -> [Set; OWNERS]
    ensures { result ≡ tab owners (λ o. get_or words.now o 0) }
{
    array::from_fn(|o| words.get(o).copied().unwrap_or(0))
}
