// The decoded sheet: a table of words, and what it says of types, locations and labels.
#![tactic(auto)]

pub mod powers; // powers.rt: what a group may do to the labels
pub mod write; // write.rt: what is stored where the sheet grows

ghost use Rattle.std.specs.Prelude.{◌≡◌, ◌+◌, ◌*◌, ◌<◌, ◌≤◌, get_or, if◌then◌else◌, nat_le};
ghost use Rattle.sheet.specs.Internal.Tables.{parts_place, label_place, entry_in, principals_in, everyone_in, types_in};
ghost use Rattle.sheet.specs.Internal.Tables.{labels_in, locations_in, left_in, right_in, type_in, right_word_in};
ghost use Rattle.sheet.specs.Internal.Tables.{home_in, label_in, below_in, rule_in, reads_in, writes_in};
ghost use Rattle.sheet.specs.Internal.Tables.{max_types, table_words};
ghost use Rattle.labels.specs.Labels.{bottom_of, reads_pooled_of};
ghost use Rattle.labels.specs.Internal.Sole.{sole_readers_of};
ghost use Rattle.sheet.specs.Internal.TypeTest.{is_of, is_sum, is_pair};
ghost use Rattle.sheet.specs.declared.Kind.TheVariants.{Sum, Pair};

use labels::{LABEL_SIZE, Label, OWNERS, Rule};
use sets::Set;

// The two kinds of types that a sheet makes of others.
#[derive(Clone, Copy, Debug, PartialEq, Eq)]
pub enum Kind {
    Sum,
    Pair,
}

// A word of a table: wide enough for a set, and for each count.
pub type Word = Set;

// The types that are given, and how many principals, types, locations and labels a sheet has at most.
pub const GIVEN_TYPES: u32 = 5;

pub const MOST_PRINCIPALS: u32 = 16;

pub const MOST_TYPES: u32 = GIVEN_TYPES + 27;

pub const MOST_LOCATIONS: u32 = 64;

pub const MOST_LABELS: u32 = 32;

// The words of the number of principals, of their set, of the counts of types, of labels and of locations, and of the
// rule of reading.
const PRINCIPAL_COUNT: usize = 0;

const EVERYONE: usize = 1;

const TYPE_COUNT: usize = 2;

const LABEL_COUNT: usize = 3;

const LOCATION_COUNT: usize = 4;

const RULE_PLACE: usize = 5;

// The words of the two rules: a table is of words, and Rust lets no crate but that of `Rule` convert these into it.
const POOLED: Word = 0;

const ALONE: Word = 1;

// Where the parts of types, the locations and the labels start in a table, and its words in all.
const PARTS: u32 = 8;

const LOCATIONS_START: u32 = PARTS + 2 * MOST_TYPES;

const LABELS: usize = (LOCATIONS_START + 2 * MOST_LOCATIONS) as usize;

pub const WORDS: usize = LABELS + LABEL_SIZE * (MOST_LABELS as usize);

// The word at `at`, or 0 past the end.
fn word(table: &[Word], at: usize) -> Word
    ensures { result ≡ get_or table.now at 0 }
{
    table.get(at).copied().unwrap_or(0)
}

// The same word as a wider number.
fn number(table: &[Word], at: usize) -> u32
    ensures { result ≡ get_or table.now at 0 }
{
    u32::from(word(table, at))
}

// A list of entries of two words in a table: the word that counts them, where they start, and how many there are at
// most.
#[derive(Clone, Copy)]
struct EntryList {
    count: usize,
    base: u32,
    most: u32,
    ghost in_table: { base + 2 * most ≤ table_words },
    ghost counted: { count < table_words },
}

const TYPES: EntryList = EntryList {
    count: TYPE_COUNT,
    base: PARTS,
    most: MOST_TYPES,
};

const LOCATIONS: EntryList = EntryList {
    count: LOCATION_COUNT,
    base: LOCATIONS_START,
    most: MOST_LOCATIONS,
};

impl EntryList {
    // The two words of entry i, or zeros past the last entry.
    #[tactic(auto, unfolding(crate::specs::Internal::Tables::entry_in))]
    fn at(self, table: &[Word], i: u32) -> (u32, u32)
        ensures first { result.0 ≡ entry_in table.now (get_or table.now self.count 0) self.base i }
        ensures second { result.1 ≡ entry_in table.now (get_or table.now self.count 0) (self.base + 1) i }
    {
        if i < number(table, self.count) {
            let at = self.base as usize + 2 * (i as usize);
            (number(table, at), number(table, at + 1))
        } else {
            (0, 0)
        }
    }
}

// The numbers of the types that are given; those with parts start with int+int.
pub const INT: u32 = 0;

pub const ERROR: u32 = 1;

pub const PKG: u32 = 2;

pub const INT_OR_INT: u32 = 3;

pub const PKG_OR_ERROR: u32 = 4;

pub const COMPOUNDS: u32 = INT_OR_INT;

// The five words that stand alone. Each has a function of its own, whose name callers and contracts speak of: a const
// parameter in its place would tell less.

// The number of principals.
pub fn principals(table: &[Word]) -> u32
    ensures { result ≡ principals_in table.now }
{
    number(table, PRINCIPAL_COUNT)
}

// The set of all principals.
pub fn everyone(table: &[Word]) -> Set
    ensures { result ≡ everyone_in table.now }
{
    word(table, EVERYONE)
}

// The number of types.
pub fn types(table: &[Word]) -> u32
    ensures { result ≡ types_in table.now }
{
    number(table, TYPE_COUNT)
}

// The number of labels.
pub fn labels(table: &[Word]) -> u32
    ensures { result ≡ labels_in table.now }
{
    number(table, LABEL_COUNT)
}

// The number of locations.
pub fn locations(table: &[Word]) -> u32
    ensures { result ≡ locations_in table.now }
{
    number(table, LOCATION_COUNT)
}

// The rule of reading.
#[tactic(auto, unfolding(crate::specs::Internal::Tables::rule_in))]
pub fn rule(table: &[Word]) -> Rule
    ensures { result ≡ rule_in table.now }
{
    if word(table, RULE_PLACE) == POOLED {
        Rule::Pooled
    } else {
        Rule::Alone
    }
}

// The second word of a type: its right part; of a pair MOST_TYPES more. 0 for a number that names no type.
#[tactic(auto, unfolding(crate::specs::Internal::Tables::right_word_in))]
fn right_word(table: &[Word], ty: u32) -> u32
    ensures { result ≡ right_word_in table.now ty }
{
    TYPES.at(table, ty).1
}

// The kind that the second word of a type tells.
fn kind_of(right_word: u32) -> Kind
    ensures { result ≡ (if nat_le max_types right_word then Pair else Sum) }
{
    if right_word < MOST_TYPES {
        Kind::Sum
    } else {
        Kind::Pair
    }
}

// Whether a number names a type of a kind.
fn is_of(table: &[Word], kind: Kind, ty: u32) -> bool
    ensures { result ≡ is_of table.now kind ty }
{
    COMPOUNDS <= ty && ty < types(table) && kind == kind_of(right_word(table, ty))
}

// Whether a number names a sum type.
pub fn is_sum(table: &[Word], ty: u32) -> bool
    ensures { result ≡ is_sum table.now ty }
{
    is_of(table, Kind::Sum, ty)
}

// Whether a number names a pair type.
pub fn is_pair(table: &[Word], ty: u32) -> bool
    ensures { result ≡ is_pair table.now ty }
{
    is_of(table, Kind::Pair, ty)
}

// The left part of a type; 0 for a number that names no type.
#[tactic(auto, unfolding(crate::specs::Internal::Tables::left_in))]
pub fn left_part(table: &[Word], ty: u32) -> u32
    ensures { result ≡ left_in table.now ty }
{
    TYPES.at(table, ty).0
}

// The right part, likewise.
#[tactic(auto, unfolding(crate::specs::Internal::Tables::right_in))]
pub fn right_part(table: &[Word], ty: u32) -> u32
    ensures { result ≡ right_in table.now ty }
{
    right_word(table, ty) % MOST_TYPES
}

// The type of a location; 0 for a number that names no location.
#[tactic(auto, unfolding(crate::specs::Internal::Tables::type_in))]
pub fn location_type(table: &[Word], x: u32) -> u32
    ensures { result ≡ type_in table.now x }
{
    LOCATIONS.at(table, x).0
}

// The number of a location's label, likewise.
#[tactic(auto, unfolding(crate::specs::Internal::Tables::home_in))]
pub fn location_label(table: &[Word], x: u32) -> u32
    ensures { result ≡ home_in table.now x }
{
    LOCATIONS.at(table, x).1
}

// Where the parts of a type start.
pub fn parts_place(ty: u32) -> usize
    ensures { result ≡ parts_place ty }
{
    PARTS as usize + 2 * (ty as usize)
}

// Where the words of a label start.
pub fn label_place(l: u32) -> usize
    ensures { result ≡ label_place l }
{
    LABELS + LABEL_SIZE * (l as usize)
}

// What is said of label l: by its words, from where they start, or of bottom for a number that names none.
fn of_label<T, S: FnOnce(usize) -> T, B: FnOnce(Label) -> T>(
    table: &[Word],
    l: u32,
    stored: S,
    bottom: B,
) -> T
    requires stored { S.pre stored (label_place l) }
    requires bottom { B.pre bottom (bottom_of (everyone_in table.now)) }
    ensures there { l < labels_in table.now → S.post stored (label_place l) result }
    ensures past { labels_in table.now ≤ l → B.post bottom (bottom_of (everyone_in table.now)) result }
{
    if l < labels(table) {
        stored(label_place(l))
    } else {
        bottom(Label::bottom(everyone(table)))
    }
}

// A label; bottom for a number that names none.
#[tactic(auto, unfolding(crate::specs::Internal::Tables::label_in))]
pub fn label_of(table: &[Word], l: u32) -> Label
    ensures { result ≡ label_in table.now l }
{
    of_label(table, l, |at| labels::label_at(table, at), |bottom| bottom)
}

// Whether label l is at or below label m.
#[tactic(auto, unfolding(crate::specs::Internal::Tables::below_in))]
pub fn below(table: &[Word], l: u32, m: u32) -> bool
    ensures { result ≡ below_in table.now l m }
{
    let lower = label_of(table, l);
    let upper = label_of(table, m);
    lower.at_or_below(upper)
}

// Whether a group reads label l by the pooled rule.
fn reads_pooled(table: &[Word], group: Set, l: u32) -> bool
    ensures { result ≡ reads_pooled_of (principals_in table.now) group (label_in table.now l) }
{
    let n = principals(table) as usize;
    of_label(
        table,
        l,
        |at| labels::meets_at(table, at, n, group),
        |bottom| bottom.reads_pooled(n, group),
    )
}

// The principals who read label l by themselves.
pub fn sole_readers(table: &[Word], l: u32) -> Set
    ensures { result ≡ sole_readers_of (principals_in table.now) (label_in table.now l) }
{
    let n = principals(table) as usize;
    of_label(
        table,
        l,
        |at| labels::common_at(table, at, n),
        |bottom| bottom.sole_readers(n),
    )
}

// Whether a group reads label l, by the sheet's rule.
pub fn reads(table: &[Word], group: Set, l: u32) -> bool
    ensures { result ≡ reads_in table.now group l }
{
    match rule(table) {
        Rule::Pooled => reads_pooled(table, group, l),
        Rule::Alone => sets::meets(group, sole_readers(table, l)),
    }
}

// Whether a group writes label l.
pub fn writes(table: &[Word], group: Set, l: u32) -> bool
    ensures { result ≡ writes_in table.now group l }
{
    let n = principals(table) as usize;
    of_label(
        table,
        l,
        |at| labels::meets_at(table, at + OWNERS, n, group),
        |bottom| bottom.writes(n, group),
    )
}
