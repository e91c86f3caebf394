// From a sheet's lines to its table, a line at a time. Beside the table the code holds the least owner that a policy
// may have next; there is none where the lines are not of the right form, and then nothing is said of the table.
ghost use Rattle.std.specs.Prelude.{◌≡◌, true, replicate};
ghost use Rattle.sheet.specs.Sheet.{Sheet, formed};
ghost use Rattle.sheet.specs.Internal.Tables.{table_words, table_of};
ghost use Rattle.sheet_text.specs.Internal.Building.{begin, add_line, least_owner};
ghost use Rattle.sheet_text.specs.Sheets.{sheet_read};
ghost use Rattle.sheet_text.specs.Internal.Drafts.{DraftHolds, next_least, line_put};
ghost use Rattle.sheet_text.specs.Internal.Drafts.{rule_fits_in, compound_fits_in, label_fits_in};
ghost use Rattle.sheet_text.specs.Internal.Drafts.{policy_fits_in, location_fits_in};

use super::line::{SheetLine, next_line};
use labels::Rule;
use reader::Reader;
use sets::Set;
use sheet::{
    GIVEN_TYPES, Kind, MOST_LABELS, MOST_LOCATIONS, MOST_PRINCIPALS, MOST_TYPES, WORDS, Word,
};

// The number that a line `R` has.
const RULE: u32 = 1;

// Whether a rule of reading may come next: reading alone, right after the principals.
#[tactic(auto, unfolding(logic::specs::Booleans::both, crate::specs::Internal::Building::is_pooled))]
fn rule_fits(table: &[Word], rule: u32) -> bool
    ensures { result ≡ rule_fits_in rule table.now }
{
    let empty = (sheet::labels(table) == 0) & (sheet::locations(table) == 0);
    let bare = (sheet::types(table) == GIVEN_TYPES) & empty;
    match sheet::rule(table) {
        Rule::Pooled => (rule == RULE) & bare,
        Rule::Alone => false,
    }
}

// Whether a sum or a pair may come next: of types that are there, before any label or location.
#[tactic(auto, unfolding(logic::specs::Booleans::both))]
fn compound_fits(table: &[Word], a: u32, b: u32) -> bool
    ensures { result ≡ compound_fits_in a b table.now }
{
    let n = sheet::types(table);
    let first = (sheet::labels(table) == 0) & (sheet::locations(table) == 0);
    let known = (a < n) & (b < n);
    first & ((n < MOST_TYPES) & known)
}

// Whether a label may come next: before any location.
#[tactic(auto, unfolding(logic::specs::Booleans::both))]
fn label_fits(table: &[Word]) -> bool
    ensures { result ≡ label_fits_in table.now }
{
    (sheet::locations(table) == 0) & (sheet::labels(table) < MOST_LABELS)
}

// Whether a policy of the last label may come next: before any location, owners rising.
#[tactic(auto, unfolding(logic::specs::Booleans::both))]
fn policy_fits(table: &[Word], least: u32, owner: u32, readers: Set, writers: Set) -> bool
    ensures { result ≡ policy_fits_in least owner readers writers table.now }
{
    let all = sheet::everyone(table);
    let after = (sheet::locations(table) == 0) & (0 < sheet::labels(table));
    let rises = (least <= owner) & (owner < sheet::principals(table));
    let named = (readers <= all) & (writers <= all);
    after & (rises & named)
}

// Whether a location may come next: of a type and a label that are there.
#[tactic(auto, unfolding(logic::specs::Booleans::both))]
fn location_fits(table: &[Word], ty: u32, label: u32) -> bool
    ensures { result ≡ location_fits_in ty label table.now }
{
    let known = (ty < sheet::types(table)) & (label < sheet::labels(table));
    (sheet::locations(table) < MOST_LOCATIONS) & known
}

// The least owner that may follow a further line, if the line may come next.
#[tactic(auto, unfolding(crate::specs::Internal::Drafts::next_least))]
fn least_after(table: &[Word], least: u32, line: SheetLine) -> Option<u32>
    ensures { result ≡ next_least least line table.now }
{
    match line {
        SheetLine::P(_) => None,
        SheetLine::R(rule) => rule_fits(table, rule).then_some(0),
        SheetLine::T(a, b) | SheetLine::Q(a, b) => compound_fits(table, a, b).then_some(0),
        SheetLine::L => label_fits(table).then_some(0),
        SheetLine::O(owner, readers, writers) => {
            policy_fits(table, least, owner, readers, writers).then_some(
                owner % MOST_PRINCIPALS + 1,
            )
        }
        SheetLine::X(ty, label) => location_fits(table, ty, label).then_some(least),
    }
}

// Stores what a further line adds.
#[tactic(auto, unfolding(crate::specs::Internal::Drafts::line_put))]
fn store(table: &mut [Word; WORDS], line: SheetLine)
    ensures { table.new ≡ line_put line table.old }
{
    match line {
        SheetLine::P(_) => {}
        SheetLine::R(_) => sheet::write::put_rule(table),
        SheetLine::T(a, b) => sheet::write::add_compound(table, Kind::Sum, a, b),
        SheetLine::Q(a, b) => sheet::write::add_compound(table, Kind::Pair, a, b),
        SheetLine::L => sheet::write::add_label(table),
        SheetLine::O(owner, readers, writers) => {
            sheet::write::add_policy(table, owner, readers, writers)
        }
        SheetLine::X(ty, label) => sheet::write::add_location(table, ty, label),
    }
}

// The sheet after a first line, from a table of zeros: the number of principals.
#[tactic(auto, unfolding(crate::specs::Internal::Building::begin, crate::specs::Internal::Drafts::DraftHolds))]
fn begin(table: &mut [Word; WORDS], line: SheetLine) -> Option<u32>
    requires { table.old ≡ replicate table_words 0 }
    ensures { DraftHolds (begin line) result table.new }
{
    let SheetLine::P(n) = line else {
        return None;
    };
    if !(1..=MOST_PRINCIPALS).contains(&n) {
        return None;
    }
    sheet::write::put_principals(table, n);
    Some(0)
}

// The sheet after a further line.
fn step(table: &mut [Word; WORDS], least: u32, line: SheetLine) -> Option<u32>
    ensures { (s : Sheet) → formed s ≡ true → least ≡ least_owner s → table.old ≡ table_of s
        → DraftHolds (add_line s line) result table.new }
{
    let next = least_after(table, least, line)?;
    store(table, line);
    Some(next)
}

// The sheet of a text, from a table of zeros. Three functions ask for these zeros; a type for such a table would be
// left at the first line.
pub(crate) fn draft_of(s: &[u8], table: &mut [Word; WORDS]) -> Option<u32>
    requires { table.old ≡ replicate table_words 0 }
    ensures { DraftHolds (sheet_read s.now) result table.new }
{
    if !text::fits(s) {
        return None;
    }
    let mut reader = Reader { text: s, at: 0 };
    let mut least = begin(table, next_line(&mut reader)?)?;
    while reader.at < s.len() {
        least = step(table, least, next_line(&mut reader)?)?;
    }
    Some(least)
}
