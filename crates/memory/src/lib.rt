// Values as words, well-formed memories, and what a group is shown of a memory.
#![tactic(auto)]

mod values; // values.rt: the words of a value
mod masks; // masks.rt: what a group is shown of a value

ghost use Rattle.std.specs.Prelude.{◌≡◌, ◌+◌, ◌*◌, ◌≤◌, Some, eqb, ltb, length, drop};
ghost use Rattle.logic.specs.Booleans.{both};
ghost use Rattle.language.specs.Syntax.{size};
ghost use Rattle.language.specs.World.{cell_words};
ghost use Rattle.language.specs.View.{mask};
ghost use Rattle.sheet.specs.Internal.Tables.{labels_in, locations_in, reads_in};
ghost use Rattle.sheet.specs.Internal.TypeTest.{has_no};
ghost use Rattle.memory.specs.Words.{value_of};
ghost use Rattle.memory.specs.Internal.Post.{end_of};
ghost use Rattle.memory.specs.Memory.{holds_by, cell_of};
ghost use Rattle.memory.specs.View.{view_cell};
ghost use Rattle.memory.specs.Verdict.{memory_number, memory_error_text};
ghost use Rattle.memory.specs.Internal.InTable.{refusal_in, sees_in, view_in, view_refusal_in};
ghost use Rattle.memory.specs.Internal.InTable.{view_leaves_in};

use sets::Set;
use sheet::Word;
use std::error::Error;
use std::fmt;

// The words of a location.
pub const CELL: usize = 16;

// The first word of a value: a number and no enum, since it is a word of a memory in the C interface, and code matches
// on it.
pub const INT: u32 = 1;

pub const ERROR: u32 = 2;

pub const LEFT: u32 = 3;

pub const RIGHT: u32 = 4;

pub const PACKAGE: u32 = 5;

pub const PAIR: u32 = 6;

// The words of a package's head.
const HEAD: usize = 1;

// Where a package has its label, with which its head starts, and its content, counted from its first word.
pub const LABEL: usize = 1;

pub const CONTENT: usize = LABEL + HEAD;

// Why the slices that are lent are refused: one isn't 16 words for each location, or the memory isn't well-formed.
#[derive(Clone, Copy, Debug, PartialEq, Eq)]
pub enum MemoryError {
    OtherSize,
    IllFormed,
}

impl fmt::Display for MemoryError {
    ghost output = { λ e. Some (memory_error_text e) };

    fn fmt<W: fmt::Write>(&self, f: &mut fmt::Formatter<W>) -> fmt::Result {
        f.write_str(match self {
            MemoryError::OtherSize => "a slice isn't 16 words for each location",
            MemoryError::IllFormed => "the memory isn't well-formed",
        })
    }
}

impl Error for MemoryError {}

// The place after the value whose words start at `at`.
pub fn value_end(words: &[u32], at: usize) -> usize
    ensures { result ≡ end_of words.now at }
{
    values::value_at(0, words, at).next
}

// Whether the value whose words start at `at` has a type. What a package holds is not looked at.
pub fn has_type(table: &[Word], words: &[u32], at: usize, ty: u32) -> bool
    ensures { result ≡ has_no table.now (value_of (drop at words.now)) ty }
{
    if words.len() <= at {
        return false;
    }
    match words[at] {
        INT => one_more(words, at + 1, ty, sheet::INT),
        ERROR => one_more(words, at + 1, ty, sheet::ERROR),
        LEFT => {
            sheet::is_sum(table, ty) && has_type(table, words, at + 1, sheet::left_part(table, ty))
        }
        RIGHT => {
            sheet::is_sum(table, ty) && has_type(table, words, at + 1, sheet::right_part(table, ty))
        }
        PACKAGE => one_more(words, at + 1, ty, sheet::PKG),
        PAIR => {
            sheet::is_pair(table, ty)
                && has_type(table, words, at + 1, sheet::left_part(table, ty))
                && has_type(
                    table,
                    words,
                    values::value_at(0, words, at + 1).next,
                    sheet::right_part(table, ty),
                )
        }
        _ => false,
    }
}

// Whether there is a word at `at`, and the type is the wanted one.
fn one_more(words: &[u32], at: usize, ty: u32, wanted: u32) -> bool
    ensures { result ≡ both (ltb at (length words.now)) (eqb ty wanted) }
{
    at < words.len() && ty == wanted
}

// The words of location x.
fn location(memory: &[u32], x: u32) -> &[u32]
    requires { cell_words * x + cell_words ≤ length memory.now }
    ensures { result.now ≡ cell_of memory.now x }
{
    let start = CELL * (x as usize);
    &memory[start..start + CELL]
}

// Whether the words of a location are exactly those of a proper value of a type.
fn holds(table: &[Word], words: &[u32], ty: u32) -> bool
    requires { length words.now ≡ cell_words }
    ensures { result ≡ holds_by (labels_in table.now) (λ v. has_no table.now v ty)
        words.now }
{
    let walked = values::value_at(sheet::labels(table), words, 0);
    walked.ok && has_type(table, words, 0, ty) && words[walked.next..].iter().all(|word| *word == 0)
}

// Whether a memory has its size and is well-formed.
pub fn judge(table: &[Word], memory: &[u32]) -> Result<(), MemoryError>
    ensures { memory_number result ≡ refusal_in table.now memory.now }
{
    let n = sheet::locations(table);
    if memory.len() != CELL * (n as usize) {
        return Err(MemoryError::OtherSize);
    }
    for x in 0..n {
        if !holds(table, location(memory, x), sheet::location_type(table, x)) {
            return Err(MemoryError::IllFormed);
        }
    }
    Ok(())
}

// What a group is shown of location x, which has these words.
fn location_view(table: &[Word], group: Set, x: u32, words: &[u32]) -> [u32; CELL]
    ensures { size (value_of words.now) ≤ cell_words
        → result ≡ view_cell (sees_in table.now group x)
        (mask (reads_in table.now group) (value_of words.now)) }
{
    let mut out = masks::Cell {
        words: [0; CELL],
        end: 0,
    };
    if sheet::reads(table, group, sheet::location_label(table, x)) {
        let source = masks::Source {
            table,
            group,
            words,
        };
        masks::mask_at(&source, 0, &mut out);
    }
    out.words
}

// Stores what a group is shown of a well-formed memory.
fn view_each(table: &[Word], memory: &[u32], group: Set, shown: &mut [u32])
    requires { (refusal_in table.now memory.now ≡ 0)
        × (length shown.old ≡ cell_words * locations_in table.now) }
    ensures { shown.new ≡ view_in table.now group memory.now }
{
    for x in 0..sheet::locations(table) {
        let cell = location_view(table, group, x, location(memory, x));
        let start = CELL * (x as usize);
        shown[start..start + CELL].copy_from_slice(&cell);
    }
}

// Stores what a group is shown of a memory, if both slices have their size and the memory is well-formed; else nothing.
pub fn view(
    table: &[Word],
    memory: &[u32],
    group: Set,
    shown: &mut [u32],
) -> Result<(), MemoryError>
    ensures result_value { memory_number result
        ≡ view_refusal_in table.now memory.now (length shown.old) }
    ensures shown_after { shown.new
        ≡ view_leaves_in table.now group memory.now shown.old }
{
    if shown.len() != CELL * (sheet::locations(table) as usize) {
        return Err(MemoryError::OtherSize);
    }
    judge(table, memory)?;
    view_each(table, memory, group, shown);
    Ok(())
}
