// A memory as text: read into words here, written from them in write.rt.
#![tactic(auto)]

pub mod write; // write.rt: a memory into a buffer

ghost use Rattle.std.specs.Prelude.{◌≡◌, ◌+◌, ◌≤◌, length, drop};
ghost use Rattle.std.proofs.lemmas.List.Edits.{sets};
ghost use Rattle.text.specs.Internal.Place.{placed};
ghost use Rattle.reader.specs.Internal.Moved.{moved};
ghost use Rattle.language.specs.World.{cell_words};
ghost use Rattle.sheet.specs.Sheet.{max_locations};
ghost use Rattle.memory_text.specs.Reading.{filled_line, location as location_of, locations as locations_of};
ghost use Rattle.memory_text.specs.Internal.Answers.{table, parsed_memory};

use memory::CELL;
use reader::Reader;

// The most locations of a sheet.
pub const LOCATIONS: usize = sheet::MOST_LOCATIONS as usize;

// The words of so many.
pub const WORDS: usize = LOCATIONS * CELL;

// The number of locations and their words, 16 for each, with zeros after them: a count beside the words, since there
// is no heap.
#[derive(Clone, Copy, Debug, PartialEq, Eq)]
pub struct Memory {
    pub count: usize,
    pub words: [u32; WORDS],
}

// The words of a line that is not empty: at most 16, the last not zero.
fn line_words(s: &[u8], at: usize) -> Option<([u32; CELL], usize)>
    ensures { result ≡ placed s.now (filled_line (drop at s.now)) }
{
    let mut words = [0u32; CELL];
    let mut p = at;
    for i in 0..CELL {
        let (v, q) = text::number(s, p, text::MOST)?;
        words[i] = v;
        match *s.get(q)? {
            b'\n' if v != 0 => return Some((words, q + 1)),
            b'\t' => p = q + 1,
            _ => return None,
        }
    }
    None
}

// The words of the location whose line stands at `at`; an empty line is 16 zeros.
fn location(s: &[u8], at: usize) -> Option<([u32; CELL], usize)>
    ensures { result ≡ placed s.now (location_of (drop at s.now)) }
{
    match text::line_end(s, at) {
        Some(p) => Some(([0; CELL], p)),
        None => line_words(s, at),
    }
}

// The location whose line a reader has before it.
pub fn next_location(reader: &mut Reader) -> Option<[u32; CELL]>
    ensures text { reader.new.text ≡ reader.old.text }
    ensures line { (result, reader.new.at)
        ≡ moved reader.old.at (placed reader.old.text.now (location_of (drop reader.old.at reader.old.text.now))) }
{
    let found = location(reader.text, reader.at);
    reader.next(found)
}

// The words of a location from `at` on.
fn store(words: &mut [u32], at: usize, row: &[u32; CELL])
    requires { at + cell_words ≤ length words.old }
    ensures { words.new ≡ sets words.old at row.now }
{
    words[at..at + CELL].copy_from_slice(row);
}

// The locations of a text, of which there are at most 64.
fn locations(s: &[u8]) -> Option<Memory>
    ensures { result ≡ table (locations_of max_locations s.now) }
{
    let mut words = [0u32; WORDS];
    let mut reader = Reader { text: s, at: 0 };
    for count in 0..LOCATIONS {
        if s.len() <= reader.at {
            return Some(Memory { count, words });
        }
        let row = next_location(&mut reader)?;
        store(&mut words, count * CELL, &row);
    }
    if s.len() <= reader.at {
        Some(Memory {
            count: LOCATIONS,
            words,
        })
    } else {
        None
    }
}

// The memory that a text holds.
pub fn read_memory(s: &[u8]) -> Option<Memory>
    ensures { result ≡ parsed_memory s.now }
{
    if text::fits(s) { locations(s) } else { None }
}
