// A memory written as text into a lent buffer.
ghost use Rattle.std.specs.Prelude.{◌≡◌, ◌+◌, ◌*◌, ◌≤◌, length, ◌≢◌, ◌<◌, ℕ, ◌-◌, slice_index};
ghost use Rattle.language.specs.World.{cell_words};
ghost use Rattle.memory_text.specs.Printing.{trim, fields, line};
ghost use Rattle.memory_text.specs.Internal.Answers.{printed_length, printed};
ghost use Rattle.memory_text.specs.Sizes.{word_room, line_room};
ghost use Rattle.memory_text.specs.Internal.Writing.{Puts};

use memory::CELL;
use text::write::{put_byte, put_number};

// The bytes of the longest word: ten digits and a tab, or the line's end.
const WORD: usize = 11;

// The bytes of the longest line.
pub const LINE: usize = WORD * CELL;

// How many of a location's words are printed: those up to the last that is not zero.
fn used(row: &[u32]) -> usize
    ensures few { result ≤ length row.now }
    ensures last { 0 < result → slice_index row.now (result - 1) ≢ 0 }
    ensures zeros { (k : ℕ) → result ≤ k → k < length row.now → slice_index row.now k ≡ 0 }
{
    row.iter().rposition(|&w| w != 0).map_or(0, |i| i + 1)
}

// The words, each after a tab; the place after them.
fn put_fields(words: &[u32], out: &mut [u8], at: usize) -> usize
    requires { at + word_room * length words.now ≤ length out.old }
    ensures { Puts (fields words.now) (word_room * length words.now) out.old at out.new result }
{
    let mut p = at;
    for w in words {
        let q = put_byte(out, p, b'\t');
        p = put_number(out, q, *w);
    }
    p
}

// The line of a location; the place after it.
fn put_line(row: &[u32], out: &mut [u8], at: usize) -> usize
    requires { (length row.now ≤ cell_words) × (at + line_room ≤ length out.old) }
    ensures { Puts (line (trim row.now)) line_room out.old at out.new result }
{
    let n = used(row);
    let Some((first, rest)) = row[..n].split_first() else {
        return put_byte(out, at, b'\n');
    };
    let p = put_number(out, at, *first);
    let q = put_fields(rest, out, p);
    put_byte(out, q, b'\n')
}

// A memory, 16 words for each location; the length of its text. Nothing is written, and the answer is 0, where the
// words are no whole locations or the buffer has fewer than 176 bytes for each.
pub fn write_memory(words: &[u32], out: &mut [u8]) -> usize
    ensures value { result ≡ printed_length words.now out.old }
    ensures out_after { out.new ≡ printed words.now out.old }
{
    if words.len() % CELL != 0 || out.len() / LINE < words.len() / CELL {
        return 0;
    }
    let mut at = 0;
    for row in words.chunks_exact(CELL) {
        at = put_line(row, out, at);
    }
    at
}
