// What a group is shown of a value, as words.
ghost use Rattle.std.specs.Prelude.{◌≡◌, Bool, ℕ, ◌+◌, ◌*◌, ◌-◌, ◌^◌, ◌≤◌, ◌<◌, length, get_or, drop, set, MatchOption};
ghost use Rattle.language.specs.Syntax.{Value};
ghost use Rattle.sheet.specs.Internal.Tables.{reads_in};
ghost use Rattle.memory.specs.Words.{numbered, packaged, read_of};
ghost use Rattle.memory.specs.Internal.Post.{Masks, Numeral, Opened};

use crate::{CELL, values};
use sets::Set;
use sheet::Word;

// The words of a value, and to whom it is shown: a group, on the sheet of a table.
#[derive(Clone, Copy)]
pub(crate) struct Source<'a> {
    pub table: &'a [Word],
    pub group: Set,
    pub words: &'a [u32],
}

// The words of a location as they are written, one after the other, and how many were: those past the last place are
// counted, and nothing else.
#[derive(Clone, Copy)]
pub(crate) struct Cell {
    pub words: [u32; CELL],
    pub end: usize,
}

impl Cell {
    // The next word.
    fn push(&mut self, word: u32)
        requires { self.old.end < 2 ^ 63 }
        ensures words { self.new.words ≡ set self.old.words self.old.end word }
        ensures end { self.new.end ≡ self.old.end + 1 }
    {
        if self.end < CELL {
            self.words[self.end] = word;
        }
        self.end += 1;
    }
}

// Writes what a group is shown of the value whose words start at `at`, and tells the place after it. A part before
// which the words end is one zero word, so up to two words are written for each that is read.
pub(crate) fn mask_at(source: &Source, at: usize, out: &mut Cell) -> usize
    requires { out.old.end + 2 * (length source.now.words.now - at) ≤ 2 * length source.now.words.now }
    ensures { Masks (reads_in source.now.table.now source.now.group) source.now.words.now
        (read_of (drop at source.now.words.now))
        out.old.words out.old.end out.new.words result out.new.end }
{
    let words = source.words;
    if words.len() <= at {
        out.push(0);
        return at;
    }
    // One call for the part that the other values end with, since each call takes its own place in every frame.
    let last = match words[at] {
        crate::INT => return mask_number(words, at, out),
        crate::ERROR => return mask_number(words, at, out),
        crate::LEFT => {
            out.push(crate::LEFT);
            at + 1
        }
        crate::RIGHT => {
            out.push(crate::RIGHT);
            at + 1
        }
        crate::PACKAGE => {
            let label = at + crate::LABEL;
            if let Some(end) = mask_label(source, label, out) {
                return end;
            }
            label + crate::HEAD
        }
        crate::PAIR => {
            out.push(crate::PAIR);
            mask_at(source, at + 1, out)
        }
        _ => {
            out.push(0);
            return at + 1;
        }
    };
    mask_at(source, last, out)
}

// An integer or an error, whose first word stands at `at`.
fn mask_number(words: &[u32], at: usize, out: &mut Cell) -> usize
    requires { (out.old.end ≤ 2 * length words.now) × (at < length words.now) }
    ensures { (shows : ℕ → Bool) (f : ℕ → Value) → Numeral (get_or words.now at 0) f
        → Masks shows words.now (numbered f (drop (at + 1) words.now))
        out.old.words out.old.end out.new.words result out.new.end }
{
    let number = at + 1;
    if words.len() <= number {
        out.push(0);
        return number;
    }
    out.push(words[at]);
    out.push(words[number]);
    number + 1
}

// Writes a package's first word and its head, which stands at `at`. The content is to follow, or it is hidden: then it
// is one zero word, and the place after the package is told.
fn mask_label(source: &Source, at: usize, out: &mut Cell) -> Option<usize>
    requires { (out.old.end ≤ 2 * length source.now.words.now) × (at ≤ length source.now.words.now) }
    ensures { MatchOption result
        (Opened (reads_in source.now.table.now source.now.group) source.now.words.now at out.old.words out.old.end
        out.new.words out.new.end)
        (λ next. Masks (reads_in source.now.table.now source.now.group) source.now.words.now
        (packaged read_of (drop at source.now.words.now))
        out.old.words out.old.end out.new.words next out.new.end) }
{
    let words = source.words;
    if words.len() <= at {
        out.push(0);
        return Some(at);
    }
    out.push(crate::PACKAGE);
    out.push(words[at]);
    if sheet::reads(source.table, source.group, words[at]) {
        return None;
    }
    out.push(0);
    let content = values::value_at(sheet::labels(source.table), words, at + crate::HEAD);
    Some(content.next)
}
