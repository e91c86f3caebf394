// From a sheet's bytes to its lines.
ghost use Rattle.std.specs.Prelude.{◌≡◌, ℕ, ◌^◌, ◌<◌, drop};
ghost use Rattle.text.specs.Internal.Place.{placed};
ghost use Rattle.reader.specs.Internal.Moved.{moved};
ghost use Rattle.sheet_text.specs.Reading.{number_rest, numbers_rest, label_rest, policy_rest};
ghost use Rattle.sheet_text.specs.Internal.Placed.{line_at};

use reader::Reader;
use sets::Set;
use text::{MOST, last_number, line_end, number_field, set_field};

// A line of a sheet, by its first byte: `P n`, `R rule`, `T a b`, `Q a b`, `L`, `O owner readers writers`,
// `X type label`.
#[derive(Clone, Copy, Debug, PartialEq, Eq)]
pub enum SheetLine {
    P(u32),
    R(u32),
    T(u32, u32),
    Q(u32, u32),
    L,
    O(u32, Set, Set),
    X(u32, u32),
}

// What follows the letter of a line of one number, and the line that is made of it.
fn number_rest<F: FnOnce(u32) -> SheetLine>(
    s: &[u8],
    at: usize,
    line: F,
) -> Option<(SheetLine, usize)>
    requires { F.IsAlwaysCallable line }
    ensures { (f : ℕ → SheetLine) → ((n : ℕ) → n < 2 ^ 32 → (l : SheetLine) → F.post line n l → l ≡ f n)
        → result ≡ placed s.now (number_rest f (drop at s.now)) }
{
    let (n, p) = last_number(s, at, MOST)?;
    Some((line(n), p))
}

// What follows the letter of a line of two numbers, and the line that is made of them.
fn numbers_rest<F: FnOnce(u32, u32) -> SheetLine>(
    s: &[u8],
    at: usize,
    line: F,
) -> Option<(SheetLine, usize)>
    requires { F.IsAlwaysCallable line }
    ensures { (f : ℕ → ℕ → SheetLine)
        → ((a b : ℕ) → a < 2 ^ 32 → b < 2 ^ 32 → (l : SheetLine) → F.post line a b l → l ≡ f a b)
        → result ≡ placed s.now (numbers_rest f (drop at s.now)) }
{
    let (a, p) = number_field(s, at, MOST)?;
    let (b, q) = last_number(s, p, MOST)?;
    Some((line(a, b), q))
}

// What follows the letter of a line `L`.
fn label_rest(s: &[u8], at: usize) -> Option<(SheetLine, usize)>
    ensures { result ≡ placed s.now (label_rest (drop at s.now)) }
{
    Some((SheetLine::L, line_end(s, at)?))
}

// What follows the letter of a line `O`.
fn policy_rest(s: &[u8], at: usize) -> Option<(SheetLine, usize)>
    ensures { result ≡ placed s.now (policy_rest (drop at s.now)) }
{
    let (owner, p) = number_field(s, at, MOST)?;
    let (readers, q) = set_field(s, p)?;
    let (writers, r) = set_field(s, q)?;
    Some((SheetLine::O(owner, readers, writers), line_end(s, r)?))
}

// The line that stands at `at`, and the place after it.
fn line_at(s: &[u8], at: usize) -> Option<(SheetLine, usize)>
    ensures { result ≡ line_at s.now at }
{
    match *s.get(at)? {
        b'P' => number_rest(s, at + 1, SheetLine::P),
        b'R' => number_rest(s, at + 1, SheetLine::R),
        b'T' => numbers_rest(s, at + 1, SheetLine::T),
        b'Q' => numbers_rest(s, at + 1, SheetLine::Q),
        b'L' => label_rest(s, at + 1),
        b'O' => policy_rest(s, at + 1),
        b'X' => numbers_rest(s, at + 1, SheetLine::X),
        _ => None,
    }
}

// The line that a reader has before it; the reader then stands after it.
pub fn next_line(reader: &mut Reader) -> Option<SheetLine>
    ensures text { reader.new.text ≡ reader.old.text }
    ensures line { (result, reader.new.at) ≡ moved reader.old.at (line_at reader.old.text.now reader.old.at) }
{
    let found = line_at(reader.text, reader.at);
    reader.next(found)
}
