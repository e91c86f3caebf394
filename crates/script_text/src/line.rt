// The row of the line that stands at a byte.
ghost use Rattle.std.specs.Prelude.{◌≡◌, ℕ, drop};
ghost use Rattle.reader.specs.Internal.Moved.{moved};
ghost use Rattle.script.specs.Lines.{ScriptLine};
ghost use Rattle.script.specs.Internal.Code.{row_of};
ghost use Rattle.script_text.specs.Reading.{bare, one, two, operands_of, line_of};
ghost use Rattle.script_text.specs.Internal.Placed.{placed_line};

use reader::Reader;
use script::{
    ASSIGN, CASE, FIRST, INT, LEFT, LOC, PACK, PAIR, PLUS, RIGHT, Row, SECOND, SEQ, SKIP, UNPACK,
    VAR, WHILE,
};
use text::{MOST, last_number, line_end, number_field};

// The end of a line of a kind without operands: its row, and the place after it.
fn bare_line(s: &[u8], at: usize, kind: u32) -> Option<(Row, usize)>
    ensures { (l : ScriptLine) → row_of l ≡ record { kind = kind; a = 0; b = 0 }
        → result ≡ placed_line s.now (operands_of (bare l) (drop at s.now)) }
{
    let end = line_end(s, at)?;
    Some((Row { kind, a: 0, b: 0 }, end))
}

// One operand, and the end of the line.
fn one_operand(s: &[u8], at: usize, kind: u32) -> Option<(Row, usize)>
    ensures { (f : ℕ → ScriptLine) → ((a : ℕ) → row_of (f a) ≡ record { kind = kind; a = a; b = 0 })
        → result ≡ placed_line s.now (operands_of (one f) (drop at s.now)) }
{
    let (a, end) = last_number(s, at, MOST)?;
    Some((Row { kind, a, b: 0 }, end))
}

// Two operands, and the end of the line.
fn two_operands(s: &[u8], at: usize, kind: u32) -> Option<(Row, usize)>
    ensures { (f : ℕ → ℕ → ScriptLine) → ((a b : ℕ) → row_of (f a b) ≡ record { kind = kind; a = a; b = b })
        → result ≡ placed_line s.now (operands_of (two f) (drop at s.now)) }
{
    let (a, next) = number_field(s, at, MOST)?;
    let (b, end) = last_number(s, next, MOST)?;
    Some((Row { kind, a, b }, end))
}

// The row of the line that stands at `at`, and the place after it.
fn line_at(s: &[u8], at: usize) -> Option<(Row, usize)>
    ensures { result ≡ placed_line s.now (line_of (drop at s.now)) }
{
    match *s.get(at)? {
        b's' => bare_line(s, at + 1, SKIP),
        b';' => bare_line(s, at + 1, SEQ),
        b'=' => one_operand(s, at + 1, ASSIGN),
        b'w' => bare_line(s, at + 1, WHILE),
        b'c' => bare_line(s, at + 1, CASE),
        b'i' => one_operand(s, at + 1, INT),
        b'x' => one_operand(s, at + 1, LOC),
        b'v' => one_operand(s, at + 1, VAR),
        b'+' => bare_line(s, at + 1, PLUS),
        b'l' => one_operand(s, at + 1, LEFT),
        b'r' => one_operand(s, at + 1, RIGHT),
        b'k' => one_operand(s, at + 1, PACK),
        b'u' => two_operands(s, at + 1, UNPACK),
        b'p' => one_operand(s, at + 1, PAIR),
        b'f' => bare_line(s, at + 1, FIRST),
        b'g' => bare_line(s, at + 1, SECOND),
        _ => None,
    }
}

// The row of the line that a reader has before it; the reader then stands after it, or where it stood.
pub fn next_line(reader: &mut Reader) -> Option<Row>
    ensures text { reader.new.text ≡ reader.old.text }
    ensures line { (result, reader.new.at)
        ≡ moved reader.old.at (placed_line reader.old.text.now (line_of (drop reader.old.at reader.old.text.now))) }
{
    let found = line_at(reader.text, reader.at);
    reader.next(found)
}
