// The code of a script: rows of three words, one for each line.
#![tactic(auto)]

ghost use Rattle.std.specs.Prelude.{◌≡◌};
ghost use Rattle.script.specs.Internal.Code.{row_at};
ghost use Rattle.script.specs.Internal.Pieces.{operand_count};
ghost use Rattle.script.specs.Internal.Skips.{Skips};

// The kinds of line, by their numbers in the code. They are no enum: the scope has every walk match on the number.
pub const SKIP: u32 = 1;

pub const SEQ: u32 = 2;

pub const ASSIGN: u32 = 3;

pub const WHILE: u32 = 4;

pub const CASE: u32 = 5;

pub const INT: u32 = 6;

pub const LOC: u32 = 7;

pub const VAR: u32 = 8;

pub const PLUS: u32 = 9;

pub const LEFT: u32 = 10;

pub const RIGHT: u32 = 11;

pub const PACK: u32 = 12;

pub const UNPACK: u32 = 13;

pub const PAIR: u32 = 14;

pub const FIRST: u32 = 15;

pub const SECOND: u32 = 16;

// The words of a row, and the rows of a script.
pub const ROW: usize = 3;

pub const ROWS: usize = 512;

// Cases nest at most this deep.
pub const DEPTH: u32 = 8;

#[derive(Clone, Copy, Debug, Default, PartialEq, Eq)]
pub struct Row {
    pub kind: u32,
    pub a: u32,
    pub b: u32,
}

// The row that starts at word `at`; a row of kind 0 where there is none, as the contract has it: each walk's arm for
// other numbers is for that, too.
#[tactic(auto, unfolding(crate::specs::Internal::Code::row_at))]
pub fn row_at(code: &[u32], at: usize) -> Row
    ensures { result ≡ row_at code.now at }
{
    match code.get(at..) {
        Some([kind, a, b, ..]) => Row {
            kind: *kind,
            a: *a,
            b: *b,
        },
        _ => Row::default(),
    }
}

// How many operands follow a line of a kind; 4 for a number that is no kind, as the contract's table has it: so no
// count of the lines' operands needs a case for it.
#[tactic(auto, unfolding(crate::specs::Internal::Pieces::operand_count))]
pub fn operands(kind: u32) -> u32
    ensures { result ≡ operand_count kind }
{
    match kind {
        SKIP | INT | LOC | VAR => 0,
        ASSIGN | LEFT | RIGHT | PACK | UNPACK | FIRST | SECOND => 1,
        SEQ | WHILE | PLUS | PAIR => 2,
        CASE => 3,
        _ => 4,
    }
}

// The place after the expression or command at `at`.
#[tactic(auto, using(crate::proofs::SkipLaws::line_in))]
pub fn skip(code: &[u32], at: usize) -> usize
    ensures { Skips code.now at result }
{
    let row = row_at(code, at);
    let n = operands(row.kind);
    match n {
        0 => at + ROW,
        1 => skip(code, at + ROW),
        2 => {
            let second = skip(code, at + ROW);
            skip(code, second)
        }
        3 => {
            let second = skip(code, at + ROW);
            let third = skip(code, second);
            skip(code, third)
        }
        _ => at,
    }
}
