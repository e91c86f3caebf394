// From a script's bytes to its code, three words a line; everything that is no script is refused.
#![tactic(auto)]

pub mod line; // line.rt: a line's row
mod scan; // scan.rt: whether rows are those of one command

ghost use Rattle.std.specs.Prelude.{◌≡◌, ◌*◌, ◌≤◌, IfNone, option_map, take, drop};
ghost use Rattle.text.specs.Lines.{lines_up_to};
ghost use Rattle.script.specs.Names.{max_lines};
ghost use Rattle.sheet.specs.Internal.Tables.{labels_in};
ghost use Rattle.script_text.specs.Reading.{line_of, opening_of, written_of};
ghost use Rattle.script_text.specs.Script.{script_of};
ghost use Rattle.script_text.specs.Internal.Decoded.{no_code, counts_in, coded_lines, coded_text, decoded_script};
ghost use Rattle.script_text.specs.Internal.Placed.{placed_opening};
ghost use Rattle.script_text.specs.Internal.Scan.{start_there};

use reader::Reader;
use script::{ROW, ROWS};
use sheet::labels;
use text::{fits, last_number};

// The words of a script's code in all.
pub const WORDS: usize = ROW * ROWS;

// The highest number that names a label on some sheet.
const LAST_LABEL: u32 = sheet::MOST_LABELS - 1;

// What a text was read to: how many lines its command has, and the label that it starts at, if it opens with one. (The
// code itself stands in words that are lent, for want of a heap.)
#[derive(Clone, Copy, Debug, PartialEq, Eq)]
pub struct Decoded {
    pub count: usize,
    pub start: Option<u32>,
}

// The opening of a text, a first line `b label` or none: the label, and the place after it.
fn opening(s: &[u8]) -> Option<(Option<u32>, usize)>
    ensures { result ≡ placed_opening s.now (opening_of s.now) }
{
    match s.first() {
        Some(b'b') => {
            let (label, at) = last_number(s, 1, LAST_LABEL)?;
            Some((Some(label), at))
        }
        _ => Some((None, 0)),
    }
}

// Fills the lent words, which are zeros, with the code of the lines from a byte on, whatever they say, and counts them,
// if they are at most so many.
fn decode_lines(s: &[u8], from: usize, most: usize, code: &mut [u32; WORDS]) -> Option<usize>
    requires few { most ≤ max_lines }
    requires zeros { code.old ≡ no_code }
    ensures { option_map (λ n. (n, code.new)) result
        ≡ coded_lines (lines_up_to line_of most (drop from s.now)) }
{
    let mut reader = Reader { text: s, at: from };
    let mut count: usize = 0;
    while reader.at < s.len() {
        if most <= count {
            return None;
        }
        let row = line::next_line(&mut reader)?;
        // By word: a copy of three words into a slice of the array would be no plainer.
        code[count * ROW] = row.kind;
        code[count * ROW + 1] = row.a;
        code[count * ROW + 2] = row.b;
        count += 1;
    }
    Some(count)
}

// The same after a text's opening, whose line is one of those that a script may have.
fn decode_text(s: &[u8], code: &mut [u32; WORDS]) -> Option<Decoded>
    requires { code.old ≡ no_code }
    ensures { option_map (λ d. (d, code.new)) result ≡ coded_text (written_of s.now) }
{
    if !fits(s) {
        return None;
    }
    let (start, at) = opening(s)?;
    let most = ROWS - usize::from(start.is_some());
    let count = decode_lines(s, at, most, code)?;
    Some(Decoded { count, start })
}

// Fills the lent words with the code of the lines after a text's opening, whatever they say: the code of a script, if
// the text is that of one. Refused, and zeros, where they are no lines, or too many.
#[tactic(auto, unfolding(crate::specs::Internal::Decoded::no_code))]
pub fn decode(s: &[u8], code: &mut [u32; WORDS]) -> Option<Decoded>
    ensures decoded { option_map (λ d. (d, code.new)) result ≡ coded_text (written_of s.now) }
    ensures refused { IfNone result (code.new ≡ no_code) }
{
    *code = [0; WORDS];
    let decoded = decode_text(s, code);
    if decoded.is_none() {
        *code = [0; WORDS];
    }
    decoded
}

// Whether a start is a label that is there, if it is any.
#[tactic(auto, unfolding(crate::specs::Internal::Scan::start_there))]
fn is_start(table: &[sheet::Word], start: Option<u32>) -> bool
    ensures { result ≡ start_there (labels_in table.now) start }
{
    start.is_none_or(|l| l < labels(table))
}

// The rows of a script with so many lines.
pub fn rows(code: &[u32], count: usize) -> &[u32]
    ensures { result.now ≡ take (count * 3) code.now }
{
    count
        .checked_mul(ROW)
        .and_then(|end| code.get(..end))
        .unwrap_or(code)
}

// Fills the lent words with the code of a script on a sheet's table; refused, and zeros, where 4 applies.
pub fn read(text: &[u8], table: &[sheet::Word], code: &mut [u32; WORDS]) -> Option<Decoded>
    ensures decoded { option_map (λ d. (d, code.new)) result
        ≡ decoded_script (script_of (counts_in table.now) text.now) }
    ensures refused { IfNone result (code.new ≡ no_code) }
{
    let decoded = decode(text, code)?;
    if scan::whole(rows(code, decoded.count), table) && is_start(table, decoded.start) {
        return Some(decoded);
    }
    *code = [0; WORDS];
    None
}
