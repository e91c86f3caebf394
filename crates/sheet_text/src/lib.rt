// From a sheet's bytes to its table; a text that is no sheet of the right form, or one that repeats, is refused.
#![tactic(auto)]

mod line; // line.rt: from bytes to lines
mod draft; // draft.rt: from lines to the table
mod repeat; // repeat.rt: whether a table repeats a type or a label

ghost use Rattle.std.specs.Prelude.{◌≡◌, Some, replicate};
ghost use Rattle.sheet_text.specs.Verdict.{sheet_error_text};
ghost use Rattle.sheet.specs.Internal.Tables.{table_words};
ghost use Rattle.sheet_text.specs.Sheets.{sheet_of};
ghost use Rattle.sheet_text.specs.Internal.Decoded.{Judges, decoded_sheet};

use draft::draft_of;
use repeat::repeats;
use sheet::{WORDS, Word};
use std::error::Error;
use std::fmt;

// Why a text is no sheet: it is not of the form, or names what isn't there; or its sheet repeats a type or a label.
#[derive(Clone, Copy, Debug, PartialEq, Eq)]
pub enum SheetError {
    Malformed,
    Repeats,
}

impl fmt::Display for SheetError {
    ghost output = { λ e. Some (sheet_error_text e) };

    fn fmt<W: fmt::Write>(&self, f: &mut fmt::Formatter<W>) -> fmt::Result {
        f.write_str(match self {
            SheetError::Malformed => "the sheet is not of the form",
            SheetError::Repeats => "the sheet repeats a type or a label",
        })
    }
}

impl Error for SheetError {}

// Reads a sheet's text. The lent table becomes the sheet's, or zeros where the text is refused, whatever it held. It
// stands in its callers when compiled, so that a table that was just made isn't cleared once more.
#[inline(always)]
pub fn read(text: &[u8], table: &mut [Word; WORDS]) -> Result<(), SheetError>
    ensures { record { verdict = result; table = table.new } ≡ decoded_sheet (sheet_of text.now) }
{
    *table = [0; WORDS];
    let verdict = judge(text, table);
    if verdict.is_err() {
        *table = [0; WORDS];
    }
    verdict
}

// The same from a table of zeros. Where the text is refused, nothing is said of the table.
fn judge(text: &[u8], table: &mut [Word; WORDS]) -> Result<(), SheetError>
    requires { table.old ≡ replicate table_words 0 }
    ensures { Judges (sheet_of text.now) result table.new }
{
    draft_of(text, table).ok_or(SheetError::Malformed)?;
    if repeats(table) {
        return Err(SheetError::Repeats);
    }
    Ok(())
}
