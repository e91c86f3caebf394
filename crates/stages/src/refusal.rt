// Why a call refuses.
ghost use Rattle.std.specs.Prelude.{◌≡◌, Some, Err};
ghost use Rattle.sheet_text.specs.Verdict.{sheet_number};
ghost use Rattle.memory.specs.Verdict.{memory_number};
ghost use Rattle.checker.specs.Verdict.{verdict_number};
ghost use Rattle.evaluator.specs.State.{state_number};
ghost use Rattle.stages.specs.Refusals.{refusal_number, refusal_text};

use checker::TypingError;
use evaluator::Stop;
use memory::MemoryError;
use sheet_text::SheetError;
use std::error::Error;
use std::fmt;

// The reasons in the order of the scope's numbers, 1 to 12.
#[derive(Clone, Copy, Debug, PartialEq, Eq, PartialOrd, Ord)]
pub enum Refusal {
    SheetMalformed = 1,
    SheetRepeats,
    PrincipalUnknown,
    ScriptMalformed,
    IllTyped,
    IllLabelled,
    SliceSize,
    MemoryIllFormed,
    Spent,
    TooLong,
    TooManyScripts,
    NotListed,
}

impl fmt::Display for Refusal {
    ghost output = { λ e. Some (refusal_text e) };

    fn fmt<W: fmt::Write>(&self, f: &mut fmt::Formatter<W>) -> fmt::Result {
        f.write_str(match self {
            Refusal::SheetMalformed => "the sheet is not of the form",
            Refusal::SheetRepeats => "the sheet repeats a type or a label",
            Refusal::PrincipalUnknown => "a principal is not on the sheet",
            Refusal::ScriptMalformed => "the script is not of the form",
            Refusal::IllTyped => "the script is ill typed",
            Refusal::IllLabelled => "the script is ill labelled",
            Refusal::SliceSize => "a slice is not of the sheet's size",
            Refusal::MemoryIllFormed => "the memory is ill formed",
            Refusal::Spent => "the budget is spent",
            Refusal::TooLong => "a value is too long",
            Refusal::TooManyScripts => "there are too many scripts",
            Refusal::NotListed => "there is no such label, or no place for each group",
        })
    }
}

impl Error for Refusal {}

impl From<Refusal> for u8 {
    ghost from_gives = { λ refusal number. number ≡ refusal_number refusal };

    fn from(refusal: Refusal) -> u8 {
        refusal as u8
    }
}

impl From<SheetError> for Refusal {
    ghost from_gives = { λ error refusal. refusal_number refusal ≡ sheet_number (Err error) };

    fn from(error: SheetError) -> Refusal {
        match error {
            SheetError::Malformed => Refusal::SheetMalformed,
            SheetError::Repeats => Refusal::SheetRepeats,
        }
    }
}

impl From<TypingError> for Refusal {
    ghost from_gives = { λ error refusal. refusal_number refusal ≡ verdict_number (Err error) };

    fn from(error: TypingError) -> Refusal {
        match error {
            TypingError::IllTyped => Refusal::IllTyped,
            TypingError::IllLabelled => Refusal::IllLabelled,
        }
    }
}

impl From<MemoryError> for Refusal {
    ghost from_gives = { λ error refusal. refusal_number refusal ≡ memory_number (Err error) };

    fn from(error: MemoryError) -> Refusal {
        match error {
            MemoryError::OtherSize => Refusal::SliceSize,
            MemoryError::IllFormed => Refusal::MemoryIllFormed,
        }
    }
}

impl From<Stop> for Refusal {
    ghost from_gives = { λ stop refusal. refusal_number refusal ≡ state_number {A = Unit {0}} (Err stop) };

    fn from(stop: Stop) -> Refusal {
        match stop {
            Stop::NoRule => Refusal::ScriptMalformed,
            Stop::Spent => Refusal::Spent,
            Stop::TooLong => Refusal::TooLong,
        }
    }
}
