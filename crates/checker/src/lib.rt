// The checker over the lines of a script: types by their numbers, labels by sets of them, with the sheet's table.
#![tactic(auto)]

mod bindings; // bindings.rt: what enclosing cases bind
mod expressions; // expressions.rt: types and least labels of expressions
mod commands; // commands.rt: commands

ghost use Rattle.std.specs.Prelude.{◌≡◌, Some, unwrap_or};
ghost use Rattle.sheet.specs.Sheet.{max_labels};
ghost use Rattle.checker.specs.Verdict.{verdict_number, typing_error_text};
ghost use Rattle.checker.specs.Internal.Post.{ChecksCode, KeepsCode, verdict_of};

use bindings::Bindings;
use std::error::Error;
use std::fmt;

// Why a script has no derivation: for its types, or else for its labels.
#[derive(Clone, Copy, Debug, PartialEq, Eq)]
pub enum TypingError {
    IllTyped,
    IllLabelled,
}

impl fmt::Display for TypingError {
    ghost output = { λ e. Some (typing_error_text e) };

    fn fmt<W: fmt::Write>(&self, f: &mut fmt::Formatter<W>) -> fmt::Result {
        f.write_str(match self {
            TypingError::IllTyped => "the types don't fit",
            TypingError::IllLabelled => "the labels don't fit",
        })
    }
}

impl Error for TypingError {}

// What is found of a script: whether it has a derivation, and whether it is trust-keeping: each unpack's operand is at
// or below the wanted label.
#[derive(Clone, Copy, Debug, PartialEq, Eq)]
pub struct Finding {
    pub verdict: Result<(), TypingError>,
    pub keeping: bool,
}

// Checks a script's code against a sheet's table. `start`: the number of the label that it starts at, if it starts at
// one; one that names none is bottom's.
pub fn check(code: &[u32], table: &[sheet::Word], start: Option<u32>) -> Finding
    ensures { ChecksCode code.now table.now (unwrap_or start max_labels) (verdict_number result.verdict)
        × KeepsCode code.now table.now result.keeping }
{
    let pc = start.map_or(members::BOTTOM, members::label);
    let x = commands::check_cmd(code, 0, table, &mut Bindings::none(), pc);
    Finding {
        verdict: verdict(x.typed, x.holds.flow),
        keeping: x.holds.keeping,
    }
}

// By whether the types fit, and whether the label conditions hold.
fn verdict(typed: bool, flow: bool) -> Result<(), TypingError>
    ensures { result ≡ verdict_of typed flow }
{
    if !typed {
        return Err(TypingError::IllTyped);
    }
    if !flow {
        return Err(TypingError::IllLabelled);
    }
    Ok(())
}
