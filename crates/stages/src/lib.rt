// The stages of the calls, on the table of a sheet that isn't refused: each judges its refusals, in the order of the
// calls, and goes on where none of them applies. The answers of the calls stand here.
#![tactic(auto)]

pub mod refusal; // refusal.rt: why a call refuses

ghost use Rattle.std.specs.Prelude.{◌≡◌};
ghost use Rattle.stages.specs.Refusals.{refusal_number, answer_number};
ghost use Rattle.stages.specs.Internal.Stages.{Accepts, NumbersScript, RunsAccepted, strangers_in};
ghost use Rattle.stages.specs.Internal.Stages.{answered_run, answered_trust};
ghost use Rattle.stages.specs.Internal.Stages.{ChecksOn, TrustsOn, RunsOn, viewed_in};

pub use refusal::Refusal;
use sets::Set;

// What a call answers where nothing refuses: it is done, or accepted, or shown.
pub const DONE: u8 = 0;

// How a run ended: its answer, and the transitions that it took. In the structs that C sees an answer is a number.
#[repr(C)]
#[derive(Clone, Copy, Debug, PartialEq, Eq)]
pub struct Outcome {
    pub answer: u8,
    pub steps: u32,
}

// The number of a script, and 1 for an accepted one that is trust-keeping, else 0.
#[repr(C)]
#[derive(Clone, Copy, Debug, PartialEq, Eq)]
pub struct Trust {
    pub answer: u8,
    pub keeping: u8,
}

// What is known of an accepted script: how many lines its code has, and whether it is trust-keeping.
#[derive(Clone, Copy, Debug, PartialEq, Eq)]
pub struct Accepted {
    pub count: usize,
    pub keeping: bool,
}

// The number of a script on a sheet, and how many lines it has.
#[derive(Clone, Copy, Debug, PartialEq, Eq)]
pub struct Numbered {
    pub number: u8,
    pub count: usize,
}

// A run that is refused takes no step.
pub fn refused(answer: u8) -> Outcome
    ensures { result ≡ record { answer = answer; steps = 0 } }
{
    Outcome { answer, steps: 0 }
}

impl From<Refusal> for Outcome {
    ghost from_gives = { λ refusal outcome. outcome ≡ record { answer = refusal_number refusal; steps = 0 } };

    fn from(refusal: Refusal) -> Outcome {
        refused(refusal.into())
    }
}

// Beside a refusal keeping is 0, whatever the script.
pub fn refused_trust(answer: u8) -> Trust
    ensures { result ≡ record { answer = answer; keeping = 0 } }
{
    Trust { answer, keeping: 0 }
}

impl From<Refusal> for Trust {
    ghost from_gives = { λ refusal trust. trust ≡ record { answer = refusal_number refusal; keeping = 0 } };

    fn from(refusal: Refusal) -> Trust {
        refused_trust(refusal.into())
    }
}

// What a call answers; no `From`, since a number and a `Result` are both std's types.
pub fn number(found: Result<(), Refusal>) -> u8
    ensures { result ≡ answer_number found }
{
    match found {
        Ok(()) => DONE,
        Err(refusal) => refusal.into(),
    }
}

// Refuses a group that holds a principal who isn't on the sheet of a table.
pub fn known(group: Set, table: &[sheet::Word]) -> Result<(), Refusal>
    ensures { answer_number result ≡ strangers_in table.now group }
{
    if !sets::contained(group, sheet::everyone(table)) {
        return Err(Refusal::PrincipalUnknown);
    }
    Ok(())
}

// Reads a script and checks it on the sheet of a table. The lent words hold the code of an accepted one.
pub fn accept(
    script: &[u8],
    table: &[sheet::Word],
    code: &mut [u32; script_text::WORDS],
) -> Result<Accepted, Refusal>
    ensures { Accepts script.now table.now result code.new }
{
    let read = script_text::read(script, table, code).ok_or(Refusal::ScriptMalformed)?;
    let found = checker::check(script_text::rows(code, read.count), table, read.start);
    found.verdict?;
    Ok(Accepted {
        count: read.count,
        keeping: found.keeping,
    })
}

// The number of a script on the sheet of a table: 4, 5 or 6, or 0 where it is accepted. The lent words hold the code of
// what was read, and its lines are counted, also where its types or labels don't fit.
pub fn number_of(
    script: &[u8],
    table: &[sheet::Word],
    code: &mut [u32; script_text::WORDS],
) -> Numbered
    ensures { NumbersScript script.now table.now result.number result.count code.new }
{
    let Some(read) = script_text::read(script, table, code) else {
        return Numbered {
            number: Refusal::ScriptMalformed.into(),
            count: 0,
        };
    };
    let lines = script_text::rows(code, read.count);
    let verdict = checker::check(lines, table, read.start).verdict;
    Numbered {
        number: number(verdict.map_err(Refusal::from)),
        count: read.count,
    }
}

// Runs the code of an accepted script on a memory that isn't refused. Here and in the round, table, authority and
// budget are no struct that is lent: the compiler then loses the table's length, and a check's stack passes the limit
// of the header.
pub fn run_accepted(
    code: &[u32],
    table: &[sheet::Word],
    memory: &mut [u32],
    authority: Set,
    budget: u32,
) -> Outcome
    ensures { RunsAccepted code.now table.now memory.old authority budget
        (record { answer = result.answer; steps = result.steps; memory = memory.new }) }
{
    let ran = interpreter::run(code, table, memory, authority, budget);
    Outcome {
        answer: number(ran.ended.map_err(Refusal::from)),
        steps: ran.steps,
    }
}

// Checks a script on the sheet of a table.
pub fn check_on(script: &[u8], table: &[sheet::Word]) -> Result<(), Refusal>
    ensures { ChecksOn script.now table.now (answer_number result) }
{
    let mut code = [0u32; script_text::WORDS];
    accept(script, table, &mut code)?;
    Ok(())
}

// Checks a script on the sheet of a table, and says whether it is trust-keeping.
pub fn trust_on(script: &[u8], table: &[sheet::Word]) -> Result<Trust, Refusal>
    ensures { TrustsOn script.now table.now (answered_trust result) }
{
    let mut code = [0u32; script_text::WORDS];
    let found = accept(script, table, &mut code)?;
    Ok(Trust {
        answer: DONE,
        keeping: found.keeping as u8,
    })
}

// Checks a script, and runs it on a memory, on the sheet of a table.
pub fn run_on(
    script: &[u8],
    table: &[sheet::Word],
    memory: &mut [u32],
    authority: Set,
    budget: u32,
) -> Result<Outcome, Refusal>
    ensures { RunsOn script.now table.now memory.old authority budget (answered_run result memory.new) }
{
    known(authority, table)?;
    let mut code = [0u32; script_text::WORDS];
    let accepted = accept(script, table, &mut code)?;
    memory::judge(table, memory)?;
    let rows = script_text::rows(&code, accepted.count);
    Ok(run_accepted(rows, table, memory, authority, budget))
}

// Shows a group a memory on the sheet of a table.
pub fn view_on(
    table: &[sheet::Word],
    memory: &[u32],
    group: Set,
    view: &mut [u32],
) -> Result<(), Refusal>
    ensures { record { answer = answer_number result; view = view.new }
        ≡ viewed_in table.now memory.now group view.old }
{
    known(group, table)?;
    memory::view(table, memory, group, view)?;
    Ok(())
}
