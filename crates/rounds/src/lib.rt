// A round: the scripts of one text, one after another on one memory. Every script is checked before the first
// runs; each is then decoded once more and run, so that one decoded script at a time is on the stack, and none
// is checked twice.
#![tactic(auto)]

ghost use Rattle.std.specs.Prelude.{◌≡◌, replicate};
ghost use Rattle.stages.specs.Refusals.{refusal_number, answer_number};
ghost use Rattle.scripts.specs.Parting.{most_scripts};
ghost use Rattle.rounds.specs.Calls.{lower as lowerOf};
ghost use Rattle.rounds.specs.Internal.Stages.{Parted, NumbersAll, RunsScript, RunsTurn, RunsEach, Plays};
ghost use Rattle.rounds.specs.Internal.Stages.{RoundsOn, gate_number, answered_round};

use scripts::MOST_SCRIPTS;
use sets::Set;
use stages::{Outcome, Refusal};

// How a round ended: its answer, and each script's answer and steps in its place.
#[repr(C)]
#[derive(Clone, Copy, Debug, PartialEq, Eq)]
pub struct Round {
    pub answer: u8,
    pub answers: [u8; MOST_SCRIPTS],
    pub steps: [u32; MOST_SCRIPTS],
}

// A refused round has zeros in every place.
pub fn refused(answer: u8) -> Round
    ensures { result
        ≡ record { answer = answer; answers = replicate most_scripts 0; steps = replicate most_scripts 0 } }
{
    Round {
        answer,
        answers: [0; MOST_SCRIPTS],
        steps: [0; MOST_SCRIPTS],
    }
}

impl From<Refusal> for Round {
    ghost from_gives = { λ refusal round. round
        ≡ record {
          answer = refusal_number refusal;
          answers = replicate most_scripts 0;
          steps = replicate most_scripts 0;
        } };

    fn from(refusal: Refusal) -> Round {
        refused(refusal.into())
    }
}

// The lower of two refusals, if there is one.
fn lower(a: Result<(), Refusal>, b: Result<(), Refusal>) -> Result<(), Refusal>
    ensures { answer_number result ≡ lowerOf (answer_number a) (answer_number b) }
{
    let Err(first) = a else {
        return b;
    };
    let Err(second) = b else {
        return a;
    };
    Err(first.min(second))
}

// The scripts of a text, each of which has a place: the text, and where each script ends (scripts::part).
#[derive(Clone, Copy)]
struct Scripts<'a> {
    text: &'a [u8],
    ends: &'a [usize],
    ghost parted: { Parted text.now ends.now },
}

// The lowest refusal over all scripts of a text, if one is refused.
fn lowest_refusal(scripts: &Scripts, table: &[sheet::Word]) -> Result<(), Refusal>
    ensures { NumbersAll scripts.now.text.now table.now (answer_number result) }
{
    let mut found = Ok(());
    let mut at: usize = 0;
    for end in scripts.ends {
        found = lower(found, stages::check_on(&scripts.text[at..*end], table));
        at = *end + 1;
    }
    found
}

// Decodes an accepted script once more, and runs it on a memory that isn't refused.
fn run_script(
    script: &[u8],
    table: &[sheet::Word],
    memory: &mut [u32],
    authority: Set,
    budget: u32,
) -> Outcome
    ensures { RunsScript script.now table.now memory.old authority budget
        (record { answer = result.answer; steps = result.steps; memory = memory.new }) }
{
    let mut code = [0u32; script_text::WORDS];
    let count = script_text::decode(script, &mut code).map_or(0, |decoded| decoded.count);
    let rows = script_text::rows(&code, count);
    stages::run_accepted(rows, table, memory, authority, budget)
}

// The turn of an accepted script: refused for its gate's reason, or run.
fn turn(
    script: &[u8],
    gate: Option<Refusal>,
    table: &[sheet::Word],
    memory: &mut [u32],
    authority: Set,
    budget: u32,
) -> Outcome
    ensures { RunsTurn script.now (gate_number gate) table.now memory.old authority budget
        (record { answer = result.answer; steps = result.steps; memory = memory.new }) }
{
    match gate {
        Some(refusal) => refusal.into(),
        None => run_script(script, table, memory, authority, budget),
    }
}

// Runs accepted scripts one after another, each with the whole budget; one whose gate has a refusal gets that instead.
// One that stops leaves the memory as it was, and the next one runs.
fn run_each(
    scripts: &Scripts,
    gates: [Option<Refusal>; MOST_SCRIPTS],
    table: &[sheet::Word],
    memory: &mut [u32],
    authority: Set,
    budget: u32,
) -> Round
    ensures { RunsEach scripts.now.text.now gates table.now memory.old authority budget
        (record { answer = result.answer; answers = result.answers; steps = result.steps; memory = memory.new }) }
{
    let mut answers = [0u8; MOST_SCRIPTS];
    let mut steps = [0u32; MOST_SCRIPTS];
    let mut at: usize = 0;
    for (i, end) in scripts.ends.iter().enumerate() {
        let ran = turn(
            &scripts.text[at..*end],
            gates[i],
            table,
            memory,
            authority,
            budget,
        );
        answers[i] = ran.answer;
        steps[i] = ran.steps;
        at = *end + 1;
    }
    Round {
        answer: stages::DONE,
        answers,
        steps,
    }
}

// Checks the scripts of a text, and runs them on a memory, each by its gate: open where there is no refusal. The
// authority is known.
fn play(
    scripts: &Scripts,
    gates: [Option<Refusal>; MOST_SCRIPTS],
    table: &[sheet::Word],
    memory: &mut [u32],
    authority: Set,
    budget: u32,
) -> Result<Round, Refusal>
    ensures { Plays scripts.now.text.now gates table.now memory.old authority budget
        (answered_round result memory.new) }
{
    lowest_refusal(scripts, table)?;
    memory::judge(table, memory)?;
    Ok(run_each(scripts, gates, table, memory, authority, budget))
}

// Plays a round on the sheet of a table.
pub fn round_on(
    scripts: &[u8],
    table: &[sheet::Word],
    memory: &mut [u32],
    authority: Set,
    budget: u32,
) -> Result<Round, Refusal>
    ensures { RoundsOn scripts.now table.now memory.old authority budget (answered_round result memory.new) }
{
    stages::known(authority, table)?;
    let parting = scripts::part(scripts);
    if MOST_SCRIPTS < parting.count {
        return Err(Refusal::TooManyScripts);
    }
    let scripts = Scripts {
        text: scripts,
        ends: &parting.ends[..parting.count],
    };
    play(
        &scripts,
        [None; MOST_SCRIPTS],
        table,
        memory,
        authority,
        budget,
    )
}
