// SImp scripts on a sheet: the calls that the desk programs make, and firmware through crate simp_c.
// Each settles every input; what they answer is defined in crates stages, rounds and groups, specs/Calls.antt.
#![tactic(auto)]

ghost use Rattle.std.specs.Prelude.{◌≡◌};
ghost use Rattle.sheet_text.specs.Sheets.{sheet_of};
ghost use Rattle.stages.specs.Calls.{check_of, run_of, view_of, trust_of};
ghost use Rattle.rounds.specs.Calls.{round_of};
ghost use Rattle.groups.specs.Calls.{groups_of};
ghost use Rattle.simp.specs.Internal.Sheets.{CallsOn};

use groups::Groups;
use rounds::Round;
use sets::Set;
use stages::{Outcome, Refusal, Trust};

// What a call gives on the table of a sheet, or what the sheet is refused for.
fn on_sheet<T, F: FnMut(&[sheet::Word]) -> Result<T, Refusal>>(
    sheet: &[u8],
    call: &mut F,
) -> Result<T, Refusal>
    requires { F.IsAlwaysCallable call.old }
    ensures { CallsOn F.FnMut (sheet_of sheet.now) call.old result call.new }
{
    let mut table: [sheet::Word; sheet::WORDS] = [0; sheet::WORDS];
    sheet_text::read(sheet, &mut table)?;
    call(&table)
}

// Whether a script is accepted on a sheet.
pub fn simp_check(sheet: &[u8], script: &[u8]) -> u8
    ensures { result ≡ check_of sheet.now script.now }
{
    stages::number(on_sheet(sheet, &mut |table| stages::check_on(script, table)))
}

// Runs a script on a memory under an authority, for at most `budget` steps. The memory changes only if the run is done.
pub fn simp_run(
    sheet: &[u8],
    script: &[u8],
    memory: &mut [u32],
    authority: Set,
    budget: u32,
) -> Outcome
    ensures { record { answer = result.answer; steps = result.steps; memory = memory.new }
        ≡ run_of sheet.now script.now memory.old authority budget }
{
    on_sheet(
        sheet,
        &mut |table| stages::run_on(script, table, memory, authority, budget),
    )
    .unwrap_or_else(Outcome::from)
}

// What a group is shown of a memory. The view slice changes only if the answer is 0.
pub fn simp_view(sheet: &[u8], memory: &[u32], group: Set, view: &mut [u32]) -> u8
    ensures { record { answer = result; view = view.new }
        ≡ view_of sheet.now memory.now group view.old }
{
    stages::number(on_sheet(
        sheet,
        &mut |table| stages::view_on(table, memory, group, view),
    ))
}

// Runs the scripts of a text one after another on a memory under an authority, each for at most `budget` steps. The
// memory changes only by the scripts that are done, and by none if the round is refused.
pub fn simp_round(
    sheet: &[u8],
    scripts: &[u8],
    memory: &mut [u32],
    authority: Set,
    budget: u32,
) -> Round
    ensures { record { answer = result.answer; answers = result.answers; steps = result.steps; memory = memory.new }
        ≡ round_of sheet.now scripts.now memory.old authority budget }
{
    on_sheet(
        sheet,
        &mut |table| rounds::round_on(scripts, table, memory, authority, budget),
    )
    .unwrap_or_else(Round::from)
}

// Lists the smallest groups that read a label, rising as numbers, in the first places of a slice. The slice changes
// only if the answer is 0, and there only in as many places as there are groups.
pub fn simp_groups(sheet: &[u8], label: u32, groups: &mut [Set]) -> Groups
    ensures { record { answer = result.answer; count = result.count; places = groups.new }
        ≡ groups_of sheet.now label groups.old }
{
    on_sheet(sheet, &mut |table| groups::list_on(table, label, groups)).unwrap_or_else(Groups::from)
}

// Whether a script is accepted on a sheet, and whether it is trust-keeping too: 1 or 0.
pub fn simp_trust(sheet: &[u8], script: &[u8]) -> Trust
    ensures { record { answer = result.answer; keeping = result.keeping }
        ≡ trust_of sheet.now script.now }
{
    on_sheet(sheet, &mut |table| stages::trust_on(script, table)).unwrap_or_else(Trust::from)
}
