// The calls for programs in C (include/simp.h), each the call of crate simp with that name and the same promise.
#![tactic(auto)]

ghost use Rattle.std.specs.Prelude.{◌≡◌};
ghost use Rattle.stages.specs.Calls.{check_of, run_of, view_of, trust_of};
ghost use Rattle.rounds.specs.Calls.{round_of};
ghost use Rattle.groups.specs.Calls.{groups_of};

use groups::Groups;
use rounds::Round;
use sets::Set;
use stages::{Outcome, Trust};

// Whether a script is accepted on a sheet.
#[unsafe(no_mangle)]
pub extern "C" fn simp_check(sheet: &[u8], script: &[u8]) -> u8
    ensures { result ≡ check_of sheet.now script.now }
{
    simp::simp_check(sheet, script)
}

// Runs a script on a memory under an authority, for at most `budget` steps. The memory changes only if the run is done.
#[unsafe(no_mangle)]
pub extern "C" fn simp_run(
    sheet: &[u8],
    script: &[u8],
    memory: &mut [u32],
    authority: Set,
    budget: u32,
) -> Outcome
    ensures { record { answer = result.answer; steps = result.steps; memory = memory.new }
        ≡ run_of sheet.now script.now memory.old authority budget }
{
    simp::simp_run(sheet, script, memory, authority, budget)
}

// What a group is shown of a memory. The view slice changes only if the answer is 0.
#[unsafe(no_mangle)]
pub extern "C" fn simp_view(sheet: &[u8], memory: &[u32], group: Set, view: &mut [u32]) -> u8
    ensures { record { answer = result; view = view.new }
        ≡ view_of sheet.now memory.now group view.old }
{
    simp::simp_view(sheet, memory, group, view)
}

// Runs the scripts of a text one after another on a memory under an authority, each for at most `budget` steps. The
// memory changes only by the scripts that are done, and by none if the round is refused.
#[unsafe(no_mangle)]
pub extern "C" fn simp_round(
    sheet: &[u8],
    scripts: &[u8],
    memory: &mut [u32],
    authority: Set,
    budget: u32,
) -> Round
    ensures { record { answer = result.answer; answers = result.answers; steps = result.steps; memory = memory.new }
        ≡ round_of sheet.now scripts.now memory.old authority budget }
{
    simp::simp_round(sheet, scripts, memory, authority, budget)
}

// Lists the smallest groups that read a label, rising as numbers, in the first places of a slice. The slice changes
// only if the answer is 0, and there only in as many places as there are groups.
#[unsafe(no_mangle)]
pub extern "C" fn simp_groups(sheet: &[u8], label: u32, groups: &mut [Set]) -> Groups
    ensures { record { answer = result.answer; count = result.count; places = groups.new }
        ≡ groups_of sheet.now label groups.old }
{
    simp::simp_groups(sheet, label, groups)
}

// Whether a script is accepted on a sheet, and whether it is trust-keeping too: 1 or 0.
#[unsafe(no_mangle)]
pub extern "C" fn simp_trust(sheet: &[u8], script: &[u8]) -> Trust
    ensures { record { answer = result.answer; keeping = result.keeping }
        ≡ trust_of sheet.now script.now }
{
    simp::simp_trust(sheet, script)
}
