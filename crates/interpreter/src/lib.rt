// Runs of decoded scripts over the lines (the paper, figure 3).
#![tactic(auto)]

mod commands; // commands.rt: commands

ghost use Rattle.interpreter.specs.Internal.Run.{Runs};
ghost use Rattle.evaluator.specs.State.{state_number};

use evaluator::{MEMORY, Stop, WORK, World};
use sets::Set;

// How a run ended, and the steps taken.
#[derive(Clone, Copy, Debug, PartialEq, Eq)]
pub struct Ran {
    pub ended: Result<(), Stop>,
    pub steps: u32,
}

// Runs a script's code on a memory, under an authority, within a budget. The memory changes only where the run is done.
pub fn run(
    code: &[u32],
    table: &[sheet::Word],
    memory: &mut [u32],
    authority: Set,
    budget: u32,
) -> Ran
    ensures { Runs code.now table.now memory.old authority budget
        (state_number result.ended) result.steps memory.new }
{
    let n = memory.len();
    if n > WORK - MEMORY {
        return Ran {
            ended: Err(Stop::NoRule),
            steps: 0,
        };
    }
    let mut work = [0u32; WORK];
    work[MEMORY..MEMORY + n].copy_from_slice(memory);
    let world = World {
        code,
        table,
        powers: sheet::powers::powers(table, authority),
    };
    let mut left = budget;
    let ended = commands::exec(&world, 0, 0, &mut work, &mut left);
    let steps = budget - left;
    match ended {
        Ok(_) => {
            memory.copy_from_slice(&work[MEMORY..MEMORY + n]);
            Ran {
                ended: Ok(()),
                steps,
            }
        }
        Err(stop) => Ran {
            ended: Err(stop),
            steps,
        },
    }
}
