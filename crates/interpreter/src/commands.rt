// Runs of commands over the lines (the paper, figure 3).
ghost use Rattle.std.specs.Prelude.{◌≡◌, ◌+◌, MatchResult};
ghost use Rattle.script.specs.Internal.Code.{row_at};
ghost use Rattle.evaluator.specs.declared.Stop.TheVariants.{Spent};
ghost use Rattle.evaluator.specs.Internal.Given.{setting_of, place_in};
ghost use Rattle.interpreter.specs.Internal.Post.{executed, decided, Execs, Assigns, Decides, Branches};

use evaluator::{LOCATIONS, Stop, WORK, World};
use script::{ROW, skip};

// What a guard or a case is decided by: a left or a right.
#[derive(Clone, Copy, Debug, PartialEq, Eq)]
enum Side {
    Left,
    Right,
}

// What is left of a budget after one transition.
fn tick(fuel: u32) -> Result<u32, Stop>
    ensures { MatchResult result (λ left. fuel ≡ left + 1) (λ e. (e ≡ Spent) × (fuel ≡ 0)) }
{
    fuel.checked_sub(1).ok_or(Stop::Spent)
}

// The assignment to location x of the expression at `at`.
fn assign(
    world: &World,
    at: usize,
    depth: u32,
    work: &mut [u32; WORK],
    fuel: &mut u32,
    x: u32,
) -> Result<usize, Stop>
    ensures { Assigns (setting_of world.now) (place_in world.now at depth work.old)
        fuel.old x (executed result fuel.new) work.new }
{
    let left = tick(*fuel)?;
    let end = world.eval(at, depth, work)?;
    cells::copy_cell(work, cells::ACCUMULATOR, LOCATIONS + x as usize);
    *fuel = left;
    Ok(end)
}

// The transition of a guard, or of a case, whose expression stands at `at`: the side, and where the expression's lines
// end.
fn decide(
    world: &World,
    at: usize,
    depth: u32,
    work: &mut [u32; WORK],
    fuel: &mut u32,
) -> Result<(Side, usize), Stop>
    ensures { Decides (setting_of world.now) (place_in world.now at depth work.old)
        fuel.old (decided result fuel.new) work.new }
{
    let left = tick(*fuel)?;
    let end = world.eval(at, depth, work)?;
    let side = match cells::word(work, 0) {
        memory::LEFT => Side::Left,
        memory::RIGHT => Side::Right,
        _ => return Err(Stop::NoRule),
    };
    *fuel = left;
    Ok((side, end))
}

// The transition of the case whose expression stands at `at`, with the value bound: the side, and where its branch
// starts.
fn branch(
    world: &World,
    at: usize,
    depth: u32,
    work: &mut [u32; WORK],
    fuel: &mut u32,
) -> Result<(Side, usize), Stop>
    ensures { Branches (setting_of world.now) (place_in world.now at depth work.old)
        fuel.old (decided result fuel.new) work.new }
{
    if depth >= script::DEPTH {
        return Err(Stop::NoRule);
    }
    let (side, first) = decide(world, at, depth, work, fuel)?;
    cells::pop_to(work, depth as usize + 1);
    match side {
        Side::Left => Ok((side, first)),
        Side::Right => Ok((side, skip(world.code, first))),
    }
}

// Runs the command at `at`, below so many cases, within the budget `fuel`: the place where its lines end. A command
// with commands in it has a function of its own: called in one place, it is compiled into this one, where their locals
// then share their room in the frame.
#[cycle(exec_repeat_select_sequence)]
pub(crate) fn exec(
    world: &World,
    at: usize,
    depth: u32,
    work: &mut [u32; WORK],
    fuel: &mut u32,
) -> Result<usize, Stop>
    ensures { Execs (setting_of world.now) (place_in world.now at depth work.old)
        fuel.old (executed result fuel.new) work.new }
{
    let row = script::row_at(world.code, at);
    match row.kind {
        script::SKIP => Ok(at + ROW),
        script::SEQ => sequence(world, at, depth, work, fuel),
        script::ASSIGN => assign(world, at + ROW, depth, work, fuel, row.a),
        script::WHILE => repeat(world, at, depth, work, fuel),
        script::CASE => select(world, at, depth, work, fuel),
        _ => Err(Stop::NoRule),
    }
}

// Runs the two commands of the `;` at `at`, one after the other.
#[cycle(exec_repeat_select_sequence)]
fn sequence(
    world: &World,
    at: usize,
    depth: u32,
    work: &mut [u32; WORK],
    fuel: &mut u32,
) -> Result<usize, Stop>
    requires { (row_at world.now.code.now at).kind ≡ 2 }
    ensures { Execs (setting_of world.now) (place_in world.now at depth work.old)
        fuel.old (executed result fuel.new) work.new }
{
    let second = exec(world, at + ROW, depth, work, fuel)?;
    *fuel = tick(*fuel)?;
    exec(world, second, depth, work, fuel)
}

// Runs the while at `at`.
#[cycle(exec_repeat_select_sequence)]
fn repeat(
    world: &World,
    at: usize,
    depth: u32,
    work: &mut [u32; WORK],
    fuel: &mut u32,
) -> Result<usize, Stop>
    requires { (row_at world.now.code.now at).kind ≡ 4 }
    ensures { Execs (setting_of world.now) (place_in world.now at depth work.old)
        fuel.old (executed result fuel.new) work.new }
{
    // where the last round ended
    let mut last = None;
    loop {
        let (side, body) = decide(world, at + ROW, depth, work, fuel)?;
        if side == Side::Right {
            return match last {
                Some(end) => Ok(end),
                None => Ok(skip(world.code, body)),
            };
        }
        let end = exec(world, body, depth, work, fuel)?;
        *fuel = tick(*fuel)?;
        last = Some(end);
    }
}

// Runs the case at `at`: its branch, below one case more.
#[cycle(exec_repeat_select_sequence)]
fn select(
    world: &World,
    at: usize,
    depth: u32,
    work: &mut [u32; WORK],
    fuel: &mut u32,
) -> Result<usize, Stop>
    requires { (row_at world.now.code.now at).kind ≡ 5 }
    ensures { Execs (setting_of world.now) (place_in world.now at depth work.old)
        fuel.old (executed result fuel.new) work.new }
{
    let (side, start) = branch(world, at + ROW, depth, work, fuel)?;
    let end = exec(world, start, depth + 1, work, fuel)?;
    match side {
        Side::Left => Ok(skip(world.code, end)),
        Side::Right => Ok(end),
    }
}
