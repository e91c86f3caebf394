// Evaluation of expressions over the lines (the paper, figure 2), in cells of words.
#![tactic(auto)]

mod nodes; // nodes.rt: a value made of one or two others, in the accumulator

ghost use Rattle.std.specs.Prelude.{◌≡◌, Some};
ghost use Rattle.evaluator.specs.State.{stop_text};
ghost use Rattle.script.specs.Internal.Code.{row_at};
ghost use Rattle.evaluator.specs.Internal.Given.{setting_of, place_in};
ghost use Rattle.evaluator.specs.Internal.Records.{reached, arrived};
ghost use Rattle.evaluator.specs.Internal.Post.{Evals};

use cells::CELL;
use script::ROW;
use sheet::powers::Powers;
use std::error::Error;
use std::fmt;

// The cell of location 0: after the accumulator and those that cases bind.
pub const LOCATIONS: usize = 1 + script::DEPTH as usize;

// Where the words of the locations start, and the words of all cells.
pub const MEMORY: usize = CELL * LOCATIONS;

pub const WORK: usize = MEMORY + CELL * (sheet::MOST_LOCATIONS as usize);

// Why an evaluation or a run ends before it is done: the budget is used up, a value is too long; or, on words that are
// no script's code or no sheet's memory, no rule applies.
#[derive(Clone, Copy, Debug, PartialEq, Eq)]
pub enum Stop {
    Spent,
    TooLong,
    NoRule,
}

impl fmt::Display for Stop {
    ghost output = { λ e. Some (stop_text e) };

    fn fmt<W: fmt::Write>(&self, f: &mut fmt::Formatter<W>) -> fmt::Result {
        f.write_str(match self {
            Stop::Spent => "the budget is used up",
            Stop::TooLong => "a value is too long",
            Stop::NoRule => "no rule applies",
        })
    }
}

impl Error for Stop {}

// What a run reads and leaves as it is: a script's code, a sheet's table, and the authority's powers by it. What it
// changes, the cells and the budget, is lent beside it: each contract says of each what it leaves.
#[derive(Clone, Copy)]
pub struct World<'a> {
    pub code: &'a [u32],
    pub table: &'a [sheet::Word],
    pub powers: Powers,
}

impl<'a> World<'a> {
    // Evaluates the expression at `at`, below so many cases, into the accumulator: the place where its lines end.
    pub fn eval(&self, at: usize, depth: u32, work: &mut [u32; WORK]) -> Result<usize, Stop>
        ensures { Evals (setting_of self.now) (place_in self.now at depth work.old) (reached result work.new) }
    {
        let mut next = at;
        reach(self, &mut next, depth, work)?;
        Ok(next)
    }
}

// The same, by recursion: `at` moves on to the place where the lines end. What is handed back so goes into registers,
// where a place beside the reason would take room in every frame. A function apart, by whose name the bound of the
// stack counts its calls.
#[cycle(pair_reach)]
fn reach(world: &World, at: &mut usize, depth: u32, work: &mut [u32; WORK]) -> Result<(), Stop>
    ensures { Evals (setting_of world.now) (place_in world.now at.old depth work.old)
        (arrived result at.new work.new) }
{
    let row = script::row_at(world.code, *at);
    let kind = row.kind;
    match kind {
        script::INT => {
            nodes::literal(work, row.a);
            *at += ROW;
            Ok(())
        }
        script::LOC => {
            nodes::location(work, row.a);
            *at += ROW;
            Ok(())
        }
        script::VAR => {
            nodes::variable(work, depth, row.a);
            *at += ROW;
            Ok(())
        }
        script::PAIR => pair(world, at, depth, work),
        // One call for the operand that each of these starts with, since each call takes its own place in every frame.
        script::PLUS
        | script::LEFT
        | script::RIGHT
        | script::PACK
        | script::UNPACK
        | script::FIRST
        | script::SECOND => {
            *at += ROW;
            reach(world, at, depth, work)?;
            if kind != script::PLUS {
                return nodes::applied(world, kind, row.a, row.b, work);
            }
            let n = cells::word(work, 1);
            reach(world, at, depth, work)?;
            nodes::sum(work, n);
            Ok(())
        }
        _ => Err(Stop::NoRule),
    }
}

// Evaluates the pair at `at`. It is apart from `reach`, so that no other line's frame has the room for a first part's
// words; that it calls itself for a pair that is its second part keeps it apart when compiled.
#[cycle(pair_reach)]
fn pair(world: &World, at: &mut usize, depth: u32, work: &mut [u32; WORK]) -> Result<(), Stop>
    requires { (row_at world.now.code.now at.old).kind ≡ 14 }
    ensures { Evals (setting_of world.now) (place_in world.now at.old depth work.old)
        (arrived result at.new work.new) }
{
    *at += ROW;
    reach(world, at, depth, work)?;
    let first = cells::load(work);
    let next = script::row_at(world.code, *at);
    if next.kind == script::PAIR {
        pair(world, at, depth, work)?;
    } else {
        reach(world, at, depth, work)?;
    }
    nodes::pair(work, &first)
}
