// A value made of one or two others: what follows the evaluation of an operand, whose value is in the accumulator.
ghost use Rattle.std.specs.Prelude.{◌≡◌, ◌+◌, ◌-◌, drop, slice_index};
ghost use Rattle.language.specs.Syntax.{int, err, inr, first, second};
ghost use Rattle.sheet.specs.Internal.Tables.{left_in};
ghost use Rattle.sheet.specs.Internal.TypeTest.{has_no};
ghost use Rattle.memory.specs.Words.{cell, value_of, zeros};
ghost use Rattle.language.specs.World.{cell_words};
ghost use Rattle.cells.specs.Internal.Cells.{load_of, store_of, push_of, accumulator};
ghost use Rattle.evaluator.specs.State.{state_number};
ghost use Rattle.evaluator.specs.Internal.Cells.{first_location};
ghost use Rattle.evaluator.specs.Internal.Given.{setting_of};
ghost use Rattle.evaluator.specs.Internal.Nodes.{Sums, Tagged, Packs, Unpacks, Projects, Pairs, Applied};
ghost use Rattle.evaluator.specs.Internal.Nodes.{error_number, tests_number, error_in};

use crate::{LOCATIONS, Stop, WORK, World};
use cells::{ACCUMULATOR, CELL};

// The most words of a value that fits into the left of a package.
const ROOM: usize = CELL - memory::CONTENT - 1;

// The errors of pack and unpack.
#[derive(Clone, Copy, Debug, PartialEq, Eq)]
enum Failure {
    InsufficientAuth,
    IllegalFlow,
    TypeMismatch,
}

impl From<Failure> for u32 {
    ghost from_gives = { λ e n. n ≡ error_number e };

    fn from(e: Failure) -> u32 {
        match e {
            Failure::InsufficientAuth => 1,
            Failure::IllegalFlow => 2,
            Failure::TypeMismatch => 3,
        }
    }
}

// A value of two words: what it is, and its number.
fn put(work: &mut [u32; WORK], word: u32, n: u32)
    ensures { work.new ≡ store_of work.old accumulator (push_of word (push_of n (zeros cell_words))) }
{
    cells::clear(work, ACCUMULATOR);
    cells::push(work, n);
    cells::push(work, word);
}

// An integer.
pub(crate) fn literal(work: &mut [u32; WORK], n: u32)
    ensures { work.new ≡ store_of work.old accumulator (cell (int n)) }
{
    put(work, memory::INT, n);
}

// The right of an error.
fn fail(work: &mut [u32; WORK], e: Failure)
    ensures { work.new ≡ store_of work.old accumulator (cell (inr (err (error_number e)))) }
{
    put(work, memory::ERROR, e.into());
    cells::push(work, memory::RIGHT);
}

// The value of location x.
pub(crate) fn location(work: &mut [u32; WORK], x: u32)
    ensures { work.new
        ≡ store_of work.old accumulator (load_of work.old (first_location + x)) }
{
    cells::copy_cell(work, LOCATIONS + x as usize, ACCUMULATOR);
}

// The value that the d-th enclosing case binds, innermost 0, at a depth.
pub(crate) fn variable(work: &mut [u32; WORK], depth: u32, d: u32)
    ensures { work.new
        ≡ store_of work.old accumulator (load_of work.old (depth - d)) }
{
    let k = depth.saturating_sub(d);
    cells::copy_cell(work, k as usize, ACCUMULATOR);
}

// The sum of n and the integer in the accumulator.
pub(crate) fn sum(work: &mut [u32; WORK], n: u32)
    ensures { Sums n work.old 0 work.new }
{
    let m = cells::word(work, 1);
    literal(work, n.wrapping_add(m));
}

// Left or right, as the word says, of the value in the accumulator.
fn tagged(work: &mut [u32; WORK], word: u32) -> Result<(), Stop>
    ensures { Tagged word work.old (state_number result) work.new }
{
    if memory::value_end(work, 0) >= CELL {
        return Err(Stop::TooLong);
    }
    cells::push(work, word);
    Ok(())
}

// A package of label l of the value in the accumulator, or an error.
fn pack(world: &World, l: u32, work: &mut [u32; WORK]) -> Result<(), Stop>
    ensures { Packs world.now.powers l work.old (state_number result) work.new }
{
    if !sheet::powers::may_write(world.powers, l) {
        fail(work, Failure::InsufficientAuth);
        return Ok(());
    }
    if memory::value_end(work, 0) > ROOM {
        return Err(Stop::TooLong);
    }
    cells::push(work, l);
    cells::push(work, memory::PACKAGE);
    cells::push(work, memory::LEFT);
    Ok(())
}

// Whether the package in the accumulator may be unpacked with the wanted label l and the wanted type on the left of
// type t, or why not.
fn opens(world: &World, t: u32, l: u32, work: &[u32]) -> Result<(), Failure>
    ensures { tests_number result ≡ error_in (setting_of world.now) l
        (slice_index work.now 1)
        (has_no world.now.table.now (value_of (drop 2 work.now)) (left_in world.now.table.now t)) }
{
    if !sheet::powers::may_read(world.powers, l) {
        return Err(Failure::InsufficientAuth);
    }
    if !sheet::below(world.table, cells::word(work, memory::LABEL), l) {
        return Err(Failure::IllegalFlow);
    }
    if !memory::has_type(
        world.table,
        work,
        memory::CONTENT,
        sheet::left_part(world.table, t),
    ) {
        return Err(Failure::TypeMismatch);
    }
    Ok(())
}

// The content of the package in the accumulator, or an error.
fn unpack(world: &World, t: u32, l: u32, work: &mut [u32; WORK]) -> Result<(), Stop>
    ensures { Unpacks (setting_of world.now) t l
        work.old (state_number result) work.new }
{
    if cells::word(work, 0) != memory::PACKAGE {
        return Err(Stop::NoRule);
    }
    if let Err(e) = opens(world, t, l, work) {
        fail(work, e);
        return Ok(());
    }
    cells::pop_to(work, ACCUMULATOR);
    cells::pop_to(work, ACCUMULATOR);
    cells::push(work, memory::LEFT);
    Ok(())
}

// The first part of the pair in the accumulator.
fn first_part(work: &mut [u32; WORK]) -> Result<(), Stop>
    ensures { Projects first work.old (state_number result) work.new }
{
    if cells::word(work, 0) != memory::PAIR {
        return Err(Stop::NoRule);
    }
    cells::pop_to(work, ACCUMULATOR);
    let end = memory::value_end(work, 0);
    cells::cut(work, end);
    Ok(())
}

// The second part of the pair in the accumulator.
fn second_part(work: &mut [u32; WORK]) -> Result<(), Stop>
    ensures { Projects second work.old (state_number result) work.new }
{
    if cells::word(work, 0) != memory::PAIR {
        return Err(Stop::NoRule);
    }
    let end = memory::value_end(work, 1);
    cells::pop_words(work, end);
    Ok(())
}

// The pair of the value with these words and the value in the accumulator. It is kept out of line, so that the words
// that it moves take no place in a frame of the recursion.
#[inline(never)]
pub(crate) fn pair(work: &mut [u32; WORK], first: &[u32; CELL]) -> Result<(), Stop>
    ensures { Pairs first.now work.old (state_number result) work.new }
{
    let words = &first[..];
    let n = memory::value_end(words, 0);
    if CELL <= n {
        return Err(Stop::TooLong);
    }
    if CELL - n <= memory::value_end(work, 0) {
        return Err(Stop::TooLong);
    }
    cells::push_words(work, &words[..n]);
    cells::push(work, memory::PAIR);
    Ok(())
}

// What a line of a kind with one operand, with the numbers a and b, makes of the value in the accumulator. It matches
// on the kind's number, as the scope has it.
pub(crate) fn applied(
    world: &World,
    kind: u32,
    a: u32,
    b: u32,
    work: &mut [u32; WORK],
) -> Result<(), Stop>
    ensures { Applied (setting_of world.now)
        (record { kind = kind; a = a; b = b })
        work.old (state_number result) work.new }
{
    match kind {
        script::LEFT => tagged(work, memory::LEFT),
        script::RIGHT => tagged(work, memory::RIGHT),
        script::PACK => pack(world, a, work),
        script::UNPACK => unpack(world, a, b, work),
        script::FIRST => first_part(work),
        script::SECOND => second_part(work),
        _ => Err(Stop::NoRule),
    }
}
