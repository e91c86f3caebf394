// Cells of 16 words, one after another, of which the first is the accumulator: moved, pushed and popped in place.
#![tactic(auto)]

ghost use Rattle.std.specs.Prelude.{◌≡◌, ◌⊎◌, ◌+◌, ◌*◌, ◌/◌, ◌≤◌, ◌<◌, length, drop, get_or, MatchOption};
ghost use Rattle.language.specs.World.{cell_words};
ghost use Rattle.memory.specs.Words.{zeros};
ghost use Rattle.std.proofs.Math.Seq.{paste};
ghost use Rattle.cells.specs.Internal.Cells.{accumulator, load_of, store_of, push_of, pushes_of, pop_of, pops_of};
ghost use Rattle.cells.specs.Internal.Cells.{cut_of};

// The words of a cell.
pub const CELL: usize = memory::CELL;

// The cell of the value just computed.
pub const ACCUMULATOR: usize = 0;

// Makes the words of cell k zeros, where there is such a cell.
pub fn clear(work: &mut [u32], k: usize)
    ensures { work.new ≡ store_of work.old k (zeros cell_words) }
{
    if let Some(start) = start_of(work, k) {
        work[start..start + CELL].fill(0);
    }
}

// Copies one cell to another, zeros where there is no such cell.
pub fn copy_cell(work: &mut [u32], from: usize, to: usize)
    ensures { work.new ≡ store_of work.old to (load_of work.old from) }
{
    let Some(start) = start_of(work, to) else {
        return;
    };
    match start_of(work, from) {
        Some(first) => slide(work, start, first, CELL),
        None => work[start..start + CELL].fill(0),
    }
}

// The word w in front of the words in the accumulator; the last of these goes. Not by `push_words`, whose array would
// take 64 bytes more of each line's frame.
pub fn push(work: &mut [u32], w: u32)
    ensures { work.new
        ≡ store_of work.old accumulator (push_of w (load_of work.old accumulator)) }
{
    if work.len() < CELL {
        return;
    }
    let mut held = w;
    for word in work[..CELL].iter_mut() {
        let old = *word;
        *word = held;
        held = old;
    }
}

// Puts words in front of those in the accumulator, of which as many go at the end.
pub fn push_words(work: &mut [u32], words: &[u32])
    ensures { work.new ≡ store_of work.old accumulator
        (pushes_of words.now (load_of work.old accumulator)) }
{
    if work.len() < CELL {
        return;
    }
    let n = words.len().min(CELL);
    let mut pushed = [0; CELL];
    pushed[..n].copy_from_slice(&words[..n]);
    pushed[n..].copy_from_slice(&work[..CELL - n]);
    work[..CELL].copy_from_slice(&pushed);
}

// Stores the words of the accumulator without the first in cell k; a 0 comes at the end.
pub fn pop_to(work: &mut [u32], k: usize)
    ensures { work.new
        ≡ store_of work.old k (pop_of (load_of work.old accumulator)) }
{
    if let Some(start) = start_of(work, k) {
        slide(work, start, 1, CELL - 1);
        work[start + (CELL - 1)] = 0;
    }
}

// Takes the first n words off the accumulator; zeros come at the end.
pub fn pop_words(work: &mut [u32], n: usize)
    ensures { work.new
        ≡ store_of work.old accumulator (pops_of n (load_of work.old accumulator)) }
{
    if work.len() < CELL {
        return;
    }
    let n = n.min(CELL);
    let mut rest = [0; CELL];
    rest[..CELL - n].copy_from_slice(&work[n..CELL]);
    work[..CELL].copy_from_slice(&rest);
}

// Makes the words of the accumulator after the first n zeros.
pub fn cut(work: &mut [u32], n: usize)
    ensures { work.new
        ≡ store_of work.old accumulator (cut_of n (load_of work.old accumulator)) }
{
    if n < CELL && CELL <= work.len() {
        work[n..CELL].fill(0);
    }
}

// The words of the accumulator; zeros where there is none.
pub fn load(work: &[u32]) -> [u32; CELL]
    ensures { result ≡ load_of work.now accumulator }
{
    match work.first_chunk::<CELL>() {
        Some(words) => *words,
        None => [0; CELL],
    }
}

// The word at `at`; 0 past the end.
pub fn word(work: &[u32], at: usize) -> u32
    ensures { result ≡ get_or work.now at 0 }
{
    work.get(at).copied().unwrap_or(0)
}

// Where cell k starts, if there is such a cell.
fn start_of(work: &[u32], k: usize) -> Option<usize>
    ensures { MatchOption result (length work.now / cell_words ≤ k)
        (λ start. (start ≡ cell_words * k) × (k < length work.now / cell_words)) }
{
    (k < work.len() / CELL).then(|| CELL * k)
}

// Copies n words, from `from` on, to `to` on; not onto words that are still to be copied. By an index, since no method
// of a slice copies within it.
fn slide(work: &mut [u32], to: usize, from: usize, n: usize)
    requires { (to + n ≤ length work.old) × (from + n ≤ length work.old) × ((to ≤ from) ⊎ (from + n ≤ to)) }
    ensures { work.new ≡ paste work.old to (drop from work.old) n }
{
    for i in 0..n {
        work[to + i] = work[from + i];
    }
}
