// A reader, as standard input, read to its end chunk by chunk.
#![tactic(auto)]

ghost use Rattle.std.specs.Prelude.{◌≡◌};
ghost use Rattle.parts.specs.Feeding.{held, beginning, fed};
ghost use Rattle.input.specs.Input.{got_bytes, goes_on, After};

use parts::State;
use std::io::Read;

// The most bytes of one read.
const CHUNK: usize = 4096;

// Feeds what a read that gave `got` bytes put into its chunk, or failed; whether there may be more.
fn feed_got(
    state: &mut State,
    chunk: &[u8],
    got: Option<usize>,
    buffer: &mut [u8],
    last: usize,
) -> bool
    ensures more { result ≡ goes_on got }
    ensures state_after { state.new
        ≡ (fed last (held state.old buffer.old) (got_bytes got chunk.now)).state }
    ensures buffer_after { buffer.new
        ≡ (fed last (held state.old buffer.old) (got_bytes got chunk.now)).buffer }
{
    let n = got.unwrap_or(0);
    state.feed(&chunk[..n.min(chunk.len())], buffer, last);
    n > 0
}

// Reads once and feeds what came; whether there may be more. A read that fails ends the input.
fn feed_some<R: Read>(reader: &mut R, state: &mut State, buffer: &mut [u8], last: usize) -> bool
    ensures { After last (held state.old buffer.old) (held state.new buffer.new) }
{
    let mut chunk = [0u8; CHUNK];
    let got = reader.read(&mut chunk).ok();
    feed_got(state, &chunk, got, buffer, last)
}

// A reader's bytes as the texts 0 to `last`, kept in the buffer. A proved loop has to end, so this one has a number of
// turns that no run uses up.
pub fn read_texts<R: Read>(reader: &mut R, buffer: &mut [u8], last: usize) -> State
    ensures { After last (held beginning buffer.old) (held result buffer.new) }
{
    let mut state = State::new();
    for _ in 0..u64::MAX {
        if !feed_some(reader, &mut state, buffer, last) {
            break;
        }
    }
    state
}
