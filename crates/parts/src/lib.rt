// Standard input as several texts parted by empty lines, taken chunk by chunk into one lent buffer.
#![tactic(auto)]

ghost use Rattle.std.specs.Prelude.{◌≡◌};
ghost use Rattle.parts.specs.Parts.{parting};
ghost use Rattle.parts.specs.Feeding.{held, beginning, stored, stepped, fed, text_held};

// One byte more than a text may have.
pub const KEEP: usize = text::LIMIT + 1;

// The most texts that a state holds.
pub const TEXTS: usize = 8;

// Which text goes on, whether a line starts there, and how many bytes are kept of each text. The buffer is lent to each
// call, and no part of it, so that a state is a value (`Held`, in the contracts, has both).
#[derive(Clone, Copy, Debug, PartialEq, Eq)]
pub struct State {
    pub text: usize,
    pub start: bool,
    pub kept: [usize; TEXTS],
}

impl State {
    // Before the first byte.
    pub fn new() -> Self
        ensures { result ≡ beginning }
    {
        State {
            text: 0,
            start: true,
            kept: [0; TEXTS],
        }
    }

    // Whether the byte b parts the text that goes on from the next.
    fn is_parted_by(&self, b: u8, last: usize) -> bool
        ensures { result ≡ parting last self.now.text self.now.start b }
    {
        self.start && b == b'\n' && self.text < last
    }

    // The byte b after what is kept of its text, up to KEEP bytes; past the end of the buffer nothing is stored.
    fn store(&mut self, b: u8, buffer: &mut [u8])
        ensures value { self.new ≡ (stored (held self.old buffer.old) b).state }
        ensures buffer_after { buffer.new ≡ (stored (held self.old buffer.old) b).buffer }
    {
        self.start = b == b'\n';
        if self.text >= TEXTS {
            return;
        }
        let kept = self.kept[self.text];
        if kept >= KEEP {
            return;
        }
        self.kept[self.text] = kept + 1;
        let at = self.text * KEEP + kept;
        if at < buffer.len() {
            buffer[at] = b;
        }
    }

    // One byte of an input with the texts 0 to `last`.
    fn step(&mut self, b: u8, buffer: &mut [u8], last: usize)
        ensures value { self.new ≡ (stepped last (held self.old buffer.old) b).state }
        ensures buffer_after { buffer.new ≡ (stepped last (held self.old buffer.old) b).buffer }
    {
        if self.is_parted_by(b, last) {
            self.text += 1;
            self.start = true;
        } else {
            self.store(b, buffer);
        }
    }

    // The bytes of a chunk of an input with the texts 0 to `last`. Text i is kept in the buffer from i * KEEP on.
    pub fn feed(&mut self, chunk: &[u8], buffer: &mut [u8], last: usize)
        ensures value { self.new ≡ (fed last (held self.old buffer.old) chunk.now).state }
        ensures buffer_after { buffer.new ≡ (fed last (held self.old buffer.old) chunk.now).buffer }
    {
        for b in chunk {
            self.step(*b, buffer, last);
        }
    }

    // What a buffer holds of text i.
    pub fn text_in<'a>(&self, buffer: &'a [u8], i: usize) -> &'a [u8]
        ensures { result.now ≡ text_held self.now buffer.now i }
    {
        let Some(&kept) = self.kept.get(i) else {
            return &[];
        };
        let rest = buffer.get(i * KEEP..).unwrap_or(&[]);
        rest.get(..kept).unwrap_or(rest)
    }
}
