// Several scripts in one text, parted by its empty lines. A script is the bytes from where it starts to its end; the
// next one starts after the byte that ends the empty line, and past the end of the text there is none.
#![tactic(auto)]

ghost use Rattle.std.specs.Prelude.{◌≡◌};
ghost use Rattle.scripts.specs.Internal.Places.{script_end, scripts_counted, kept_ends};

// The most scripts of a round.
pub const MOST_SCRIPTS: usize = 32;

// How many scripts a text has, where 33 stands for any more, and where each of the first 32 ends: places with a count
// beside them, since there is no heap.
#[derive(Clone, Copy, Debug, PartialEq, Eq)]
pub struct Parting {
    pub count: usize,
    pub ends: [usize; MOST_SCRIPTS],
}

// Where the script that starts at `from` ends: at the next empty line, or at the end of the text.
fn end_of(text: &[u8], from: usize) -> usize
    ensures { result ≡ script_end text.now from }
{
    let mut start = true;
    for at in from..text.len() {
        let ends = text[at] == b'\n';
        if start && ends {
            return at;
        }
        start = ends;
    }
    from.max(text.len())
}

// Parts a text into its scripts. Those after one more than the most are not looked at.
pub fn part(text: &[u8]) -> Parting
    ensures { result ≡ record { count = scripts_counted text.now; ends = kept_ends text.now } }
{
    let mut ends = [0; MOST_SCRIPTS];
    let mut at = 0;
    for count in 0..MOST_SCRIPTS {
        if text.len() < at {
            return Parting { count, ends };
        }
        let end = end_of(text, at);
        ends[count] = end;
        at = end + 1;
    }
    let more = usize::from(at <= text.len());
    Parting {
        count: MOST_SCRIPTS + more,
        ends,
    }
}
