// What the program show prints, made from the texts that it is given.
#![tactic(auto)]

ghost use Rattle.std.specs.Prelude.{◌≡◌, ◌≤◌, length, take, drop, nat_eq, position};
ghost use Rattle.memory_text.specs.Sizes.{word_room};
ghost use Rattle.stages.specs.Refusals.{refusal_number};
ghost use Rattle.desk.specs.Fields.{closed, group_of};
ghost use Rattle.desk.specs.Numbers.{order, rank_of, other_number, earlier as earlier_of, as_text};
ghost use Rattle.desk.specs.Given.{given_of};
ghost use Rattle.desk.specs.Internal.Post.{Whole, PutAll};
ghost use Rattle.desk.specs.Show.{viewed, show_of};
ghost use Rattle.desk.specs.Inputs.{show_held};
ghost use Rattle.desk.specs.Output.{output_room, number_line, put, put_length};

use memory_text::Memory;
use parts::State;
use sets::Set;
use stages::Refusal;

// The room that a buffer must have for what is printed: a line for each of the most locations.
pub const OUTPUT_ROOM: usize = memory_text::LOCATIONS * memory_text::write::LINE;

// What show takes from the texts of a memory and of a group: the words, of which the first `count` are the memory's,
// the group, and what a text that isn't of its form is refused for. The count stands beside the words, since there is
// no heap.
#[derive(Clone, Copy)]
struct Given {
    words: [u32; memory_text::WORDS],
    count: usize,
    group: Set,
    other: Option<Refusal>,
}

// Whether the end of the line stands at p, and nothing more.
fn closes(s: &[u8], p: usize) -> bool
    ensures { result ≡ closed (drop p s.now) }
{
    p < s.len() && s[p] == b'\n' && s.len() - p == 1
}

// The group of a text: a set and byte 10.
fn group_line(s: &[u8]) -> Option<Set>
    ensures { result ≡ group_of s.now }
{
    let (group, p) = text::set(s, 0)?;
    if closes(s, p) { Some(group) } else { None }
}

// The order in which a view judges.
const ORDER: [Refusal; 5] = [
    Refusal::SheetMalformed,
    Refusal::SheetRepeats,
    Refusal::PrincipalUnknown,
    Refusal::SliceSize,
    Refusal::MemoryIllFormed,
];

// The place in an order of the refusal with the number k.
fn place(order: &[Refusal], k: u8) -> Option<usize>
    ensures { result ≡ position (λ refusal. nat_eq k (refusal_number refusal)) order.now }
{
    order.iter().position(|&refusal| k == u8::from(refusal))
}

// The rank of a number in the order of a view's table, 1 2 3 7 8; what isn't in it comes after all of it. A number, and
// not a refusal, since that is what `simp_view` answers, as C sees it.
fn rank(k: u8) -> usize
    ensures { result ≡ rank_of order k }
{
    place(&ORDER, k).unwrap_or(ORDER.len())
}

// b where it comes before a in the order, else a.
fn earlier(a: u8, b: u8) -> u8
    ensures { result ≡ earlier_of a b }
{
    if rank(b) < rank(a) { b } else { a }
}

// The number of what is refused, if anything is.
#[tactic(auto, unfolding(crate::specs::Numbers::other_number))]
fn number_of(other: Option<Refusal>) -> u8
    ensures { result ≡ other_number other }
{
    match other {
        Some(refusal) => u8::from(refusal),
        None => stages::DONE,
    }
}

// The number to print: the view's answer or `other`, whichever comes first in the order. A memory text with another
// number of lines than the sheet has locations isn't of its form, so that 8 stands for 7.
fn number(answer: u8, other: Option<Refusal>) -> u8
    ensures { result ≡ earlier_of (as_text answer) (other_number other) }
{
    let other = number_of(other);
    if answer == u8::from(Refusal::SliceSize) {
        return earlier(u8::from(Refusal::MemoryIllFormed), other);
    }
    earlier(answer, other)
}

// What a memory and a group give; a text that isn't of its form stands for no location, or for the empty group, and is
// refused for it: that of the group first.
fn read_given(memory: &[u8], group: &[u8]) -> Given
    ensures { result ≡ given_of memory.now group.now }
{
    let memory = memory_text::read_memory(memory);
    let group = group_line(group);
    let other = group
        .is_none()
        .then_some(Refusal::PrincipalUnknown)
        .or(memory.is_none().then_some(Refusal::MemoryIllFormed));
    let Memory { count, words } = memory.unwrap_or(Memory {
        count: 0,
        words: [0; memory_text::WORDS],
    });
    Given {
        words,
        count: count * memory::CELL,
        group: group.unwrap_or(0),
        other,
    }
}

// A number and the end of its line, at the start of a buffer; their length.
fn put_line(out: &mut [u8], n: u32) -> usize
    requires { word_room ≤ length out.old }
    ensures { PutAll out.old (number_line n) out.new result }
{
    let p = text::write::put_number(out, 0, n);
    text::write::put_byte(out, p, b'\n')
}

// The view, or the number.
fn show_given(sheet: &[u8], given: &Given, out: &mut [u8]) -> usize
    requires { Whole given.now × (output_room ≤ length out.old) }
    ensures { PutAll out.old (viewed sheet.now given.now) out.new result }
{
    let n = given.count;
    let mut view = [0; memory_text::WORDS];
    let answer = simp::simp_view(sheet, &given.words[..n], given.group, &mut view[..n]);
    let k = number(answer, given.other);
    if k == stages::DONE {
        return memory_text::write::write_memory(&view[..n], out);
    }
    put_line(out, u32::from(k))
}

// What show prints, at the start of a buffer; its length. Nothing is written, and the answer is 0, where the buffer has
// fewer than OUTPUT_ROOM places.
pub fn show(sheet: &[u8], memory: &[u8], group: &[u8], out: &mut [u8]) -> usize
    ensures value { result ≡ put_length out.old
        (show_of sheet.now memory.now group.now) }
    ensures out_after { out.new
        ≡ put out.old (show_of sheet.now memory.now group.now) }
{
    if out.len() < OUTPUT_ROOM {
        return 0;
    }
    show_given(sheet, &read_given(memory, group), out)
}

// What show prints of an input whose texts 0 to 2 are kept in a buffer: sheet, memory and group.
pub fn show_input(state: State, buffer: &[u8], out: &mut [u8]) -> usize
    ensures value { result ≡ put_length out.old (show_held state buffer.now) }
    ensures out_after { out.new ≡ put out.old (show_held state buffer.now) }
{
    let sheet = state.text_in(buffer, 0);
    let memory = state.text_in(buffer, 1);
    let group = state.text_in(buffer, 2);
    show(sheet, memory, group, out)
}

// The first n bytes of a buffer, or all of them.
pub fn first(out: &[u8], n: usize) -> &[u8]
    ensures { result.now ≡ take n out.now }
{
    out.get(..n).unwrap_or(out)
}
