// Takes a sheet, a memory and a group on standard input, parted by empty lines, and prints the view or the
// number of the refusal.
#![tactic(auto)]

ghost use Rattle.desk.specs.Inputs.{shown_for, PutFor};

use desk::OUTPUT_ROOM;
use parts::KEEP;
use std::io;
use std::io::Read;

// What is printed for a reader's bytes, at the start of a buffer; its length.
fn show_stdin<R: Read>(reader: &mut R, out: &mut [u8]) -> usize
    ensures { PutFor shown_for out.old out.new result }
{
    let mut buffer = [0u8; 3 * KEEP];
    let state = input::read_texts(reader, &mut buffer, 2);
    desk::show_input(state, &buffer, out)
}

fn main(rt: HostRuntime) -> io::Result<()> {
    let mut out = [0u8; OUTPUT_ROOM];
    let n = show_stdin(&mut rt.reader(), &mut out);
    rt.write_all(desk::first(&out, n))
}
