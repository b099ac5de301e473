//! Reads a trace from standard input, and prints what each reset in it announces: a line for the bus and one for each node,
//! or one line that says why there is no bus, and another if the trace could not be read.

#![tactic(auto)]

ghost use Rattle.std.specs.Prelude.{◌≤◌, length, IfOk};

use printing::{print_input_stop, print_trace};
use std::io;
use std::io::Read;

mod printing;

// A trace has at most so many bytes.
const TRACE_LIMIT: usize = 65_536;

// One byte more than a trace has shows an input that is too long.
const ROOM: usize = TRACE_LIMIT + 1;

// Reads until the room is full or the input ends, and gives what came. It counts for itself, since `read_to_end` of std puts what
// it reads on the heap, and `read_exact` refuses an input that is shorter than the room.
fn read_input<'a, R: Read>(input: &mut R, room: &'a mut [u8]) -> io::Result<&'a [u8]>
    ensures is_within_the_room { IfOk result (λ came. length came.now ≤ length room.old) }
{
    let mut count = 0;
    while count < room.len() {
        match input.read(&mut room[count..])? {
            0 => break,
            came => count += came,
        }
    }
    Ok(&room[..count])
}

fn main(rt: HostRuntime) -> io::Result<()> {
    let mut room = [0u8; ROOM];
    let mut output = rt.stdout();
    let trace = read_input(&mut rt.stdin(), &mut room)?;
    if trace.len() > TRACE_LIMIT {
        return print_input_stop(&mut output);
    }
    print_trace(&mut output, trace)
}
