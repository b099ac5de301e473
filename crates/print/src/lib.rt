//! The lines of the print, written to the front of a caller's buffer.

#![tactic(auto)]

mod line;
mod lines;
mod node;
mod printed;
pub mod stop;

ghost use Rattle.std.specs.Prelude.{◌≡◌, ℕ, ◌<◌, ◌≤◌, length, Ok};
ghost use Rattle.print.specs.Limits.{line_limit};
ghost use Rattle.print.specs.Lines.{trace_stop_line, input_stop_line};
ghost use Rattle.print.specs.Placing.{IsWritten};
ghost use Rattle.print.specs.Print.{Placed, print_lines, line_at};
ghost use Rattle.survey.specs.Views.{shown};

use crate::lines::{input_stop_line, trace_stop_line};
use crate::printed::print_line;
use crate::stop::LineStop;
use source::SourceStop;
use survey::record::Record;

// No line has more bytes, so that a buffer of this length is never too short.
pub const LINE_LIMIT: usize = 512;

// How many lines the print of a record has: one, and one for each node.
#[tactic(auto, using(crate::proofs::Printing::as_many_lines))]
pub fn line_count(record: &Record) -> usize
    ensures is_their_count { (reset : ℕ) → result ≡ length (print_lines reset (shown «record».now)) }
{
    1 + record.node_count()
}

// Writes a line of the print of a record, counted from 0, to the front of the buffer, and answers its length. It is told the
// number of the reset, from 1. If there is no such line, or the buffer is too short for it, the buffer is left as it is.
pub fn write_line(
    record: &Record,
    reset: usize,
    line: usize,
    buffer: &mut [u8],
) -> Result<usize, LineStop>
    ensures places_that_line_if_there_is_one { Placed (line_at (print_lines reset (shown «record».now)) line) buffer.old buffer.new result }
    ensures has_room_enough_for_each_line { line_limit ≤ length buffer.old → line < length (print_lines reset (shown «record».now)) → IsWritten result }
{
    print_line(record, reset, line)?.place(buffer)
}

// Writes the line of a trace that stopped to the front of the buffer, and answers its length. It is told the number of the reset,
// from 1, and the stop, whose place is the line of the trace. A buffer that is too short is left as it is.
pub fn write_trace_stop_line(
    reset: usize,
    stop: SourceStop,
    buffer: &mut [u8],
) -> Result<usize, LineStop>
    ensures places_that_line { Placed (Ok (trace_stop_line reset stop.number stop.place)) buffer.old buffer.new result }
{
    trace_stop_line(reset, stop).place(buffer)
}

// Writes the line of an input that is too long to the front of the buffer, and answers its length.
// A buffer that is too short is left as it is.
pub fn write_input_stop_line(buffer: &mut [u8]) -> Result<usize, LineStop>
    ensures places_that_line { Placed (Ok input_stop_line) buffer.old buffer.new result }
{
    input_stop_line().place(buffer)
}
