//! The lines that tell of a reset and of a stop.

ghost use Rattle.std.specs.Prelude.{◌≡◌, ◌+◌, ◌≤◌, length};
ghost use Rattle.print.specs.Lines.{reset_line, stop_line, void_line, trace_stop_line, input_stop_line};
ghost use Rattle.print.specs.Written.{written};
ghost use Rattle.stops.specs.Numbers.{cause_number, cause_place};

use crate::line::Line;
use source::SourceStop;
use stops::Cause;

pub(crate) fn reset_line(reset: usize, nodes: usize) -> Line
    ensures is_the_reset_line { written result ≡ reset_line reset nodes }
{
    let mut line = Line::new();
    line.push_labelled(b"reset ", reset);
    line.push_labelled(b" nodes ", nodes);
    line.push_text(b"\n");
    line
}

// A stop, its number and its place each behind a label. (The line of a bus tells one number fewer, and stays for itself.)
fn stop_line(reset: usize, label: &[u8], number: u8, place_label: &[u8], place: usize) -> Line
    requires labels_are_short { length label.now + length place_label.now ≤ 20 }
    ensures is_the_line_of_the_stop { written result ≡ stop_line label.now place_label.now reset number place }
{
    let mut line = Line::new();
    line.push_labelled(b"reset ", reset);
    line.push_labelled(label, usize::from(number));
    line.push_labelled(place_label, place);
    line.push_text(b"\n");
    line
}

pub(crate) fn void_line(reset: usize, cause: Cause) -> Line
    ensures is_the_void_line { written result ≡ void_line reset (cause_number cause) (cause_place cause) }
{
    stop_line(reset, b" void ", cause.number(), b" at ", cause.place())
}

pub(crate) fn trace_stop_line(reset: usize, stop: SourceStop) -> Line
    ensures is_the_trace_stop_line { written result ≡ trace_stop_line reset stop.number stop.place }
{
    stop_line(reset, b" trace ", stop.number, b" at line ", stop.place)
}

pub(crate) fn input_stop_line() -> Line
    ensures is_the_input_stop_line { written result ≡ input_stop_line }
{
    let mut line = Line::new();
    line.push_text(b"stop 23\n");
    line
}
