//! What a line of a trace tells, and why it may not be readable.

ghost use Rattle.std.specs.Prelude.{◌≡◌};
ghost use Rattle.trace.specs.Stops.{as_source_stop, trace_stop_number, trace_stop_place};

use source::SourceStop;

// A line of a trace that can be read, without its byte 10, with its number. Lines are numbered from 1 over the whole trace.
#[derive(Clone, Copy, Debug, PartialEq, Eq)]
pub enum Token<'a> {
    Note { line: &'a [u8], place: usize },
    Reset { line: &'a [u8], place: usize },
    Words { line: &'a [u8], place: usize },
}

// The line of this number is over 255 bytes, or it is no note, no reset line and no words line.
#[derive(Clone, Copy, Debug, PartialEq, Eq)]
pub enum TraceStop {
    LongLine(usize),
    Malformed(usize),
}

impl TraceStop {
    // The number of the stop. (A match: a case that holds a value can't stand with its number in the enum.)
    pub fn number(self) -> u8
        ensures is_its_number { result ≡ trace_stop_number self }
    {
        match self {
            TraceStop::LongLine(_) => 20,
            TraceStop::Malformed(_) => 21,
        }
    }

    // The number of the line.
    pub fn place(self) -> usize
        ensures is_its_place { result ≡ trace_stop_place self }
    {
        match self {
            TraceStop::LongLine(place) | TraceStop::Malformed(place) => place,
        }
    }
}

impl From<TraceStop> for SourceStop {
    ghost from_gives = { λ stop made. made ≡ as_source_stop stop };

    fn from(stop: TraceStop) -> SourceStop {
        SourceStop {
            number: stop.number(),
            place: stop.place(),
        }
    }
}
