//! The print of a trace.

ghost use Rattle.std.specs.Prelude.{◌≡◌, ◌<◌, length, IfOk};
ghost use Rattle.print.specs.Print.{print_lines};
ghost use Rattle.survey.specs.Views.{gathered, nothing_offered, shown};
ghost use Rattle.trace.specs.Reading.{lines_before, lines_left};
ghost use Rattle.trace.specs.Recorded.{ending_in, waiting_in};
ghost use Rattle.treeprint.specs.Surveys.{Surveyed, stop_of};

use print::{LINE_LIMIT, line_count, write_input_stop_line, write_line, write_trace_stop_line};
use source::SourceStop;
use std::io;
use std::io::Write;
use stops::FillStop;
use survey::gathering::Gathering;
use survey::record::Record;
use trace::reader::Reader;
use trace::recorded::TraceSource;

// Prints that the input is too long. (This and two others lend a buffer and put out its front. One function over a closure that
// writes the line would have to say what the closure answers, which is longer than these three lines.)
pub(crate) fn print_input_stop<W: Write>(output: &mut W) -> io::Result<()> {
    let mut buffer = [0; LINE_LIMIT];
    let length = write_input_stop_line(&mut buffer).unwrap();
    output.write_all(&buffer[..length])
}

// The stop of the source that ended a fill, if that ended it.
fn source_stop(filled: Result<usize, FillStop>) -> Option<SourceStop>
    ensures is_that_stop { result ≡ stop_of filled }
{
    match filled {
        Err(FillStop::Source(_, stop)) => Some(stop),
        Ok(_) | Err(FillStop::Survey(_, _)) => None,
    }
}

// What the lines behind a reset announce: the record, and where the trace stopped, if it did.
fn survey_reset(mut gathering: Gathering, reader: Reader) -> (Record, Option<SourceStop>)
    requires nothing_is_offered_yet { gathered gathering ≡ nothing_offered }
    ensures fills_and_settles_what_the_lines_hold { Surveyed (waiting_in (lines_left reader.entry)) (ending_in (lines_before reader.entry) (lines_left reader.entry)) (shown result.0) result.1 }
{
    let mut source = TraceSource::open(reader);
    let filled = gathering.fill(&mut source);
    (gathering.settle(), source_stop(filled))
}

// The print of one reset: where it goes, and the number of the reset.
#[derive(Drop)]
struct ResetPrint<'a, W> {
    output: &'a mut W,
    reset: usize,
}

impl<W: Write> ResetPrint<'_, W> {
    // Prints a line of a record.
    fn print_line(&mut self, record: &Record, line: usize) -> io::Result<()>
        requires there_is_such_a_line { line < length (print_lines self.old.reset (shown «record».now)) }
    {
        let mut buffer = [0; LINE_LIMIT];
        let length = write_line(record, self.reset, line, &mut buffer).unwrap();
        self.output.write_all(&buffer[..length])
    }

    // Prints all lines of a record.
    fn print_record(&mut self, record: &Record) -> io::Result<()> {
        for line in 0..line_count(record) {
            self.print_line(record, line)?;
        }
        Ok(())
    }

    // Prints where the trace stopped.
    fn print_trace_stop(&mut self, stop: SourceStop) -> io::Result<()> {
        let mut buffer = [0; LINE_LIMIT];
        let length = write_trace_stop_line(self.reset, stop, &mut buffer).unwrap();
        self.output.write_all(&buffer[..length])
    }

    // Prints what the lines behind the reset announce. Gives the gathering back, emptied for the next reset.
    fn print_reset(&mut self, gathering: Gathering, reader: Reader) -> io::Result<Gathering>
        requires nothing_is_offered_yet { gathered gathering ≡ nothing_offered }
        ensures gives_back_an_empty_gathering { IfOk result (λ g. gathered g ≡ nothing_offered) }
    {
        let (record, stop) = survey_reset(gathering, reader);
        self.print_record(&record)?;
        if let Some(stop) = stop {
            self.print_trace_stop(stop)?;
        }
        Ok(record.reset())
    }
}

// Prints each reset of the trace, numbered from 1. What comes before the first is passed over, and so is what a stop leaves unread.
#[tactic(auto, using(crate::proofs::Resets::few_lines, crate::proofs::Resets::fewer_left))]
pub(crate) fn print_trace<W: Write>(output: &mut W, trace: &[u8]) -> io::Result<()> {
    let mut reader = Reader::new(trace);
    let mut gathering = Gathering::new();
    let mut reset = 0;
    // How many resets there are shows only as the reader passes them, so they are counted.
    while reader.pass_to_reset() {
        reset += 1;
        gathering = ResetPrint { output, reset }.print_reset(gathering, reader)?;
    }
    Ok(())
}
