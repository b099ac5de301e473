//! The calls of a trace source.

ghost use Rattle.std.specs.Prelude.{◌≡◌};
ghost use Rattle.trace.specs.Recorded.{FindsWords, ending_ahead, recorded_ending, recorded_words, waiting_ahead};

use super::TraceSource;
use crate::lines::cut_word;
use crate::reader::Reader;
use crate::token::Token;
use source::{Source, SourceStop};

// Passes over notes and the words line behind them, and gives that line. At a reset, a bad line or the end it stays, and tells how the source ends.
fn find_words<'a>(reader: &mut Reader<'a>) -> Result<Option<&'a [u8]>, SourceStop>
    ensures gives_the_first_that_waits_or_the_ending { FindsWords reader.old result reader.new }
    ensures keeps_the_ending { ending_ahead reader.new ≡ ending_ahead reader.old }
{
    // A second reader looks ahead, so that the first stays in front of what ends the source. (No find: it would pass over that line.)
    let mut ahead = *reader;
    while let Some(line) = ahead.next() {
        match line? {
            Token::Note { .. } => *reader = ahead,
            Token::Words { line, .. } => {
                *reader = ahead;
                return Ok(Some(line));
            }
            Token::Reset { .. } => return Ok(None),
        }
    }
    Ok(None)
}

impl<'a> TraceSource<'a> {
    // The source of the words from where the reader stands up to the next `reset`, the end or the first bad line.
    // The reader that is passed in is copied, and so stays where it is.
    pub fn open(reader: Reader<'a>) -> TraceSource<'a>
        ensures holds_the_words { recorded_words result ≡ waiting_ahead reader.entry }
        ensures ends_as_the_lines_do { recorded_ending result ≡ ending_ahead reader.entry }
    {
        TraceSource { line: &[], reader }
    }
}

impl<'a> Source for TraceSource<'a> {
    ghost waiting = { recorded_words };

    ghost ending = { recorded_ending };

    fn draw(&mut self) -> Result<Option<u32>, SourceStop> {
        if self.line.is_empty() {
            let Some(line) = find_words(&mut self.reader)? else {
                return Ok(None);
            };
            self.line = line;
        }
        let (word, rest) = cut_word(self.line);
        self.line = rest;
        Ok(Some(word))
    }
}
