//! The calls of a reader.

ghost use Rattle.std.specs.Prelude.{◌≡◌, ◌+◌, length};
ghost use Rattle.std.specs.Iterator.{item_count};
ghost use Rattle.trace.specs.Lines.{kind_of, lines_of};
ghost use Rattle.trace.specs.Reading.{ReadsOne, behind_reset, has_reset, line_told, lines_before, lines_left, told_of};

use super::Reader;
use crate::lines::{cut_line, is_note, is_reset, is_words};
use crate::token::{Token, TraceStop};

const LONGEST_LINE: usize = 255;

// What the line of this number tells, or why it cannot be read. (Inlined, as `cut_line` says.)
#[inline(always)]
fn read_line(line: &[u8], place: usize) -> Result<Token<'_>, TraceStop>
    ensures tells_its_kind { line_told result ≡ told_of (kind_of line.now) line.now place }
{
    if line.len() > LONGEST_LINE {
        return Err(TraceStop::LongLine(place));
    }
    if is_note(line) {
        return Ok(Token::Note { line, place });
    }
    if is_reset(line) {
        return Ok(Token::Reset { line, place });
    }
    if is_words(line) {
        return Ok(Token::Words { line, place });
    }
    Err(TraceStop::Malformed(place))
}

impl<'a> Reader<'a> {
    // A reader of the whole trace.
    pub fn new(trace: &'a [u8]) -> Reader<'a>
        ensures has_all_lines_left { lines_left result ≡ lines_of trace.now }
        ensures has_read_none { lines_before result ≡ 0 }
    {
        Reader {
            rest: trace,
            lines_read: 0,
        }
    }

    // Passes over all lines up to the next `reset`, bad ones too, and over that line; false if there was none.
    pub fn pass_to_reset(&mut self) -> bool
        ensures tells_if_there_was_one { result ≡ has_reset (lines_left self.old) }
        ensures leaves_the_lines_behind_it { lines_left self.new ≡ behind_reset (lines_left self.old) }
        ensures counts_the_lines_passed { lines_before self.new + length (lines_left self.new) ≡ lines_before self.old + length (lines_left self.old) }
    {
        self.any(|line| matches!(line, Ok(Token::Reset { .. })))
    }
}

impl<'a> Iterator for Reader<'a> {
    type Item = Result<Token<'a>, TraceStop>;

    ghost next_gives = { ReadsOne };

    ghost remaining = { item_count lines_left };

    // What the next line tells, and passes over it, also if it cannot be read. (Inlined, as `cut_line` says.)
    #[inline(always)]
    fn next(&mut self) -> Option<Result<Token<'a>, TraceStop>> {
        if self.rest.is_empty() {
            return None;
        }
        let (line, behind) = cut_line(self.rest);
        self.rest = behind;
        self.lines_read += 1;
        Some(read_line(line, self.lines_read))
    }
}
