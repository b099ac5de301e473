//! The source of the quadlets that a trace records behind a reset.

ghost use Rattle.std.specs.Prelude.{◌≡◌, true};
ghost use Rattle.trace.specs.Lines.{are_words_left};

use crate::reader::Reader;

pub mod drawing;

// What is not drawn yet of a words line, and the reader of the lines behind it.
#[derive(Drop)]
pub struct TraceSource<'a> {
    line: &'a [u8],
    reader: Reader<'a>,
    ghost has_whole_words: { are_words_left line.now ≡ true },
}
