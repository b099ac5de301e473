//! The row of words into which a controller receives: the first is its own header, the others are the quadlets.

ghost use Rattle.std.specs.Prelude.{◌≡◌, ◌<◌, length, drop, IfOk, MatchResult};
ghost use Rattle.source.specs.Received.{not_drawn_yet, end_of_the_row, no_header_number};

use crate::{Source, SourceStop};

// The words of a receive buffer that were not drawn yet.
#[derive(Drop)]
pub struct ReceiveBuffer<'a> {
    words: &'a [u32],
}

// The row of words is empty, so that it has no header.
#[derive(Clone, Copy, Debug, PartialEq, Eq)]
pub struct NoHeader;

impl NoHeader {
    // The number of the stop. (One struct with one number: there is no enum for it to stand in.)
    pub fn number(self) -> u8
        ensures is_its_number { result ≡ no_header_number }
    {
        22
    }
}

impl<'a> ReceiveBuffer<'a> {
    // The source of the words behind the header, whatever the header says. A row without a header is refused.
    pub fn open(words: &'a [u32]) -> Result<ReceiveBuffer<'a>, NoHeader>
        ensures refuses_only_an_empty_row { MatchResult result (λ _. 0 < length words.now) (λ _. length words.now ≡ 0) }
        ensures holds_what_is_behind_the_header { IfOk result (λ b. not_drawn_yet b ≡ drop 1 words.now) }
    {
        let behind = words.get(1..).ok_or(NoHeader)?;
        Ok(ReceiveBuffer { words: behind })
    }
}

impl<'a> Source for ReceiveBuffer<'a> {
    ghost waiting = { not_drawn_yet };

    ghost ending = { end_of_the_row };

    fn draw(&mut self) -> Result<Option<u32>, SourceStop> {
        Ok(self.words.split_off_first().copied())
    }
}
