//! One line of text under construction, in a memory of fixed length.

ghost use Rattle.std.specs.Prelude.{◌≡◌, ◌+◌, ◌≤◌, [], ◌++◌, length, Ok, decimal};
ghost use Rattle.print.specs.Limits.{line_limit, digit_limit};
ghost use Rattle.print.specs.Print.{Placed};
ghost use Rattle.print.specs.Written.{written};

use crate::LINE_LIMIT;
use crate::stop::LineStop;
use arrayvec::ArrayVec;
use itoa::Buffer;

#[derive(Drop)]
pub(crate) struct Line {
    bytes: ArrayVec<u8, LINE_LIMIT>,
}

// A line is put together piece by piece. `write!` would be one call, but std says what it wrote only where it answers `Ok`, and
// nowhere that it does, so that a line could fail.
impl Line {
    pub(crate) fn new() -> Line
        ensures is_empty { written result ≡ [] }
        ensures has_length_0 { length (written result) ≡ 0 }
    {
        Line {
            bytes: ArrayVec::new(),
        }
    }

    // (Inlined, as the next one is: most texts are some few letters of known length, and so need no call.)
    #[inline(always)]
    pub(crate) fn push_text(&mut self, text: &[u8])
        requires there_is_room { length (written self.old) + length text.now ≤ line_limit }
        ensures adds_the_text { written self.new ≡ written self.old ++ text.now }
        ensures grows_by_its_length { length (written self.new) ≡ length (written self.old) + length text.now }
    {
        self.bytes.try_extend_from_slice(text).unwrap();
    }

    // Adds a text and then a number.
    #[inline(always)]
    pub(crate) fn push_labelled(&mut self, label: &[u8], number: usize)
        requires there_is_room { length (written self.old) + length label.now + digit_limit ≤ line_limit }
        ensures adds_the_label_and_the_digits { written self.new ≡ written self.old ++ label.now ++ decimal number }
        ensures grows_by_the_label_and_the_digits_at_most { length (written self.new) ≤ length (written self.old) + length label.now + digit_limit }
    {
        self.push_text(label);
        self.push_text(Buffer::new().format(number).as_bytes());
    }

    // Writes the line to the front of the buffer and answers its length, or leaves a buffer that is too short as it is.
    pub(crate) fn place(&self, buffer: &mut [u8]) -> Result<usize, LineStop>
        ensures places_the_line { Placed (Ok (written self.now)) buffer.old buffer.new result }
    {
        let bytes = self.bytes.as_slice();
        let len = bytes.len();
        if buffer.len() < len {
            return Err(LineStop::TooShort);
        }
        buffer[..len].copy_from_slice(bytes);
        Ok(len)
    }
}
