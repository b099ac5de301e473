//! A row of words that is written from its front on.

ghost use Rattle.std.specs.Prelude.{◌+◌, ◌≤◌, [], ◌∷◌, length};
ghost use Rattle.selfid.specs.Packets.{with_inverses};
ghost use Rattle.announce.specs.Writing.{Writes};

use selfid::codec::inverse;

// The next word is written at place `at`. (A row with a place beside it, since the row is the caller's. It is no stack: what lies behind the place is kept.)
#[derive(Drop)]
pub(crate) struct Writer<'a> {
    pub(crate) words: &'a mut [u32],
    pub(crate) at: usize,
}

impl Writer<'_> {
    // Writes a packet and its inverse.
    pub(crate) fn write(&mut self, packet: u32)
        requires there_is_room { self.old.at + 2 ≤ length self.old.words.now }
        ensures writes_both { Writes self.old self.new (with_inverses (packet ∷ [])) }
    {
        self.words[self.at] = packet;
        self.words[self.at + 1] = inverse(packet);
        self.at += 2;
    }
}
