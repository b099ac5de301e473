//! A description of a cabling: a row for each node, row 0 the root. Its numbers come from outside and can be out of range, so marks and speeds stand in it as codes.

ghost use Rattle.std.specs.Prelude.{◌≡◌, ◌==◌};
ghost use Rattle.selfid.specs.Marks.{mark_code};

use selfid::mark::Mark;
use selfid::node::PORT_LIMIT;

// A port: the code of its mark, and for a down port the row of the child. Elsewhere the child is unread.
// A child is named by its row's number, since with no heap nothing could own it.
#[derive(Clone, Copy, Debug, PartialEq, Eq)]
pub struct RowPort {
    pub mark: u8,
    pub child: u8,
}

impl RowPort {
    // Has the port the code of this mark?
    pub(crate) fn has(&self, mark: Mark) -> bool
        ensures tells_if_it_has { result ≡ (self.now.mark == mark_code mark) }
    {
        self.mark == u8::from(mark)
    }
}

// A node: its fields, speed as its code, and its ports.
#[derive(Clone, Copy, Debug, PartialEq, Eq)]
pub struct Row {
    pub link: bool,
    pub contender: bool,
    pub initiator: bool,
    pub gap: u8,
    pub speed: u8,
    pub power: u8,
    pub ports: [RowPort; PORT_LIMIT],
}
