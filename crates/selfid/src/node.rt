//! What a node tells of itself: its fields, and the marks of its ports.

ghost use Rattle.std.specs.Prelude.{◌<◌};

use crate::mark::Mark;
use crate::speed::Speed;

// Every node has this many ports, some of them absent.
pub const PORT_LIMIT: usize = 16;

// A bus has at most this many nodes.
pub const NODE_LIMIT: usize = 63;

// A node's fields: whether its link layer is active, whether it contends for isochronous resource manager, whether it initiated the bus reset,
// its gap count, its speed and its power class. The two numbers are always in range.
#[derive(Clone, Copy, Debug, PartialEq, Eq)]
pub struct Fields {
    pub link: bool,
    pub contender: bool,
    pub initiator: bool,
    pub gap: u8,
    pub speed: Speed,
    pub power: u8,
    ghost gap_in_range: { gap < 64 },
    ghost power_in_range: { power < 8 },
}

// What a node tells: its fields and the marks of its ports.
#[derive(Clone, Copy, Debug, PartialEq, Eq)]
pub struct Node {
    pub fields: Fields,
    pub marks: [Mark; PORT_LIMIT],
}
