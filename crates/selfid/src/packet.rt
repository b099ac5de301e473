//! A self-ID packet, taken apart.

ghost use Rattle.std.specs.Prelude.{◌≡◌, ◌<◌};
ghost use Rattle.selfid.specs.Stops.{flaw_number};

use crate::mark::Mark;
use crate::node::{Fields, NODE_LIMIT, PORT_LIMIT};

// Packet zero has the marks of so many ports, and each extension those of so many more.
pub const ZERO_PORTS: usize = 3;

pub const EXTENSION_PORTS: usize = 8;

// So many extensions have room for the ports that packet zero leaves.
pub const EXTENSION_LIMIT: usize = (PORT_LIMIT - ZERO_PORTS + EXTENSION_PORTS - 1)
    / EXTENSION_PORTS;

// An announcement has at most so many quadlets: of each node all packets, each with its inverse.
pub const QUADLET_LIMIT: usize = 2 * (1 + EXTENSION_LIMIT) * NODE_LIMIT;

// The first packet of a node: its number, its fields and the marks of ports 0 to 2.
#[derive(Clone, Copy, Debug, PartialEq, Eq)]
pub struct PacketZero {
    pub number: u8,
    pub fields: Fields,
    pub marks: [Mark; ZERO_PORTS],
    pub more: bool,
    ghost number_in_range: { number < 64 },
}

// A later packet of a node: extension number `turn`, with the marks of the eight ports from 8 × turn + 3 on.
// Any number that three bits hold can be told apart here; a node sends none but the first of them.
#[derive(Clone, Copy, Debug, PartialEq, Eq)]
pub struct Extension {
    pub number: u8,
    pub turn: u8,
    pub marks: [Mark; EXTENSION_PORTS],
    pub more: bool,
    ghost number_in_range: { number < 64 },
    ghost turn_in_range: { turn < 8 },
}

#[derive(Clone, Copy, Debug, PartialEq, Eq)]
pub enum Packet {
    Zero(PacketZero),
    Extension(Extension),
}

// Why a word is no packet: its top bits are not those of a self-ID packet; or a reserved bit is set, or packet zero has the speed code 3.
// Each flaw stands with its number.
#[derive(Clone, Copy, Debug, PartialEq, Eq)]
pub enum PacketFlaw {
    NotSelfId = 3,
    ReservedBit = 4,
}

impl PacketFlaw {
    // The number of the stop. (Written for each kind of stop: no generic function turns an enum into its number.)
    pub fn number(self) -> u8
        ensures is_its_number { result ≡ flaw_number self }
    {
        self as u8
    }
}
