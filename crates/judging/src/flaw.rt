//! What can be wrong with a quadlet.

ghost use Rattle.std.specs.Prelude.{◌≡◌};
ghost use Rattle.judging.specs.Stops.{flaw_number, flaw_of_packet};

use selfid::packet::PacketFlaw;

// Why a quadlet is turned away, in the order of the tests. Each flaw stands with its number.
#[derive(Clone, Copy, Debug, PartialEq, Eq)]
pub enum Flaw {
    AlreadyWhole = 1,
    NotInverse = 2,
    NotSelfId = 3,
    ReservedBit = 4,
    WrongNumber = 5,
    OutOfTurn = 6,
    EmptyExtension = 7,
    SecondUp = 8,
    TooManyDown = 9,
    LooseEndLeft = 10,
    NoCabling = 11,
}

impl Flaw {
    // The number of the stop. (Written for each kind of stop: no generic function turns an enum into its number.)
    pub fn number(self) -> u8
        ensures is_its_number { result ≡ flaw_number self }
    {
        self as u8
    }
}

// A word that is no packet is a flawed quadlet.
impl From<PacketFlaw> for Flaw {
    ghost from_gives = { λ word quadlet. quadlet ≡ flaw_of_packet word };

    fn from(flaw: PacketFlaw) -> Flaw {
        match flaw {
            PacketFlaw::NotSelfId => Flaw::NotSelfId,
            PacketFlaw::ReservedBit => Flaw::ReservedBit,
        }
    }
}
