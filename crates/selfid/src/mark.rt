//! What a port is, as its node announces it.

ghost use Rattle.std.specs.Prelude.{◌≡◌};
ghost use Rattle.selfid.specs.Codes.{Decodes};
ghost use Rattle.selfid.specs.Marks.{mark_code, mark_of};

use crate::code::UnknownCode;

// A port is absent, open (there, with no cable), or has a cable up to the parent or down to a child.
// Each mark stands with its code.
#[derive(Clone, Copy, Debug, Default, PartialEq, Eq)]
pub enum Mark {
    #[default]
    Absent = 0,
    Open = 1,
    Up = 2,
    Down = 3,
}

// The two bits that stand for the mark in a packet, and the number that stands for it in a description.
impl From<Mark> for u8 {
    ghost from_gives = { λ mark code. code ≡ mark_code mark };

    fn from(mark: Mark) -> u8 {
        mark as u8
    }
}

// The mark with this code, if there is one.
impl TryFrom<u8> for Mark {
    type Error = UnknownCode;

    ghost try_from_gives = { Decodes mark_of };

    fn try_from(code: u8) -> Result<Mark, UnknownCode> {
        match code {
            0 => Ok(Mark::Absent),
            1 => Ok(Mark::Open),
            2 => Ok(Mark::Up),
            3 => Ok(Mark::Down),
            _ => Err(UnknownCode { code }),
        }
    }
}
