//! How fast a node can send.

ghost use Rattle.std.specs.Prelude.{◌≡◌};
ghost use Rattle.selfid.specs.Codes.{Decodes};
ghost use Rattle.selfid.specs.Speeds.{speed_code, speed_of};

use crate::code::UnknownCode;

// 100, 200 or 400 Mbit/s. Each speed stands with its code.
#[derive(Clone, Copy, Debug, PartialEq, Eq)]
pub enum Speed {
    S100 = 0,
    S200 = 1,
    S400 = 2,
}

// The two bits that stand for the speed in a packet, and the number that stands for it in a description.
impl From<Speed> for u8 {
    ghost from_gives = { λ speed code. code ≡ speed_code speed };

    fn from(speed: Speed) -> u8 {
        speed as u8
    }
}

// The speed with this code, if there is one.
impl TryFrom<u8> for Speed {
    type Error = UnknownCode;

    ghost try_from_gives = { Decodes speed_of };

    fn try_from(code: u8) -> Result<Speed, UnknownCode> {
        match code {
            0 => Ok(Speed::S100),
            1 => Ok(Speed::S200),
            2 => Ok(Speed::S400),
            _ => Err(UnknownCode { code }),
        }
    }
}
