//! What is seen of some quadlets.

ghost use Rattle.std.specs.Prelude.{◌≡◌};
ghost use Rattle.surveyexamples.specs.Stops.{seen_cause, seen_stop};

use std::fmt;
use stops::{Cause, QuadletStop};

// A stop, by its number and its place. (Not the stop of a source, though of its shape: that one ends a source.)
#[derive(Clone, Copy, Debug, PartialEq, Eq)]
pub struct Stop {
    pub number: u8,
    pub place: usize,
}

// A bus of so many nodes, or a stop.
pub type Seen = Result<usize, Stop>;

// (One `From` for each of the two: what they share is a number and a place, and a trait that says so would have no other use here.)
impl From<QuadletStop> for Stop {
    ghost from_gives = { λ turned_away seen. seen ≡ seen_stop turned_away };

    fn from(stop: QuadletStop) -> Stop {
        Stop {
            number: stop.number(),
            place: stop.place(),
        }
    }
}

impl From<Cause> for Stop {
    ghost from_gives = { λ cause seen. seen ≡ seen_cause cause };

    fn from(cause: Cause) -> Stop {
        Stop {
            number: cause.number(),
            place: cause.place(),
        }
    }
}

impl fmt::Display for Stop {
    ghost use Rattle.std.specs.Prelude.{◌++◌, codes, decimal, Some};

    ghost output = { λ stop. Some (codes "stop " ++ decimal stop.number ++ codes " at " ++ decimal stop.place) };

    fn fmt<W: fmt::Write>(&self, f: &mut fmt::Formatter<W>) -> fmt::Result {
        write!(f, "stop {} at {}", self.number, self.place)
    }
}
