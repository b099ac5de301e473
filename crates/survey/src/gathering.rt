//! A gathering: the quadlets taken since the last reset, and the tree that they tell.

ghost use Rattle.judging.specs.Beginnings.{Begins};
ghost use Rattle.judging.specs.Standing.{packets_taken};
ghost use Rattle.survey.specs.Tallies.{Tally};

use crate::tree::Tree;
use arrayvec::ArrayVec;
use selfid::packet::QUADLET_LIMIT;
use stops::Spoil;

mod beginning;
mod filling;
pub(crate) mod offering;
mod settling;

// The quadlets taken begin some cabling's announcement, and the tree tallies with them, whether a later one spoiled the gathering or not.
#[derive(Drop)]
pub struct Gathering {
    pub(crate) quadlets: ArrayVec<u32, QUADLET_LIMIT>,
    pub(crate) tree: Tree,
    pub(crate) spoil: Option<Spoil>,
    ghost begins: { Begins quadlets.items },
    ghost tallies: { Tally (packets_taken quadlets.items) tree },
}
