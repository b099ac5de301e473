//! A gathering is settled and reset.

ghost use Rattle.std.specs.Prelude.{◌≡◌};
ghost use Rattle.survey.specs.Views.{gathered, nothing_offered, shown, shown_of};
ghost use Rattle.survey.specs.Settling.{SettleCall};

use crate::gathering::Gathering;
use crate::record::Record;
use crate::row::Row;
use arrayvec::ArrayVec;
use selfid::node::NODE_LIMIT;
use stops::Cause;

impl Gathering {
    // Everything taken is forgotten, and so is what spoiled the gathering. (The record's reset promises the same: each is a call of its own type.)
    pub fn reset(self) -> Gathering
        ensures nothing_is_offered { gathered result ≡ nothing_offered }
    {
        Gathering::new()
    }

    // The rows of the bus if the announcement is whole and nothing spoiled it, or why it is no bus.
    fn bus(self) -> Result<ArrayVec<Row, NODE_LIMIT>, Cause>
        ensures is_what_it_settles_to { SettleCall (gathered self) (shown_of result) }
    {
        if let Some(spoil) = self.spoil {
            return Err(Cause::SpoiledBy(spoil));
        }
        if !self.is_whole() {
            return Err(Cause::NotWhole(self.quadlets.len()));
        }
        Ok(self.tree.rows)
    }

    // The record of what was taken.
    pub fn settle(self) -> Record
        ensures is_its_record { SettleCall (gathered self) (shown result) }
    {
        Record { bus: self.bus() }
    }
}
