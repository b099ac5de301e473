//! A record: what a gathering has settled to.

ghost use Rattle.std.proofs.Props.{props};
ghost use Rattle.std.specs.Prelude.{IfOk};
ghost use Rattle.survey.specs.Nodes.{SomeCabling};

use crate::row::Row;
use arrayvec::ArrayVec;
use selfid::node::NODE_LIMIT;
use stops::Cause;

mod questions;

// The rows of the bus, or why it is none. The rows are the nodes of some cabling, whoever settled the record.
#[derive(Drop)]
pub struct Record {
    pub(crate) bus: Result<ArrayVec<Row, NODE_LIMIT>, Cause>,
    ghost shows_some_cabling: { IfOk bus (λ rows. SomeCabling rows.items) } by { Prim.hlevel props },
}
