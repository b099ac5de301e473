//! The tree under way: the finished nodes with their far ends, the loose ends, and what the node under way has told.

use crate::row::{End, Row};
use arrayvec::ArrayVec;
use selfid::mark::Mark;
use selfid::node::{Fields, NODE_LIMIT};
use selfid::packet::{EXTENSION_LIMIT, EXTENSION_PORTS, ZERO_PORTS};

mod beginning;
pub(crate) mod hearing;
pub(crate) mod verdict;

// A node's packets have so many marks in all. (Those behind its last port are reserved bits and read as absent.)
pub(crate) const TOLD_LIMIT: usize = ZERO_PORTS + EXTENSION_PORTS * EXTENSION_LIMIT;

// The rows of the finished nodes, and the loose ends, the oldest first. A node under way has told `turn` packets, with these fields and marks.
// (Before its packet zero there is no node under way, and nobody reads the fields: an Option would have to be unwrapped where a node ends.)
#[derive(Drop)]
pub struct Tree {
    pub(crate) rows: ArrayVec<Row, NODE_LIMIT>,
    pub(crate) ends: ArrayVec<End, NODE_LIMIT>,
    pub(crate) rooted: bool,
    pub(crate) turn: u8,
    pub(crate) fields: Fields,
    pub(crate) marks: ArrayVec<Mark, TOLD_LIMIT>,
}
