//! A tree that has heard nothing.

ghost use Rattle.survey.specs.Tallies.{Fresh};

use crate::row::Row;
use crate::tree::Tree;
use arrayvec::ArrayVec;

impl Tree {
    pub(crate) fn new() -> Tree
        ensures has_heard_nothing { Fresh result }
    {
        Tree {
            rows: ArrayVec::new(),
            ends: ArrayVec::new(),
            rooted: false,
            turn: 0,
            fields: Row::default().fields,
            marks: ArrayVec::new(),
        }
    }
}
