//! Walks over the rows of a description.

ghost use Rattle.std.specs.Prelude.{◌≤◌, length};
ghost use Rattle.announce.specs.Reach.{WellFormed};

use crate::described::Row;

// Rows that are in range, and a stack row with an element for each of them.
#[derive(Drop)]
pub(crate) struct Walk<'a, T> {
    pub(crate) rows: &'a [Row],
    pub(crate) stack: &'a mut [T],
    ghost well_formed: { WellFormed rows.now },
    ghost has_room: { length rows.now ≤ length stack.now },
}
