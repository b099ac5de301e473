//! Descriptions that are refused: the bench of three with one thing spoiled.

use crate::bench::three_cameras;
use announce::described::Row;

// The bench of three, spoiled so.
pub(crate) fn spoiled<F: FnOnce(&mut [Row; 3])>(spoil: F) -> [Row; 3]
    requires can_be_spoiled { F.IsAlwaysCallable spoil }
{
    let mut rows = three_cameras();
    spoil(&mut rows);
    rows
}

// Row 1 has a gap count out of range.
pub(crate) fn with_gap_count_of_64() -> [Row; 3] {
    spoiled(|rows| rows[1].gap = 64)
}

// Row 1 leads back to row 0.
pub(crate) fn with_ring() -> [Row; 3] {
    spoiled(|rows| {
        rows[1].ports[15].mark = 3;
        rows[1].ports[15].child = 0;
    })
}
