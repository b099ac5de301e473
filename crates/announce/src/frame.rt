//! Where the walk that writes an announcement stands in a row.

// A row whose node is not written yet, and the port from which on its children are not yet written either.
#[derive(Clone, Copy, Debug, PartialEq, Eq)]
pub struct Frame {
    pub row: u8,
    pub port: u8,
}
