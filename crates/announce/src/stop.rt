//! Why a description is refused.

ghost use Rattle.std.specs.Prelude.{◌≡◌};
ghost use Rattle.announce.specs.Stops.{stop_number};

// There is no row or there are too many; a stack row or the row of words is too short; a field, a mark code or a child's row is out of range;
// or the rows are no tree: one is reached twice or never, or the up marks are wrong.
#[derive(Clone, Copy, Debug, PartialEq, Eq)]
pub enum DescriptionStop {
    RowCount = 14,
    TooShort = 13,
    OutOfRange = 15,
    NoTree = 16,
}

impl DescriptionStop {
    // The number of the stop. (Written for each kind of stop: no generic function turns an enum into its number.)
    pub fn number(self) -> u8
        ensures is_its_number { result ≡ stop_number self }
    {
        self as u8
    }
}
