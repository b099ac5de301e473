//! Why no line is written.

ghost use Rattle.std.specs.Prelude.{◌≡◌};
ghost use Rattle.print.specs.Stops.{stop_number};

// The print has no line with this number; or the buffer is shorter than the line.
#[derive(Clone, Copy, Debug, PartialEq, Eq)]
pub enum LineStop {
    NoSuchLine = 12,
    TooShort = 13,
}

impl LineStop {
    // The number of the stop. (Written for each kind of stop: no generic function turns an enum into its number.)
    pub fn number(self) -> u8
        ensures is_its_number { result ≡ stop_number self }
    {
        self as u8
    }
}
