//! The reader of a trace.

ghost use Rattle.std.specs.Prelude.{◌+◌, ◌^◌, ◌<◌, length};

pub mod reading;

// The bytes of a trace that are not read yet, and how many lines were read before them.
#[derive(Clone, Copy, Debug, PartialEq, Eq)]
pub struct Reader<'a> {
    rest: &'a [u8],
    lines_read: usize,
    ghost lines_can_be_counted: { lines_read + length rest.now < 2 ^ 64 },
}
