//! The line that tells of a node.

ghost use Rattle.std.specs.Prelude.{◌≡◌, map};
ghost use Rattle.print.specs.Lines.{flag_letter, flags_text, mark_letter, speed_text, node_line};
ghost use Rattle.print.specs.Written.{written};

use crate::line::Line;
use selfid::mark::Mark;
use selfid::node::{Fields, PORT_LIMIT};
use selfid::speed::Speed;

// Speeds, flags and marks become bytes here, and have no `Display`, which would have to go through `write!`: see `Line`.
fn speed_text(speed: Speed) -> &'static [u8; 4]
    ensures is_its_text { result.now ≡ speed_text speed }
{
    match speed {
        Speed::S100 => b"S100",
        Speed::S200 => b"S200",
        Speed::S400 => b"S400",
    }
}

// The letter of a flag: its own if it is set, else a hyphen.
fn flag_letter(own: u8, set: bool) -> u8
    ensures is_its_letter { result ≡ flag_letter own set }
{
    if set { own } else { b'-' }
}

fn flags_text(fields: Fields) -> [u8; 3]
    ensures is_their_text { result ≡ flags_text fields }
{
    [
        flag_letter(b'L', fields.link),
        flag_letter(b'C', fields.contender),
        flag_letter(b'I', fields.initiator),
    ]
}

fn mark_letter(mark: Mark) -> u8
    ensures is_its_letter { result ≡ mark_letter mark }
{
    match mark {
        Mark::Absent => b'.',
        Mark::Open => b'o',
        Mark::Up => b'u',
        Mark::Down => b'd',
    }
}

// A letter for each mark. (A loop, and no `map` of the array, which moves the marks out one after another.)
fn marks_text(marks: &[Mark; PORT_LIMIT]) -> [u8; PORT_LIMIT]
    ensures are_their_letters { result ≡ map mark_letter marks.now }
{
    let mut letters = [b'.'; PORT_LIMIT];
    for (i, letter) in letters.iter_mut().enumerate() {
        *letter = mark_letter(marks[i]);
    }
    letters
}

pub(crate) fn node_line(number: usize, fields: Fields, marks: &[Mark; PORT_LIMIT]) -> Line
    ensures is_the_node_line { written result ≡ node_line number fields marks.now }
{
    let mut line = Line::new();
    line.push_labelled(b"node ", number);
    line.push_text(b" ");
    line.push_text(speed_text(fields.speed));
    line.push_labelled(b" gap ", usize::from(fields.gap));
    line.push_labelled(b" power ", usize::from(fields.power));
    line.push_text(b" ");
    line.push_text(&flags_text(fields));
    line.push_text(b" ");
    line.push_text(&marks_text(marks));
    line.push_text(b"\n");
    line
}
