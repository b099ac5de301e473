//! The lines of a settled record.

ghost use Rattle.std.specs.Prelude.{◌≡◌};
ghost use Rattle.survey.specs.Views.{shown};
ghost use Rattle.print.specs.Print.{first_line, node_lines, print_lines, line_at};
ghost use Rattle.print.specs.Written.{written, written_if};

use crate::line::Line;
use crate::lines::{reset_line, void_line};
use crate::node::node_line;
use crate::stop::LineStop;
use survey::record::Record;

// The first line: how many nodes the bus has, or why the record is void.
fn first_line(record: &Record, reset: usize) -> Line
    ensures is_the_first_line { written result ≡ first_line reset (shown «record».now) }
{
    match record.void_cause() {
        Some(cause) => void_line(reset, cause),
        None => reset_line(reset, record.node_count()),
    }
}

// The line of a node, if there is such a node.
#[tactic(auto, using(crate::proofs::Printing::line_of_row))]
fn line_of_node(record: &Record, number: usize) -> Result<Line, LineStop>
    ensures is_its_line { written_if result ≡ line_at (node_lines (shown «record».now)) number }
{
    let fields = record.node(number).or(Err(LineStop::NoSuchLine))?;
    let marks = record.marks(number).or(Err(LineStop::NoSuchLine))?;
    Ok(node_line(number, fields, &marks))
}

// The line with this number, counted from 0, if there is one. (A struct for the record and the number of its reset would spare
// two parameters here, and make each clause name both through it.)
pub(crate) fn print_line(record: &Record, reset: usize, number: usize) -> Result<Line, LineStop>
    ensures is_that_line { written_if result ≡ line_at (print_lines reset (shown «record».now)) number }
{
    match number.checked_sub(1) {
        None => Ok(first_line(record, reset)),
        Some(node) => line_of_node(record, node),
    }
}
