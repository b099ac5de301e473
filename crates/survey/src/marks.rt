//! The marks of a node: how many of a kind, the lowest up mark, and those of all ports.

ghost use Rattle.std.specs.Prelude.{◌≡◌, ◌≤◌, ◌++◌, length, take, replicate};
ghost use Rattle.selfid.specs.declared.mark.Mark.TheVariants.{Absent};
ghost use Rattle.selfid.specs.Nodes.{port_limit};
ghost use Rattle.survey.specs.Marks.{times_marked};
ghost use Rattle.survey.specs.Joining.{up_place};

use selfid::mark::Mark;
use selfid::node::PORT_LIMIT;

// How many of the marks are this one.
pub(crate) fn count(marks: &[Mark], mark: Mark) -> usize
    ensures is_how_often_it_comes { result ≡ times_marked mark marks.now }
    ensures at_most_all { result ≤ length marks.now }
{
    marks.iter().filter(|other| **other == mark).count()
}

// The lowest port with an up mark, or the count of marks if there is none.
pub(crate) fn lowest_up(marks: &[Mark]) -> usize
    ensures is_its_place { result ≡ up_place 0 marks.now }
{
    marks
        .iter()
        .position(|mark| *mark == Mark::Up)
        .unwrap_or(marks.len())
}

// The marks of all ports of a node that has told these: those that it does not tell are absent. (What it tells behind the last port is reserved bits. It pads what was told; announcing cuts from the marks of all ports.)
pub(crate) fn on_all_ports(told: &[Mark]) -> [Mark; PORT_LIMIT]
    ensures are_those_told { result ≡ take port_limit (told.now ++ replicate port_limit Absent) }
{
    let mut marks = [Mark::Absent; PORT_LIMIT];
    let known = told.len().min(PORT_LIMIT);
    marks[..known].copy_from_slice(&told[..known]);
    marks
}
