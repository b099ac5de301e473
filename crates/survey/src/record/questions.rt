//! What a record answers. No question changes it.

ghost use Rattle.std.specs.Prelude.{◌≡◌, ◌≤◌};
ghost use Rattle.selfid.specs.Cabling.{node_limit};
ghost use Rattle.survey.specs.Views.{gathered, nothing_offered, shown};
ghost use Rattle.survey.specs.Questions.{node_count, void_cause, found_at, row_asked, node_asked, marks_on, marks_asked, port_asked};

use crate::gathering::Gathering;
use crate::record::Record;
use crate::row::{Port, Row};
use selfid::mark::Mark;
use selfid::node::{Fields, PORT_LIMIT};
use stops::{Cause, QuestionStop};

// The one at this place, if there is one.
fn found<T: Copy>(items: &[T], place: usize) -> Result<T, QuestionStop>
    ensures is_the_one_there { result ≡ found_at items.now place }
{
    items.get(place).copied().ok_or(QuestionStop::NoneSuch)
}

// The marks of these ports.
fn marks_of(ports: [Port; PORT_LIMIT]) -> [Mark; PORT_LIMIT]
    ensures are_their_marks { result ≡ marks_on ports }
{
    ports.map(|port| port.mark)
}

impl Record {
    // Why the record is void, if it is.
    pub fn void_cause(&self) -> Option<Cause>
        ensures is_the_cause { result ≡ void_cause (shown self.now) }
    {
        self.bus.as_ref().err().copied()
    }

    // How many nodes the bus has: none if the record is void.
    #[tactic(auto, using(crate::proofs::Settling::few_nodes))]
    pub fn node_count(&self) -> usize
        ensures is_the_count { result ≡ node_count (shown self.now) }
        ensures fits_a_bus { result ≤ node_limit }
    {
        self.bus.as_ref().map_or(0, |rows| rows.len())
    }

    // A node, if the record is that of a bus and has such a node.
    fn row(&self, number: usize) -> Result<Row, QuestionStop>
        ensures is_that_node { result ≡ row_asked (shown self.now) number }
    {
        let rows = self.bus.as_ref().or(Err(QuestionStop::Void))?;
        found(rows, number)
    }

    // The fields of a node.
    pub fn node(&self, number: usize) -> Result<Fields, QuestionStop>
        ensures are_its_fields { result ≡ node_asked (shown self.now) number }
    {
        let row = self.row(number)?;
        Ok(row.fields)
    }

    // The marks of all ports of a node, by rising number.
    pub fn marks(&self, number: usize) -> Result<[Mark; PORT_LIMIT], QuestionStop>
        ensures are_its_marks { result ≡ marks_asked (shown self.now) number }
    {
        let row = self.row(number)?;
        Ok(marks_of(row.ports))
    }

    // A port of a node: its mark, and the node and port at its far end if it has one.
    pub fn port(&self, number: usize, port: usize) -> Result<Port, QuestionStop>
        ensures is_that_port { result ≡ port_asked (shown self.now) number port }
    {
        let row = self.row(number)?;
        found(&row.ports, port)
    }

    // A gathering with nothing offered. (The gathering's reset promises the same: each is a call of its own type.)
    pub fn reset(self) -> Gathering
        ensures nothing_is_offered { gathered result ≡ nothing_offered }
    {
        Gathering::new()
    }
}
