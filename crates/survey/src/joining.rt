//! A node joins the loose ends that it takes.

ghost use Rattle.std.specs.Prelude.{◌≡◌, ◌<◌, true, ◌∷◌, length};
ghost use Rattle.selfid.specs.Marks.{downs};
ghost use Rattle.selfid.specs.Nodes.{port_limit};
ghost use Rattle.survey.specs.Joining.{rows_led, rows_joined, ports_joined, ends_within};

use crate::row::{End, Port, Row};
use selfid::mark::Mark;
use selfid::node::PORT_LIMIT;

// The end `near` leads to the end `far`.
fn lead(rows: &mut [Row], near: End, far: End)
    requires there_is_such_a_node { near.node < length rows.old }
    requires there_is_such_a_port { near.port < port_limit }
    ensures leads_there { rows.new ≡ rows_led rows.old near.node near.port far }
{
    rows[usize::from(near.node)].ports[usize::from(near.port)].far = Some(far);
}

// The loose end that the next down port takes, and those that wait behind it: the oldest comes first.
fn next_child(waiting: &[End]) -> (End, &[End])
    requires there_is_one { 0 < length waiting.now }
    ensures is_the_oldest { waiting.now ≡ result.0 ∷ result.1.now }
{
    let (child, others) = waiting.split_first().unwrap();
    (*child, others)
}

// The node behind these rows, which has these marks, takes these loose ends, one for each of its down ports: the oldest on the lowest. Answers its ports then.
pub(crate) fn join(
    rows: &mut [Row],
    marks: &[Mark; PORT_LIMIT],
    taken: &[End],
) -> [Port; PORT_LIMIT]
    requires number_is_small { length rows.old < 64 }
    requires one_for_each_down_mark { length taken.now ≡ downs marks.now }
    requires ends_are_ports_of_nodes { ends_within (length rows.old) taken.now ≡ true }
    ensures children_lead_to_it { rows.new ≡ rows_joined (length rows.old) 0 marks.now taken.now rows.old }
    ensures it_leads_to_its_children { result ≡ ports_joined marks.now taken.now }
{
    let number = rows.len();
    let mut ports = [Port::default(); PORT_LIMIT];
    let mut waiting = taken;
    // (A loop, and no map: it also sets the far ends in the children's rows, and takes one end after the other.)
    for (port, mark) in marks.iter().enumerate() {
        let mut far = None;
        if *mark == Mark::Down {
            let (child, others) = next_child(waiting);
            // (Numbers of nodes and ports are small, and fit a byte.)
            let parent = End {
                node: number as u8,
                port: port as u8,
            };
            lead(rows, child, parent);
            far = Some(child);
            waiting = others;
        }
        ports[port] = Port { mark: *mark, far };
    }
    ports
}
