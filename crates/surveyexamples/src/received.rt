//! An announcement in a receive buffer, what its record tells of each node, and questions and buffers that are refused.

use crate::printing::print_seen;
use crate::seeing::seen_in;
use selfid::mark::Mark;
use selfid::node::{Fields, PORT_LIMIT};
use source::receive::ReceiveBuffer;
use std::io;
use stops::QuestionStop;
use survey::gathering::Gathering;
use survey::record::Record;
use survey::row::{End, Port};

// A header, then two cameras and the root above them.
const THREE_NODES: [u32; 7] = [
    0x0001_0006,
    0x807F_4480,
    0x7F80_BB7F,
    0x817F_8460,
    0x7E80_7B9F,
    0x827F_88DE,
    0x7D80_7721,
];

// (A word of this program's, where Display has `true` and `false`.)
fn yes_or_no(flag: bool) -> &'static str {
    if flag { "yes" } else { "no" }
}

// (A function, and no Display of a mark: the print has letters for the same marks, and neither text is the mark's own.)
fn mark_name(mark: Mark) -> &'static str {
    match mark {
        Mark::Absent => "absent",
        Mark::Open => "open",
        Mark::Up => "up",
        Mark::Down => "down",
    }
}

fn print_fields(rt: &HostRuntime, number: usize, fields: Fields) -> io::Result<()> {
    println!(rt;
        "node {number}: link {}, contender {}, initiator {}, gap {}, speed {}, power {}",
        yes_or_no(fields.link),
        yes_or_no(fields.contender),
        yes_or_no(fields.initiator),
        fields.gap,
        u8::from(fields.speed),
        fields.power
    )
}

// A port, unless it is absent.
fn print_port(rt: &HostRuntime, number: usize, port: Port) -> io::Result<()> {
    if port.mark == Mark::Absent {
        return Ok(());
    }
    let mark = mark_name(port.mark);
    match port.far {
        Some(End { node, port }) => {
            println!(rt; "port {number} is {mark} to node {node} port {port}")
        }
        None => println!(rt; "port {number} is {mark}"),
    }
}

fn print_question_stop(rt: &HostRuntime, stop: QuestionStop) -> io::Result<()> {
    println!(rt; "{}", stop.number())
}

// A node of a record that is asked for by its number.
#[derive(Clone, Copy)]
struct NodeAsked<'a> {
    record: &'a Record,
    number: usize,
}

impl NodeAsked<'_> {
    // Prints its fields, or the number of the refusal.
    fn print(&self, rt: &HostRuntime) -> io::Result<()> {
        match self.record.node(self.number) {
            Ok(fields) => print_fields(rt, self.number, fields),
            Err(stop) => print_question_stop(rt, stop),
        }
    }

    // Prints one of its ports, or the number of the refusal.
    fn print_port(&self, rt: &HostRuntime, port: usize) -> io::Result<()> {
        match self.record.port(self.number, port) {
            Ok(found) => print_port(rt, port, found),
            Err(stop) => print_question_stop(rt, stop),
        }
    }

    // Asks for each port by its number.
    fn print_ports(&self, rt: &HostRuntime) -> io::Result<()> {
        for port in 0..PORT_LIMIT {
            self.print_port(rt, port)?;
        }
        Ok(())
    }
}

// Asks for each node by its number.
fn print_nodes(rt: &HostRuntime, record: &Record) -> io::Result<()> {
    for number in 0..record.node_count() {
        let node = NodeAsked { record, number };
        node.print(rt)?;
        node.print_ports(rt)?;
    }
    Ok(())
}

// Fills the gathering from the buffer, and answers its record.
fn print_filled(rt: &HostRuntime, mut gathering: Gathering, words: &[u32]) -> io::Result<Record> {
    match ReceiveBuffer::open(words) {
        Ok(mut buffer) => match gathering.fill(&mut buffer) {
            Ok(taken) => print!(rt; "{taken} quadlets taken: ")?,
            Err(stop) => print!(rt; "stopped with {} at {}: ", stop.number(), stop.place())?,
        },
        Err(stop) => println!(rt; "{}", stop.number())?,
    }
    Ok(gathering.settle())
}

// Questions that have no answer: of the record of a bus, and of a void one.
fn print_refusals(rt: &HostRuntime, bus: &Record, void: &Record) -> io::Result<()> {
    let absent = NodeAsked {
        record: bus,
        number: 3,
    };
    let first = NodeAsked {
        record: bus,
        number: 0,
    };
    let of_void = NodeAsked {
        record: void,
        number: 0,
    };
    print!(rt; "node 3: ")?;
    absent.print(rt)?;
    print!(rt; "port 16 of node 0: ")?;
    first.print_port(rt, 16)?;
    print!(rt; "port 0 of node 3: ")?;
    absent.print_port(rt, 0)?;
    print!(rt; "node 0 of a void record: ")?;
    of_void.print(rt)?;
    print!(rt; "port 0 of node 0 of a void record: ")?;
    of_void.print_port(rt, 0)?;
    println!(rt; "nodes of a void record: {}", void.node_count())
}

pub(crate) fn print_received(rt: &HostRuntime) -> io::Result<()> {
    println!(rt; "# a receive buffer")?;
    let bus = print_filled(rt, Gathering::new(), &THREE_NODES)?;
    print_seen(rt, seen_in(&bus))?;
    print_nodes(rt, &bus)?;
    println!(rt; "# refusals")?;
    print!(rt; "an empty receive buffer: ")?;
    let void = print_filled(rt, Gathering::new(), &[])?;
    print_refusals(rt, &bus, &void)
}
