//! The packets of one node.

ghost use Rattle.std.specs.Prelude.{◌≡◌, ℕ, suc, ◌+◌, ◌*◌, ◌^◌, ◌<◌, ◌≤◌, [], ◌∷◌, length, drop, slice_index_or};
ghost use Rattle.selfid.specs.declared.mark.Mark.TheVariants.{Absent};
ghost use Rattle.selfid.specs.Marks.{present};
ghost use Rattle.selfid.specs.Nodes.{extension_limit, extensions};
ghost use Rattle.selfid.specs.Packets.{zero_word, extension_word};
ghost use Rattle.announce.specs.Writing.{Writes, node_quadlets};

use crate::writer::Writer;
use selfid::mark::Mark;
use selfid::node::{Node, PORT_LIMIT};
use selfid::packet::{EXTENSION_LIMIT, EXTENSION_PORTS, Extension, Packet, PacketZero, ZERO_PORTS};
use std::array;

// Is some port from this one on not absent?
fn present_from(marks: &[Mark; PORT_LIMIT], first: usize) -> bool
    ensures tells_if_one_is { result ≡ present (drop first marks.now) }
{
    marks.iter().skip(first).any(|mark| *mark != Mark::Absent)
}

// The mark of a port; behind the last port it is absent.
fn mark_at(marks: &[Mark; PORT_LIMIT], port: usize) -> Mark
    ensures is_the_mark { result ≡ slice_index_or marks.now port Absent }
{
    marks.get(port).copied().unwrap_or_default()
}

// The marks of so many ports, from this one on.
fn marks_from<const N: usize>(marks: &[Mark; PORT_LIMIT], first: usize) -> [Mark; N]
    requires numbers_fit { first + N < 2 ^ 64 }
    ensures are_the_marks { (i : ℕ) → i < N → slice_index_or result i Absent ≡ slice_index_or marks.now (first + i) Absent }
{
    array::from_fn(|i| mark_at(marks, first + i))
}

// How many extensions a node with these marks sends.
fn extension_count(marks: &[Mark; PORT_LIMIT]) -> usize
    ensures counts_them { result ≡ length (extensions extension_limit 0 0 (drop 3 marks.now)) }
{
    (0..EXTENSION_LIMIT)
        .take_while(|turn| present_from(marks, EXTENSION_PORTS * *turn + ZERO_PORTS))
        .count()
}

// How many packets a node with these marks sends, whatever its number.
pub(crate) fn count_packets(marks: &[Mark; PORT_LIMIT]) -> usize
    ensures at_most_three { result ≤ 3 }
    ensures counts_packet_zero_and_the_extensions { result ≡ suc (length (extensions extension_limit 0 0 (drop 3 marks.now))) }
{
    1 + extension_count(marks)
}

// A node with its number, which writes itself.
#[derive(Clone, Copy, Debug, PartialEq, Eq)]
pub(crate) struct Numbered {
    pub(crate) number: u8,
    pub(crate) node: Node,
    ghost number_fits: { number < 64 },
}

impl Numbered {
    // Its packet zero.
    fn zero(&self) -> u32
        ensures is_packet_zero { result ≡ zero_word self.now.number self.now.node.fields self.now.node.marks (present (drop 3 self.now.node.marks)) }
    {
        let marks = &self.node.marks;
        let packet = PacketZero {
            number: self.number,
            fields: self.node.fields,
            marks: marks_from(marks, 0),
            more: present_from(marks, ZERO_PORTS),
        };
        Packet::Zero(packet).encode()
    }

    // The extension with this number. (It is below 8, so that it fits a byte.)
    fn extension(&self, turn: usize) -> u32
        requires turn_fits { turn < 8 }
        ensures is_the_extension { result ≡ extension_word self.now.number turn (drop (8 * turn + 3) self.now.node.marks) (present (drop 8 (drop (8 * turn + 3) self.now.node.marks))) }
    {
        let marks = &self.node.marks;
        let first = EXTENSION_PORTS * turn + ZERO_PORTS;
        let packet = Extension {
            number: self.number,
            turn: turn as u8,
            marks: marks_from(marks, first),
            more: present_from(marks, first + EXTENSION_PORTS),
        };
        Packet::Extension(packet).encode()
    }

    // Writes the node's packets and their inverses.
    pub(crate) fn write(&self, out: &mut Writer<'_>)
        requires there_is_room { out.old.at + length (node_quadlets self.now.number self.now.node) ≤ length out.old.words.now }
        ensures writes_them { Writes out.old out.new (node_quadlets self.now.number self.now.node) }
    {
        out.write(self.zero());
        for turn in 0..extension_count(&self.node.marks) {
            out.write(self.extension(turn));
        }
    }
}
