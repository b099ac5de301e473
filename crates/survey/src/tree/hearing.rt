//! What a packet adds to the tree under way.

ghost use Rattle.std.specs.Prelude.{◌≡◌};
ghost use Rattle.survey.specs.Hearing.{ended, heard_parts, heard, CanEnd, CanTell, CanHear};

use crate::joining::join;
use crate::marks::{count, lowest_up, on_all_ports};
use crate::row::{End, Row};
use crate::tree::Tree;
use selfid::mark::Mark;
use selfid::packet::Packet;

impl Tree {
    // The node under way ends.
    fn end_node(&mut self)
        requires it_can_end { CanEnd self.old }
        ensures the_node_is_joined { self.new ≡ ended self.old }
    {
        let number = self.rows.len();
        let first = self.ends.len() - count(&self.marks, Mark::Down);
        let rooted = count(&self.marks, Mark::Up) == 0;
        let marks = on_all_ports(&self.marks);
        let ports = join(self.rows.as_mut_slice(), &marks, &self.ends[first..]);
        self.rows.push(Row {
            fields: self.fields,
            ports,
        });
        self.ends.truncate(first);
        if !rooted {
            // (Numbers of nodes and ports are small, and fit a byte.)
            self.ends.push(End {
                node: number as u8,
                port: lowest_up(&marks) as u8,
            });
        }
        self.rooted = rooted;
        self.turn = 0;
        self.marks.clear();
    }

    // The node under way tells these marks, and ends if no more of its packets follow.
    fn hear_marks(&mut self, marks: &[Mark], more: bool)
        requires it_can_tell_them { CanTell self.old self.old.fields marks.now more }
        ensures they_are_told { self.new ≡ heard_parts self.old self.old.fields marks.now more }
    {
        self.marks.try_extend_from_slice(marks).unwrap();
        self.turn += 1;
        if !more {
            self.end_node();
        }
    }

    // The node under way sends this packet.
    pub(crate) fn hear(&mut self, packet: Packet)
        requires it_can_send_it { CanHear self.old packet }
        ensures the_packet_is_heard { self.new ≡ heard self.old packet }
    {
        match packet {
            Packet::Zero(zero) => {
                self.fields = zero.fields;
                self.hear_marks(&zero.marks, zero.more);
            }
            Packet::Extension(extension) => self.hear_marks(&extension.marks, extension.more),
        }
    }
}
