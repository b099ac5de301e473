//! The walk that writes an announcement: for each node, by rising down port, first its children and what hangs below them, then itself.

ghost use Rattle.std.specs.Prelude.{◌≡◌, true, ◌+◌, ◌<◌, ◌≤◌, ◌∷◌, length, drop, position};
ghost use Rattle.selfid.specs.Cabling.{Cabling};
ghost use Rattle.selfid.specs.Announcement.{announcement};
ghost use Rattle.announce.specs.Description.{is_down, Describes};
ghost use Rattle.stack.specs.Held.{held, room};
ghost use Rattle.announce.specs.Reach.{Described};
ghost use Rattle.announce.specs.Rows.{has_codes};
ghost use Rattle.announce.specs.Writing.{Writes, down_from, words_told};

use crate::described::{Row, RowPort};
use crate::frame::Frame;
use crate::node::{Numbered, count_packets};
use crate::room::push;
use crate::rows::node_of;
use crate::walk::Walk;
use crate::writer::Writer;
use selfid::mark::Mark;
use stack::Stack;

// A down port that was found: its child's row, and the port behind it.
#[derive(Clone, Copy, Debug, PartialEq, Eq)]
pub struct Found {
    pub child: u8,
    pub next: u8,
}

// How many ports from this one on are not down, if then one is. (A function of its own, since the next one's proof goes by what it promises.)
fn first_down(ports: &[RowPort], from: usize) -> Option<usize>
    ensures is_its_place { result ≡ position is_down (drop from ports.now) }
{
    ports
        .iter()
        .skip(from)
        .position(|port| port.has(Mark::Down))
}

// The first down port from this one on, if there is one. (There are fewer than 256 ports, so that a port's number fits a byte.)
fn next_down(ports: &[RowPort], from: usize) -> Option<Found>
    requires few_ports { length ports.now < 256 }
    ensures is_the_first_from_there_on { result ≡ down_from from (drop from ports.now) }
{
    let passed = first_down(ports, from)?;
    let at = from + passed;
    Some(Found {
        child: ports[at].child,
        next: (at + 1) as u8,
    })
}

// How many words the node of this row takes.
fn words_of(row: &Row) -> usize
    requires has_codes { has_codes row.now ≡ true }
    ensures counts_them { result ≡ words_told row.now }
    ensures at_most_six { result ≤ 6 }
{
    2 * count_packets(&node_of(row).marks)
}

// Puts the row back with the port behind the one that was found, and the child's row on top of it.
fn enter(stack: &mut Stack<'_, Frame>, row: u8, found: Found)
    requires there_is_room { length (held stack.old) + 2 ≤ room stack.old }
    ensures keeps_the_room { room stack.new ≡ room stack.old }
    ensures puts_both_on_top { held stack.new ≡ record { row = found.child; port = 0 } ∷ record { row = row; port = found.next } ∷ held stack.old }
{
    push(
        stack,
        Frame {
            row,
            port: found.next,
        },
    );
    push(
        stack,
        Frame {
            row: found.child,
            port: 0,
        },
    );
}

impl Walk<'_, Frame> {
    // How many words the announcement of the rows takes.
    pub(crate) fn words_needed(&self) -> usize
        ensures is_the_length_of_what_they_announce { (c : Cabling) → Describes self.now.rows.now c → result ≡ length (announcement c) }
    {
        self.rows.iter().map(words_of).sum()
    }

    // Writes the announcement of the rows. The stack keeps the rows whose nodes are not written yet.
    pub(crate) fn write(&mut self, out: &mut Writer<'_>)
        requires rows_describe_a_cabling { Described self.old.rows.now }
        requires there_is_room { (c : Cabling) → Describes self.old.rows.now c → out.old.at + length (announcement c) ≤ length out.old.words.now }
        ensures writes_it { (c : Cabling) → Describes self.old.rows.now c → Writes out.old out.new (announcement c) }
    {
        let rows = self.rows;
        let mut open = Stack::new(self.stack);
        push(&mut open, Frame { row: 0, port: 0 });
        let mut number: u8 = 0;
        while let Some(frame) = open.pop() {
            // (`as` widens here, and is no call that the proof would have to go through.)
            let row = &rows[frame.row as usize];
            match next_down(&row.ports, frame.port as usize) {
                Some(found) => enter(&mut open, frame.row, found),
                None => {
                    let node = node_of(row);
                    Numbered { number, node }.write(out);
                    number += 1;
                }
            }
        }
    }
}
