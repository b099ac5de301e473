//! The tests of a packet.

ghost use Rattle.std.specs.Prelude.{◌≡◌, ◌≤◌, length, IfOk, Ok};
ghost use Rattle.selfid.specs.Reading.{packet_in};
ghost use Rattle.survey.specs.Judging.{loose, completable, judged_marks, judged_parts, judged_packet, judged, flaw_of};

use crate::marks::count;
use crate::tree::Tree;
use judging::completion::{Standing, Told};
use judging::flaw::Flaw;
use selfid::mark::Mark;
use selfid::node::PORT_LIMIT;
use selfid::packet::{EXTENSION_LIMIT, EXTENSION_PORTS, Packet, ZERO_PORTS};

// A node has told these marks with this packet, its packet number `turn`, and more packets follow or none.
#[derive(Clone, Copy, Debug, PartialEq, Eq)]
struct NodeSoFar {
    told: Told,
    turn: u8,
    more: bool,
}

impl Tree {
    // Can the announcement still be completed, with the node so far?
    fn can_be_completed(&self, node: NodeSoFar) -> bool
        ensures tells_if_there_are_enough_nodes { result ≡ completable self.now node.told.ups node.told.downs node.turn node.more }
    {
        // (Narrowed by `as`, which the check lets pass only where a count is proved to fit.)
        let standing = Standing {
            finished: self.rows.len() as u8,
            loose: self.ends.len() as u8,
        };
        if node.more {
            let told = ZERO_PORTS + EXTENSION_PORTS * usize::from(node.turn);
            standing.completes_within(node.told, PORT_LIMIT.saturating_sub(told) as u8)
        } else {
            standing.completes_after(node.told)
        }
    }

    // What is wrong with the marks of the node so far, if anything is.
    fn judge_marks(&self, node: NodeSoFar) -> Result<(), Flaw>
        ensures is_the_first_flaw { flaw_of result ≡ judged_marks self.now node.told.ups node.told.downs node.turn node.more }
    {
        let downs = usize::from(node.told.downs);
        if node.told.ups >= 2 {
            return Err(Flaw::SecondUp);
        }
        if downs > self.ends.len() {
            return Err(Flaw::TooManyDown);
        }
        if !node.more && node.told.ups == 0 && downs < self.ends.len() {
            return Err(Flaw::LooseEndLeft);
        }
        if self.can_be_completed(node) {
            Ok(())
        } else {
            Err(Flaw::NoCabling)
        }
    }

    // What is wrong with a packet of these parts, if anything is.
    fn judge_parts(&self, number: u8, turn: u8, marks: &[Mark], more: bool) -> Result<(), Flaw>
        requires few_marks { length marks.now ≤ 8 }
        ensures is_the_first_flaw { flaw_of result ≡ judged_parts self.now number turn marks.now more }
    {
        if usize::from(number) != self.rows.len() {
            return Err(Flaw::WrongNumber);
        }
        // (`as` widens here, and is no call that the proof would have to go through.)
        if turn != self.turn || turn as usize == EXTENSION_LIMIT && more {
            return Err(Flaw::OutOfTurn);
        }
        if turn > 0 && !more && count(marks, Mark::Absent) == marks.len() {
            return Err(Flaw::EmptyExtension);
        }
        let ups = count(&self.marks, Mark::Up) + count(marks, Mark::Up);
        let downs = count(&self.marks, Mark::Down) + count(marks, Mark::Down);
        // (Narrowed as above.)
        let told = Told {
            ups: ups as u8,
            downs: downs as u8,
        };
        self.judge_marks(NodeSoFar { told, turn, more })
    }

    // What is wrong with a packet, if anything is.
    fn judge_packet(&self, packet: Packet) -> Result<(), Flaw>
        ensures is_the_first_flaw { flaw_of result ≡ judged_packet self.now packet }
    {
        match packet {
            Packet::Zero(zero) => self.judge_parts(zero.number, 0, &zero.marks, zero.more),
            Packet::Extension(extension) => self.judge_parts(
                extension.number,
                extension.turn + 1,
                &extension.marks,
                extension.more,
            ),
        }
    }

    // The packet in a word that may come next, or what is wrong with it.
    pub(crate) fn judge(&self, word: u32) -> Result<Packet, Flaw>
        ensures is_the_first_flaw { flaw_of result ≡ judged self.now word }
        ensures gives_the_packet { IfOk result (λ p. packet_in word ≡ Ok p) }
    {
        let packet = Packet::decode(word)?;
        self.judge_packet(packet)?;
        Ok(packet)
    }
}
