//! Quadlets are offered to a gathering.

ghost use Rattle.std.specs.Prelude.{◌≡◌, [], ◌∷◌, ◌++◌, None, Ok};
ghost use Rattle.judging.specs.Standing.{whole, inverse_due};
ghost use Rattle.judging.specs.Tests.{Verdict};
ghost use Rattle.survey.specs.Judging.{flaw_of};
ghost use Rattle.survey.specs.Views.{gathered, gathered_with};
ghost use Rattle.survey.specs.Offering.{QuadletCall};
ghost use Rattle.survey.specs.Inside.{NextIs};

use crate::gathering::Gathering;
use judging::flaw::Flaw;
use selfid::codec::inverse;
use selfid::packet::Packet;
use stops::{QuadletStop, Spoil};

impl Gathering {
    // An inverse is due after each packet.
    fn inverse_is_due(&self) -> bool
        ensures tells_if_it_is { result ≡ inverse_due (gathered self.now).taken }
    {
        self.quadlets.len() % 2 == 1
    }

    // Has the root ended, with its last inverse?
    pub(crate) fn is_whole(&self) -> bool
        ensures tells_if_it_is { result ≡ whole (gathered self.now).taken }
    {
        !self.inverse_is_due() && self.tree.turn == 0 && self.tree.rooted
    }

    // The packet that the quadlet is if it may come next, or none if it is the inverse that is due. Or what is wrong with it.
    fn judge(&self, quadlet: u32) -> Result<Option<Packet>, Flaw>
        ensures is_the_verdict { Verdict (gathered self.now).taken quadlet (flaw_of result) }
        ensures tells_what_it_is { NextIs (gathered self.now).taken quadlet result }
    {
        if self.is_whole() {
            return Err(Flaw::AlreadyWhole);
        }
        if self.inverse_is_due() {
            let newest = self.quadlets[self.quadlets.len() - 1];
            if quadlet == inverse(newest) {
                return Ok(None);
            }
            return Err(Flaw::NotInverse);
        }
        let packet = self.tree.judge(quadlet)?;
        Ok(Some(packet))
    }

    // The quadlet comes behind those taken.
    fn take(&mut self, quadlet: u32, packet: Option<Packet>)
        requires it_passes { Verdict (gathered self.old).taken quadlet None }
        requires it_is_known { NextIs (gathered self.old).taken quadlet (Ok packet) }
        ensures it_is_behind_the_others { gathered self.new ≡ gathered_with ((gathered self.old).taken ++ (quadlet ∷ [])) (gathered self.old).spoil }
    {
        if let Some(packet) = packet {
            self.tree.hear(packet);
        }
        self.quadlets.push(quadlet);
    }

    // Offers a quadlet, which is taken or turned away. (A match, and no `?`: a flaw also spoils the gathering.)
    pub fn quadlet(&mut self, quadlet: u32) -> Result<(), QuadletStop>
        ensures takes_it_or_turns_it_away { QuadletCall (gathered self.old) quadlet result (gathered self.new) }
    {
        if let Some(spoil) = self.spoil {
            return Err(QuadletStop::Spoiled(spoil.place));
        }
        match self.judge(quadlet) {
            Ok(packet) => {
                self.take(quadlet, packet);
                Ok(())
            }
            Err(flaw) => {
                let spoil = Spoil {
                    flaw,
                    place: self.quadlets.len(),
                };
                self.spoil = Some(spoil);
                Err(QuadletStop::Flawed(spoil))
            }
        }
    }
}
