//! A gathering is filled from a source.

ghost use Rattle.survey.specs.Views.{gathered};
ghost use Rattle.survey.specs.Filling.{FillCall};

use crate::gathering::Gathering;
use source::Source;
use stops::{FillStop, QuadletStop};

impl Gathering {
    // Draws and offers quadlets until none waits, the source stops, or one is turned away. Answers the count taken. A spoiled gathering draws nothing.
    pub fn fill<S: Source>(&mut self, source: &mut S) -> Result<usize, FillStop>
        ensures offers_what_it_draws_and_counts_what_it_takes { FillCall (gathered self.old) (S.waiting source.old) (S.ending source.old) result (S.waiting source.new) (S.ending source.new) (gathered self.new) }
    {
        if let Some(spoil) = self.spoil {
            return Err(FillStop::Survey(0, QuadletStop::Spoiled(spoil.place)));
        }
        let mut taken = 0;
        while let Some(quadlet) = source.draw().map_err(|stop| FillStop::Source(taken, stop))? {
            self.quadlet(quadlet)
                .map_err(|stop| FillStop::Survey(taken, stop))?;
            taken += 1;
        }
        Ok(taken)
    }
}
