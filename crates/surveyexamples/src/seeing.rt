//! Quadlets are offered to a survey, and what is seen of them.

ghost use Rattle.std.specs.Prelude.{◌≡◌};
ghost use Rattle.survey.specs.Views.{gathered, nothing_offered, shown};
ghost use Rattle.surveyexamples.specs.Examples.{seen_in};
ghost use Rattle.surveyexamples.specs.Runs.{OfferCall, SeeCall};

use crate::seen::{Seen, Stop};
use stops::QuadletStop;
use survey::gathering::Gathering;
use survey::record::Record;

// Offers the quadlets one after another, until one is turned away.
pub(crate) fn offer(gathering: &mut Gathering, quadlets: &[u32]) -> Result<(), QuadletStop>
    ensures offers_them_in_order { OfferCall (gathered gathering.old) quadlets.now result (gathered gathering.new) }
{
    for quadlet in quadlets {
        gathering.quadlet(*quadlet)?;
    }
    Ok(())
}

pub(crate) fn seen_in(settled: &Record) -> Seen
    ensures is_what_it_shows { result ≡ seen_in (shown settled.now) }
{
    match settled.void_cause() {
        Some(cause) => Err(Stop::from(cause)),
        None => Ok(settled.node_count()),
    }
}

// Offers the quadlets, and settles unless one is turned away. Answers what is seen, and a gathering with nothing offered.
pub(crate) fn see(mut gathering: Gathering, quadlets: &[u32]) -> (Seen, Gathering)
    ensures sees_what_the_calls_tell { SeeCall (gathered gathering) quadlets.now result.0 }
    ensures nothing_is_offered { gathered result.1 ≡ nothing_offered }
{
    match offer(&mut gathering, quadlets) {
        Ok(()) => {
            let record = gathering.settle();
            (seen_in(&record), record.reset())
        }
        Err(stop) => (Err(Stop::from(stop)), gathering.reset()),
    }
}
