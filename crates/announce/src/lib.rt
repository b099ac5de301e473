//! Announcing a description: the quadlets that a bench with these nodes and cables sends after a bus reset.

#![tactic(auto)]

pub mod described;
pub mod frame;
mod node;
mod room;
mod rows;
pub mod stop;
mod tree;
mod walk;
mod writer;
mod writing;

ghost use Rattle.std.specs.Prelude.{◌≤◌, length, IfOk};
ghost use Rattle.selfid.specs.Announcement.{AnnouncementTellsTheCabling};
ghost use Rattle.announce.specs.Announcing.{AnnounceCall, DescribeOneCabling};

use crate::described::Row;
use crate::frame::Frame;
use crate::rows::check_rows;
use crate::stop::DescriptionStop;
use crate::walk::Walk;
use crate::writer::Writer;

// Writes the announcement of the cabling that the rows describe to the front of the words, and answers its length.
// A description that is refused leaves the words as they are. The two stack rows need an element for each row:
// `reach` keeps rows that wait while the tree is tested, `walk` where the writing stands. What they hold then is left over.
// All of this is lent by the caller, since there is no heap.
#[tactic(auto, using(crate::proofs::Trees::describe_one_cabling, selfid::proofs::Tells::announcement_tells_the_cabling))]
pub fn announce(
    rows: &[Row],
    reach: &mut [u8],
    walk: &mut [Frame],
    words: &mut [u32],
) -> Result<usize, DescriptionStop>
    ensures announces_what_the_rows_describe { AnnounceCall rows.now (length reach.old) (length walk.old) words.old result words.new }
    ensures answers_a_length_that_fits { IfOk result (λ n. n ≤ length words.old) }
    ensures rows_describe_one_cabling { DescribeOneCabling }
    ensures announcement_tells_the_cabling { AnnouncementTellsTheCabling }
{
    check_rows(rows, reach.len(), walk.len())?;
    let mut reach = Walk { rows, stack: reach };
    reach.check_tree()?;
    let mut walk = Walk { rows, stack: walk };
    if words.len() < walk.words_needed() {
        return Err(DescriptionStop::TooShort);
    }
    let mut out = Writer { words, at: 0 };
    walk.write(&mut out);
    Ok(out.at)
}
