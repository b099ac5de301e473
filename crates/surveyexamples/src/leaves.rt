//! So many leaves that no bus has enough nodes to join them.

ghost use Rattle.std.specs.Prelude.{◌≡◌, ◌<◌};
ghost use Rattle.surveyexamples.specs.Examples.{leaf_word};

use crate::printing::print_stop;
use crate::seeing::offer;
use selfid::codec::inverse;
use std::io;
use stops::QuadletStop;
use survey::gathering::Gathering;

// After 58 leaves four nodes and a root may follow, and these can join them. After 59 only three and a root may, which are too few.
const MOST_LEAVES: u8 = 58;

// The packet of a node with an up mark on port 0 and no other cable.
fn leaf(number: u8) -> u32
    requires is_a_number { number < 64 }
    ensures is_its_packet { result ≡ leaf_word number }
{
    0x807F_4480 + (u32::from(number) << 24)
}

// Offers the leaves, each with its inverse, and answers how many quadlets were taken.
fn offer_leaves(gathering: &mut Gathering) -> Result<usize, QuadletStop> {
    for number in 0..MOST_LEAVES {
        let packet = leaf(number);
        offer(gathering, &[packet, inverse(packet)])?;
    }
    Ok(2 * usize::from(MOST_LEAVES))
}

fn print_offer(rt: &HostRuntime, gathering: &mut Gathering, quadlet: u32) -> io::Result<()> {
    match gathering.quadlet(quadlet) {
        Ok(()) => println!(rt; "taken"),
        Err(stop) => print_stop(rt, stop),
    }
}

pub(crate) fn print_leaves(rt: &HostRuntime) -> io::Result<()> {
    println!(rt; "# leaves")?;
    let mut gathering = Gathering::new();
    print!(rt; "{MOST_LEAVES} leaves: ")?;
    match offer_leaves(&mut gathering) {
        Ok(taken) => println!(rt; "{taken} quadlets taken")?,
        Err(stop) => print_stop(rt, stop)?,
    }
    let next = leaf(MOST_LEAVES);
    print!(rt; "leaf 59 is {next:08X}: ")?;
    print_offer(rt, &mut gathering, next)?;
    print!(rt; "00000000 behind it: ")?;
    print_offer(rt, &mut gathering, 0)
}
