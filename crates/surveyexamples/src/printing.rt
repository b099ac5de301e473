//! What is seen, as text.

use crate::seen::{Seen, Stop};
use std::io;
use stops::QuadletStop;

pub(crate) fn print_seen(rt: &HostRuntime, seen: Seen) -> io::Result<()> {
    match seen {
        Ok(nodes) => println!(rt; "bus of {nodes}"),
        Err(stop) => println!(rt; "{stop}"),
    }
}

pub(crate) fn print_stop(rt: &HostRuntime, stop: QuadletStop) -> io::Result<()> {
    print_seen(rt, Err(Stop::from(stop)))
}
