//! Offers worked examples to a survey and prints what it sees of each, with the numbers and places of what it turns away.

#![tactic(auto)]

use examples::print_examples;
use leaves::print_leaves;
use received::print_received;
use std::io;

pub mod examples;
mod leaves;
mod printing;
mod received;
mod seeing;
pub mod seen;

fn main(rt: HostRuntime) -> io::Result<()> {
    println!(rt; "# worked examples")?;
    print_examples(&rt)?;
    print_leaves(&rt)?;
    print_received(&rt)
}
