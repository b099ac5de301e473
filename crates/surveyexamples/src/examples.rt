//! A few rows of quadlets, and what a survey sees of them.

ghost use Rattle.surveyexamples.specs.Bench.{BenchIsShown};
ghost use Rattle.surveyexamples.specs.Examples.{AllSeen, examples, further_examples, leaves_examples};

use crate::printing::print_seen;
use crate::seeing::see;
use std::io;
use survey::gathering::Gathering;

fn print_quadlets(rt: &HostRuntime, quadlets: &[u32]) -> io::Result<()> {
    if quadlets.is_empty() {
        return print!(rt; "nothing: ");
    }
    for (i, quadlet) in quadlets.iter().enumerate() {
        if i > 0 {
            print!(rt; " ")?;
        }
        print!(rt; "{quadlet:08X}")?;
    }
    print!(rt; ": ")
}

// Prints what is seen of these quadlets. Answers a gathering with nothing offered.
fn print_example(
    rt: &HostRuntime,
    gathering: Gathering,
    quadlets: &[u32],
) -> io::Result<Gathering> {
    print_quadlets(rt, quadlets)?;
    let (seen, fresh) = see(gathering, quadlets);
    print_seen(rt, seen)?;
    Ok(fresh)
}

// Nothing is offered; a lone node; then rows of which the last quadlet is turned away:
// a wrong inverse, a quadlet behind a whole announcement, a speed code of 3, an extension with absent marks only,
// a root whose children were not announced, and a root that leaves a loose end.
const EXAMPLES: [&[u32]; 8] = [
    &[],
    &[0x807F_8856, 0x7F80_77A9],
    &[0x807F_8856, 0x7F80_77A8],
    &[0x807F_8856, 0x7F80_77A9, 0],
    &[0x807F_C856],
    &[0x807F_4481, 0x7F80_BB7E, 0x8080_0000],
    &[0x807F_88DE],
    &[
        0x807F_4480,
        0x7F80_BB7F,
        0x817F_8460,
        0x7E80_7B9F,
        0x827F_8876,
    ],
];

fn print_all(rt: &HostRuntime, mut gathering: Gathering) -> io::Result<()> {
    for quadlets in EXAMPLES {
        gathering = print_example(rt, gathering, quadlets)?;
    }
    Ok(())
}

// Prints the examples. Its contract has what the contracts of the survey's calls tell of them, of a few more, and of 58 leaves and a 59th; and the rows of the bench of three.
pub fn print_examples(rt: &HostRuntime) -> io::Result<()>
    ensures every_example_is_seen { AllSeen examples }
    ensures every_further_example_is_seen { AllSeen further_examples }
    ensures only_58_leaves_are_taken { AllSeen leaves_examples }
    ensures the_bench_of_three_is_shown { BenchIsShown }
{
    print_all(rt, Gathering::new())
}
