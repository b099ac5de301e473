//! Where the quadlets of an announcement come from: a finite row of quadlets that wait, and how it ends.

#![tactic(auto)]

pub mod receive;

ghost use Rattle.std.specs.Prelude.{◌≡◌, ℕ, ⊤, List, drop, Result};
ghost use Rattle.source.specs.declared.SourceStop.{SourceStop};
ghost use Rattle.source.specs.Sources.{drawn_from};

// Why a source stopped, by its number, and where. (Not an error type for each source: then each stop of a fill would be generic in it.)
#[derive(Clone, Copy, Debug, PartialEq, Eq)]
pub struct SourceStop {
    pub number: u8,
    pub place: usize,
}

// A source means the quadlets that wait and how it ends once none waits: cleanly, or stopped.
pub trait Source {
    ghost waiting: { Self → List ℕ };

    ghost ending: { Self → Result ⊤ SourceStop };

    // Gives the first quadlet that waits and leaves the others; with none waiting, gives the ending, and what waits and how it ends stay.
    fn draw(&mut self) -> Result<Option<u32>, SourceStop>
        ensures gives_the_first_or_the_ending { result ≡ drawn_from (waiting self.old) (ending self.old) }
        ensures leaves_the_others { waiting self.new ≡ drop 1 (waiting self.old) }
        ensures keeps_the_ending { ending self.new ≡ ending self.old };
}
