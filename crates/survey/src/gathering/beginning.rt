//! A survey is begun.

ghost use Rattle.std.specs.Prelude.{◌≡◌};
ghost use Rattle.survey.specs.Views.{gathered, nothing_offered};

use crate::gathering::Gathering;
use crate::tree::Tree;
use arrayvec::ArrayVec;

impl Gathering {
    // A new survey: a gathering with nothing offered. (Both resets promise the same, each to its own caller.)
    pub fn new() -> Gathering
        ensures nothing_is_offered { gathered result ≡ nothing_offered }
    {
        let quadlets = ArrayVec::new();
        Gathering {
            quadlets,
            tree: Tree::new(),
            spoil: None,
        }
    }
}
