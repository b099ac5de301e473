//! When an announcement can still be completed.

ghost use Rattle.std.specs.Prelude.{◌≡◌};
ghost use Rattle.judging.specs.Completion.{CompletionRule, CompletionRuleWithin, enough, enough_after, enough_within};

use selfid::node::{NODE_LIMIT, PORT_LIMIT};

// So many nodes are finished, and so many loose ends are not joined yet. (Bytes, so that no sum of them is too large and no caller is asked for a bound.
// Whoever counts in a wider type narrows by `as`, which the check lets pass only where the count is proved to fit.)
#[derive(Clone, Copy, Debug, PartialEq, Eq)]
pub struct Standing {
    pub finished: u8,
    pub loose: u8,
}

// So many up and down marks a node has told.
#[derive(Clone, Copy, Debug, PartialEq, Eq)]
pub struct Told {
    pub ups: u8,
    pub downs: u8,
}

// The root takes one loose end at each of its ports. Each node that may come before it takes one at each port but its up port and is one itself.
fn enough_nodes_left(finished: usize, loose: usize) -> bool
    ensures tells_if_there_are_enough_nodes { result ≡ enough finished loose }
{
    let others = (NODE_LIMIT - 1).saturating_sub(finished);
    finished < NODE_LIMIT && loose <= PORT_LIMIT + (PORT_LIMIT - 2) * others
}

impl Standing {
    // Are there nodes enough left to join the loose ends, where no node is under way?
    #[tactic(auto, using(crate::proofs::Recognition::completion_rule))]
    pub fn completes(self) -> bool
        ensures tells_if_there_are_enough_nodes { result ≡ enough self.finished self.loose }
        ensures completion_rule { CompletionRule }
    {
        enough_nodes_left(usize::from(self.finished), usize::from(self.loose))
    }

    // The same, where a node is under way that has told these marks and has so many ports left to tell. It answers for packets that no other test turns away.
    pub fn completes_within(self, told: Told, ports_left: u8) -> bool
        ensures tells_if_there_are_enough_nodes { result ≡ enough_within self.finished self.loose told.ups told.downs ports_left }
    {
        let loose = usize::from(self.loose);
        let most = usize::from(told.downs) + usize::from(ports_left);
        let most_below_another = (most + usize::from(told.ups)).saturating_sub(1);
        let left = loose + 1 - loose.min(most_below_another);
        let below_another = enough_nodes_left(usize::from(self.finished) + 1, left);
        (told.ups == 0 && loose <= most) || below_another
    }

    // The same, where a node has just ended with these marks. It answers for packets that no other test turns away.
    pub fn completes_after(self, told: Told) -> bool
        ensures tells_if_there_are_enough_nodes { result ≡ enough_after self.finished self.loose told.ups told.downs }
        ensures completion_rule_within_a_node { CompletionRuleWithin }
    {
        let left = (usize::from(self.loose) + 1).saturating_sub(usize::from(told.downs));
        let below_another = enough_nodes_left(usize::from(self.finished) + 1, left);
        told.ups == 0 || below_another
    }
}
