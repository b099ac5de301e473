//! Which quadlets can begin an announcement, and what is wrong with one that cannot follow.

#![tactic(auto)]

pub mod completion;
pub mod flaw;
