//! The survey of a bus: quadlets are gathered one by one, each judged as it comes; settled, the record answers for the tree.

#![tactic(auto)]

pub mod gathering;
mod joining;
mod marks;
pub mod record;
pub mod row;
mod tree;
