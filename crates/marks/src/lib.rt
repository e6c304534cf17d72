#![tactic(auto)]
// Marks beside a log: built, extended and looked up, so that the state after a record far into it is found in at most 255 steps.
pub mod build;
pub mod lookup;
pub mod mark;
