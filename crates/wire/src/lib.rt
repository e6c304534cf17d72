#![tactic(auto)]
// What stands below all other crates: bytes, tests that are joined, the numbers of refusal.
pub mod byte;
pub mod join;
pub mod refusal;
