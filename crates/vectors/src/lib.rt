#![tactic(auto)]
// Vectors of the independent model: each is judged against the proved code, and a file of them is counted and reported.
pub mod expected;
pub mod file;
pub mod given;
mod group;
pub mod histories;
pub mod mixes;
pub mod part;
pub mod rescues;
pub mod runs;
pub mod single;
pub mod tally;
pub mod turns;
pub mod vector;
