#![tactic(auto)]
// The box: its state, one step of it, and the run over a log.
pub mod answer;
pub mod bytes;
pub mod change;
pub mod last;
pub mod order;
pub mod run;
pub mod search;
pub mod start;
pub mod state;
pub mod step;
