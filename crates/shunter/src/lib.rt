#![tactic(auto)]
// The shunter: two modems and a queue over the box, which it knows by its doors alone.
pub mod answer;
pub mod bytes;
pub mod queue;
pub mod run;
pub mod start;
pub mod state;
pub mod step;
