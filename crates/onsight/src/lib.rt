#![tactic(auto)]
// The On-Sight procedure of Subset-026, section 5.9, in the form of request Q-1: its state, its events, one step.
mod driver;
pub mod event;
pub mod procedure;
mod profile;
mod train;
