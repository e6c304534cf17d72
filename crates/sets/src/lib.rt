#![tactic(auto)]
// The second engine: six sets of partners in place of four places.
pub mod answer;
pub mod bytes;
pub mod closing;
pub mod members;
pub mod moves;
pub mod names;
pub mod run;
pub mod six;
pub mod start;
pub mod state;
pub mod step;
