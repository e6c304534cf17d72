#![tactic(auto)]
// The core for firmware in C: one step on a stored image, and the image to start from.
pub mod start;
pub mod step;
