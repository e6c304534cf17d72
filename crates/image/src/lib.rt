#![tactic(auto)]
// The stored image of a state: written and read by one layout.
pub mod call;
pub mod layout;
pub mod read;
pub mod rescue;
pub mod write;
