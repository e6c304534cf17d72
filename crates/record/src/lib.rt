#![tactic(auto)]
// Event records: the partner that one names, the event that it means, reading one from its bytes, and taking one off a log.
pub mod event;
pub mod partner;
pub mod read;
pub mod stop;
pub mod take;
