#![tactic(auto)]
// One place: free, or a partner with its direction and phase; what each phase makes of each event that names its partner.
pub mod action;
pub mod limits;
pub mod phase;
pub mod place;
pub mod table;
pub mod turn;
