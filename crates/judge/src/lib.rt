#![tactic(auto)]
// Sheets of event records with their answers and actions: another maker's judged, and our own made.
pub mod due;
pub mod judge;
pub mod produce;
pub mod reader;
