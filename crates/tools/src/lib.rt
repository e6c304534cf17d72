#![tactic(auto)]
// What people read: pure functions from bytes to text, written into a lent buffer. The program `resheftal` reads, calls them and writes.
pub mod both;
pub mod compared;
pub mod help;
pub mod judged;
mod log;
pub mod made;
pub mod marked;
mod pieces;
pub mod shunted;
mod standing;
pub mod started;
mod state;
pub mod stepped;
pub mod text;
mod words;
