#![tactic(auto)]
// Walks through the log on standard input with an engine of the box: a step on the bytes of each record, or one run.
pub mod engine;
pub mod run;
pub mod steps;

// A room as a slice. An array of a million zeros is lent as one with no proof where its length is a parameter, as it is here.
fn lent<const N: usize>(room: &mut [u8; N]) -> &mut [u8] {
    room
}
