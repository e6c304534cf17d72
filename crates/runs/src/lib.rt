#![tactic(auto)]
// The run over a log, of any machine that event records are applied to.
pub mod machine;
pub mod run;
