#![tactic(auto)]
// What C asks beside a step: which interface this is, whether an image reads, and where a refused record's partner stands.
pub mod ask;
