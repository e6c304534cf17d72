#![tactic(auto)]
// Theorems about every history of the box; no function.
