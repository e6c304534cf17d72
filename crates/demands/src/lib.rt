#![tactic(auto)]
// The promises on one page: theorems only, no function.
