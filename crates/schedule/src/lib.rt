// The schedule of a detection cycle and what it counts in one row. This crate holds no program code: the
// definitions (specs/) and their theorems (proofs/), which the crates above cite.
#![tactic(auto)]
