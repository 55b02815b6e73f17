// Detection: what lists of calls do. This crate holds no program code: document 01's log and the claim of demand 3 (specs/), and their proofs
// (proofs/), over the definitions that the functions of the crates below are proved to meet.
#![tactic(auto)]
