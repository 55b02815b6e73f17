// Lists of the router's calls: what they leave, the log of rules, and what a route tells of it (specs/), with the proofs (proofs/).
// This crate holds no program code.
#![tactic(auto)]
