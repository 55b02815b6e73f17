// Lists of calls on an array: what they are and what they leave (specs/), and the laws that the theorems over all lists are proved
// by (proofs/). This crate holds no program code.
#![tactic(auto)]
