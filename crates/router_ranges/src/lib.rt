// Belt rules as ranges of values. This crate holds no program code: what stands for a rule and for a bottle in the columns (specs/),
// and the theorems on them (proofs/), which the crates above cite.
#![tactic(auto)]
