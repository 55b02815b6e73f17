// A job as a list of calls: the list (specs/), and the theorems that carry demand 3 over to a job (proofs/). This crate holds no
// program code.
#![tactic(auto)]
