// Lookups on an array: the match lines of all rows, and the first row that matches. Below each call stands its act (`.._lent`):
// what the call does where its questions have been passed.
#![tactic(auto)]

pub mod first;
pub mod questions;
pub mod task;
