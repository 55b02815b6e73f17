// The calls for programs in C and Rust: numbers, byte slices, and the record as seven words. Each answers with
// the number of the first question that fails, 0 where it is taken.
#![tactic(auto)]

pub mod calls;
pub mod cells;
pub mod routes;
pub mod sizes;
pub mod summary;
