// The bytes of a job: its fields, and the questions that it is asked.
#![tactic(auto)]

pub mod questions;

// 10: the most bytes that a job has.
pub const MAX_BYTES: usize = 32768;

// 13: the most cells that its array has.
pub const MAX_CELLS: usize = 16384;
