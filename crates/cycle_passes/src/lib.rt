// What a step does to the rows and to the blocks of them: one pass each.
#![tactic(auto)]

pub mod rows;
pub mod totals;
