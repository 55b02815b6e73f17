// One lookup of the schedule on all rows, an opening's or a test's.
#![tactic(auto)]

pub mod column;
pub mod opening;
