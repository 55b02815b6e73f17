// What a job prints, put into a lent buffer.
#![tactic(auto)]

pub mod print;
