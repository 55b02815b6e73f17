// What a shape is asked, what the calls answer with, and the byte helpers that the crates above share.
#![tactic(auto)]

pub mod answer;
pub mod byte;
pub mod questions;
pub mod sizes;
