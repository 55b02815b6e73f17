// The calls on an array that need no cycle record: sound, read, ask, drift and line; and, for the crates above, the writing of
// a row. Below each call stands its act (`.._lent`): what the call does where its questions have been passed.
#![tactic(auto)]

pub mod ask;
pub mod cells;
pub mod drift;
pub mod lines;
pub mod write;
