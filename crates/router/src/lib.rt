// The router: belt rules as ranges of values, written to an array's rows, and bottles sent to the belt of the first rule that
// holds them. The belts are lent bytes of its own; the array and its cycle know nothing of them. Below each call stands its act
// (`.._lent`): what the call does where its questions have been passed.
#![tactic(auto)]

pub mod pairs;
pub mod read;
pub mod route;
pub mod rule;
