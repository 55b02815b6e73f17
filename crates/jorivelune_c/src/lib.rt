// The calls for programs in C and Rust, under the names that the headers in include/ have: each hands its arguments on to the call of
// that name in `jorivelune`, and promises the same. Functions of their own, since C calls a function by its own name and in its own
// way, while `jorivelune` stays a library for Rust.
#![tactic(auto)]

pub mod calls;
pub mod cells;
pub mod routes;
pub mod sizes;
pub mod summary;
