// The lower part of the sorting head's library: the comparator of an analog content-addressable memory
// (a-CAM), its check matrix and the encoder of its check cells.
#![tactic(auto)]

pub mod compare;
pub mod encode;
pub mod matrix;
pub mod order;
pub mod sound;
mod sums;
