// The lent memory of an array (specs/). Cells lie row after row, and flags are totalled in blocks of rows. Cells, lines, counters, flags,
// totals and match bytes are buffers of their own, since C lends each by itself.
#![tactic(auto)]

pub mod blocks;
