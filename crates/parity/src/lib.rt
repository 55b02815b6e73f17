// The shape of an array and the plan of a detection cycle, any numbers in them. This crate holds no program code: the definitions of
// document 01's lower part (specs/) and their theorems (proofs/), which the crates above cite.
#![tactic(auto)]

// The shape of an array: questions 1 to 5 of document 01 say which are taken.
#[repr(C)]
#[derive(Clone, Copy)]
pub struct Shape {
    // ρ, the radix of the digits
    pub radix: usize,
    // b, the digits of a level
    pub digits: usize,
    // τ, the changed cells of a row that are to be caught
    pub errors: usize,
    // k, the rule columns
    pub width: usize,
    // m, the rows
    pub rows: usize,
}

// The order of a detection cycle's lookups: one check row after the other, or all columns together.
#[derive(Clone, Copy)]
pub enum Order {
    RowFirst,
    ColumnFirst,
}

// What a detection cycle is to do: its order, and z, the number of low digits that it skips.
#[derive(Clone, Copy)]
pub struct Plan {
    pub order: Order,
    pub skip: usize,
}
