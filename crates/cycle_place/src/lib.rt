// The place of a lookup in the schedule, as a step works it out: passes over the columns, the numbers of the place, and
// the walk from place to place.
#![tactic(auto)]

mod columns;
pub mod digits;
pub mod factors;
pub mod walk;

// The place of a lookup of the schedule: its check row ℓ, digit s, column j and factor a.
#[derive(Clone, Copy, PartialEq, Eq)]
pub struct Place {
    pub check: usize,
    pub digit: usize,
    pub column: usize,
    pub factor: usize,
}

impl Place {
    // No test's place, all 0: it stands where an opening is next, and where no lookup is to come.
    pub const NO_TEST: Place = Place {
        check: 0,
        digit: 0,
        column: 0,
        factor: 0,
    };
}
