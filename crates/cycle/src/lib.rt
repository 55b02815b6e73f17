// The detection cycle of the sorting head's array: its record, and the calls that need it.
#![tactic(auto)]

pub mod calls;

ghost use Rattle.std.specs.Prelude.{◌≡◌, cond, suc, leb};
ghost use Rattle.parity.specs.Claims.{most_steps};
ghost use Rattle.cycle_place.specs.Walk.{told_at, PaddedLent};
ghost use Rattle.cycle_place.specs.declared.walk.Located.TheVariants.{Elsewhere};
ghost use Rattle.cycle.specs.Moves.{Movable};
ghost use Rattle.cycle.specs.Record.{no_place, open_at, complete_at, record_at, is_open, is_next};

use cycle_place::walk::Located;
use cycle_place::{Place, walk};
use parity::Shape;
use shape::answer::Answer;
use shape::sizes::Sizes;

// The numbers are the words that the phases are stored as.
#[derive(Clone, Copy, PartialEq, Eq)]
pub enum Phase {
    Idle = 0,
    Open = 1,
    Complete = 2,
}

// A cycle's phase, the place of its next lookup in the schedule, the accepted steps since its start, and the number of
// low digits that it skips.
#[derive(Clone, Copy)]
pub struct Cycle {
    pub phase: Phase,
    // that of no test where an opening is next, and where no lookup is to come
    pub place: Place,
    pub count: usize,
    pub skip: usize,
}

// What a call that has the record gives back beside the bytes that it writes. It is no `Answer<Cycle>`: a refusal too hands the
// record back, which document 01 wants.
#[derive(Clone, Copy)]
pub struct Changed {
    pub outcome: Answer<()>,
    pub cycle: Cycle,
}

impl Cycle {
    // The record of a fresh array.
    pub const IDLE: Cycle = Cycle {
        phase: Phase::Idle,
        place: Place::NO_TEST,
        count: 0,
        skip: 0,
    };

    // The limits of questions 1 to 5, those of `Sizes` once more, since document 01 wants them as constants of the record's kind: ρ is
    // from here ..
    pub const MIN_RADIX: usize = Sizes::MIN_RADIX;

    // .. to here;
    pub const MAX_RADIX: usize = Sizes::MAX_RADIX;

    // b is at least this ..
    pub const MIN_DIGITS: usize = Sizes::MIN_DIGITS;

    // .. and q at most this;
    pub const MAX_LEVELS: usize = Sizes::MAX_LEVELS;

    // τ is from here ..
    pub const MIN_ERRORS: usize = Sizes::MIN_ERRORS;

    // .. to here;
    pub const MAX_ERRORS: usize = Sizes::MAX_ERRORS;

    // k is at least this, and at most what this many check columns carry for τ;
    pub const MIN_WIDTH: usize = Sizes::MIN_WIDTH;

    pub const MAX_CHECKS: usize = Sizes::MAX_CHECKS;

    // m is from here ..
    pub const MIN_ROWS: usize = Sizes::MIN_ROWS;

    // .. to here.
    pub const MAX_ROWS: usize = Sizes::MAX_ROWS;

    // The steps of the longest cycle: two openings, and 255 tests for each of the 1,024 ones of the largest check matrix, no
    // digit skipped. No record that a start and accepted steps leave has a larger count.
    pub const MAX_COUNT: usize = 261122;

    // The record after a start: the first opening is next.
    pub fn opening(skip: usize) -> Self
        ensures { result ≡ open_at skip no_place 0 }
    {
        Self {
            phase: Phase::Open,
            place: Place::NO_TEST,
            count: 0,
            skip,
        }
    }

    // The record after a cycle's last lookup.
    pub fn complete(skip: usize, count: usize) -> Self
        ensures { result ≡ complete_at skip count }
    {
        Self {
            phase: Phase::Complete,
            place: Place::NO_TEST,
            count,
            skip,
        }
    }

    pub fn is_open(self) -> bool
        ensures { result ≡ is_open self.phase }
    {
        self.phase == Phase::Open
    }

    // Whether some cycle has this many accepted steps.
    pub(crate) fn within_longest(self) -> bool
        ensures { result ≡ leb self.count most_steps }
    {
        self.count <= Cycle::MAX_COUNT
    }

    // The lookup at the record's place, if the record is open there with that lookup still to come: question 9.
    pub fn locate(self, shape: Shape, checks: usize, columns: usize, padded: &[u8]) -> Located
        requires { PaddedLent shape checks columns padded.now }
        ensures { result ≡ cond (is_next shape self) (told_at self.skip shape self.count self.place) Elsewhere }
    {
        let place = self.place;
        let skip = self.skip;
        let count = self.count;
        if !self.is_open() {
            return Located::Elsewhere;
        }
        if !self.within_longest() {
            return Located::Elsewhere;
        }
        walk::locate(place, skip, count, shape, checks, columns, padded)
    }

    // The record after a lookup, by the place of the next one: open there, or complete where there is none.
    pub fn moved(mut self, next: Option<Place>) -> Self
        requires { Movable self }
        ensures { result ≡ record_at self.skip next (suc self.count) }
    {
        self.count = self.count + 1;
        match next {
            Some(place) => {
                self.place = place;
                self
            }
            None => Cycle::complete(self.skip, self.count),
        }
    }
}
