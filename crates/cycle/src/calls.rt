// The calls that have the cycle record: clear, program, commit, start and step. A refused call hands the record back as it was
// given and leaves every buffer as it was. Below clear, start and step stand their acts (`.._lent`): what the call does where its
// questions have been passed; those of program and commit are `write_row` and `put_row`.
ghost use Rattle.std.specs.Prelude.{◌≡◌, [], length};
ghost use Rattle.parity.specs.Questions.{first_no};
ghost use Rattle.shape.specs.Answers.{accepted, giving};
ghost use Rattle.shape.specs.Shapes.{Passed};
ghost use Rattle.array_memory.specs.Lengths.{rows_lengths, all_lengths};
ghost use Rattle.array_memory.specs.Memory.{Memory, no_memory, with_all, with_cells, with_rows};
ghost use Rattle.array_questions.specs.Questions.{clear_questions, start_questions, lent_questions};
ghost use Rattle.cycle_place.specs.Walk.{PaddedLent};
ghost use Rattle.cycle.specs.declared.Cycle.{Cycle as CycleRecord};
ghost use Rattle.cycle.specs.Calls.{state_of, clear_call, program_call, commit_call, start_call, step_call};
ghost use Rattle.cycle.specs.Methods.{changing, refused_with, done_with};
ghost use Rattle.cycle.specs.Record.{idle};

use super::{Changed, Cycle};
use acam::matrix::{fill_matrix, padded_length};
use array::write::{put_row, write_row};
use array_questions::memory::{check_clear, check_start, check_step};
use array_questions::{check_commit, check_program};
use cycle_lookup::column::make_test;
use cycle_lookup::opening::make_opening;
use cycle_passes::rows::reset_rows;
use cycle_place::walk::Located;
use parity::Shape;
use shape::answer::Refusal;
use shape::sizes::Sizes;

// A refusal: the record as it was given.
pub fn refused(cycle: Cycle, refusal: Refusal) -> Changed
    ensures { result ≡ refused_with cycle refusal }
{
    Changed {
        outcome: Err(refusal),
        cycle,
    }
}

pub fn done(cycle: Cycle) -> Changed
    ensures { result ≡ done_with cycle }
{
    Changed {
        outcome: Ok(()),
        cycle,
    }
}

// Cells, lines, counters, flags and totals all 0: with the idle record, the fresh array.
pub fn clear_lent(
    shape: Shape,
    sizes: Sizes,
    cells: &mut [u8],
    lines: &mut [u8],
    counters: &mut [u8],
    flags: &mut [u8],
    totals: &mut [u8],
)
    requires { Passed (clear_questions shape (all_lengths (with_all cells.old lines.old counters.old flags.old totals.old no_memory))) shape sizes }
    ensures { (mem : Memory) (cycle : CycleRecord) → clear_call shape (state_of (with_all cells.old lines.old counters.old flags.old totals.old mem) cycle)
        ≡ giving (accepted 0) [] (state_of (with_all cells.new lines.new counters.new flags.new totals.new mem) idle) }
{
    cells.fill(0);
    lines.fill(0);
    reset_rows(counters, flags, totals);
}

// Counters, flags and totals 0, and the open record of a start.
pub fn start_lent(
    shape: Shape,
    sizes: Sizes,
    skip: usize,
    counters: &mut [u8],
    flags: &mut [u8],
    totals: &mut [u8],
) -> Cycle
    requires { Passed (start_questions shape skip (rows_lengths (with_rows counters.old flags.old totals.old no_memory))) shape sizes }
    ensures { (mem : Memory) (cycle : CycleRecord) → start_call shape (state_of (with_rows counters.old flags.old totals.old mem) cycle) skip
        ≡ giving (accepted 0) [] (state_of (with_rows counters.new flags.new totals.new mem) result) }
{
    reset_rows(counters, flags, totals);
    Cycle::opening(skip)
}

impl Cycle {
    // Clear: cells, lines, counters, flags and totals all 0, record idle: the fresh array.
    pub fn clear(
        self,
        shape: Shape,
        cells: &mut [u8],
        lines: &mut [u8],
        counters: &mut [u8],
        flags: &mut [u8],
        totals: &mut [u8],
    ) -> Changed
        ensures { (mem : Memory) → clear_call shape (state_of (with_all cells.old lines.old counters.old flags.old totals.old mem) self)
            ≡ changing result [] (with_all cells.new lines.new counters.new flags.new totals.new mem) }
    {
        match check_clear(
            shape,
            cells.len(),
            lines.len(),
            counters.len(),
            flags.len(),
            totals.len(),
        ) {
            Err(refusal) => refused(self, refusal),
            Ok(sizes) => {
                clear_lent(shape, sizes, cells, lines, counters, flags, totals);
                done(Cycle::IDLE)
            }
        }
    }

    // Program: writes a row of k levels with its check cells; the record becomes idle.
    pub fn program(self, shape: Shape, cells: &mut [u8], row: usize, given: &[u8]) -> Changed
        ensures { (mem : Memory) → program_call shape (state_of (with_cells cells.old mem) self) row given.now
            ≡ changing result [] (with_cells cells.new mem) }
    {
        match check_program(shape, cells.len(), row, given) {
            Err(refusal) => refused(self, refusal),
            Ok(sizes) => {
                write_row(shape, sizes, cells, row, given);
                done(Cycle::IDLE)
            }
        }
    }

    // Commit: writes a finished row of n cells, as ask gives it; the record becomes idle.
    pub fn commit(self, shape: Shape, cells: &mut [u8], row: usize, finished: &[u8]) -> Changed
        ensures { (mem : Memory) → commit_call shape (state_of (with_cells cells.old mem) self) row finished.now
            ≡ changing result [] (with_cells cells.new mem) }
    {
        match check_commit(shape, cells.len(), row, finished) {
            Err(refusal) => refused(self, refusal),
            Ok(sizes) => {
                put_row(shape, sizes, cells, row, finished);
                done(Cycle::IDLE)
            }
        }
    }

    // Start: counters, flags and totals 0, record open, its opening next, also when a cycle was open. The cycle skips a number
    // of low digits: 0 for the whole cycle.
    pub fn start(
        self,
        shape: Shape,
        skip: usize,
        counters: &mut [u8],
        flags: &mut [u8],
        totals: &mut [u8],
    ) -> Changed
        ensures { (mem : Memory) → start_call shape (state_of (with_rows counters.old flags.old totals.old mem) self) skip
            ≡ changing result [] (with_rows counters.new flags.new totals.new mem) }
    {
        match check_start(shape, skip, counters.len(), flags.len(), totals.len()) {
            Err(refusal) => refused(self, refusal),
            Ok(sizes) => done(start_lent(shape, sizes, skip, counters, flags, totals)),
        }
    }

    // Step: makes the next lookup of the schedule, an opening or a test; where it looks for rows to flag, the blocks'
    // totals are counted anew; after the last lookup the record is complete.
    pub fn step(
        self,
        shape: Shape,
        cells: &[u8],
        lines: &[u8],
        counters: &mut [u8],
        flags: &mut [u8],
        totals: &mut [u8],
        matches: &mut [u8],
    ) -> Changed
        ensures { (mem : Memory) → step_call shape (state_of (with_all cells.now lines.now counters.old flags.old totals.old mem) self) matches.old
            ≡ changing result matches.new (with_all cells.now lines.now counters.new flags.new totals.new mem) }
    {
        match check_step(
            shape,
            cells.len(),
            lines.len(),
            counters.len(),
            flags.len(),
            totals.len(),
            matches.len(),
        ) {
            Err(refusal) => refused(self, refusal),
            Ok(sizes) => self.step_lent(
                shape, sizes, cells, lines, counters, flags, totals, matches,
            ),
        }
    }

    // A step on buffers of their lengths: what it does once the questions up to 6 have been passed.
    pub fn step_lent(
        self,
        shape: Shape,
        sizes: Sizes,
        cells: &[u8],
        lines: &[u8],
        counters: &mut [u8],
        flags: &mut [u8],
        totals: &mut [u8],
        matches: &mut [u8],
    ) -> Changed
        requires { Passed (lent_questions shape [] (all_lengths (with_all cells.now lines.now counters.old flags.old totals.old no_memory))
            (length matches.old)) shape sizes }
        ensures { (mem : Memory) → step_call shape (state_of (with_all cells.now lines.now counters.old flags.old totals.old mem) self) matches.old
            ≡ changing result matches.new (with_all cells.now lines.now counters.new flags.new totals.new mem) }
    {
        let columns = sizes.columns;
        let checks = sizes.checks;
        let padded = padded_length(columns);
        let mut matrix = [0u8; 256];
        fill_matrix(&mut matrix[..columns], shape, checks);
        self.step_at(
            shape,
            checks,
            columns,
            &matrix[..padded],
            cells,
            lines,
            counters,
            flags,
            totals,
            matches,
        )
    }

    // The same by the check matrix, padded with 0: question 9, and then the lookup.
    fn step_at(
        self,
        shape: Shape,
        checks: usize,
        columns: usize,
        padded: &[u8],
        cells: &[u8],
        lines: &[u8],
        counters: &mut [u8],
        flags: &mut [u8],
        totals: &mut [u8],
        matches: &mut [u8],
    ) -> Changed
        requires padded_lent { PaddedLent shape checks columns padded.now }
        requires matches_value { first_no (lent_questions shape [] (all_lengths (with_all cells.now lines.now counters.old flags.old totals.old no_memory))
            (length matches.old)) ≡ 0 }
        ensures { (mem : Memory) → step_call shape (state_of (with_all cells.now lines.now counters.old flags.old totals.old mem) self) matches.old
            ≡ changing result matches.new (with_all cells.now lines.now counters.new flags.new totals.new mem) }
    {
        match self.locate(shape, checks, columns, padded) {
            Located::Elsewhere => refused(self, Refusal::Record),
            Located::Opening(byte, next) => {
                make_opening(byte, lines, flags, totals, matches);
                done(self.moved(next))
            }
            Located::Test(here) => {
                let place = self.place;
                let skip = self.skip;
                let ends = here.ends;
                let next = here.next;
                make_test(
                    place, skip, shape, columns, ends, cells, lines, counters, flags, totals,
                    matches,
                );
                done(self.moved(next))
            }
        }
    }
}
