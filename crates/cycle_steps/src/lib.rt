// Many steps of an open cycle as one call: the questions are asked, the check matrix is made and the record's place is looked up
// once for all of them.
#![tactic(auto)]

ghost use Rattle.std.specs.Prelude.{◌≡◌, [], length};
ghost use Rattle.parity.specs.Questions.{first_no};
ghost use Rattle.shape.specs.Answers.{accepted, giving};
ghost use Rattle.shape.specs.Shapes.{Passed};
ghost use Rattle.array_memory.specs.Lengths.{all_lengths};
ghost use Rattle.array_memory.specs.Memory.{Memory, no_memory, with_all};
ghost use Rattle.array_questions.specs.Questions.{lent_questions};
ghost use Rattle.cycle_lookup.specs.Rows.{RowsLent};
ghost use Rattle.cycle_passes.specs.Passes.{column_cells};
ghost use Rattle.cycle_place.specs.Walk.{Stands, MatrixLent, PaddedLent};
ghost use Rattle.cycle.specs.Calls.{state_of};
ghost use Rattle.cycle.specs.Methods.{changing, done_with};
ghost use Rattle.cycle_steps.specs.Steps.{stepping, steps_call};
ghost use Rattle.cycle_steps.specs.Tests.{LookupsLeft, tested_at, ColumnHeld};

use acam::matrix::{fill_matrix, padded_length};
use array_questions::memory::check_step;
use cycle::calls::{done, refused};
use cycle::{Changed, Cycle};
use cycle_lookup::column::count_test;
use cycle_lookup::opening::make_opening;
use cycle_passes::rows::{match_column, reduce_rows, take_down};
use cycle_place::Place;
use cycle_place::digits::{digit_of, hold_digit};
use cycle_place::factors::scale;
use cycle_place::walk::{Located, first, follow};
use parity::Shape;
use shape::answer::Refusal;
use shape::sizes::Sizes;

// The record after some tests, and the place of the last of them.
#[derive(Clone, Copy)]
pub(crate) struct Tested {
    pub(crate) cycle: Cycle,
    pub(crate) last: Place,
}

// At most so many tests, up to the cycle's end, but for the match bytes: in their place stand the cells of the last test's
// column, which are taken anew only where a test has another column than the one before.
fn count_tests(
    cycle: Cycle,
    most: usize,
    shape: Shape,
    checks: usize,
    matrix: &[u8],
    cells: &[u8],
    lines: &[u8],
    counters: &mut [u8],
    flags: &mut [u8],
    totals: &mut [u8],
    matches: &mut [u8],
) -> Tested
    requires matrix_lent { MatrixLent shape checks matrix.now }
    requires rows_lent { RowsLent shape (with_all cells.now lines.now counters.old flags.old totals.old no_memory) (length matches.old) }
    requires lookups_left { LookupsLeft shape 2 cycle }
    requires column_held { ColumnHeld shape cycle.place.column cells.now counters.old matches.old }
    ensures stands { Stands cycle.skip shape result.last }
    ensures held { matches.new ≡ column_cells (length matrix.now) result.last.column cells.now (length matches.old) }
    ensures stepped { (mem : Memory)
        → stepping shape most (tested_at cycle.skip shape cycle.place (with_all cells.now lines.now counters.old flags.old totals.old mem) cycle)
        ≡ tested_at cycle.skip shape result.last (with_all cells.now lines.now counters.new flags.new totals.new mem) result.cycle }
{
    let columns = matrix.len();
    let skip = cycle.skip;
    let mut now = cycle;
    let mut last = cycle.place;
    let mut digit = digit_of(shape, last.digit);
    for _ in 0..most {
        if !now.is_open() {
            break;
        }
        let place = now.place;
        digit = hold_digit(shape, place.digit, digit);
        let here = follow(place, digit.span, skip, shape, checks, matrix);
        let ends = here.ends;
        let next = here.next;
        count_test(
            place,
            last.column,
            digit.unit,
            skip,
            shape,
            columns,
            ends,
            cells,
            lines,
            counters,
            flags,
            totals,
            matches,
        );
        last = place;
        now = now.moved(next);
    }
    Tested { cycle: now, last }
}

// The same with the match bytes of the last test.
fn make_tests(
    cycle: Cycle,
    most: usize,
    shape: Shape,
    checks: usize,
    matrix: &[u8],
    cells: &[u8],
    lines: &[u8],
    counters: &mut [u8],
    flags: &mut [u8],
    totals: &mut [u8],
    matches: &mut [u8],
) -> Cycle
    requires matrix_lent { MatrixLent shape checks matrix.now }
    requires rows_lent { RowsLent shape (with_all cells.now lines.now counters.old flags.old totals.old no_memory) (length matches.old) }
    requires lookups_left { LookupsLeft shape 2 cycle }
    ensures { (mem : Memory)
        → stepping shape most (giving (accepted 0) matches.old (state_of (with_all cells.now lines.now counters.old flags.old totals.old mem) cycle))
        ≡ changing (done_with result) matches.new (with_all cells.now lines.now counters.new flags.new totals.new mem) }
{
    if most == 0 {
        return cycle;
    }
    let radix = shape.radix;
    let column = cycle.place.column;
    reduce_rows(counters, radix);
    take_down(cells, matrix.len(), column, matches);
    let tested = count_tests(
        cycle, most, shape, checks, matrix, cells, lines, counters, flags, totals, matches,
    );
    let last = tested.last;
    let input = scale(last.factor, radix, last.digit) as u8;
    match_column(lines, matches, input);
    tested.cycle
}

// The steps after an opening: the second one, where it was the first, and then the tests.
fn make_rest(
    cycle: Cycle,
    most: usize,
    shape: Shape,
    checks: usize,
    matrix: &[u8],
    cells: &[u8],
    lines: &[u8],
    counters: &mut [u8],
    flags: &mut [u8],
    totals: &mut [u8],
    matches: &mut [u8],
) -> Cycle
    requires matrix_lent { MatrixLent shape checks matrix.now }
    requires rows_lent { RowsLent shape (with_all cells.now lines.now counters.old flags.old totals.old no_memory) (length matches.old) }
    requires lookups_left { LookupsLeft shape 1 cycle }
    ensures { (mem : Memory)
        → stepping shape most (giving (accepted 0) matches.old (state_of (with_all cells.now lines.now counters.old flags.old totals.old mem) cycle))
        ≡ changing (done_with result) matches.new (with_all cells.now lines.now counters.new flags.new totals.new mem) }
{
    if cycle.count != 1 {
        return make_tests(
            cycle, most, shape, checks, matrix, cells, lines, counters, flags, totals, matches,
        );
    }
    if most == 0 {
        return cycle;
    }
    let test = first(shape, matrix);
    make_opening(0, lines, flags, totals, matches);
    make_tests(
        cycle.moved(Some(test)),
        most - 1,
        shape,
        checks,
        matrix,
        cells,
        lines,
        counters,
        flags,
        totals,
        matches,
    )
}

// The steps by the check matrix, padded with 0: question 9, and then the lookups.
fn steps_at(
    cycle: Cycle,
    most: usize,
    shape: Shape,
    checks: usize,
    columns: usize,
    padded: &[u8],
    cells: &[u8],
    lines: &[u8],
    counters: &mut [u8],
    flags: &mut [u8],
    totals: &mut [u8],
    matches: &mut [u8],
) -> Changed
    requires padded_lent { PaddedLent shape checks columns padded.now }
    requires matches_value { first_no (lent_questions shape [] (all_lengths (with_all cells.now lines.now counters.old flags.old totals.old no_memory))
        (length matches.old)) ≡ 0 }
    ensures { (mem : Memory) → steps_call shape (state_of (with_all cells.now lines.now counters.old flags.old totals.old mem) cycle) most matches.old
        ≡ changing result matches.new (with_all cells.now lines.now counters.new flags.new totals.new mem) }
{
    match cycle.locate(shape, checks, columns, padded) {
        Located::Elsewhere => refused(cycle, Refusal::Record),
        Located::Opening(byte, next) => {
            if most == 0 {
                return done(cycle);
            }
            make_opening(byte, lines, flags, totals, matches);
            done(make_rest(
                cycle.moved(next),
                most - 1,
                shape,
                checks,
                &padded[..columns],
                cells,
                lines,
                counters,
                flags,
                totals,
                matches,
            ))
        }
        Located::Test(here) => done(make_tests(
            cycle,
            most,
            shape,
            checks,
            &padded[..columns],
            cells,
            lines,
            counters,
            flags,
            totals,
            matches,
        )),
    }
}

// Steps on buffers of their lengths: what they do once the questions up to 6 have been passed.
pub fn steps_lent(
    cycle: Cycle,
    shape: Shape,
    sizes: Sizes,
    most: usize,
    cells: &[u8],
    lines: &[u8],
    counters: &mut [u8],
    flags: &mut [u8],
    totals: &mut [u8],
    matches: &mut [u8],
) -> Changed
    requires { Passed (lent_questions shape [] (all_lengths (with_all cells.now lines.now counters.old flags.old totals.old no_memory))
        (length matches.old)) shape sizes }
    ensures { (mem : Memory) → steps_call shape (state_of (with_all cells.now lines.now counters.old flags.old totals.old mem) cycle) most matches.old
        ≡ changing result matches.new (with_all cells.now lines.now counters.new flags.new totals.new mem) }
{
    let columns = sizes.columns;
    let checks = sizes.checks;
    let padded = padded_length(columns);
    let mut matrix = [0u8; 256];
    fill_matrix(&mut matrix[..columns], shape, checks);
    steps_at(
        cycle,
        most,
        shape,
        checks,
        columns,
        &matrix[..padded],
        cells,
        lines,
        counters,
        flags,
        totals,
        matches,
    )
}

// Steps: at most so many of the open cycle, one after the other, up to its end. The match bytes are those of the last one.
pub fn steps(
    cycle: Cycle,
    shape: Shape,
    most: usize,
    cells: &[u8],
    lines: &[u8],
    counters: &mut [u8],
    flags: &mut [u8],
    totals: &mut [u8],
    matches: &mut [u8],
) -> Changed
    ensures { (mem : Memory) → steps_call shape (state_of (with_all cells.now lines.now counters.old flags.old totals.old mem) cycle) most matches.old
        ≡ changing result matches.new (with_all cells.now lines.now counters.new flags.new totals.new mem) }
{
    match check_step(
        shape,
        cells.len(),
        lines.len(),
        counters.len(),
        flags.len(),
        totals.len(),
        matches.len(),
    ) {
        Err(refusal) => refused(cycle, refusal),
        Ok(sizes) => steps_lent(
            cycle, shape, sizes, most, cells, lines, counters, flags, totals, matches,
        ),
    }
}
