// A test's lookup, which feeds one column.
ghost use Rattle.std.specs.Prelude.{◌≡◌, cond, ◌&&◌, length, replicate};
ghost use Rattle.array_memory.specs.Blocks.{block_totals};
ghost use Rattle.array_memory.specs.Memory.{Memory, no_memory, with_all, with_array};
ghost use Rattle.cycle_passes.specs.Passes.{column_cells, flagged_bytes};
ghost use Rattle.cycle_place.specs.Walk.{test_of};
ghost use Rattle.cycle_lookup.specs.Lookup.{entry_matches, looked_up};
ghost use Rattle.cycle_lookup.specs.Rows.{TestNext, RowsLent, Holding, FlagsCounted};

use cycle_passes::rows::{
    count_column, count_matches, flag_rows, hold_column, reduce_rows, take_column,
};
use cycle_passes::totals::total_blocks;
use cycle_place::Place;
use cycle_place::factors::scale;
use parity::Shape;

// What is done once a test is counted: where it ends a digit, the rows whose counters are not 0 are flagged and the blocks'
// totals counted anew; after the last digit of a check row, the lowest that is not skipped, the counters return to 0.
fn end_test(ends: bool, lowest: bool, counters: &mut [u8], flags: &mut [u8], totals: &mut [u8])
    requires { FlagsCounted (length counters.old) (length flags.old) (length totals.old) }
    ensures counted { counters.new ≡ cond (ends && lowest) (replicate (length counters.old) 0) counters.old }
    ensures flagged { flags.new ≡ cond ends (flagged_bytes counters.old 0 flags.old) flags.old }
    ensures totalled { totals.new ≡ cond ends (block_totals flags.new) totals.old }
{
    if !ends {
        return;
    }
    flag_rows(counters, 0, flags);
    total_blocks(flags, totals);
    if !lowest {
        return;
    }
    counters.fill(0);
}

// A test: the match bytes, the counters, and what is done where it ends a digit.
pub fn make_test(
    place: Place,
    skip: usize,
    shape: Shape,
    columns: usize,
    ends: bool,
    cells: &[u8],
    lines: &[u8],
    counters: &mut [u8],
    flags: &mut [u8],
    totals: &mut [u8],
    matches: &mut [u8],
)
    requires test_next { TestNext skip shape place columns ends }
    requires rows_lent { RowsLent shape (with_all cells.now lines.now counters.old flags.old totals.old no_memory) (length matches.old) }
    ensures matched { (mem : Memory) → entry_matches shape (test_of skip shape place) (with_array cells.now lines.now mem) ≡ matches.new }
    ensures stepped { (mem : Memory)
        → looked_up shape (test_of skip shape place) (with_all cells.now lines.now counters.old flags.old totals.old mem)
        ≡ with_all cells.now lines.now counters.new flags.new totals.new mem }
{
    let radix = shape.radix;
    let digit = place.digit;
    // a × ρ^s is below q, and so a byte
    let input = scale(place.factor, radix, digit) as u8;
    // the next factor's step finds the last rows' cells at hand
    let up = place.factor / 2 % 2 == 1;
    take_column(cells, columns, place.column, up, matches);
    reduce_rows(counters, radix);
    count_matches(counters, lines, matches, input, radix as u8);
    end_test(ends, digit <= skip, counters, flags, totals);
}

// The same but for the match bytes, which are not asked for: in their place stand the cells of the test's column, and are taken
// anew only where another column is held. The counters are below ρ, and `unit` is ρ^s.
pub fn count_test(
    place: Place,
    held: usize,
    unit: usize,
    skip: usize,
    shape: Shape,
    columns: usize,
    ends: bool,
    cells: &[u8],
    lines: &[u8],
    counters: &mut [u8],
    flags: &mut [u8],
    totals: &mut [u8],
    matches: &mut [u8],
)
    requires test_next { TestNext skip shape place columns ends }
    requires rows_lent { RowsLent shape (with_all cells.now lines.now counters.old flags.old totals.old no_memory) (length matches.old) }
    requires holding { Holding shape place held unit cells.now counters.old matches.old }
    ensures held { matches.new ≡ column_cells columns place.column cells.now (length matches.old) }
    ensures stepped { (mem : Memory)
        → looked_up shape (test_of skip shape place) (with_all cells.now lines.now counters.old flags.old totals.old mem)
        ≡ with_all cells.now lines.now counters.new flags.new totals.new mem }
{
    let radix = shape.radix as u8;
    let digit = place.digit;
    let column = place.column;
    let input = (place.factor * unit) as u8;
    hold_column(cells, columns, column, held, matches);
    count_column(counters, lines, matches, input, radix);
    end_test(ends, digit <= skip, counters, flags, totals);
}
