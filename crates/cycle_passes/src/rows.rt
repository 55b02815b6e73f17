// The passes of a step over the rows.
ghost use Rattle.std.specs.Prelude.{◌≡◌, ◌+◌, ◌%◌, ◌≤◌, ◌<◌, length, replicate};
ghost use Rattle.shape.specs.Bounds.{Within};
ghost use Rattle.cycle_passes.specs.Passes.{column_cells, reduced_bytes, column_matches, given_bytes, counted_bytes, flagged_bytes};
ghost use Rattle.cycle_passes.specs.Passes.{ColumnLent, ToCount};

use acam::compare::{cell_match, line_gives};
use shape::byte::all_below;

// The cells of one column, row after row, from the first. The place of a row's cell runs along with the rows: with a product for
// each row this loop took a tenth more at 64 rows, and the next one at 4,096.
pub fn take_down(cells: &[u8], columns: usize, column: usize, bytes: &mut [u8])
    requires { ColumnLent (length cells.now) columns column (length bytes.old) }
    ensures { bytes.new ≡ column_cells columns column cells.now (length bytes.old) }
{
    let mut at = column;
    for byte in bytes.iter_mut() {
        *byte = cells[at];
        at += columns;
    }
}

// The same, from the last row. Two loops, since one over an order of the rows that is given would be no plainer.
fn take_up(cells: &[u8], columns: usize, column: usize, bytes: &mut [u8])
    requires { ColumnLent (length cells.now) columns column (length bytes.old) }
    ensures { bytes.new ≡ column_cells columns column cells.now (length bytes.old) }
{
    let mut at = bytes.len() * columns + column;
    for i in (0..bytes.len()).rev() {
        at -= columns;
        bytes[i] = cells[at];
    }
}

// The same, from either end: a column after another is best taken from the end at which that one was left, where the cells
// are at hand still.
pub fn take_column(cells: &[u8], columns: usize, column: usize, up: bool, bytes: &mut [u8])
    requires { ColumnLent (length cells.now) columns column (length bytes.old) }
    ensures { bytes.new ≡ column_cells columns column cells.now (length bytes.old) }
{
    if up {
        take_up(cells, columns, column, bytes);
        return;
    }
    take_down(cells, columns, column, bytes);
}

// The same, where the bytes are those of the column that is held: nothing is to be done if it is this one.
pub fn hold_column(cells: &[u8], columns: usize, column: usize, held: usize, bytes: &mut [u8])
    requires column_lent { ColumnLent (length cells.now) columns column (length bytes.old) }
    requires bytes_value { column ≡ held → bytes.old ≡ column_cells columns column cells.now (length bytes.old) }
    ensures { bytes.new ≡ column_cells columns column cells.now (length bytes.old) }
{
    if column == held {
        return;
    }
    take_down(cells, columns, column, bytes);
}

// Any bytes count by their remainders. Counters below ρ, as accepted steps leave them, are their own.
pub fn reduce_rows(counters: &mut [u8], radix: usize)
    requires { Within 1 radix 255 }
    ensures { counters.new ≡ reduced_bytes radix counters.old }
{
    if all_below(counters, radix) {
        return;
    }
    let radix = radix as u8;
    for counter in counters.iter_mut() {
        *counter %= radix;
    }
}

// A counter below ρ with a match byte added, mod ρ: no remainder has to be taken.
fn add_match(counter: u8, byte: u8, radix: u8) -> u8
    requires counter_lt_radix { counter < radix }
    requires byte_bound { byte ≤ 1 }
    ensures { result ≡ (counter + byte) % radix }
{
    let sum = counter + byte;
    if sum == radix { 0 } else { sum }
}

// The match byte of each row, in the place of its cell in the one column that is fed, and added to the row's counter. In this
// loop and the next each byte is chosen before its one store, so that they are compiled to vector code. What `count_column` and
// `match_column` do, one after the other, is done here in one loop: the two took half as long again.
pub fn count_matches(counters: &mut [u8], lines: &[u8], matches: &mut [u8], input: u8, radix: u8)
    requires { ToCount counters.old lines.now (length matches.old) radix }
    ensures matched { matches.new ≡ column_matches input lines.now matches.old }
    ensures counted { counters.new ≡ counted_bytes radix counters.old matches.new }
{
    for i in 0..counters.len() {
        let byte = cell_match(lines[i], input, matches[i]);
        matches[i] = byte;
        counters[i] = add_match(counters[i], byte, radix);
    }
}

// The same by a column's cells that are kept, since the match bytes of this test are not asked for.
pub fn count_column(counters: &mut [u8], lines: &[u8], column: &[u8], input: u8, radix: u8)
    requires { ToCount counters.old lines.now (length column.now) radix }
    ensures { counters.new ≡ counted_bytes radix counters.old (column_matches input lines.now column.now) }
{
    for i in 0..counters.len() {
        let byte = cell_match(lines[i], input, column[i]);
        counters[i] = add_match(counters[i], byte, radix);
    }
}

// The match bytes alone, each in the place of its cell.
pub fn match_column(lines: &[u8], matches: &mut [u8], input: u8)
    requires { length lines.now ≡ length matches.old }
    ensures { matches.new ≡ column_matches input lines.now matches.old }
{
    for i in 0..matches.len() {
        matches[i] = cell_match(lines[i], input, matches[i]);
    }
}

// The match byte of each row by its line alone, where every row's cells say the same.
pub fn match_lines(lines: &[u8], said: u8, matches: &mut [u8])
    requires { length lines.now ≡ length matches.old }
    ensures { matches.new ≡ given_bytes said lines.now (length matches.old) }
{
    for i in 0..matches.len() {
        matches[i] = line_gives(lines[i], said);
    }
}

// Flags each row whose sign isn't the quiet one, and leaves the other flags as they are: after a test the sign is the counter,
// and 0 is quiet; at an opening it is the match byte, and quiet is the one that a sound line gives.
pub fn flag_rows(signs: &[u8], quiet: u8, flags: &mut [u8])
    requires { length signs.now ≡ length flags.old }
    ensures { flags.new ≡ flagged_bytes signs.now quiet flags.old }
{
    for i in 0..flags.len() {
        // one store for both cases, so that the loop can be compiled to vector code
        let kept = flags[i];
        let new = if signs[i] == quiet { kept } else { 1 };
        flags[i] = new;
    }
}

// Counters, flags and totals where a cycle begins: all 0.
pub fn reset_rows(counters: &mut [u8], flags: &mut [u8], totals: &mut [u8])
    ensures counted { counters.new ≡ replicate (length counters.old) 0 }
    ensures flagged { flags.new ≡ replicate (length flags.old) 0 }
    ensures totalled { totals.new ≡ replicate (length totals.old) 0 }
{
    counters.fill(0);
    flags.fill(0);
    totals.fill(0);
}
