// The paper's figures for Example 1 (m = 512, k = 50), by the library: the reads of the naive way, Table I for q = 8
// and q = 16, in radix 2 and with q for the radix, and the ones of the check matrix with more check columns (footnote 6).
// What it prints is held to the paper's numbers in the file stdout.
#![tactic(auto)]

use acam::matrix::matrix_of;
use cycle::Cycle;
use cycle_run::run_cycle;
use cycle_sizes::count_ones;
use parity::Shape;
use shape::sizes::check_shape;
use std::io;

fn example(radix: usize, digits: usize, errors: usize, width: usize, rows: usize) -> Shape {
    Shape {
        radix,
        digits,
        errors,
        width,
        rows,
    }
}

// The lookups of a whole cycle, made on one row and counted by the record; its two openings, which the paper does not have,
// are left out.
fn lookups_made(shape: Shape, columns: usize) -> usize {
    let cells = [0u8; 64];
    let lines = [0u8; 1];
    let mut counters = [0u8; 1];
    let mut flags = [0u8; 1];
    let mut totals = [0u8; 1];
    let mut matches = [0u8; 1];
    if 64 < columns {
        return 0;
    }
    let ended = run_cycle(
        Cycle::IDLE,
        shape,
        0,
        &cells[..columns],
        &lines,
        &mut counters,
        &mut flags,
        &mut totals,
        &mut matches,
    );
    let cycle = ended.cycle;
    let count = cycle.count;
    if count < 2 {
        return 0;
    }
    count - 2
}

fn put(rt: &impl Print, word: &str, value: usize) -> io::Result<()> {
    print!(rt; "{word}{value}")
}

fn end_line(rt: &impl Print) -> io::Result<()> {
    println!(rt)
}

// The naive way reads the thresholds of all m × k cells.
fn naive_reads(rt: &impl Print, shape: Shape) -> io::Result<()> {
    let Ok(_) = check_shape(shape) else {
        return Ok(());
    };
    put(rt, "naive reads ", shape.rows * shape.width)?;
    end_line(rt)
}

// One row of Table I.
fn table_row(rt: &impl Print, errors: usize) -> io::Result<()> {
    let eight = example(2, 3, errors, 50, 1);
    let Ok(sizes) = check_shape(eight) else {
        return Ok(());
    };
    let checks = sizes.checks;
    let columns = sizes.columns;
    let matrix = matrix_of(eight, checks);
    put(rt, "tau ", errors)?;
    put(rt, " r ", checks)?;
    put(rt, " n ", columns)?;
    put(rt, " ones ", count_ones(&matrix))?;
    put(rt, " q8 ", lookups_made(eight, columns))?;
    put(
        rt,
        " q16 ",
        lookups_made(example(2, 4, errors, 50, 1), columns),
    )?;
    end_line(rt)
}

// The lookups of that row where q is the radix and there is one digit: the figures of Table I apply also to this case, the paper
// says.
fn whole_levels(rt: &impl Print, errors: usize) -> io::Result<()> {
    let eight = example(8, 1, errors, 50, 1);
    let Ok(sizes) = check_shape(eight) else {
        return Ok(());
    };
    let columns = sizes.columns;
    put(rt, "b 1 tau ", errors)?;
    put(rt, " q8 ", lookups_made(eight, columns))?;
    put(
        rt,
        " q16 ",
        lookups_made(example(16, 1, errors, 50, 1), columns),
    )?;
    end_line(rt)
}

// The ones of 50 rule columns and r check columns, each of which has one, by the least shape that has r of them.
fn wider(rt: &impl Print, width: usize) -> io::Result<()> {
    let shape = example(2, 3, 2, width, 1);
    let Ok(sizes) = check_shape(shape) else {
        return Ok(());
    };
    let checks = sizes.checks;
    let matrix = matrix_of(shape, checks);
    put(rt, "tau 2 r ", checks)?;
    put(rt, " ones ", count_ones(&matrix[..50]) + checks)?;
    end_line(rt)
}

fn main(rt: HostRuntime) -> io::Result<()> {
    naive_reads(&rt, example(2, 3, 1, 50, 512))?;
    table_row(&rt, 1)?;
    table_row(&rt, 2)?;
    table_row(&rt, 3)?;
    whole_levels(&rt, 1)?;
    whole_levels(&rt, 2)?;
    whole_levels(&rt, 3)?;
    // footnote 6 goes on to r = 11; document 01 has at most 8 check columns, since a column is a byte
    wider(&rt, 58)?;
    wider(&rt, 121)
}
