// The calls of a job: clear, program every row, the drifts, one cycle.
ghost use Rattle.std.specs.Prelude.{◌≡◌, length};
ghost use Rattle.array_memory.specs.Memory.{Memory, no_memory, with_all, with_cells};
ghost use Rattle.cycle_lookup.specs.Rows.{RowsLent};
ghost use Rattle.cycle.specs.Record.{idle};
ghost use Rattle.cycle.specs.Calls.{state_of};
ghost use Rattle.cycle.specs.Methods.{changing};
ghost use Rattle.job_parse.specs.Parse.{drift_count};
ghost use Rattle.job.specs.Job.{after_programs, after_drifts, job_run};
ghost use Rattle.job.specs.Ready.{Ready};

use array::drift::drift;
use cycle::{Changed, Cycle};
use cycle_run::run_cycle;
use job_parse::questions::two_at;
use parity::Shape;

// Programs every row with its levels.
fn program_rows(input: &[u8], shape: Shape, cells: &mut [u8])
    requires { Ready input.now shape }
    ensures { (mem : Memory) → after_programs input.now shape.rows (state_of (with_cells cells.old mem) idle)
        ≡ state_of (with_cells cells.new mem) idle }
{
    let width = shape.width;
    for row in 0..shape.rows {
        let start = 11 + row * width;
        Cycle::IDLE.program(shape, cells, row, &input[start..start + width]);
    }
}

// Applies the drifts, which stand at the end of the input.
fn drift_cells(input: &[u8], shape: Shape, cells: &mut [u8])
    requires { Ready input.now shape }
    ensures { (mem : Memory) → after_drifts input.now (drift_count input.now) (state_of (with_cells cells.old mem) idle)
        ≡ state_of (with_cells cells.new mem) idle }
{
    // two bytes with their number, and then the drifts
    let start = 13 + shape.rows * shape.width;
    let count = two_at(input, start - 2);
    for i in 0..count {
        let at = start + 4 * i;
        let row = two_at(input, at);
        let column = usize::from(input[at + 2]);
        let level = input[at + 3];
        // no drift of a job that is taken is refused
        let _ = drift(shape, cells, row, column, level);
    }
}

// Runs a job's calls on buffers of their lengths, and gives what the last of them, the whole cycle, gives.
pub(crate) fn run_calls(
    input: &[u8],
    shape: Shape,
    cells: &mut [u8],
    lines: &mut [u8],
    counters: &mut [u8],
    flags: &mut [u8],
    totals: &mut [u8],
    matches: &mut [u8],
) -> Changed
    requires ready { Ready input.now shape }
    requires rows_lent { RowsLent shape (with_all cells.old lines.old counters.old flags.old totals.old no_memory) (length matches.old) }
    ensures { job_run input.now ≡ changing result matches.new (with_all cells.new lines.new counters.new flags.new totals.new no_memory) }
{
    Cycle::IDLE.clear(shape, cells, lines, counters, flags, totals);
    program_rows(input, shape, cells);
    drift_cells(input, shape, cells);
    run_cycle(
        Cycle::IDLE,
        shape,
        0,
        cells,
        lines,
        counters,
        flags,
        totals,
        matches,
    )
}
