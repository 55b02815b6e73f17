// One job: bytes in, text out, on lent buffers.
#![tactic(auto)]

mod run;

ghost use Rattle.std.specs.Prelude.{◌≡◌};
ghost use Rattle.job.specs.Job.{enough, space, printed, job_call};

use array_memory::blocks::{BLOCK, block_count};
use job_parse::MAX_CELLS;
use job_parse::questions::{check_job, shape_of};
use job_text::print::{put_head, put_refusal, put_rows};
use run::run_calls;
use shape::sizes::Sizes;

// The totals of the most rows that an array has.
pub const MAX_TOTALS: usize = Sizes::MAX_ROWS / BLOCK;

// No job's text is longer.
pub const MAX_TEXT: usize = 200000;

// Whether buffers of these lengths hold the largest job.
fn has_room(
    cells: usize,
    lines: usize,
    counters: usize,
    flags: usize,
    totals: usize,
    matches: usize,
    out: usize,
) -> bool
    ensures { result ≡ enough cells lines counters flags totals matches out }
{
    if cells < MAX_CELLS {
        return false;
    }
    if lines < Sizes::MAX_ROWS {
        return false;
    }
    if counters < Sizes::MAX_ROWS {
        return false;
    }
    if flags < Sizes::MAX_ROWS {
        return false;
    }
    if totals < MAX_TOTALS {
        return false;
    }
    if matches < Sizes::MAX_ROWS {
        return false;
    }
    MAX_TEXT <= out
}

// Runs a job and gives the length of the text that it prints, which stands at the start of out. The buffers need at least
// the lengths of the largest job: MAX_CELLS for cells, MAX_ROWS each for lines, counters, flags and matches, MAX_TOTALS for
// totals, MAX_TEXT for out; there is no upper bound. Where one is shorter nothing is done, and the length is 0. A refused job
// writes its one line, and nothing else. A job that is taken leaves its m × n cells, m lines, all sound, m counters, m flags, the
// totals of its blocks and the m match bytes of its last lookup at the start of those buffers. Every other byte stays as it was.
pub fn job(
    input: &[u8],
    cells: &mut [u8],
    lines: &mut [u8],
    counters: &mut [u8],
    flags: &mut [u8],
    totals: &mut [u8],
    matches: &mut [u8],
    out: &mut [u8],
) -> usize
    ensures { job_call input.now (space cells.old lines.old counters.old flags.old totals.old matches.old out.old)
        ≡ printed result (space cells.new lines.new counters.new flags.new totals.new matches.new out.new) }
{
    if !has_room(
        cells.len(),
        lines.len(),
        counters.len(),
        flags.len(),
        totals.len(),
        matches.len(),
        out.len(),
    ) {
        return 0;
    }
    match check_job(input) {
        Err(refusal) => put_refusal(out, refusal.number()),
        Ok(sizes) => {
            let shape = shape_of(input);
            let rows = shape.rows;
            let end = sizes.cells;
            let blocks = block_count(rows);
            let ended = run_calls(
                input,
                shape,
                &mut cells[..end],
                &mut lines[..rows],
                &mut counters[..rows],
                &mut flags[..rows],
                &mut totals[..blocks],
                &mut matches[..rows],
            );
            let cycle = ended.cycle;
            let head = put_head(out, sizes.levels, sizes.columns, cycle.count);
            put_rows(out, head, &flags[..rows])
        }
    }
}
