// One whole detection cycle as one call.
#![tactic(auto)]

ghost use Rattle.std.specs.Prelude.{◌≡◌};
ghost use Rattle.array_memory.specs.Memory.{Memory, with_all};
ghost use Rattle.cycle.specs.Calls.{state_of};
ghost use Rattle.cycle.specs.Methods.{changing};
ghost use Rattle.cycle_run.specs.Cycles.{cycle_call};

use array_questions::memory::check_run;
use cycle::calls::{refused, start_lent};
use cycle::{Changed, Cycle};
use cycle_steps::steps_lent;
use parity::Shape;

// One whole cycle: a start, and steps to its end; no cycle has more than the longest.
pub fn run_cycle(
    cycle: Cycle,
    shape: Shape,
    skip: usize,
    cells: &[u8],
    lines: &[u8],
    counters: &mut [u8],
    flags: &mut [u8],
    totals: &mut [u8],
    matches: &mut [u8],
) -> Changed
    ensures { (mem : Memory) → cycle_call shape (state_of (with_all cells.now lines.now counters.old flags.old totals.old mem) cycle) skip matches.old
        ≡ changing result matches.new (with_all cells.now lines.now counters.new flags.new totals.new mem) }
{
    match check_run(
        shape,
        skip,
        cells.len(),
        lines.len(),
        counters.len(),
        flags.len(),
        totals.len(),
        matches.len(),
    ) {
        Err(refusal) => refused(cycle, refusal),
        Ok(sizes) => {
            let started = start_lent(shape, sizes, skip, counters, flags, totals);
            steps_lent(
                started,
                shape,
                sizes,
                Cycle::MAX_COUNT,
                cells,
                lines,
                counters,
                flags,
                totals,
                matches,
            )
        }
    }
}
