// The controller's own record, which is moved on in place.
#![tactic(auto)]

ghost use Rattle.std.specs.Prelude.{◌≡◌};
ghost use Rattle.shape.specs.Answers.{outcome_says, giving};
ghost use Rattle.array_memory.specs.Memory.{Memory, with_all};
ghost use Rattle.cycle.specs.Calls.{state_of, step_call};

use cycle::Cycle;
use parity::Shape;
use shape::answer::Answer;

// A step by the record that the controller keeps. The step takes it by value, and what it hands back is stored: of
// a refused step, the record as it was.
pub fn step_in_place(
    cycle: &mut Cycle,
    shape: Shape,
    cells: &[u8],
    lines: &[u8],
    counters: &mut [u8],
    flags: &mut [u8],
    totals: &mut [u8],
    matches: &mut [u8],
) -> Answer<()>
    ensures { (mem : Memory) → step_call shape (state_of (with_all cells.now lines.now counters.old flags.old totals.old mem) cycle.old) matches.old
        ≡ giving (outcome_says result) matches.new (state_of (with_all cells.now lines.now counters.new flags.new totals.new mem) cycle.new) }
{
    let before = *cycle;
    let stepped = before.step(shape, cells, lines, counters, flags, totals, matches);
    let after = stepped.cycle;
    *cycle = after;
    stepped.outcome
}
