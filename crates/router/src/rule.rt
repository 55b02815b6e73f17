// Rule: what a fitter programs a row with.
ghost use Rattle.std.specs.Prelude.{◌≡◌, [], length};
ghost use Rattle.shape.specs.Answers.{accepted, giving};
ghost use Rattle.shape.specs.Shapes.{Passed};
ghost use Rattle.array_memory.specs.Memory.{Memory, with_cells};
ghost use Rattle.cycle.specs.Calls.{state_of};
ghost use Rattle.cycle.specs.Methods.{changing};
ghost use Rattle.cycle.specs.Record.{idle};
ghost use Rattle.cycle.specs.declared.Cycle.{Cycle as CycleRecord};
ghost use Rattle.router_ranges.specs.Ranges.{ranges_of, rule_of};
ghost use Rattle.router_questions.specs.Questions.{rule_questions};
ghost use Rattle.router.specs.Calls.{router_of, with_belts, rule_call};

use super::pairs::pair;
use array::write::write_row;
use cycle::calls::{done, refused};
use cycle::{Changed, Cycle};
use parity::Shape;
use router_questions::check_rule;
use shape::sizes::Sizes;

// A rule whose questions have been passed: its levels are made in an array of the call's own, of fixed length since there is no
// heap, and the row is written from them.
pub fn rule_lent(
    shape: Shape,
    sizes: Sizes,
    cells: &mut [u8],
    belts: &mut [u8],
    row: usize,
    lows: &[u8],
    highs: &[u8],
    belt: u8,
)
    requires { Passed (rule_questions shape (length cells.old) (length belts.old) row (ranges_of lows.now highs.now)) shape sizes }
    ensures { (mem : Memory) (cycle : CycleRecord)
        → rule_call shape (router_of (state_of (with_cells cells.old mem) cycle) belts.old) row (rule_of lows.now highs.now belt)
        ≡ giving (accepted 0) [] (router_of (state_of (with_cells cells.new mem) idle) belts.new) }
{
    let width = shape.width;
    let top = (sizes.levels - 1) as u8;
    let mut levels = [0u8; 254];
    pair(top, highs, lows, &mut levels[..width]);
    write_row(shape, sizes, cells, row, &levels[..width]);
    belts[row] = belt;
}

// Rule: a row becomes a rule, by its ranges and its belt; the record becomes idle.
pub fn rule(
    cycle: Cycle,
    shape: Shape,
    cells: &mut [u8],
    belts: &mut [u8],
    row: usize,
    lows: &[u8],
    highs: &[u8],
    belt: u8,
) -> Changed
    ensures { (mem : Memory)
        → rule_call shape (router_of (state_of (with_cells cells.old mem) cycle) belts.old) row (rule_of lows.now highs.now belt)
        ≡ with_belts belts.new (changing result [] (with_cells cells.new mem)) }
{
    match check_rule(shape, cells.len(), belts.len(), row, lows, highs) {
        Err(refusal) => refused(cycle, refusal),
        Ok(sizes) => {
            rule_lent(shape, sizes, cells, belts, row, lows, highs, belt);
            done(Cycle::IDLE)
        }
    }
}
