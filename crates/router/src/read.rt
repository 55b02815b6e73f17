// Rule at: a rule read back from its row.
ghost use Rattle.std.specs.Prelude.{◌≡◌, [], length};
ghost use Rattle.shape.specs.Answers.{accepted, giving};
ghost use Rattle.shape.specs.Shapes.{Passed};
ghost use Rattle.array_memory.specs.Memory.{Memory, with_cells};
ghost use Rattle.router_ranges.specs.Ranges.{ranges_of};
ghost use Rattle.router_questions.specs.Questions.{rule_at_questions};
ghost use Rattle.router.specs.Calls.{rule_at_call};
ghost use Rattle.router.specs.Answers.{belt_says};

use super::pairs::unpair;
use parity::Shape;
use router_questions::check_rule_at;
use shape::answer::Answer;
use shape::sizes::Sizes;

// A reading whose questions have been passed: the ranges go to the buffers, and the belt is the answer.
pub fn rule_at_lent(
    shape: Shape,
    sizes: Sizes,
    cells: &[u8],
    belts: &[u8],
    row: usize,
    lows: &mut [u8],
    highs: &mut [u8],
) -> u8
    requires { Passed (rule_at_questions shape (length cells.now) (length belts.now) row (length lows.old) (length highs.old)) shape sizes }
    ensures { (mem : Memory) → rule_at_call shape (with_cells cells.now mem) belts.now row (ranges_of lows.old highs.old)
        ≡ giving (accepted result) [] (ranges_of lows.new highs.new) }
{
    let columns = sizes.columns;
    let start = row * columns;
    let end = start + columns;
    let top = (sizes.levels - 1) as u8;
    unpair(top, &cells[start..end], lows, highs);
    belts[row]
}

// Rule at: the ranges and the belt that stand in a row.
pub fn rule_at(
    shape: Shape,
    cells: &[u8],
    belts: &[u8],
    row: usize,
    lows: &mut [u8],
    highs: &mut [u8],
) -> Answer<u8>
    ensures { (mem : Memory) → rule_at_call shape (with_cells cells.now mem) belts.now row (ranges_of lows.old highs.old)
        ≡ giving (belt_says result) [] (ranges_of lows.new highs.new) }
{
    let sizes = check_rule_at(
        shape,
        cells.len(),
        belts.len(),
        row,
        lows.len(),
        highs.len(),
    )?;
    Ok(rule_at_lent(shape, sizes, cells, belts, row, lows, highs))
}
