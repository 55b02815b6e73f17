// Drift: one cell changes to a level, and nothing else.
ghost use Rattle.std.specs.Prelude.{◌≡◌, [], length};
ghost use Rattle.shape.specs.Answers.{accepted, outcome_says, giving};
ghost use Rattle.shape.specs.Shapes.{Passed};
ghost use Rattle.array_memory.specs.Memory.{Memory, with_cells};
ghost use Rattle.array_questions.specs.Questions.{cells_questions, drift_arguments};
ghost use Rattle.array.specs.Calls.{drift_call};

use array_questions::check_drift;
use parity::Shape;
use shape::answer::Answer;
use shape::sizes::Sizes;

pub fn drift_lent(
    shape: Shape,
    sizes: Sizes,
    cells: &mut [u8],
    row: usize,
    column: usize,
    level: u8,
)
    requires { Passed (cells_questions shape (length cells.old) (drift_arguments shape row column level)) shape sizes }
    ensures { (mem : Memory) → drift_call shape (with_cells cells.old mem) row column level ≡ giving (accepted 0) [] (with_cells cells.new mem) }
{
    let columns = sizes.columns;
    let at = row * columns + column;
    cells[at] = level;
}

pub fn drift(shape: Shape, cells: &mut [u8], row: usize, column: usize, level: u8) -> Answer<()>
    ensures { (mem : Memory) → drift_call shape (with_cells cells.old mem) row column level ≡ giving (outcome_says result) [] (with_cells cells.new mem) }
{
    let sizes = check_drift(shape, cells.len(), row, column, level)?;
    drift_lent(shape, sizes, cells, row, column, level);
    Ok(())
}
