// Ask: what a row would become, before it goes live.
ghost use Rattle.std.specs.Prelude.{◌≡◌, length};
ghost use Rattle.shape.specs.Answers.{accepted, answer_says, giving};
ghost use Rattle.shape.specs.Shapes.{Passed};
ghost use Rattle.array_memory.specs.Memory.{Memory, with_cells};
ghost use Rattle.array_questions.specs.Questions.{cells_questions, ask_arguments};
ghost use Rattle.array.specs.Calls.{ask_call};

use super::write::program_row;
use array_questions::check_ask;
use parity::Shape;
use shape::answer::Answer;
use shape::byte::count_differences;
use shape::sizes::Sizes;

pub fn ask_lent(
    shape: Shape,
    sizes: Sizes,
    cells: &[u8],
    row: usize,
    given: &[u8],
    finished: &mut [u8],
) -> usize
    requires { Passed (cells_questions shape (length cells.now) (ask_arguments shape row given.now (length finished.old))) shape sizes }
    ensures { (mem : Memory) → ask_call shape (with_cells cells.now mem) row given.now finished.old
        ≡ giving (accepted result) finished.new (with_cells cells.now mem) }
{
    let checks = sizes.checks;
    let columns = sizes.columns;
    let start = row * columns;
    let end = start + columns;
    program_row(shape, checks, finished, given);
    usize::from(count_differences(finished, &cells[start..end]))
}

// Writes the finished row of these levels into the buffer, and answers in how many cells it differs from the row as it
// stands. The array is lent to be read alone.
pub fn ask(
    shape: Shape,
    cells: &[u8],
    row: usize,
    given: &[u8],
    finished: &mut [u8],
) -> Answer<usize>
    ensures { (mem : Memory) → ask_call shape (with_cells cells.now mem) row given.now finished.old
        ≡ giving (answer_says result) finished.new (with_cells cells.now mem) }
{
    let sizes = check_ask(shape, cells.len(), row, given, finished.len())?;
    Ok(ask_lent(shape, sizes, cells, row, given, finished))
}
