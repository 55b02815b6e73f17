// The calls that look at one row of an array: sound and read.
ghost use Rattle.std.specs.Prelude.{◌≡◌, length};
ghost use Rattle.shape.specs.Answers.{accepted, verdict_says, outcome_says, giving};
ghost use Rattle.shape.specs.Shapes.{Passed};
ghost use Rattle.array_memory.specs.Memory.{Memory, with_cells};
ghost use Rattle.array_questions.specs.Questions.{cells_questions, sound_arguments, read_arguments};
ghost use Rattle.array.specs.Calls.{sound_call, read_call};

use acam::matrix::matrix_of;
use acam::sound::is_sound;
use array_questions::{check_read, check_sound};
use parity::Shape;
use shape::answer::Answer;
use shape::byte::copy;
use shape::sizes::Sizes;

pub fn sound_lent(shape: Shape, sizes: Sizes, cells: &[u8], row: usize) -> bool
    requires { Passed (cells_questions shape (length cells.now) (sound_arguments shape row)) shape sizes }
    ensures { (mem : Memory) → sound_call shape (with_cells cells.now mem) row ≡ accepted result }
{
    let levels = sizes.levels;
    let checks = sizes.checks;
    let columns = sizes.columns;
    let start = row * columns;
    let end = start + columns;
    let matrix = matrix_of(shape, checks);
    is_sound(shape, checks, levels, &cells[start..end], &matrix)
}

// Sound: whether a row of the array is sound.
pub fn sound(shape: Shape, cells: &[u8], row: usize) -> Answer<bool>
    ensures { (mem : Memory) → sound_call shape (with_cells cells.now mem) row ≡ verdict_says result }
{
    let sizes = check_sound(shape, cells.len(), row)?;
    Ok(sound_lent(shape, sizes, cells, row))
}

pub fn read_lent(shape: Shape, sizes: Sizes, cells: &[u8], row: usize, out: &mut [u8])
    requires { Passed (cells_questions shape (length cells.now) (read_arguments shape row (length out.old))) shape sizes }
    ensures { (mem : Memory) → read_call shape (with_cells cells.now mem) row out.old ≡ giving (accepted 0) out.new (with_cells cells.now mem) }
{
    let columns = sizes.columns;
    let width = shape.width;
    let start = row * columns;
    let end = start + width;
    copy(&cells[start..end], out);
}

// Read: copies the k rule cells of a row out.
pub fn read(shape: Shape, cells: &[u8], row: usize, out: &mut [u8]) -> Answer<()>
    ensures { (mem : Memory) → read_call shape (with_cells cells.now mem) row out.old ≡ giving (outcome_says result) out.new (with_cells cells.now mem) }
{
    let sizes = check_read(shape, cells.len(), row, out.len())?;
    read_lent(shape, sizes, cells, row, out);
    Ok(())
}
