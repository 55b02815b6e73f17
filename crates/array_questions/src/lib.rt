// The questions of the calls on the cells, on the lines and on the whole memory, asked in their order: each function gives the
// shape's sizes, or the refusal of the first no.
#![tactic(auto)]

pub mod memory;

ghost use Rattle.std.specs.Prelude.{◌≡◌};
ghost use Rattle.parity.specs.Questions.{first_no};
ghost use Rattle.shape.specs.Shapes.{checked_says, sizes_if};
ghost use Rattle.array_questions.specs.Questions.{cells_questions, lines_questions, sound_arguments, read_arguments, drift_arguments};
ghost use Rattle.array_questions.specs.Questions.{line_arguments, program_arguments, ask_arguments, commit_arguments};

use acam::matrix::matrix_of;
use acam::sound::is_balanced;
use parity::Shape;
use shape::answer::{Answer, Refusal};
use shape::byte::all_below;
use shape::questions::{ask, same_lengths};
use shape::sizes::{Sizes, check_shape};

// Sound.
pub fn check_sound(shape: Shape, cells: usize, row: usize) -> Answer<Sizes>
    ensures { checked_says result ≡ sizes_if (first_no (cells_questions shape cells (sound_arguments shape row))) shape }
{
    let sizes = check_shape(shape)?;
    ask(&[
        (Refusal::Length, cells == sizes.cells),
        (Refusal::Place, row < shape.rows),
    ])?;
    Ok(sizes)
}

// Read.
pub fn check_read(shape: Shape, cells: usize, row: usize, out: usize) -> Answer<Sizes>
    ensures { checked_says result ≡ sizes_if (first_no (cells_questions shape cells (read_arguments shape row out))) shape }
{
    let sizes = check_shape(shape)?;
    ask(&[
        (Refusal::Length, cells == sizes.cells),
        (Refusal::Length, out == shape.width),
        (Refusal::Place, row < shape.rows),
    ])?;
    Ok(sizes)
}

// Drift.
pub fn check_drift(
    shape: Shape,
    cells: usize,
    row: usize,
    column: usize,
    level: u8,
) -> Answer<Sizes>
    ensures { checked_says result ≡ sizes_if (first_no (cells_questions shape cells (drift_arguments shape row column level))) shape }
{
    let sizes = check_shape(shape)?;
    ask(&[
        (Refusal::Length, cells == sizes.cells),
        (Refusal::Place, row < shape.rows),
        (Refusal::Place, column < sizes.columns),
        (Refusal::Level, usize::from(level) < sizes.levels),
    ])?;
    Ok(sizes)
}

// Line.
pub fn check_line(shape: Shape, lines: usize, row: usize, byte: u8) -> Answer<Sizes>
    ensures { checked_says result ≡ sizes_if (first_no (lines_questions shape lines (line_arguments shape row byte))) shape }
{
    let sizes = check_shape(shape)?;
    ask(&[
        (Refusal::Length, lines == shape.rows),
        (Refusal::Place, row < shape.rows),
        (Refusal::Line, byte <= 2),
    ])?;
    Ok(sizes)
}

// Program.
pub fn check_program(shape: Shape, cells: usize, row: usize, given: &[u8]) -> Answer<Sizes>
    ensures { checked_says result ≡ sizes_if (first_no (cells_questions shape cells (program_arguments shape row given.now))) shape }
{
    let sizes = check_shape(shape)?;
    ask(&[
        (Refusal::Length, cells == sizes.cells),
        (Refusal::Length, given.len() == shape.width),
        (Refusal::Place, row < shape.rows),
    ])?;
    Refusal::Level.unless(all_below(given, sizes.levels))?;
    Ok(sizes)
}

// Ask.
pub fn check_ask(
    shape: Shape,
    cells: usize,
    row: usize,
    given: &[u8],
    finished: usize,
) -> Answer<Sizes>
    ensures { checked_says result ≡ sizes_if (first_no (cells_questions shape cells (ask_arguments shape row given.now finished))) shape }
{
    let sizes = check_shape(shape)?;
    let lent = [given.len(), finished];
    let wanted = [shape.width, sizes.columns];
    ask(&[
        (Refusal::Length, cells == sizes.cells),
        (Refusal::Length, same_lengths(&lent, &wanted)),
        (Refusal::Place, row < shape.rows),
    ])?;
    Refusal::Level.unless(all_below(given, sizes.levels))?;
    Ok(sizes)
}

// Commit: whether the row is sound is looked at only where its cells are n levels.
pub fn check_commit(shape: Shape, cells: usize, row: usize, finished: &[u8]) -> Answer<Sizes>
    ensures { checked_says result ≡ sizes_if (first_no (cells_questions shape cells (commit_arguments shape row finished.now))) shape }
{
    let sizes = check_shape(shape)?;
    ask(&[
        (Refusal::Length, cells == sizes.cells),
        (Refusal::Length, finished.len() == sizes.columns),
        (Refusal::Place, row < shape.rows),
    ])?;
    Refusal::Level.unless(all_below(finished, sizes.levels))?;
    let matrix = matrix_of(shape, sizes.checks);
    Refusal::Finished.unless(is_balanced(shape, sizes.checks, finished, &matrix))?;
    Ok(sizes)
}
