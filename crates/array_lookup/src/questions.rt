// The questions of the lookups, asked in their order: each function gives the shape's sizes, or the refusal of the first no.
ghost use Rattle.std.specs.Prelude.{◌≡◌};
ghost use Rattle.parity.specs.Questions.{first_no};
ghost use Rattle.shape.specs.Shapes.{checked_says, sizes_if};
ghost use Rattle.array_lookup.specs.Lookups.{array_questions, lookup_arguments, first_arguments};

use parity::Shape;
use shape::answer::{Answer, Refusal};
use shape::byte::all_at_most;
use shape::questions::same_lengths;
use shape::sizes::{Sizes, check_shape};

// Task lookup.
pub fn check_lookup(
    shape: Shape,
    cells: usize,
    lines: usize,
    inputs: &[u16],
    matches: usize,
) -> Answer<Sizes>
    ensures { checked_says result ≡ sizes_if (first_no (array_questions shape cells lines (lookup_arguments shape inputs.now matches))) shape }
{
    let sizes = check_shape(shape)?;
    let rows = shape.rows;
    let lent = [cells, lines, inputs.len(), matches];
    let wanted = [sizes.cells, rows, shape.width, rows];
    Refusal::Length.unless(same_lengths(&lent, &wanted))?;
    Refusal::Level.unless(all_at_most(inputs, sizes.levels))?;
    Ok(sizes)
}

// First match.
pub fn check_first(shape: Shape, cells: usize, lines: usize, inputs: &[u16]) -> Answer<Sizes>
    ensures { checked_says result ≡ sizes_if (first_no (array_questions shape cells lines (first_arguments shape inputs.now))) shape }
{
    let sizes = check_shape(shape)?;
    let lent = [cells, lines, inputs.len()];
    let wanted = [sizes.cells, shape.rows, shape.width];
    Refusal::Length.unless(same_lengths(&lent, &wanted))?;
    Refusal::Level.unless(all_at_most(inputs, sizes.levels))?;
    Ok(sizes)
}
