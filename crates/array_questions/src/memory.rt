// The questions of the calls on the whole memory.
ghost use Rattle.std.specs.Prelude.{◌≡◌, [], ◌∷◌, eqb};
ghost use Rattle.parity.specs.Lists.{alongside};
ghost use Rattle.parity.specs.Questions.{first_no};
ghost use Rattle.shape.specs.Shapes.{checked_says, sizes_if};
ghost use Rattle.array_memory.specs.Blocks.{blocks};
ghost use Rattle.array_questions.specs.Questions.{clear_questions, start_arguments, start_questions, lent_questions};

use array_memory::blocks::block_count;
use parity::Shape;
use shape::answer::{Answer, Refusal};
use shape::questions::{ask, same_lengths};
use shape::sizes::{Sizes, check_shape};

// Clear: 6 on the whole memory.
pub fn check_clear(
    shape: Shape,
    cells: usize,
    lines: usize,
    counters: usize,
    flags: usize,
    totals: usize,
) -> Answer<Sizes>
    ensures { checked_says result ≡ sizes_if (first_no (clear_questions shape (cells ∷ lines ∷ counters ∷ flags ∷ totals ∷ []))) shape }
{
    let sizes = check_shape(shape)?;
    let rows = shape.rows;
    let lent = [cells, lines, counters, flags, totals];
    let wanted = [sizes.cells, rows, rows, rows, block_count(rows)];
    Refusal::Length.unless(same_lengths(&lent, &wanted))?;
    Ok(sizes)
}

// Start: 15, then 6 on counters, flags and totals.
pub fn check_start(
    shape: Shape,
    skip: usize,
    counters: usize,
    flags: usize,
    totals: usize,
) -> Answer<Sizes>
    ensures { checked_says result ≡ sizes_if (first_no (start_questions shape skip (counters ∷ flags ∷ totals ∷ []))) shape }
{
    let sizes = check_shape(shape)?;
    let rows = shape.rows;
    let lent = [counters, flags, totals];
    let wanted = [rows, rows, block_count(rows)];
    ask(&[
        (Refusal::Skip, skip < shape.digits),
        (Refusal::Length, same_lengths(&lent, &wanted)),
    ])?;
    Ok(sizes)
}

// Whether the whole memory and the match bytes have their lengths: 6 of a step.
fn all_lent(
    shape: Shape,
    sizes: Sizes,
    cells: usize,
    lines: usize,
    counters: usize,
    flags: usize,
    totals: usize,
    matches: usize,
) -> bool
    ensures { result ≡ alongside eqb (cells ∷ lines ∷ counters ∷ flags ∷ totals ∷ matches ∷ [])
        (sizes.cells ∷ shape.rows ∷ shape.rows ∷ shape.rows ∷ blocks shape ∷ shape.rows ∷ []) }
{
    let rows = shape.rows;
    let lent = [cells, lines, counters, flags, totals, matches];
    let wanted = [sizes.cells, rows, rows, rows, block_count(rows), rows];
    same_lengths(&lent, &wanted)
}

// Step, but for 9: 6 on the whole memory and on the match bytes.
pub fn check_step(
    shape: Shape,
    cells: usize,
    lines: usize,
    counters: usize,
    flags: usize,
    totals: usize,
    matches: usize,
) -> Answer<Sizes>
    ensures { checked_says result
        ≡ sizes_if (first_no (lent_questions shape [] (cells ∷ lines ∷ counters ∷ flags ∷ totals ∷ []) matches)) shape }
{
    let sizes = check_shape(shape)?;
    let lent = all_lent(shape, sizes, cells, lines, counters, flags, totals, matches);
    Refusal::Length.unless(lent)?;
    Ok(sizes)
}

// A whole cycle: 15, and then 6 as for a step.
pub fn check_run(
    shape: Shape,
    skip: usize,
    cells: usize,
    lines: usize,
    counters: usize,
    flags: usize,
    totals: usize,
    matches: usize,
) -> Answer<Sizes>
    ensures { checked_says result ≡ sizes_if (first_no (lent_questions shape (start_arguments shape skip)
        (cells ∷ lines ∷ counters ∷ flags ∷ totals ∷ []) matches)) shape }
{
    let sizes = check_shape(shape)?;
    let lent = all_lent(shape, sizes, cells, lines, counters, flags, totals, matches);
    ask(&[
        (Refusal::Skip, skip < shape.digits),
        (Refusal::Length, lent),
    ])?;
    Ok(sizes)
}
