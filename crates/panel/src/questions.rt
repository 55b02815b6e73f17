// The panel's questions, asked in their order: the shape's sizes, or the refusal of the first no.
ghost use Rattle.std.specs.Prelude.{◌≡◌, [], ◌∷◌};
ghost use Rattle.parity.specs.Questions.{first_no};
ghost use Rattle.shape.specs.Shapes.{checked_says, sizes_if};
ghost use Rattle.panel.specs.Panel.{panel_questions};

use array_memory::blocks::block_count;
use parity::Shape;
use shape::answer::{Answer, Refusal};
use shape::questions::same_lengths;
use shape::sizes::{Sizes, check_shape};

// 6 on flags and totals.
pub fn check_panel(shape: Shape, flags: usize, totals: usize) -> Answer<Sizes>
    ensures { checked_says result ≡ sizes_if (first_no (panel_questions shape (flags ∷ totals ∷ []))) shape }
{
    let sizes = check_shape(shape)?;
    let rows = shape.rows;
    let lent = [flags, totals];
    let wanted = [rows, block_count(rows)];
    Refusal::Length.unless(same_lengths(&lent, &wanted))?;
    Ok(sizes)
}
