// The router's questions, asked in their order: each function gives the shape's sizes, or the refusal of the first no.
#![tactic(auto)]

ghost use Rattle.std.specs.Prelude.{◌≡◌, leb};
ghost use Rattle.parity.specs.Lists.{alongside};
ghost use Rattle.parity.specs.Questions.{first_no};
ghost use Rattle.shape.specs.Shapes.{checked_says, sizes_if};
ghost use Rattle.router_ranges.specs.Ranges.{ranges_of};
ghost use Rattle.router_questions.specs.Questions.{rule_at_questions, rule_questions, route_questions};

use parity::Shape;
use shape::answer::{Answer, Refusal};
use shape::byte::all_below;
use shape::questions::{ask, same_lengths};
use shape::sizes::{Sizes, check_shape};

// Whether no low is above its high: question 19. No pair ends the loop, so that it is compiled to vector code.
fn in_order(lows: &[u8], highs: &[u8]) -> bool
    ensures { result ≡ alongside leb lows.now highs.now }
{
    if lows.len() != highs.len() {
        return false;
    }
    let mut all = true;
    for i in 0..lows.len() {
        all = all & (lows[i] <= highs[i]);
    }
    all
}

// Rule at.
pub fn check_rule_at(
    shape: Shape,
    cells: usize,
    belts: usize,
    row: usize,
    lows: usize,
    highs: usize,
) -> Answer<Sizes>
    ensures { checked_says result ≡ sizes_if (first_no (rule_at_questions shape cells belts row lows highs)) shape }
{
    let sizes = check_shape(shape)?;
    let rows = shape.rows;
    let width = shape.width;
    let half = width / 2;
    let lent = [cells, belts, lows, highs];
    let wanted = [sizes.cells, rows, half, half];
    ask(&[
        (Refusal::Features, width % 2 == 0),
        (Refusal::Length, same_lengths(&lent, &wanted)),
        (Refusal::Place, row < rows),
    ])?;
    Ok(sizes)
}

// Rule.
pub fn check_rule(
    shape: Shape,
    cells: usize,
    belts: usize,
    row: usize,
    lows: &[u8],
    highs: &[u8],
) -> Answer<Sizes>
    ensures { checked_says result ≡ sizes_if (first_no (rule_questions shape cells belts row (ranges_of lows.now highs.now))) shape }
{
    let sizes = check_rule_at(shape, cells, belts, row, lows.len(), highs.len())?;
    let levels = sizes.levels;
    ask(&[
        (Refusal::Level, all_below(lows, levels)),
        (Refusal::Level, all_below(highs, levels)),
        (Refusal::Range, in_order(lows, highs)),
    ])?;
    Ok(sizes)
}

// Route.
pub fn check_route(
    shape: Shape,
    cells: usize,
    lines: usize,
    belts: usize,
    values: &[u8],
) -> Answer<Sizes>
    ensures { checked_says result ≡ sizes_if (first_no (route_questions shape cells lines belts values.now)) shape }
{
    let sizes = check_shape(shape)?;
    let rows = shape.rows;
    let width = shape.width;
    let half = width / 2;
    let lent = [cells, lines, belts, values.len()];
    let wanted = [sizes.cells, rows, rows, half];
    ask(&[
        (Refusal::Features, width % 2 == 0),
        (Refusal::Length, same_lengths(&lent, &wanted)),
    ])?;
    Refusal::Level.unless(all_below(values, sizes.levels))?;
    Ok(sizes)
}
