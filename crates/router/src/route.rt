// Route: the belt for a bottle.
ghost use Rattle.std.specs.Prelude.{◌≡◌, length};
ghost use Rattle.shape.specs.Answers.{accepted};
ghost use Rattle.shape.specs.Shapes.{Passed};
ghost use Rattle.array_memory.specs.Memory.{Memory, with_array};
ghost use Rattle.router_questions.specs.Questions.{route_questions};
ghost use Rattle.router.specs.Routes.{route_call};
ghost use Rattle.router.specs.Answers.{sent_to, routed_says};

use super::pairs::pair;
use array_lookup::first::first_below;
use parity::Shape;
use router_questions::check_route;
use shape::answer::Answer;
use shape::sizes::Sizes;

// Where a bottle is sent: the first row whose rule holds it, and that row's belt.
#[derive(Clone, Copy)]
pub struct Sent {
    pub row: usize,
    pub belt: u8,
}

// A route whose questions have been passed: the bottle's inputs, all below q, are made in an array of the call's own, of fixed
// length since there is no heap, and first match is asked.
pub fn route_lent(
    shape: Shape,
    sizes: Sizes,
    cells: &[u8],
    lines: &[u8],
    belts: &[u8],
    values: &[u8],
) -> Option<Sent>
    requires { Passed (route_questions shape (length cells.now) (length lines.now) (length belts.now) values.now) shape sizes }
    ensures { (mem : Memory) → route_call shape (with_array cells.now lines.now mem) belts.now values.now ≡ accepted (sent_to result) }
{
    let width = shape.width;
    let top = (sizes.levels - 1) as u8;
    let mut inputs = [0u8; 254];
    pair(top, values, values, &mut inputs[..width]);
    let row = first_below(shape, sizes, cells, lines, &inputs[..width])?;
    Some(Sent {
        row,
        belt: belts[row],
    })
}

// Route: the first row whose rule holds the bottle's values, with its belt.
pub fn route(
    shape: Shape,
    cells: &[u8],
    lines: &[u8],
    belts: &[u8],
    values: &[u8],
) -> Answer<Option<Sent>>
    ensures { (mem : Memory) → route_call shape (with_array cells.now lines.now mem) belts.now values.now ≡ routed_says result }
{
    let sizes = check_route(shape, cells.len(), lines.len(), belts.len(), values)?;
    Ok(route_lent(shape, sizes, cells, lines, belts, values))
}
