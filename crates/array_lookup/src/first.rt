// First match: the first row that a task lookup matches.
ghost use Rattle.std.specs.Prelude.{◌≡◌, true, ltb, length};
ghost use Rattle.parity.specs.Lists.{every};
ghost use Rattle.parity.specs.Shape.{levels as levels_of};
ghost use Rattle.shape.specs.Answers.{accepted, found_of, first_says};
ghost use Rattle.shape.specs.Shapes.{Passed};
ghost use Rattle.array_memory.specs.Memory.{Memory, with_array};
ghost use Rattle.array_lookup.specs.Lookups.{array_questions, first_arguments, first_row, first_call};
ghost use Rattle.array_lookup.specs.Rows.{RowsLent, byte_of};

use super::questions::check_first;
use acam::compare::{answers, narrow};
use parity::Shape;
use shape::answer::Answer;
use shape::sizes::Sizes;

// The first row with a shorted line, or with a sound one whose cells all answer 1 to inputs that are all below q or not: on to the
// next row at a dead line, at inputs that no cell answers 1 to and at the first cell that says no, and the end at the first match.
#[tactic(auto, using(crate::proofs::Searching::search_steps))]
fn find_match(
    cells: &[u8],
    lines: &[u8],
    columns: usize,
    below: bool,
    inputs: &[u8],
    rows: usize,
) -> Option<usize>
    requires { RowsLent (length cells.now) (length lines.now) (length inputs.now) columns rows }
    ensures { found_of result ≡ first_row rows (byte_of below inputs.now cells.now lines.now columns) }
{
    let width = inputs.len();
    'rows: for i in 0..rows {
        let line = lines[i];
        if line != 0 {
            if line == 2 {
                return Some(i);
            }
            continue 'rows;
        }
        if !below {
            continue 'rows;
        }
        let start = i * columns;
        for j in 0..width {
            if !answers(inputs[j], cells[start + j]) {
                continue 'rows;
            }
        }
        return Some(i);
    }
    None
}

// A first match whose questions have been passed, by inputs that are bytes below q.
pub fn first_below(
    shape: Shape,
    sizes: Sizes,
    cells: &[u8],
    lines: &[u8],
    inputs: &[u8],
) -> Option<usize>
    requires passed { Passed (array_questions shape (length cells.now) (length lines.now) (first_arguments shape inputs.now)) shape sizes }
    requires inputs_value { every (λ v. ltb v (levels_of shape)) inputs.now ≡ true }
    ensures { (mem : Memory) → first_call shape (with_array cells.now lines.now mem) inputs.now ≡ accepted (found_of result) }
{
    let columns = sizes.columns;
    let rows = shape.rows;
    find_match(cells, lines, columns, true, inputs, rows)
}

// A first match whose questions have been passed: the inputs become bytes in an array of the call's own, of fixed length since
// there is no heap.
pub fn first_lent(
    shape: Shape,
    sizes: Sizes,
    cells: &[u8],
    lines: &[u8],
    inputs: &[u16],
) -> Option<usize>
    requires { Passed (array_questions shape (length cells.now) (length lines.now) (first_arguments shape inputs.now)) shape sizes }
    ensures { (mem : Memory) → first_call shape (with_array cells.now lines.now mem) inputs.now ≡ accepted (found_of result) }
{
    let levels = sizes.levels;
    let columns = sizes.columns;
    let width = shape.width;
    let rows = shape.rows;
    let mut bytes = [0u8; 254];
    let below = narrow(inputs, levels, &mut bytes[..width]);
    find_match(cells, lines, columns, below, &bytes[..width], rows)
}

// First match: the number of the first row that a task lookup of the inputs would match.
pub fn first_match(
    shape: Shape,
    cells: &[u8],
    lines: &[u8],
    inputs: &[u16],
) -> Answer<Option<usize>>
    ensures { (mem : Memory) → first_call shape (with_array cells.now lines.now mem) inputs.now ≡ first_says result }
{
    let sizes = check_first(shape, cells.len(), lines.len(), inputs)?;
    Ok(first_lent(shape, sizes, cells, lines, inputs))
}
