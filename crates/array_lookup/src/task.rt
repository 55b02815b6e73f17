// Task lookup: the match lines of all rows.
ghost use Rattle.std.specs.Prelude.{◌≡◌, length};
ghost use Rattle.parity.specs.Lists.{tabulate, sum_over};
ghost use Rattle.shape.specs.Answers.{accepted, answer_says, giving};
ghost use Rattle.shape.specs.Shapes.{Passed};
ghost use Rattle.array_memory.specs.Memory.{Memory, with_array};
ghost use Rattle.array_lookup.specs.Lookups.{array_questions, lookup_arguments, lookup_call};
ghost use Rattle.array_lookup.specs.Rows.{RowsLent, byte_of};

use super::questions::check_lookup;
use acam::compare::{line_match, narrow};
use parity::Shape;
use shape::answer::Answer;
use shape::sizes::Sizes;

// The match byte of every row for the inputs, which are all below q or not, with the other cells fed 0, and the number of matches.
fn match_rows(
    cells: &[u8],
    lines: &[u8],
    columns: usize,
    below: bool,
    inputs: &[u8],
    matches: &mut [u8],
) -> usize
    requires { RowsLent (length cells.now) (length lines.now) (length inputs.now) columns (length matches.old) }
    ensures counted { result ≡ sum_over matches.new (λ byte. byte) }
    ensures matched { matches.new ≡ tabulate (length matches.old) (byte_of below inputs.now cells.now lines.now columns) }
{
    let mut count: usize = 0;
    for i in 0..matches.len() {
        let start = i * columns;
        let byte = line_match(lines[i], below, inputs, &cells[start..start + columns]);
        matches[i] = byte;
        count += usize::from(byte);
    }
    count
}

// A task lookup whose questions have been passed: the inputs become bytes in an array of the call's own, of fixed length since
// there is no heap, and the rows are compared with these. The number of matches.
pub fn lookup_lent(
    shape: Shape,
    sizes: Sizes,
    cells: &[u8],
    lines: &[u8],
    inputs: &[u16],
    matches: &mut [u8],
) -> usize
    requires { Passed (array_questions shape (length cells.now) (length lines.now) (lookup_arguments shape inputs.now (length matches.old)))
        shape sizes }
    ensures { (mem : Memory) → lookup_call shape (with_array cells.now lines.now mem) inputs.now matches.old
        ≡ giving (accepted result) matches.new (with_array cells.now lines.now mem) }
{
    let levels = sizes.levels;
    let columns = sizes.columns;
    let width = shape.width;
    let mut bytes = [0u8; 254];
    let below = narrow(inputs, levels, &mut bytes[..width]);
    match_rows(cells, lines, columns, below, &bytes[..width], matches)
}

// Task lookup: one match byte per row, and the number of matches.
pub fn lookup(
    shape: Shape,
    cells: &[u8],
    lines: &[u8],
    inputs: &[u16],
    matches: &mut [u8],
) -> Answer<usize>
    ensures { (mem : Memory) → lookup_call shape (with_array cells.now lines.now mem) inputs.now matches.old
        ≡ giving (answer_says result) matches.new (with_array cells.now lines.now mem) }
{
    let sizes = check_lookup(shape, cells.len(), lines.len(), inputs, matches.len())?;
    Ok(lookup_lent(shape, sizes, cells, lines, inputs, matches))
}
