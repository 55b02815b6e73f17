// The writing of a row, from its levels or finished: what programming and commit do to the memory. Neither function asks or moves
// the record on, so they are for the crates above and not for callers: those have `Cycle::program` and `Cycle::commit`.
ghost use Rattle.std.specs.Prelude.{◌≡◌, length};
ghost use Rattle.parity.specs.Codeword.{encode};
ghost use Rattle.shape.specs.Shapes.{Passed};
ghost use Rattle.array_memory.specs.Memory.{Memory, with_cells};
ghost use Rattle.array_questions.specs.Questions.{cells_questions, program_arguments, commit_arguments};
ghost use Rattle.array.specs.Calls.{row_written};
ghost use Rattle.array.specs.Rows.{RowLent};

use acam::encode::write_checks;
use parity::Shape;
use shape::byte::copy;
use shape::sizes::Sizes;

// Writes k levels into a lent row of n cells, and its check cells.
pub(crate) fn program_row(shape: Shape, checks: usize, row: &mut [u8], given: &[u8])
    requires { RowLent shape checks (length row.old) (length given.now) }
    ensures { row.new ≡ encode shape given.now }
{
    let width = shape.width;
    copy(given, &mut row[..width]);
    write_checks(shape, checks, row);
}

// What programming does to the cells. Only the part that is the row is lent on to the encoder.
pub fn write_row(shape: Shape, sizes: Sizes, cells: &mut [u8], row: usize, given: &[u8])
    requires { Passed (cells_questions shape (length cells.old) (program_arguments shape row given.now)) shape sizes }
    ensures { (mem : Memory) → row_written shape (with_cells cells.old mem) row (encode shape given.now) ≡ with_cells cells.new mem }
{
    let checks = sizes.checks;
    let columns = sizes.columns;
    let start = row * columns;
    let end = start + columns;
    program_row(shape, checks, &mut cells[start..end], given);
}

// What a commit does to the cells.
pub fn put_row(shape: Shape, sizes: Sizes, cells: &mut [u8], row: usize, finished: &[u8])
    requires { Passed (cells_questions shape (length cells.old) (commit_arguments shape row finished.now)) shape sizes }
    ensures { (mem : Memory) → row_written shape (with_cells cells.old mem) row finished.now ≡ with_cells cells.new mem }
{
    let columns = sizes.columns;
    let start = row * columns;
    let end = start + columns;
    copy(finished, &mut cells[start..end]);
}
