// What a caller has to know before he lends anything: the sizes of a shape, its blocks of rows, and the steps of a cycle.
#![tactic(auto)]

ghost use Rattle.std.specs.Prelude.{◌≡◌, ◌*◌, ◌≤◌, length};
ghost use Rattle.parity.specs.Lists.{sum_over};
ghost use Rattle.parity.specs.Matrix.{weight, cycle_steps};
ghost use Rattle.parity.specs.Questions.{first_no};
ghost use Rattle.shape.specs.Shapes.{checked_says, sizes_if, Passed};
ghost use Rattle.cycle_sizes.specs.Sizes.{sizes_questions, sizes_call, sized_says};

use acam::matrix::matrix_of;
use acam::order::ones;
use array_memory::blocks::block_count;
use cycle_place::factors::scale;
use parity::Shape;
use shape::answer::{Answer, Refusal};
use shape::sizes::{Sizes, check_shape};

// The sizes of a shape that is taken, with what a cycle needs.
#[derive(Clone, Copy)]
pub struct CycleSizes {
    // q, r, n, m × n
    pub sizes: Sizes,
    // ⌈m / 64⌉
    pub blocks: usize,
    // of a cycle, its two openings among them
    pub steps: usize,
}

// The ones of so many columns.
pub fn count_ones(columns: &[u8]) -> usize
    requires { length columns.now ≤ 255 }
    ensures counted { result ≡ sum_over columns.now weight }
    ensures few { result ≤ 8 * 255 }
{
    let mut sum: usize = 0;
    for &column in columns {
        sum += ones(column);
    }
    sum
}

// 1 to 5, then 15.
fn check_sizes(shape: Shape, skip: usize) -> Answer<Sizes>
    ensures { checked_says result ≡ sizes_if (first_no (sizes_questions shape skip)) shape }
{
    let sizes = check_shape(shape)?;
    Refusal::Skip.unless(skip < shape.digits)?;
    Ok(sizes)
}

// The two openings, and q / ρ^z − 1 lookups for each one of the check matrix.
fn count_steps(shape: Shape, sizes: Sizes, skip: usize) -> usize
    requires { Passed (sizes_questions shape skip) shape sizes }
    ensures { result ≡ cycle_steps skip shape }
{
    let checks = sizes.checks;
    let columns = sizes.columns;
    let matrix = matrix_of(shape, checks);
    let span = scale(1, shape.radix, shape.digits - skip);
    2 + (span - 1) * count_ones(&matrix[..columns])
}

// Sizes: q, r, n, m × n, the blocks of rows, and the steps of a cycle that skips so many low digits.
pub fn sizes(shape: Shape, skip: usize) -> Answer<CycleSizes>
    ensures { sizes_call shape skip ≡ sized_says result }
{
    let sizes = check_sizes(shape, skip)?;
    Ok(CycleSizes {
        sizes,
        blocks: block_count(shape.rows),
        steps: count_steps(shape, sizes, skip),
    })
}
