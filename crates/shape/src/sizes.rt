// The shape's questions 1 to 5 and the sizes that follow from a shape that is taken.
ghost use Rattle.std.specs.Prelude.{◌≡◌, cond, ◌^◌, leb};
ghost use Rattle.parity.specs.Shape.{largest, redundancy, levels as levels_of};
ghost use Rattle.parity.specs.Questions.{first_no, column_questions};
ghost use Rattle.shape.specs.Bounds.{Within};
ghost use Rattle.shape.specs.Shapes.{checked_says, sizes_if, shape_says};

use super::answer::{Answer, Refusal};
use parity::Shape;

// The largest k for each τ (row τ − 1) and r (column r − 1).
const LARGEST: [[u8; 8]; 3] = [
    [254, 0, 0, 0, 0, 0, 0, 0],
    [0, 1, 4, 11, 26, 57, 120, 247],
    [0, 0, 1, 4, 11, 26, 57, 120],
];

// The sizes of a shape that is taken.
#[derive(Clone, Copy)]
pub struct Sizes {
    // q
    pub levels: usize,
    // r
    pub checks: usize,
    // n = k + r
    pub columns: usize,
    // m × n
    pub cells: usize,
}

// The limits of questions 1 to 5. The largest k for each τ stands in the table above.
impl Sizes {
    // 1: ρ is from here ..
    pub const MIN_RADIX: usize = 2;

    // .. to here.
    pub const MAX_RADIX: usize = 255;

    // 2: b is at least this ..
    pub const MIN_DIGITS: usize = 1;

    // .. and q at most this.
    pub const MAX_LEVELS: usize = 256;

    // 3: τ is from here ..
    pub const MIN_ERRORS: usize = 1;

    // .. to here.
    pub const MAX_ERRORS: usize = 3;

    // 4: k is at least this ..
    pub const MIN_WIDTH: usize = 1;

    // .. and at most this number of check columns carries it.
    pub const MAX_CHECKS: usize = 8;

    // 5: m is from here ..
    pub const MIN_ROWS: usize = 1;

    // .. to here.
    pub const MAX_ROWS: usize = 4096;
}

// q, or 257 where ρ^b is above 256: the power stops as soon as it passes the limit.
fn capped_power(radix: usize, digits: usize) -> usize
    requires { Within 2 radix 255 }
    ensures { result ≡ cond (leb (radix ^ digits) 256) (radix ^ digits) 257 }
{
    let mut power: usize = 1;
    for _ in 0..digits {
        power = power * radix;
        if Sizes::MAX_LEVELS < power {
            return Sizes::MAX_LEVELS + 1;
        }
    }
    power
}

// The largest k that r check columns carry for τ.
fn carried(errors: usize, checks: usize) -> usize
    requires within { Within 1 errors 3 }
    requires within_2 { Within 1 checks 8 }
    ensures { result ≡ largest errors checks }
{
    usize::from(LARGEST[errors - 1][checks - 1])
}

// r, the least number of check columns that carries k, or 9 where none does.
fn least_checks(errors: usize, width: usize) -> usize
    requires { Within 1 errors 3 }
    ensures { result ≡ redundancy errors width }
{
    for checks in 1..=Sizes::MAX_CHECKS {
        if width <= carried(errors, checks) {
            return checks;
        }
    }
    Sizes::MAX_CHECKS + 1
}

// Questions 3 to 5 of a shape with q levels.
fn check_columns(shape: Shape, levels: usize) -> Answer<Sizes>
    requires { levels ≡ levels_of shape }
    ensures { checked_says result ≡ sizes_if (first_no (column_questions shape)) shape }
{
    let errors = shape.errors;
    let width = shape.width;
    let rows = shape.rows;
    if errors < Sizes::MIN_ERRORS {
        return Err(Refusal::Errors);
    }
    if Sizes::MAX_ERRORS < errors {
        return Err(Refusal::Errors);
    }
    if width < Sizes::MIN_WIDTH {
        return Err(Refusal::Width);
    }
    let checks = least_checks(errors, width);
    if Sizes::MAX_CHECKS < checks {
        return Err(Refusal::Width);
    }
    if rows < Sizes::MIN_ROWS {
        return Err(Refusal::Rows);
    }
    if Sizes::MAX_ROWS < rows {
        return Err(Refusal::Rows);
    }
    let columns = width + checks;
    let cells = rows * columns;
    Ok(Sizes {
        levels,
        checks,
        columns,
        cells,
    })
}

// Questions 1 to 5, in their order.
pub fn check_shape(shape: Shape) -> Answer<Sizes>
    ensures { checked_says result ≡ shape_says shape }
{
    let radix = shape.radix;
    if radix < Sizes::MIN_RADIX {
        return Err(Refusal::Radix);
    }
    if Sizes::MAX_RADIX < radix {
        return Err(Refusal::Radix);
    }
    let digits = shape.digits;
    if digits < Sizes::MIN_DIGITS {
        return Err(Refusal::Digits);
    }
    let levels = capped_power(radix, digits);
    if Sizes::MAX_LEVELS < levels {
        return Err(Refusal::Digits);
    }
    check_columns(shape, levels)
}
