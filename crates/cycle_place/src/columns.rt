// The passes of a step over the columns of the check matrix: where the ones of a check row are.
ghost use Rattle.std.specs.Prelude.{◌≡◌, ◌^◌, ◌≤◌, ◌<◌, length};
ghost use Rattle.parity.specs.Matrix.{places_from};
ghost use Rattle.cycle_place.specs.Survey.{survey_of, held_from, ColumnsLent};

use shape::byte::power_of_two;

// What the matrix tells of check row ℓ and column j: the ones in the check rows before ℓ, those in ℓ, and
// those in ℓ before j.
#[derive(Clone, Copy)]
pub(crate) struct Survey {
    pub(crate) before: usize,
    pub(crate) size: usize,
    pub(crate) rank: usize,
}

// A column has a one in check row ℓ if it shares a bit with this.
fn mask_of(check: usize) -> u8
    requires { check < 8 }
    ensures { result ≡ 2 ^ check }
{
    power_of_two(check) as u8
}

// The columns with a one in check row ℓ. Counted in a byte, so that many columns are taken at once.
fn count_held(matrix: &[u8], check: usize) -> usize
    requires { ColumnsLent matrix.now check }
    ensures { result ≡ length (places_from 0 check matrix.now) }
{
    let mask = mask_of(check);
    let mut count: u8 = 0;
    for &column in matrix {
        if column & mask != 0 {
            count += 1;
        }
    }
    usize::from(count)
}

pub(crate) fn survey_check(matrix: &[u8], check: usize, column: usize) -> Survey
    requires columns_lent { ColumnsLent matrix.now check }
    requires column_in_bounds { column ≤ length matrix.now }
    ensures { result ≡ survey_of matrix.now check column }
{
    let mut before: usize = 0;
    for l in 0..check {
        before += count_held(matrix, l);
    }
    let size = count_held(matrix, check);
    let rank = count_held(&matrix[..column], check);
    Survey { before, size, rank }
}

// The first column from a place on with a one in check row ℓ, or their number where there is none.
pub(crate) fn next_held(matrix: &[u8], check: usize, from: usize) -> usize
    requires check_bound { check < 8 }
    requires from_in_bounds { from ≤ length matrix.now }
    ensures { result ≡ held_from matrix.now check from }
{
    let mask = mask_of(check);
    for j in from..matrix.len() {
        if matrix[j] & mask != 0 {
            return j;
        }
    }
    matrix.len()
}
