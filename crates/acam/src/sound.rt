// The test of a row for soundness: whether it is a codeword.
ghost use Rattle.std.specs.Prelude.{◌≡◌, true, ◌%◌, ◌≤◌, eqb, ltb, length, get_or};
ghost use Rattle.parity.specs.Lists.{every, every_to};
ghost use Rattle.parity.specs.Shape.{levels as levels_of};
ghost use Rattle.parity.specs.Codeword.{is_codeword};
ghost use Rattle.acam.specs.Rows.{ToTest};
ghost use Rattle.shape.specs.Bounds.{Within};

use super::sums::{floor_sums, missing};
use parity::Shape;
use shape::byte::all_below;

// Whether the first sums, one for each check row, are 0 mod ρ.
fn all_balanced(sums: [u16; 8], checks: usize, radix: usize) -> bool
    requires checks_bound { checks ≤ 8 }
    requires within { Within 1 radix 256 }
    ensures { result ≡ every_to checks (λ l. eqb (get_or sums l 0 % radix) 0) }
{
    for l in 0..checks {
        if missing(sums[l], radix) != 0 {
            return false;
        }
    }
    true
}

// Whether a row of n levels, all below q, is sound.
pub fn is_balanced(shape: Shape, checks: usize, row: &[u8], matrix: &[u8; 255]) -> bool
    requires to_test { ToTest shape checks (length row.now) matrix.now }
    requires row_value { every (λ v. ltb v (levels_of shape)) row.now ≡ true }
    ensures { result ≡ is_codeword shape row.now }
{
    let radix = shape.radix;
    let digits = shape.digits;
    let mut power: usize = 1;
    for _ in 0..digits {
        let sums = floor_sums(row, matrix, power);
        if !all_balanced(sums, checks, radix) {
            return false;
        }
        power = power * radix;
    }
    true
}

// Whether a row of n bytes, any bytes, is sound.
#[tactic(auto, unfolding(parity::specs::Codeword::is_codeword))]
pub fn is_sound(shape: Shape, checks: usize, levels: usize, row: &[u8], matrix: &[u8; 255]) -> bool
    requires to_test { ToTest shape checks (length row.now) matrix.now }
    requires levels_value { levels ≡ levels_of shape }
    ensures { result ≡ is_codeword shape row.now }
{
    if !all_below(row, levels) {
        return false;
    }
    is_balanced(shape, checks, row, matrix)
}
