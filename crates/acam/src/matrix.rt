// The columns of a shape's check matrix: the rule columns, then the check columns.
ghost use Rattle.std.specs.Prelude.{◌≡◌, cond, ◌≤◌, length};
ghost use Rattle.parity.specs.Lists.{keep, filled_from};
ghost use Rattle.parity.specs.Matrix.{column_order, eligible, rule_columns, check_columns, matrix as matrix_of};
ghost use Rattle.acam.specs.Matrices.{rule_weight, matrix_array};
ghost use Rattle.acam.specs.Rows.{RulesFit, Measured, TakenWith};
ghost use Rattle.shape.specs.Bounds.{Within};

use super::order::{choices, column_order};
use parity::Shape;
use shape::byte::{copy, power_of_two};

// How many of a weight's columns can be rule columns, for τ = 2 and 3: all of them or none.
fn count_rules(errors: usize, weight: usize, columns: u8) -> usize
    ensures { result ≡ cond (rule_weight errors weight) columns 0 }
{
    if errors == 2 {
        if weight < 2 {
            return 0;
        }
        return usize::from(columns);
    }
    if weight < 3 {
        return 0;
    }
    if weight % 2 == 1 {
        return usize::from(columns);
    }
    0
}

// The lightest eligible columns, as many as the part holds: of each weight, the columns below 2^r come first.
fn fill_lightest(part: &mut [u8], errors: usize, checks: usize)
    requires { checks ≤ 8 }
    ensures { part.new ≡ filled_from (keep (eligible errors checks) column_order) part.old }
{
    let order = column_order();
    let below = choices(checks);
    let all = choices(8);
    let mut found: usize = 0;
    let mut place: usize = 0;
    for w in 0..8 {
        let count = count_rules(errors, w + 1, below[w]);
        let to = place + count;
        copy(&order[place..to], &mut part[found..]);
        if part.len() - found <= count {
            return;
        }
        found += count;
        place += usize::from(all[w]);
    }
}

// The rule columns, as many as the part holds: 1 in each for τ = 1, else the lightest eligible ones.
#[tactic(auto, unfolding(parity::specs::Matrix::rule_columns))]
pub(crate) fn fill_rules(part: &mut [u8], errors: usize, checks: usize)
    requires { RulesFit errors checks (length part.old) }
    ensures { part.new ≡ rule_columns errors checks (length part.old) }
{
    if errors == 1 {
        part.fill(1);
        return;
    }
    fill_lightest(part, errors, checks);
}

fn fill_checks(part: &mut [u8])
    requires { length part.old ≤ 8 }
    ensures { part.new ≡ check_columns (length part.old) }
{
    for (l, column) in part.iter_mut().enumerate() {
        *column = power_of_two(l) as u8;
    }
}

// The n columns of a shape that is taken with r check columns.
#[tactic(auto, unfolding(parity::specs::Shape::columns))]
pub fn fill_matrix(part: &mut [u8], shape: Shape, checks: usize)
    requires { Measured shape checks (length part.old) }
    ensures { part.new ≡ matrix_of shape }
{
    let errors = shape.errors;
    let width = shape.width;
    fill_rules(&mut part[..width], errors, checks);
    fill_checks(&mut part[width..]);
}

// The bytes that so many columns are lent in to be counted, 32 at a time: a multiple of 32.
pub fn padded_length(columns: usize) -> usize
    requires { columns ≤ 255 }
    ensures { Within columns result 256 }
{
    (columns + 31) / 32 * 32
}

// The same in an array, and 0 after them. Of fixed length, since there is no heap: a row's length tells how many columns it has.
#[tactic(auto, using(crate::proofs::MatrixArray::fits))]
pub fn matrix_of(shape: Shape, checks: usize) -> [u8; 255]
    requires { TakenWith shape checks }
    ensures { result ≡ matrix_array shape }
{
    let columns = shape.width + checks;
    let mut matrix = [0u8; 255];
    fill_matrix(&mut matrix[..columns], shape, checks);
    matrix
}
