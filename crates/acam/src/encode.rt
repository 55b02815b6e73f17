// The encoder: the check cells of a row from its rule cells.
ghost use Rattle.std.specs.Prelude.{◌≡◌, length, take};
ghost use Rattle.parity.specs.Lists.{tabulate};
ghost use Rattle.parity.specs.Codeword.{encode};
ghost use Rattle.acam.specs.Digits.{completed};
ghost use Rattle.acam.specs.Rows.{ToComplete, RulesLent, Measured};

use super::matrix::fill_rules;
use super::sums::{floor_sums, missing};
use parity::Shape;

// One more digit in each check cell: what brings its check row's sum to 0 mod ρ, at ρ^s = power.
fn add_check_digits(cells: &mut [u8], sums: [u16; 8], radix: usize, power: usize)
    requires { ToComplete cells.old sums radix power }
    ensures { cells.new ≡ tabulate (length cells.old) (completed cells.old sums radix power) }
{
    for l in 0..cells.len() {
        let digit = missing(sums[l], radix);
        cells[l] = (usize::from(cells[l]) + digit * power) as u8;
    }
}

// The check cells of a row of n cells, digit after digit, by the columns of its k rule cells.
#[tactic(auto, unfolding(parity::specs::Shape::columns))]
fn write_digits(shape: Shape, row: &mut [u8], rules: &[u8])
    requires { RulesLent shape (length row.old) rules.now }
    ensures { row.new ≡ encode shape (take shape.width row.old) }
{
    let radix = shape.radix;
    let digits = shape.digits;
    let width = shape.width;
    row[width..].fill(0);
    let mut power: usize = 1;
    for _ in 0..digits {
        let sums = floor_sums(&row[..width], rules, power);
        add_check_digits(&mut row[width..], sums, radix, power);
        power = power * radix;
    }
}

// The check cells of a row of n cells, from its k rule cells. Of the check matrix it makes the columns of these alone.
pub fn write_checks(shape: Shape, checks: usize, row: &mut [u8])
    requires { Measured shape checks (length row.old) }
    ensures { row.new ≡ encode shape (take shape.width row.old) }
{
    let errors = shape.errors;
    let width = shape.width;
    let mut rules = [0u8; 255];
    fill_rules(&mut rules[..width], errors, checks);
    write_digits(shape, row, &rules[..width]);
}
