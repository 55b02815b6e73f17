// The walk through the schedule: whether a place is that of the lookup after so many others, and the place that comes next, in one
// answer.
ghost use Rattle.std.specs.Prelude.{◌≡◌, ℕ, suc, ◌<◌, Some};
ghost use Rattle.parity.specs.Shape.{checks as checks_of, columns as columns_of};
ghost use Rattle.schedule.specs.Index.{span};
ghost use Rattle.cycle_place.specs.Places.{next_at};
ghost use Rattle.cycle_place.specs.Walk.{Stands, index_of, AtPlace, sought_at, here_at, located_at, MatrixLent, PaddedLent, TestAt};

use super::Place;
use super::columns::{next_held, survey_check};
use super::factors::{index_of, is_factor, next_factor, scale};
use parity::Shape;
use shape::byte::power_of_two;

// A test that is next: whether it is the last of its check row and digit, and the place after it, if a lookup is to come.
#[derive(Clone, Copy)]
pub struct Here {
    pub ends: bool,
    pub next: Option<Place>,
}

// What a place is: that of an opening, with the match byte that a row with a sound line gives it and the place after it, that of
// a test, or none.
#[derive(Clone, Copy)]
pub enum Located {
    Opening(u8, Option<Place>),
    Test(Here),
    Elsewhere,
}

// How many lookups come before the test at a place, where next is q / ρ^(s+1) of its digit s.
fn count_before(place: Place, next: usize, skip: usize, shape: Shape, padded: &[u8]) -> usize
    requires padded_lent { PaddedLent shape (checks_of shape) (columns_of shape) padded.now }
    requires stands { Stands skip shape place }
    requires next_value { next ≡ span shape (suc place.digit) }
    ensures { AtPlace skip shape result place }
{
    let radix = shape.radix;
    let survey = survey_check(padded, place.check, place.column);
    // q / ρ^z
    let levels = scale(next * radix, radix, place.digit - skip);
    // the two openings come before the tests
    index_of(levels, radix, place.factor, next, survey) + 2
}

// q / ρ^s of the digit of the test at a place, if that is the lookup that comes after so many others.
#[tactic(auto, using(crate::proofs::Standing::place_tests))]
fn locate_test(
    place: Place,
    skip: usize,
    count: usize,
    shape: Shape,
    checks: usize,
    columns: usize,
    padded: &[u8],
) -> Option<usize>
    requires padded_lent { PaddedLent shape checks columns padded.now }
    requires lt_count { 1 < count }
    ensures { result ≡ sought_at skip shape count place }
{
    let check = place.check;
    let digit = place.digit;
    let column = place.column;
    let radix = shape.radix;
    if checks <= check || shape.digits <= digit || digit < skip || columns <= column {
        return None;
    }
    if usize::from(padded[column]) / power_of_two(check) % 2 == 0 {
        return None;
    }
    let next = scale(1, radix, shape.digits - digit - 1);
    let span = next * radix;
    if !is_factor(place.factor, span, radix) {
        return None;
    }
    if count_before(place, next, skip, shape, padded) != count {
        return None;
    }
    Some(span)
}

// The place of a cycle's first test, which comes after the openings, whatever digits it skips.
pub fn first(shape: Shape, matrix: &[u8]) -> Place
    requires { MatrixLent shape (checks_of shape) matrix.now }
    ensures { (z : ℕ) → z < shape.digits → next_at z shape 2 ≡ Some result }
{
    let digits = shape.digits;
    Place {
        check: 0,
        digit: digits - 1,
        column: next_held(matrix, 0, 0),
        factor: 1,
    }
}

// A test by its place: the next factor comes after it, else the next column of J(ℓ); else it is the last of its digit, and the
// next lower digit that is not skipped comes, else the next check row, else the end.
pub fn follow(
    place: Place,
    span: usize,
    skip: usize,
    shape: Shape,
    checks: usize,
    matrix: &[u8],
) -> Here
    requires matrix_lent { MatrixLent shape checks matrix.now }
    requires test_at { TestAt skip shape place span }
    ensures { result ≡ here_at skip shape (index_of skip shape place) place }
{
    let check = place.check;
    let digit = place.digit;
    let factor = next_factor(place.factor, shape.radix);
    if factor < span {
        return Here {
            ends: false,
            next: Some(Place { factor, ..place }),
        };
    }
    let later = next_held(matrix, check, place.column + 1);
    if later < matrix.len() {
        return Here {
            ends: false,
            next: Some(Place {
                column: later,
                factor: 1,
                ..place
            }),
        };
    }
    if skip < digit {
        return Here {
            ends: true,
            next: Some(Place {
                check,
                digit: digit - 1,
                column: next_held(matrix, check, 0),
                factor: 1,
            }),
        };
    }
    if check + 1 < checks {
        return Here {
            ends: true,
            next: Some(Place {
                check: check + 1,
                digit: shape.digits - 1,
                column: next_held(matrix, check + 1, 0),
                factor: 1,
            }),
        };
    }
    Here {
        ends: true,
        next: None,
    }
}

// One of the first two lookups, if its place is an opening's, all 0, in a cycle that does not skip all digits.
#[tactic(auto, using(crate::proofs::Openings::opening_asked, crate::proofs::Openings::second_place))]
fn locate_opening(place: Place, skip: usize, count: usize, shape: Shape, matrix: &[u8]) -> Located
    requires matrix_lent { MatrixLent shape (checks_of shape) matrix.now }
    requires count_bound { count < 2 }
    ensures { result ≡ located_at skip shape count place }
{
    if shape.digits <= skip {
        return Located::Elsewhere;
    }
    if place != Place::NO_TEST {
        return Located::Elsewhere;
    }
    if count == 0 {
        return Located::Opening(1, Some(place));
    }
    Located::Opening(0, Some(first(shape, matrix)))
}

// The lookup that comes after so many others, if its place is this one. The columns are lent with zeros behind them, and their number
// beside: so a step counts 32 of them at a time.
pub fn locate(
    place: Place,
    skip: usize,
    count: usize,
    shape: Shape,
    checks: usize,
    columns: usize,
    padded: &[u8],
) -> Located
    requires { PaddedLent shape checks columns padded.now }
    ensures { result ≡ located_at skip shape count place }
{
    if count < 2 {
        return locate_opening(place, skip, count, shape, &padded[..columns]);
    }
    let Some(span) = locate_test(place, skip, count, shape, checks, columns, padded) else {
        return Located::Elsewhere;
    };
    Located::Test(follow(place, span, skip, shape, checks, &padded[..columns]))
}
