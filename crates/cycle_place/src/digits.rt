// The numbers that the tests of a digit share.
ghost use Rattle.std.specs.Prelude.{◌≡◌, ◌≤◌};
ghost use Rattle.parity.specs.Questions.{Taken};
ghost use Rattle.cycle_place.specs.Digits.{digit_at};

use super::factors::scale;
use parity::Shape;

// The digit s, q / ρ^s, below which its factors are, and ρ^s.
#[derive(Clone, Copy)]
pub struct Digit {
    pub number: usize,
    pub span: usize,
    pub unit: usize,
}

pub fn digit_of(shape: Shape, number: usize) -> Digit
    requires taken { Taken shape }
    requires number_le_digits { number ≤ shape.digits }
    ensures { result ≡ digit_at shape number }
{
    let span = scale(1, shape.radix, shape.digits - number);
    let unit = scale(1, shape.radix, number);
    Digit { number, span, unit }
}

// The same, where the numbers of a digit are held: nothing is to be done if it is this one.
pub fn hold_digit(shape: Shape, number: usize, held: Digit) -> Digit
    requires taken { Taken shape }
    requires number_le_digits { number ≤ shape.digits }
    requires held_value { held ≡ digit_at shape held.number }
    ensures { result ≡ digit_at shape number }
{
    if number == held.number {
        return held;
    }
    digit_of(shape, number)
}
