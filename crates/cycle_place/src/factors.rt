// The numbers of a place in the schedule: spans, factors, and the lookups before it.
ghost use Rattle.std.specs.Prelude.{◌≡◌, not, cond, ◌&&◌, ◌+◌, ◌-◌, ◌*◌, ◌/◌, ◌%◌, ◌^◌, ◌≤◌, ◌<◌, eqb, leb, ltb};
ghost use Rattle.cycle_place.specs.Survey.{ToIndex};

use super::columns::Survey;

// a × ρ^e
pub fn scale(number: usize, radix: usize, exponent: usize) -> usize
    requires radix_nonzero { 0 < radix }
    requires exponent_bound { number * radix ^ exponent ≤ 256 }
    ensures { result ≡ number * radix ^ exponent }
{
    let mut product = number;
    for _ in 0..exponent {
        product *= radix;
    }
    product
}

// Whether a factor is one of those of a digit: from 1 below q / ρ^s, and not divided by ρ.
pub(crate) fn is_factor(factor: usize, span: usize, radix: usize) -> bool
    requires { 0 < radix }
    ensures { result ≡ leb 1 factor && ltb factor span && not (eqb (factor % radix) 0) }
{
    0 < factor && factor < span && factor % radix != 0
}

// The factor after one that ρ does not divide.
pub(crate) fn next_factor(factor: usize, radix: usize) -> usize
    requires factor_bound { factor < 256 }
    requires radix_nonzero { 0 < radix }
    ensures { result ≡ cond (eqb ((factor + 1) % radix) 0) (factor + 2) (factor + 1) }
{
    if factor % radix == radix - 1 {
        return factor + 2;
    }
    factor + 1
}

// How many lookups of the schedule come before a place, where levels is q / ρ^z, as many as the cycle tells apart, and next
// is q / ρ^(s+1).
pub(crate) fn index_of(
    levels: usize,
    radix: usize,
    factor: usize,
    next: usize,
    survey: Survey,
) -> usize
    requires { ToIndex levels radix factor next survey }
    ensures { result ≡ (levels - 1) * survey.before + survey.size * (next - 1)
        + survey.rank * (next * radix - next) + (factor - 1 - (factor - 1) / radix) }
{
    (levels - 1) * survey.before
        + survey.size * (next - 1)
        + survey.rank * (next * radix - next)
        + (factor - 1 - factor / radix)
}
