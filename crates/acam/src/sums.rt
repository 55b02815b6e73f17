// The cells over ρ^s, added up in each check row, and the digit that completes such a sum. A level over ρ^s, rounded down, is
// its digit s mod ρ, so the digit itself is not taken out of it.
// The sums are of 16 bits, and the products of 32, so that the compiler works on many cells at once.
ghost use Rattle.std.specs.Prelude.{◌≡◌, ℕ, ◌+◌, ◌*◌, ◌/◌, ◌≤◌, ◌<◌, length, get_or};
ghost use Rattle.parity.specs.Lists.{tabulate};
ghost use Rattle.parity.specs.Matrix.{bit};
ghost use Rattle.shape.specs.Bounds.{Within};
ghost use Rattle.acam.specs.Digits.{missing as missing_of, floor_sums};
ghost use Rattle.acam.specs.Rows.{RoomFor, ToDivide, ToSum};

// A value added to the sum of each check row that its column has a one in.
fn add_value(sums: &mut [u16; 8], column: u8, value: u16)
    requires { RoomFor sums.old value }
    ensures { sums.new ≡ tabulate 8 (λ l. get_or sums.old l 0 + bit l column * value) }
{
    let mut rest = u16::from(column);
    for sum in sums.iter_mut() {
        *sum += rest % 2 * value;
        rest /= 2;
    }
}

// value / d from the reciprocal 65536 / d + 1, taken once for many values: a division by a variable costs some 25 cycles,
// and this product is exact below 256.
fn quotient(value: u32, reciprocal: u32) -> u32
    requires { ToDivide value reciprocal }
    ensures { (d : ℕ) → 0 < d → d ≤ 256 → reciprocal ≡ 65536 / d + 1 → result ≡ value / d }
{
    value * reciprocal / 65536
}

// For each check row, the cells whose columns have a one there, each over ρ^s = power.
pub(crate) fn floor_sums(cells: &[u8], matrix: &[u8], power: usize) -> [u16; 8]
    requires { ToSum (length cells.now) (length matrix.now) power }
    ensures { result ≡ floor_sums cells.now matrix.now power }
{
    let reciprocal = (65536 / power + 1) as u32;
    let mut sums = [0u16; 8];
    for j in 0..cells.len() {
        let floor = quotient(u32::from(cells[j]), reciprocal) as u16;
        add_value(&mut sums, matrix[j], floor);
    }
    sums
}

// The digit that brings a sum to 0 mod ρ: as much as is missing to the next multiple of ρ. The division by ρ is a product
// again, now with 2^32 / ρ + 1, exact for every sum of 16 bits; of a loop over sums the compiler takes the reciprocal out.
pub(crate) fn missing(sum: u16, radix: usize) -> usize
    requires { Within 1 radix 256 }
    ensures { result ≡ missing_of radix sum }
{
    let reciprocal = 4294967296 / radix + 1;
    let from = usize::from(sum);
    (from + radix - 1) * reciprocal / 4294967296 * radix - from
}
