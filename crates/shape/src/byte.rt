// A byte's bits, bytes copied, the largest of bytes and of inputs, and how many bytes differ.
ghost use Rattle.std.specs.Prelude.{◌≡◌, ◌^◌, ◌≤◌, leb, ltb, length};
ghost use Rattle.parity.specs.Lists.{every, greatest, filled_from, differences};
ghost use Rattle.shape.specs.Bounds.{Comparable};

// 2^ℓ: in a column, the bit of check row ℓ.
pub fn power_of_two(exponent: usize) -> usize
    requires { exponent ≤ 8 }
    ensures { result ≡ 2 ^ exponent }
{
    1 << exponent
}

// Copies as many bytes as both have. By a loop of its own: the library's `copy_from_slice` becomes a call of memmove where the
// compiler cannot tell that the two lie apart, and the archive for C would have to find that outside.
pub fn copy(from: &[u8], to: &mut [u8])
    ensures { to.new ≡ filled_from from.now to.old }
{
    for i in 0..from.len().min(to.len()) {
        to[i] = from[i];
    }
}

// The largest of the bytes, 0 where there is none. No byte ends the loop, so that it is compiled to vector code.
pub fn largest(bytes: &[u8]) -> u8
    ensures { result ≡ greatest bytes.now }
{
    let mut most: u8 = 0;
    for &byte in bytes {
        if most < byte {
            most = byte;
        }
    }
    most
}

// The same of inputs, which have 16 bits since they run to q. A second loop and no generic one: a trait over both widths, with its
// laws and two impls, would be longer than this.
pub fn largest_input(inputs: &[u16]) -> u16
    ensures { result ≡ greatest inputs.now }
{
    let mut most: u16 = 0;
    for &input in inputs {
        if most < input {
            most = input;
        }
    }
    most
}

// Whether every byte is below a bound: the largest is.
pub fn all_below(bytes: &[u8], bound: usize) -> bool
    ensures { result ≡ every (λ v. ltb v bound) bytes.now }
{
    if bytes.len() == 0 {
        return true;
    }
    usize::from(largest(bytes)) < bound
}

// Whether every input is at most a bound: the largest is.
pub fn all_at_most(inputs: &[u16], bound: usize) -> bool
    ensures { result ≡ every (λ v. leb v bound) inputs.now }
{
    usize::from(largest_input(inputs)) <= bound
}

// In how many places the bytes of two buffers of one length differ. The count is a byte, like what is compared, so that the loop
// is compiled to vector code of as many lanes.
pub fn count_differences(one: &[u8], other: &[u8]) -> u8
    requires { Comparable (length one.now) (length other.now) }
    ensures { result ≡ differences one.now other.now }
{
    let mut count: u8 = 0;
    for i in 0..one.len() {
        if one[i] != other[i] {
            count += 1;
        }
    }
    count
}
