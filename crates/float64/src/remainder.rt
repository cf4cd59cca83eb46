// The remainder of a division whose quotient is cut to a whole number, from the bits, in whole numbers.
// `%` of floats answers the same, but by a call of C's fmod, which takes longer and would have to be linked.
ghost use Rattle.std.specs.Prelude.{◌≡◌, ◌-◌, ◌*◌, ◌/◌, ◌%◌, ◌^◌, ◌≤◌, ◌<◌};
ghost use Rattle.std.specs.Float.{binary64};
ghost use Rattle.std.specs.Float.Ieee.{rem};
ghost use Rattle.float64.specs.Patterns.{units_of_bits};

use crate::bits::{FIELD, SIGN, missing};
use crate::is_finite;

// With x's sign, that of a zero too. A NaN where x is not finite, and where y is a NaN or a zero.
pub(crate) fn remainder(x: f64, y: f64) -> f64
    ensures { result ≡ rem binary64 x y }
{
    if !is_finite(x) {
        return f64::NAN;
    }
    if y.is_nan() {
        return y;
    }
    if y == 0.0 {
        return f64::NAN;
    }
    let bits = x.to_bits();
    let magnitude = bits % SIGN;
    f64::from_bits(bits - magnitude + of_sizes(magnitude, y.to_bits() % SIGN))
}

// The same from pattern to pattern, of numbers with no sign. Patterns are in the order of their numbers, so an infinite b leaves every a as it is.
fn of_sizes(a: u64, b: u64) -> u64
    requires { (a < 2047 * 2 ^ 52) × (0 < b) × (b ≤ 2047 * 2 ^ 52) }
    ensures { units_of_bits result ≡ units_of_bits a % units_of_bits b }
{
    if a < b {
        return a;
    }
    let p = zeros(a);
    let q = zeros(b);
    pattern(reduced(a - p * FIELD, p - q, b - q * FIELD), q)
}

// How many zeros follow the digits of a pattern's number. A field of 0 has no leading digit, and counts as a field of 1.
// An `if` and no `saturating_sub`: the compiler then counts those of both numbers at once, which is faster.
fn zeros(bits: u64) -> u64
    ensures { result ≡ bits / 2 ^ 52 - 1 }
{
    if bits < FIELD { 0 } else { bits / FIELD - 1 }
}

// digits * 2 ^ zeros by the divisor, eleven zeros at a time: 53 digits and so many zeros are a u64.
// A `while`, since a range needs a division more, for its count of turns, and was slower where there are none.
fn reduced(digits: u64, zeros: u64, divisor: u64) -> u64
    requires { (digits < 2 ^ 53) × (0 < divisor) × (divisor < 2 ^ 53) }
    ensures { result ≡ digits * 2 ^ zeros % divisor }
{
    let mut rest = digits;
    let mut left = zeros;
    while 11 < left {
        rest = rest * 2048 % divisor;
        left -= 11;
    }
    (rest << left) % divisor
}

// The pattern of digits and the zeros after them. The leading digit, where it is there, adds one to the exponent's field.
fn pattern(digits: u64, zeros: u64) -> u64
    requires { (digits < 2 ^ 53) × (zeros ≤ 2046) }
    ensures { units_of_bits result ≡ digits * 2 ^ zeros }
{
    if digits == 0 {
        return 0;
    }
    let shift = missing(digits);
    if zeros < shift {
        return digits << zeros;
    }
    (zeros - shift) * FIELD + (digits << shift)
}
