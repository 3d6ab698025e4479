//! Integer division with rounding down, up and to the nearest integer. A division by a power of two
//! is a shift.

ghost use Rattle.std.specs.Prelude.{◌≡◌, ◌^◌, ◌%◌, ◌<◌, ◌-ℤ◌, ◌*ℤ◌, ◌<ℤ◌, ◌≤ℤ◌, pos, unsigned_abs, MatchOption};
ghost use Rattle.mu_num.specs.Rounding.{IsFloor, IsCeiling, IsNearest, floor_of, ceiling_of, nearest_of};

use crate::powers_of_two::is_below_u64_power;

/// Returns `n / d` rounded up.
pub fn ceil_div(n: i128, d: i128) -> i128
    requires { pos 0 <ℤ d }
    ensures ceiling { IsCeiling n d result }
    ensures value { result ≡ ceiling_of n d }
{
    ceil_div_by_floor(n, d)
}

/// Returns `n / d` rounded to the nearest integer, ties to even.
pub fn near_div(n: i128, d: i128) -> i128
    requires { pos 0 <ℤ d }
    ensures nearest { IsNearest n d result }
    ensures value { result ≡ nearest_of n d }
{
    near_div_by_cases(n, d)
}

// Returns the quotient rounded up: the floor, plus 1 if there is a remainder.
fn ceil_div_by_floor(n: i128, d: i128) -> i128
    requires { pos 0 <ℤ d }
    ensures { IsCeiling n d result }
{
    let quotient = floor_div(n, d);
    if floor_div_remainder(n, d, quotient) == 0 {
        return quotient;
    }
    quotient + 1
}

/// Returns `n / d` rounded down.
pub fn floor_div(n: i128, d: i128) -> i128
    requires { pos 0 <ℤ d }
    ensures floor { IsFloor n d result }
    ensures value { result ≡ floor_of n d }
{
    match divisor_bits(d) {
        Some(bits) => floor_div_by_shift(n, bits),
        None => floor_div_euclid(n, d),
    }
}

// Returns the exponent of d if d is a power of two below 2^64.
fn divisor_bits(d: i128) -> Option<u32>
    ensures { MatchOption result Unit (λ bits. (bits < 64) × (d ≡ pos (2 ^ bits))) }
{
    if !is_below_u64_power(d) {
        return None;
    }
    let bits = (d as u64).trailing_zeros() % u64::BITS;
    if 1 << bits != d as u64 {
        return None;
    }
    Some(bits)
}

// Returns the quotient by a power of two, rounded down, by a shift.
fn floor_div_by_shift(n: i128, bits: u32) -> i128
    requires { bits < 64 }
    ensures floor { IsFloor n (pos (2 ^ bits)) result }
    ensures value { result ≡ floor_of n (pos (2 ^ bits)) }
{
    n >> bits
}

// Returns the quotient, rounded down, by a division.
fn floor_div_euclid(n: i128, d: i128) -> i128
    requires { pos 0 <ℤ d }
    ensures floor { IsFloor n d result }
    ensures value { result ≡ floor_of n d }
{
    n.div_euclid(d)
}

// Returns the remainder of a quotient rounded down. The product may overflow although the remainder
// is in range.
fn floor_div_remainder(n: i128, d: i128, quotient: i128) -> i128
    requires { IsFloor n d quotient }
    ensures value { result ≡ n -ℤ d *ℤ quotient }
    ensures range { (pos 0 ≤ℤ result) × (result <ℤ d) }
{
    n.wrapping_sub(d.wrapping_mul(quotient))
}

// Returns the nearest quotient, ties to even. It uses a shift if `d` is a power of two.
fn near_div_by_cases(n: i128, d: i128) -> i128
    requires { pos 0 <ℤ d }
    ensures { result ≡ nearest_of n d }
{
    match divisor_bits(d) {
        Some(bits) => near_div_by_shift(n, bits),
        None => near_div_by_remainder(n, d),
    }
}

// Returns the nearest quotient by a power of two, ties to even. The floor is increased by 1 if the
// dropped bits exceed half of the power, or equal half of it and the floor is odd.
fn near_div_by_shift(n: i128, bits: u32) -> i128
    requires { bits < 64 }
    ensures { result ≡ nearest_of n (pos (2 ^ bits)) }
{
    let quotient = floor_div_by_shift(n, bits);
    let rest = division_shift_remainder(n, bits);
    if rest + odd_division_bit(quotient) > (1 << bits) - rest {
        return quotient + 1;
    }
    quotient
}

// Returns the bits that a right shift drops.
fn division_shift_remainder(n: i128, bits: u32) -> u64
    requires { bits < 64 }
    ensures value { pos result ≡ n -ℤ pos (2 ^ bits) *ℤ floor_of n (pos (2 ^ bits)) }
    ensures bound { result < 2 ^ bits }
{
    (n.cast_unsigned() % (1 << bits)) as u64
}

// Returns 1 for an odd number and 0 for an even one.
fn odd_division_bit(z: i128) -> u64
    ensures { result ≡ unsigned_abs z % 2 }
{
    u64::from(z % 2 != 0)
}

// Returns the nearest quotient by any positive number, ties to even.
fn near_div_by_remainder(n: i128, d: i128) -> i128
    requires { pos 0 <ℤ d }
    ensures { result ≡ nearest_of n d }
{
    let quotient = floor_div_euclid(n, d);
    let rest = floor_div_remainder(n, d, quotient);
    if rest + i128::from(odd_division_bit(quotient)) > d - rest {
        return quotient + 1;
    }
    quotient
}
