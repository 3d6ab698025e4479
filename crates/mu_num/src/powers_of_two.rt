//! Powers of 2 as units of numbers, and comparisons of absolute values with powers of 2.

ghost use Rattle.std.specs.Prelude.{◌≡◌, ◌^◌, ◌≤◌, ◌*ℤ◌, ◌<ℤ◌, ◌≤ℤ◌, ◌↔◌, pos, unsigned_abs, IsTrue};
ghost use Rattle.mu_num.specs.Limits.{sum_limit};
ghost use Rattle.mu_num.specs.Sizes.{exceeds};

/// Returns a number of absolute value at most 2^62 in units of 2^-bits: num * 2^bits.
pub fn times_power_of_two(num: i128, bits: u8) -> i128
    requires num { unsigned_abs num ≤ 2 ^ 62 }
    requires bits { bits ≤ 64 }
    ensures value { result ≡ num *ℤ pos (2 ^ bits) }
    ensures size { unsigned_abs result ≤ sum_limit }
{
    multiply_by_power(num, unit(bits))
}

/// Returns whether a number fits in a `u64`.
pub(crate) fn is_below_u64_power(z: i128) -> bool
    ensures { IsTrue result ↔ (pos 0 ≤ℤ z) × (z <ℤ pos (2 ^ 64)) }
{
    z >= 0 && z <= i128::from(u64::MAX)
}

/// Returns whether the absolute value exceeds 2^bits.
pub fn exceeds_power_of_two(z: i128, bits: u8) -> bool
    requires { bits ≤ 126 }
    ensures { result ≡ exceeds bits z }
{
    let most = unit(bits);
    z > most || z < -most
}

// Returns the product of a number of at most 2^62 and one of at most 2^64.
fn multiply_by_power(num: i128, unit: i128) -> i128
    requires num { unsigned_abs num ≤ 2 ^ 62 }
    requires unit { unsigned_abs unit ≤ 2 ^ 64 }
    ensures value { result ≡ num *ℤ unit }
    ensures size { unsigned_abs result ≤ sum_limit }
{
    num * unit
}

/// Returns 2^bits: the number 1 in units of 2^-bits.
pub fn unit(bits: u8) -> i128
    requires { bits ≤ 126 }
    ensures { result ≡ pos (2 ^ bits) }
{
    1i128 << bits
}
