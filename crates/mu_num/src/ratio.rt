//! Fractions in lowest terms, and their arithmetic. It is an error if a term exceeds 2^62.

ghost use Rattle.std.specs.Prelude.{◌≡◌, ◌<◌, ◌≤◌, ◌^◌, ◌*ℤ◌, ℤ, ℕ, pos, unsigned_abs, int_div};
ghost use Rattle.std.specs.Int.{IsGcd};
ghost use Rattle.mu_num.specs.Fraction.{lowest, checked, sum, difference, product, quotient, power, sign, checked_quotient, whole, IsReduced};
ghost use Rattle.mu_num.specs.Rounding.{IsNearest, nearest_of};

use crate::NumErr;
use crate::division::near_div;
use crate::powers_of_two::times_power_of_two;
use std::marker::Model;

/// The maximum absolute value of a term.
const LIMIT: u128 = 1 << 62;

/// A fraction in lowest terms with a positive denominator. Both terms are at most 2^62 in absolute
/// value.
#[derive(Clone, Copy, PartialEq, Eq, Debug, Drop)]
pub struct Ratio {
    num: i128,
    den: u128,
}

impl Model for Ratio {
    ghost use Rattle.mu_num.specs.Fraction.{Fraction, IsReduced};

    ghost Value = { Fraction };

    ghost view = { λ r. record { num = r.num; den = r.den } };

    ghost invariant = { λ r. IsReduced (record { num = r.num; den = r.den }) };

    ghost inverse = { λ f. record { num = f.num; den = f.den } };
}

impl Ratio {
    /// Returns an integer of absolute value at most 2^62 as a fraction.
    pub fn whole(num: i128) -> Ratio
        requires { unsigned_abs num ≤ 2 ^ 62 }
        ensures { result ≡ whole num }
    {
        with_terms(num, 1)
    }

    /// Returns the numerator in lowest terms.
    pub fn num(self) -> i128
        ensures value { result ≡ self.num }
        ensures size { unsigned_abs result ≤ 2 ^ 62 }
    {
        self.num
    }

    /// Returns the positive denominator in lowest terms.
    pub fn den(self) -> i128
        ensures value { result ≡ pos self.den }
        ensures positive { 0 < self.den }
        ensures size { self.den ≤ 2 ^ 62 }
        ensures reduced { IsReduced self }
    {
        self.den as i128
    }

    /// Returns the sum. Errors: `Range` if a term of the result exceeds 2^62.
    pub fn add(self, other: Ratio) -> Result<Ratio, NumErr>
        ensures { result ≡ checked (sum self other) }
    {
        let left = scale_ratio_numerator(self.num, other.den);
        let right = scale_ratio_numerator(other.num, self.den);
        reduced(left + right, self.den * other.den)
    }

    /// Returns the difference. Errors: `Range` if a term of the result exceeds 2^62.
    pub fn sub(self, other: Ratio) -> Result<Ratio, NumErr>
        ensures { result ≡ checked (difference self other) }
    {
        let left = scale_ratio_numerator(self.num, other.den);
        let right = scale_ratio_numerator(other.num, self.den);
        reduced(left - right, self.den * other.den)
    }

    /// Returns the product. Errors: `Range` if a term of the result exceeds 2^62.
    pub fn mul(self, other: Ratio) -> Result<Ratio, NumErr>
        ensures { result ≡ checked (product self other) }
    {
        reduced(
            multiply_ratio_terms(self.num, other.num),
            self.den * other.den,
        )
    }

    /// Returns the quotient. Errors: `ZeroDivisor` for the divisor 0, `Range` if a term of the
    /// result exceeds 2^62.
    pub fn div(self, other: Ratio) -> Result<Ratio, NumErr>
        ensures { result ≡ checked_quotient self other }
    {
        if other.num == 0 {
            return Err(NumErr::ZeroDivisor);
        }
        let num = apply_ratio_sign(scale_ratio_numerator(self.num, other.den), other.num);
        reduced(num, self.den * other.num.unsigned_abs())
    }

    /// Returns a power; it is 1 for exponent 0. Errors: `Range` if a term of a result exceeds 2^62.
    pub fn pow(self, exp: u8) -> Result<Ratio, NumErr>
        ensures { result ≡ checked (power self exp) }
    {
        let _ = &self.num;
        let mut value = Ratio::whole(1);
        for _ in 0..exp {
            value = match value.mul(self) {
                Ok(next) => next,
                Err(error) => return Err(error),
            };
        }
        Ok(value)
    }
}

/// Returns the value in units of 2^-bits, rounded to the nearest integer, ties to even.
pub fn nearest(r: Ratio, bits: u8) -> i128
    requires { bits ≤ 64 }
    ensures nearest { IsNearest (r.num *ℤ pos (2 ^ bits)) (pos r.den) result }
    ensures value { result ≡ nearest_of (r.num *ℤ pos (2 ^ bits)) (pos r.den) }
{
    near_div(times_power_of_two(r.num, bits), r.den())
}

// Returns the fraction with these terms.
fn with_terms(num: i128, den: u128) -> Ratio
    requires { IsReduced (record { num = num; den = den }) }
    ensures { result ≡ record { num = num; den = den } }
{
    Ratio { num, den }
}

// Returns the product of a number and a natural number, both at most 2^62.
fn scale_ratio_numerator(num: i128, by: u128) -> i128
    requires num { unsigned_abs num ≤ 2 ^ 62 }
    requires by { by ≤ 2 ^ 62 }
    ensures value { result ≡ num *ℤ pos by }
    ensures size { unsigned_abs result ≤ 2 ^ 124 }
{
    num * by as i128
}

// Returns num / den in lowest terms. Errors: `Range` if a term exceeds 2^62.
pub(crate) fn reduced(num: i128, den: u128) -> Result<Ratio, NumErr>
    requires positive { 0 < den }
    requires fits { den < 2 ^ 127 }
    ensures { result ≡ checked (record { num = num; den = den }) }
{
    let divisor = ratio_common_divisor(num.unsigned_abs(), den);
    let num = quotient(num, divisor);
    let den = den / divisor;
    if num.unsigned_abs() <= LIMIT && den <= LIMIT {
        Ok(with_terms(num, den))
    } else {
        Err(NumErr::Range)
    }
}

// Returns the greatest common divisor of a number and a positive number (Euclid).
fn ratio_common_divisor(a: u128, b: u128) -> u128
    requires { 0 < b }
    ensures divisor { IsGcd a b result }
    ensures positive { 0 < result }
    ensures at_most { result ≤ b }
{
    let mut x = a;
    let mut y = b;
    while y != 0 {
        let rest = x % y;
        x = y;
        y = rest;
    }
    x
}

// Returns a number divided by a positive number, rounded toward 0.
fn quotient(num: i128, divisor: u128) -> i128
    requires positive { 0 < divisor }
    requires fits { divisor < 2 ^ 127 }
    ensures { result ≡ int_div num (pos divisor) }
{
    num / divisor as i128
}

// Returns the product of two numbers of absolute value at most 2^62.
fn multiply_ratio_terms(a: i128, b: i128) -> i128
    requires a { unsigned_abs a ≤ 2 ^ 62 }
    requires b { unsigned_abs b ≤ 2 ^ 62 }
    ensures value { result ≡ a *ℤ b }
    ensures size { unsigned_abs result ≤ 2 ^ 124 }
{
    a * b
}

// Returns the number times the sign of another number.
fn apply_ratio_sign(num: i128, by: i128) -> i128
    requires { unsigned_abs num ≤ 2 ^ 124 }
    ensures value { result ≡ num *ℤ sign by }
    ensures size { unsigned_abs result ≤ 2 ^ 124 }
{
    if by < 0 { -num } else { num }
}
