//! Reads the value of a number token as a fraction.

ghost use Rattle.std.specs.Prelude.{◌≡◌, ◌<◌, ◌≤◌, ◌^◌, ◌*◌, ◌+◌, ℕ, min, length, drop, count_by};
ghost use Rattle.std.specs.List.{before_first, after_first, list_any, position_or_len};
ghost use Rattle.mu_num.specs.Decimal.{is_digit, is_exponent_mark, is_point, is_minus, number_of, digit_after, decimal_value};
ghost use Rattle.mu_num.specs.Significand.{significand, byte_after, scaled};

use crate::NumErr;
use crate::ratio::{Ratio, reduced};

/// The maximum absolute value of a term.
const SMALL: u128 = 1 << 62;

/// A number greater than every limit, at which digits saturate.
const MANY: u128 = 1 << 64;

// Digits without trailing zeros, saturated at `MANY`, and the number of trailing zeros.
#[derive(Clone, Copy)]
struct Digits {
    number: u128,
    zeros: u128,
}

/// Returns the value of a number token, such as `.5` or `1.25e-3`.
///
/// Let the token be m * 10^e, where m does not end in 0. It is in range if m is at most 2^62, e is
/// at least -18, and the value is at most 2^62 for positive e. The value 0 is in range. Errors:
/// `Range`.
pub fn decimal(digits: &[u8]) -> Result<Ratio, NumErr>
    ensures { result ≡ decimal_value digits.now }
{
    let mark = find_literal_exponent(digits);
    let mantissa = &digits[..mark];
    let exponent = literal_bytes_after(digits, mark);
    let point = find_literal_point(mantissa);
    let places = count_literal_digits(literal_bytes_after(mantissa, point)) as u128;
    let read = read_literal_digits(mantissa);
    let power = read_literal_number(exponent);
    if has_literal_minus(exponent) {
        scale_literal_to_ratio(read.number, read.zeros, places + power)
    } else {
        scale_literal_to_ratio(read.number, read.zeros + power, places)
    }
}

// Returns the index of the first exponent mark, or the length.
fn find_literal_exponent(text: &[u8]) -> usize
    ensures place { result ≡ position_or_len is_exponent_mark text.now }
    ensures inside { result ≤ length text.now }
{
    for place in 0..text.len() {
        if is_literal_exponent_mark(text[place]) {
            return place;
        }
    }
    text.len()
}

// Returns whether a byte is `e` or `E`.
fn is_literal_exponent_mark(byte: u8) -> bool
    ensures { result ≡ is_exponent_mark byte }
{
    byte == b'e' || byte == b'E'
}

// Returns the bytes after an index, or none at the end.
fn literal_bytes_after(text: &[u8], place: usize) -> &[u8]
    requires { place ≤ length text.now }
    ensures { result.now ≡ drop (place + 1) text.now }
{
    if place < text.len() {
        &text[place + 1..]
    } else {
        &[]
    }
}

// Returns the index of the first decimal point, or the length.
fn find_literal_point(text: &[u8]) -> usize
    ensures place { result ≡ position_or_len is_point text.now }
    ensures inside { result ≤ length text.now }
{
    for place in 0..text.len() {
        if text[place] == 46 {
            return place;
        }
    }
    text.len()
}

// Returns the number of digits in a text.
fn count_literal_digits(text: &[u8]) -> usize
    ensures { result ≡ count_by is_digit text.now }
{
    text.iter().filter(|byte| is_literal_digit(**byte)).count()
}

// Returns whether a byte is a digit.
fn is_literal_digit(byte: u8) -> bool
    ensures { result ≡ is_digit byte }
{
    48 <= byte && byte <= 57
}

// Returns the digits of a text.
fn read_literal_digits(text: &[u8]) -> Digits
    ensures number { result.number ≡ min (significand text.now).number (2 ^ 64) }
    ensures zeros { result.zeros ≡ (significand text.now).zeros }
    ensures count_limit { result.zeros ≤ length text.now }
    ensures saturated { result.number ≤ 2 ^ 64 }
{
    let mut digits = Digits {
        number: 0,
        zeros: 0,
    };
    for byte in text {
        digits = continue_literal_digits(digits, *byte);
    }
    digits
}

// Returns the digits after one more byte.
fn continue_literal_digits(digits: Digits, byte: u8) -> Digits
    requires number { digits.number ≤ 2 ^ 64 }
    requires zeros { digits.zeros < 2 ^ 64 }
    ensures number { result.number
        ≡ min (byte_after (record { number = digits.number; zeros = digits.zeros }) byte).number
        (2 ^ 64) }
    ensures zeros { result.zeros
        ≡ (byte_after (record { number = digits.number; zeros = digits.zeros }) byte).zeros }
    ensures saturated { result.number ≤ 2 ^ 64 }
    ensures count_limit { result.zeros ≤ digits.zeros + 1 }
{
    if !is_literal_digit(byte) {
        return digits;
    }
    if byte == 48 {
        return Digits {
            number: digits.number,
            zeros: digits.zeros + 1,
        };
    }
    Digits {
        number: append_decimal_digit(shift_literal_digits(digits.number, digits.zeros), byte - 48),
        zeros: 0,
    }
}

// Returns the number with one more decimal digit, saturated at `MANY`.
fn append_decimal_digit(number: u128, digit: u8) -> u128
    requires number { number ≤ 2 ^ 64 }
    requires digit { digit < 10 }
    ensures value { result ≡ min (number * 10 + digit) (2 ^ 64) }
    ensures saturated { result ≤ 2 ^ 64 }
{
    (number * 10 + digit as u128).min(MANY)
}

// Returns the number times 10^count, saturated at `MANY`.
fn shift_literal_digits(number: u128, count: u128) -> u128
    requires { number ≤ 2 ^ 64 }
    ensures value { result ≡ min (number * 10 ^ count) (2 ^ 64) }
    ensures saturated { result ≤ 2 ^ 64 }
{
    if number == 0 {
        return 0;
    }
    let mut power = number;
    for _ in 0..count.min(20) {
        power = append_decimal_digit(power, 0);
    }
    power
}

// Returns the number that the digits of a text denote, saturated at `MANY`.
fn read_literal_number(text: &[u8]) -> u128
    ensures value { result ≡ min (number_of text.now) (2 ^ 64) }
    ensures saturated { result ≤ 2 ^ 64 }
{
    let mut number = 0;
    for byte in text {
        number = append_literal_byte(number, *byte);
    }
    number
}

// Returns the number after one more byte, saturated at `MANY`. Bytes that are no digits are
// ignored.
fn append_literal_byte(number: u128, byte: u8) -> u128
    requires { number ≤ 2 ^ 64 }
    ensures value { result ≡ min (digit_after number byte) (2 ^ 64) }
    ensures saturated { result ≤ 2 ^ 64 }
{
    if is_literal_digit(byte) {
        append_decimal_digit(number, byte - 48)
    } else {
        number
    }
}

// Returns whether a text contains a minus sign.
fn has_literal_minus(text: &[u8]) -> bool
    ensures { result ≡ list_any is_minus text.now }
{
    text.iter().any(|byte| *byte == 45)
}

// Returns number * 10^up / 10^down. The number is 0 or does not end in 0. Errors: `Range`.
fn scale_literal_to_ratio(number: u128, up: u128, down: u128) -> Result<Ratio, NumErr>
    requires number { number ≤ 2 ^ 64 }
    ensures { result ≡ scaled number up down }
{
    if number == 0 {
        return Ok(Ratio::whole(0));
    }
    if down <= up {
        let value = shift_literal_digits(number, up - down);
        if value > SMALL {
            return Err(NumErr::Range);
        }
        return reduced(value as i128, 1);
    }
    if number > SMALL || down - up > 18 {
        return Err(NumErr::Range);
    }
    reduced(number as i128, shift_literal_digits(1, down - up))
}
