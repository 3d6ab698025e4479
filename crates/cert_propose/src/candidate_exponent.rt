//! Step 1 of the proposal: the exponent q, for which 2^q is at least 16 times each absolute row sum
//! of the machine's matrix.

ghost use Rattle.std.specs.Prelude.{◌≡◌, ◌<◌, ◌^◌, ◌*ℤ◌, int_le, pos, length};
ghost use Rattle.cert_propose.specs.Prelude.{table};
ghost use Rattle.cert_propose.specs.Candidate as Step;

use crate::candidate_matrices::candidate_row_size;
use cert_matrix::Matrix;

/// The least q, at most 52, for which 2^q is at least 16 times each absolute row sum.
pub(crate) fn search_exponent(a: &Matrix) -> u8
    ensures value { result ≡ Step.exponent (length a.now) (table a.now) }
    ensures count_limit { result < 64 }
{
    for q in 0..64 {
        if is_exponent_enough(a, q) {
            return q;
        }
    }
    0
}

/// 2^q.
pub(crate) fn power_of_exponent(q: u8) -> i128
    requires { q < 127 }
    ensures { result ≡ pos (2 ^ q) }
{
    1 << q
}

// Whether 2^q is at least 16 times each absolute row sum.
fn is_exponent_enough(a: &Matrix, q: u8) -> bool
    requires { q < 64 }
    ensures { result ≡ Step.is_exponent (length a.now) (table a.now) q }
{
    for i in 0..a.size() {
        if !is_exponent_above_row(a, i, q) {
            return false;
        }
    }
    true
}

// Whether 2^q is at least 16 times the absolute row sum of row `i`.
fn is_exponent_above_row(a: &Matrix, i: u8, q: u8) -> bool
    requires row { i < length a.now }
    requires count_limit { q < 64 }
    ensures { result
        ≡ int_le (pos 16 *ℤ Step.row_size (length a.now) (table a.now) i) (pos (2 ^ q)) }
{
    match candidate_row_size(a, i) {
        Some(size) => size <= (1 << q) / 16,
        None => false,
    }
}
