//! The Gram test: a sufficient condition for a positive semidefinite matrix, in whole numbers. It
//! tests row by row whether h m - g^T g is diagonally dominant.

ghost use Rattle.std.specs.Prelude.{◌≡◌, ◌+◌, ◌*◌, ◌<◌, ◌≤◌, ◌≤ℤ◌, ◌↔◌, ℕ, ℤ, pos, length, unsigned_abs, IsSome, IfSome};
ghost use Rattle.mu_num.specs.Limits.{sum_limit};
ghost use Rattle.cert_matrix.specs.Form.{off_diagonal_sum, off_diagonal_abs, minus_gram, IsSymmetric, IsNeverNegative};
ghost use Rattle.cert_matrix.specs.Gram.{entry_weight, IsRowInRange, IsVerdict};
ghost use Rattle.cert_matrix.specs.Matrix.{table};

use crate::matrix::Matrix;
use crate::ranged_sum::RangedSum;

/// The result of the Gram test: it holds, or the first row that fails or is out of range.
/// Rows count from 1. `left` is the diagonal entry, `right` the off-diagonal absolute row sum.
#[derive(Clone, Copy, Debug, PartialEq, Eq)]
pub enum Test {
    Holds,
    Fails { row: u32, left: i128, right: i128 },
    Range { row: u32 },
}

/// The two sides of a row: the diagonal entry and the off-diagonal absolute row sum.
#[derive(Clone, Copy)]
pub struct RowSides {
    pub left: i128,
    pub right: i128,
}

/// Tests row by row whether h m - g^T g is diagonally dominant.
pub fn gram_test(h: i128, m: &Matrix, g: &Matrix) -> Test
    requires { length g.now ≡ length m.now }
    ensures verdict { IsVerdict (length m.now) h (table m.now) (table g.now) result }

    // If the test holds for a symmetric `m`, the quadratic form of `m` is positive semidefinite.
    ensures never_negative { result ≡ Test.Holds
        → pos 1 ≤ℤ h
        → IsSymmetric (length m.now) (table m.now)
        → IsNeverNegative (length m.now) (table m.now) }
{
    test_gram_rows(&h, m, g)
}

/// Tests the rows in order and returns the first failure.
fn test_gram_rows(h: &i128, m: &Matrix, g: &Matrix) -> Test
    requires { length g.now ≡ length m.now }
    ensures { IsVerdict (length m.now) h.now (table m.now) (table g.now) result }
{
    for i in 0..m.size() {
        match gram_row(h, m, g, i) {
            None => return Test::Range {
                row: u32::from(i) + 1,
            },
            Some(sides) => {
                if sides.left < sides.right {
                    return Test::Fails {
                        row: u32::from(i) + 1,
                        left: sides.left,
                        right: sides.right,
                    };
                }
            }
        }
    }
    Test::Holds
}

/// The two sides of row `i`, or `None` if a sum of the row is out of range.
pub fn gram_row(h: &i128, m: &Matrix, g: &Matrix, i: u8) -> Option<RowSides>
    requires same { length g.now ≡ length m.now }
    requires row { i < length m.now }
    ensures in_range { IsSome result
        ↔ IsRowInRange (length m.now) h.now (table m.now) (table g.now) i }
    ensures left { IfSome result
        (λ sides. sides.left ≡ minus_gram (length m.now) h.now (table m.now) (table g.now) i i) }
    ensures right { IfSome result
        (λ sides. sides.right
        ≡ off_diagonal_sum (length m.now) (minus_gram (length m.now) h.now (table m.now) (table g.now))
        i) }
{
    let left = gram_entry(*h, m, g, i, i)?;
    let mut beside = RangedSum::new();
    for j in 0..m.size() {
        beside = beside.plus(gram_size(h, m, g, i, j)?, 1)?;
    }
    Some(RowSides {
        left,
        right: beside.total,
    })
}

/// Entry (`i`, `j`) of h m - g^T g, or `None` if its sum is out of range.
fn gram_entry(h: i128, m: &Matrix, g: &Matrix, i: u8, j: u8) -> Option<i128>
    requires same { length g.now ≡ length m.now }
    requires row { i < length m.now }
    requires column { j < length m.now }
    ensures in_range { IsSome result
        ↔ (entry_weight (length m.now) h (table m.now) (table g.now) i j ≤ sum_limit) }
    ensures value { IfSome result
        (λ entry. entry ≡ minus_gram (length m.now) h (table m.now) (table g.now) i j) }
    ensures bound { IfSome result (λ entry. unsigned_abs entry ≤ sum_limit) }
{
    let mut sum = RangedSum::new().plus(h, m.get(i, j))?;
    for k in 0..m.size() {
        sum = sum.minus(g.get(k, i), g.get(k, j))?;
    }
    Some(sum.total)
}

/// The absolute value of entry (`i`, `j`) of h m - g^T g, or 0 on the diagonal.
/// `None` if its sum is out of range.
fn gram_size(h: &i128, m: &Matrix, g: &Matrix, i: u8, j: u8) -> Option<i128>
    requires same { length g.now ≡ length m.now }
    requires row { i < length m.now }
    requires column { j < length m.now }
    ensures in_range { IsSome result
        ↔ (entry_weight (length m.now) h.now (table m.now) (table g.now) i j ≤ sum_limit) }
    ensures value { IfSome result
        (λ value. value
        ≡ off_diagonal_abs (minus_gram (length m.now) h.now (table m.now) (table g.now)) i j) }
{
    let entry = gram_entry(*h, m, g, i, j)?;
    Some(if i == j { 0 } else { entry.abs() })
}
