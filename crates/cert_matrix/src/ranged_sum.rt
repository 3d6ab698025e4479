//! Sums of products with a range check: the absolute values of the products add up to at most
//! 2^126.

ghost use Rattle.std.specs.Prelude.{◌≤◌, unsigned_abs};
ghost use Rattle.mu_num.specs.Limits.{sum_limit};

use mu_num::SUM_LIMIT;

/// A sum of products. The absolute values of the products add up to at most 2^126.
#[derive(Clone, Copy)]
pub struct RangedSum {
    pub(crate) total: i128,
    pub(crate) weight: u128,
    ghost within: { unsigned_abs total ≤ weight },
    ghost in_range: { weight ≤ sum_limit },
}

impl RangedSum {
    ghost use Rattle.std.specs.Prelude.{◌≡◌, ◌+◌, ◌*◌, ◌<◌, ◌↔◌, ◌+ℤ◌, ◌-ℤ◌, ◌*ℤ◌, IsNone, IfSome, pos};
    ghost use Rattle.mu_num.specs.IndexedSums.{abs_of};
    ghost use Rattle.cert_matrix.specs.RangedSums.{total_of, weight_of};

    /// The empty sum.
    pub fn new() -> Self
        ensures total { total_of result ≡ pos 0 }
        ensures weight { weight_of result ≡ 0 }
    {
        RangedSum {
            total: 0,
            weight: 0,
        }
    }

    /// The value of the sum.
    pub fn total(self) -> i128
        ensures value { result ≡ total_of self }
        ensures bound { unsigned_abs result ≤ sum_limit }
    {
        self.total
    }

    /// Adds `a * b`. Returns `None` if the result is out of range.
    pub fn plus(self, a: i128, b: i128) -> Option<Self>
        ensures out_of_range { IsNone result
            ↔ (sum_limit < weight_of self + unsigned_abs a * unsigned_abs b) }
        ensures total { IfSome result (λ sum. total_of sum ≡ total_of self +ℤ a *ℤ b) }
        ensures weight { IfSome result
            (λ sum. weight_of sum ≡ weight_of self + unsigned_abs a * unsigned_abs b) }
    {
        let size = a.unsigned_abs().checked_mul(b.unsigned_abs())?;
        if size > SUM_LIMIT - self.weight {
            return None;
        }
        Some(RangedSum {
            total: self.total + a * b,
            weight: self.weight + size,
        })
    }

    /// Adds `a.abs() * b`. Returns `None` if the result is out of range.
    pub fn plus_size(self, a: i128, b: i128) -> Option<Self>
        ensures out_of_range { IsNone result
            ↔ (sum_limit < weight_of self + unsigned_abs a * unsigned_abs b) }
        ensures total { IfSome result (λ sum. total_of sum ≡ total_of self +ℤ abs_of a *ℤ b) }
        ensures weight { IfSome result
            (λ sum. weight_of sum ≡ weight_of self + unsigned_abs a * unsigned_abs b) }
    {
        if a < 0 {
            self.minus(a, b)
        } else {
            self.plus(a, b)
        }
    }

    /// Subtracts `a * b`. Returns `None` if the result is out of range.
    pub fn minus(self, a: i128, b: i128) -> Option<Self>
        ensures out_of_range { IsNone result
            ↔ (sum_limit < weight_of self + unsigned_abs a * unsigned_abs b) }
        ensures total { IfSome result (λ sum. total_of sum ≡ total_of self -ℤ a *ℤ b) }
        ensures weight { IfSome result
            (λ sum. weight_of sum ≡ weight_of self + unsigned_abs a * unsigned_abs b) }
    {
        let size = a.unsigned_abs().checked_mul(b.unsigned_abs())?;
        if size > SUM_LIMIT - self.weight {
            return None;
        }
        Some(RangedSum {
            total: self.total - a * b,
            weight: self.weight + size,
        })
    }
}
