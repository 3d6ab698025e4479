//! The sum of the products of a list of pairs, with a range check.

ghost use Rattle.std.specs.Prelude.{◌≡◌, ◌<◌, ◌↔◌, IsNone, IfSome};
ghost use Rattle.mu_num.specs.Limits.{sum_limit};
ghost use Rattle.cert_matrix.specs.Sums.{products, weights};

use crate::ranged_sum::RangedSum;

/// The sum of the products of the pairs.
/// `None` if the absolute values of the products add up to more than 2^126.
pub fn weigh(terms: &[(i128, i128)]) -> Option<i128>
    ensures out_of_range { IsNone result ↔ (sum_limit < weights terms.now) }
    ensures sum { IfSome result (λ sum. sum ≡ products terms.now) }
{
    let mut sum = RangedSum::new();
    for term in terms {
        sum = sum.plus(term.0, term.1)?;
    }
    Some(sum.total)
}
