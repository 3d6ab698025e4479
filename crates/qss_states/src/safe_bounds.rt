//! Bounds on levels and discrete values up to which no row exceeds its limits.

ghost use Rattle.std.specs.Prelude.{◌≡◌, ◌+◌, ◌^◌, ◌<◌, ◌≤◌, ◌↔◌, ℕ, All, IsTrue, MatchOption, None, Some, length, sum_by, unsigned_abs};
ghost use Rattle.qss_states.specs.Prelude.{IsWithin, variable_limit};
ghost use Rattle.qss_states.specs.SafeBounds.{IsUpTo, AreUpToAt, AllowsBound, IsSafeBound, AreSmall, excess};

use mu_num::LEVEL_BITS;
use qss_machine::{Entry, Machine, Product, SlopeRow};

// The limit of levels and of discrete values, in units of 2^-f.
const LIMIT: u64 = 1 << LEVEL_BITS;

// The limit of coefficients in the current mode, in units of 2^-(p+k).
const MODE_LIMIT: u128 = 1 << MODE_BITS;

/// The bits of coefficients in the current mode, in units of 2^-(p+k).
pub(crate) const MODE_BITS: u8 = 44;

/// The greatest number that all rows allow, among the limit of levels and its successive halves. No
/// row exceeds its limits while levels and discrete values are at most this bound in absolute
/// value. It is `None` if one of these values is already greater, or if no such number exists.
pub(crate) fn start_row_bound(m: &Machine, levels: &[i64], d: &[i64]) -> Option<u64>
    ensures found { (bound : ℕ) → result ≡ Some bound → IsSafeBound m.now (Some bound) }
    ensures size_limit { (bound : ℕ) → result ≡ Some bound → AreSmall m.now bound levels.now d.now }
    ensures none { result ≡ None → (bound : ℕ) → IsSafeBound m.now (Some bound)
        → All (IsUpTo bound) levels.now → All (IsUpTo bound) d.now → ⊥ }
{
    let Some(bound) = greatest_row_bound(m) else {
        return None;
    };
    if !are_values_within(levels, bound) {
        return None;
    }
    if !are_values_within(d, bound) {
        return None;
    }
    Some(bound)
}

/// Whether the values at these indices, counted from `first`, are at most a bound in absolute
/// value.
pub(crate) fn are_places_within(values: &[i64], places: &[u32], first: u32, bound: u64) -> bool
    requires from { All (λ place. first ≤ place) places.now }
    requires known { All (λ place. place < first + length values.now) places.now }
    ensures { IsTrue result ↔ AreUpToAt bound values.now first places.now }
{
    for place in places {
        let value = values[(*place - first) as usize];
        if value.unsigned_abs() > bound {
            return false;
        }
    }
    true
}

// The greatest number that all rows allow, among the limit of levels and its successive halves, if
// any.
fn greatest_row_bound(m: &Machine) -> Option<u64>
    ensures { IsSafeBound m.now result }
{
    for halvings in 0u8..44 {
        let bound = LIMIT >> halvings;
        if is_safe_machine_bound(m, bound) {
            return Some(bound);
        }
    }
    None
}

// Whether all rows allow a bound.
fn is_safe_machine_bound(m: &Machine, bound: u64) -> bool
    requires { bound ≤ 2 ^ 43 }
    ensures { IsTrue result ↔ All (AllowsBound m.now.f bound) m.now.rows }
{
    for row in m.rows.as_slice() {
        if !is_safe_row_bound(row, m.f, bound) {
            return false;
        }
    }
    true
}

// Whether a row is within its limits for all levels and discrete values up to a bound, by its
// coefficients.
fn is_safe_row_bound(row: &SlopeRow, level_bits: u8, bound: u64) -> bool
    requires count_limit { length row.now.entries ≤ variable_limit }
    requires size_limit { All (λ entry. IsWithin 44 entry.coef) row.now.entries }
    requires factors { All (λ product. IsWithin 44 product.coef) row.now.products }
    requires bits { level_bits ≤ 24 }
    requires bound { bound ≤ 2 ^ 43 }
    ensures { IsTrue result ↔ AllowsBound level_bits bound row.now }
{
    let Some(excesses) = greatest_excess_sum(row.products.as_slice(), level_bits, bound) else {
        return false;
    };
    size_sum_of_entries(row.entries.as_slice()) + excesses <= MODE_LIMIT
}

// The sum of `greatest_excess` over products, or `None` if it exceeds the limit of coefficients.
fn greatest_excess_sum(products: &[Product], level_bits: u8, bound: u64) -> Option<u128>
    requires size_limit { All (λ product. IsWithin 44 product.coef) products.now }
    requires bits { level_bits ≤ 24 }
    requires bound { bound ≤ 2 ^ 43 }
    ensures { MatchOption result (2 ^ 44 < sum_by (excess level_bits bound) products.now)
        (λ sum. (sum ≡ sum_by (excess level_bits bound) products.now) × (sum ≤ 2 ^ 44)) }
{
    let mut sum: u128 = 0;
    for product in products {
        sum += greatest_excess(product, level_bits, bound);
        if sum > MODE_LIMIT {
            return None;
        }
    }
    Some(sum)
}

// An upper bound on the amount by which a product changes the coefficient of its state, if its
// discrete value is at most `bound` in absolute value.
fn greatest_excess(product: &Product, level_bits: u8, bound: u64) -> u128
    requires size_limit { IsWithin 44 product.now.coef }
    requires bits { level_bits ≤ 24 }
    requires bound { bound ≤ 2 ^ 43 }
    ensures value { result ≡ excess level_bits bound product.now }
    ensures most { result ≤ 2 ^ 88 }
{
    let most = u128::from(product.coef.unsigned_abs()) * u128::from(bound);
    (most >> level_bits) + 1
}

// The sum of the absolute values of coefficients.
fn size_sum_of_entries(entries: &[Entry]) -> u128
    requires count_limit { length entries.now ≤ variable_limit }
    requires size_limit { All (λ entry. IsWithin 44 entry.coef) entries.now }
    ensures value { result ≡ sum_by (λ entry. unsigned_abs entry.coef) entries.now }
    ensures bound { result ≤ 2 ^ 56 }
{
    let mut sum: u128 = 0;
    for entry in entries {
        sum += size_of_entry(entry);
    }
    sum
}

// The absolute value of a coefficient.
fn size_of_entry(entry: &Entry) -> u128
    requires { IsWithin 44 entry.now.coef }
    ensures value { result ≡ unsigned_abs entry.now.coef }
    ensures bound { result ≤ 2 ^ 44 }
{
    u128::from(entry.coef.unsigned_abs())
}

// Whether these values are at most a bound in absolute value.
fn are_values_within(values: &[i64], bound: u64) -> bool
    ensures { IsTrue result ↔ All (IsUpTo bound) values.now }
{
    values.iter().all(|value| value.unsigned_abs() <= bound)
}
