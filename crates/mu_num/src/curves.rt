//! The first step at which a discrete parabola reaches a bound. The parabola has at most one
//! extremum, so two binary searches are enough.

ghost use Rattle.std.specs.Prelude.{◌≡◌, ◌^◌, ◌<◌, ◌≤◌, ◌+ℤ◌, ◌*ℤ◌, ◌<ℤ◌, ◌≤ℤ◌, ℕ, pos, neg_ℤ, unsigned_abs};
ghost use Rattle.mu_num.specs.Curves.{sum_to, curve_at, FirstUpTo, FirstReaching};
ghost use Rattle.mu_num.specs.Limits.{look_span, IsSecondState};
ghost use Rattle.mu_num.specs.Sizes.{IsWithin};

use crate::ticks::first_tick_beyond;

/// Let the curve be `c + b n + a n (n - 1) / 2` at step n. Returns the first step from 1 to `reach`
/// at which its absolute value is at least `bound`, or `None`. At step 0 it must be less than
/// `bound`. The curve has at most one extremum, so two binary searches are enough.
pub fn first_curve(c: i128, b: i128, a: i128, bound: i128, reach: u64) -> Option<u64>
    requires inside { pos (unsigned_abs c) <ℤ bound }
    requires bound { bound ≤ℤ pos (2 ^ 82) }
    requires slope { IsWithin 96 b }
    requires bend { IsSecondState a }
    requires some { 1 ≤ reach }
    requires reach { reach ≤ look_span }
    ensures { FirstUpTo (λ n. bound ≤ℤ pos (unsigned_abs (curve_at c b a n))) reach result }
{
    if b < 0 {
        find_curve_leaving_step(
            negate_curve_term(c),
            negate_curve_term(b),
            negate_curve_term(a),
            bound,
            reach,
        )
    } else {
        find_curve_leaving_step(c, b, a, bound, reach)
    }
}

// Returns the first step up to `reach` at which the absolute value of the curve is at least
// `bound`, for a curve that does not decrease in its first step.
fn find_curve_leaving_step(c: i128, b: i128, a: i128, bound: i128, reach: u64) -> Option<u64>
    requires inside { pos (unsigned_abs c) <ℤ bound }
    requires bound { bound ≤ℤ pos (2 ^ 82) }
    requires slope { IsWithin 96 b }
    requires rises { pos 0 ≤ℤ b }
    requires bend { IsSecondState a }
    requires steps { reach ≤ look_span }
    ensures { FirstUpTo (λ n. bound ≤ℤ pos (unsigned_abs (curve_at c b a n))) reach result }
{
    let back = negate_curve_term(a);
    let turn = find_curve_turn(b, back, reach);
    match find_rising_curve_step(c, b, a, bound, 0, turn) {
        Some(n) => Some(n),
        None => find_rising_curve_step(
            negate_curve_term(c),
            negate_curve_term(b),
            back,
            bound,
            turn,
            reach,
        ),
    }
}

// Returns the negated number.
fn negate_curve_term(z: i128) -> i128
    requires { IsWithin 96 z }
    ensures value { result ≡ neg_ℤ z }
    ensures bound { IsWithin 96 result }
{
    -z
}

// Returns the step of the maximum: up to it the curve does not decrease, from it on it does not
// increase. `back` is -a.
fn find_curve_turn(b: i128, back: i128, reach: u64) -> u64
    requires rises { pos 0 ≤ℤ b }
    requires steps { reach ≤ look_span }
    ensures in_reach { result ≤ reach }
    ensures rises { (m : ℕ) → m < result → (pos m *ℤ back) ≤ℤ b }
    ensures falls { (m : ℕ) → result ≤ m → m < reach → b ≤ℤ (pos m *ℤ back) }
{
    match first_tick_beyond(b, back) {
        Some(n) if n < reach => n,
        _ => reach,
    }
}

// Returns the first step after `low`, up to `high`, at which the curve is at least `bound`, if
// there is one. The curve must not decrease from `low` to `high`.
fn find_rising_curve_step(
    c: i128,
    b: i128,
    a: i128,
    bound: i128,
    low: u64,
    high: u64,
) -> Option<u64>
    requires start { IsWithin 82 c }
    requires slope { IsWithin 96 b }
    requires bend { IsSecondState a }
    requires order { low ≤ high }
    requires steps { high ≤ look_span }
    requires below { curve_at c b a low <ℤ bound }
    requires rises { (m : ℕ) → low ≤ m → m < high → pos 0 ≤ℤ (b +ℤ pos m *ℤ a) }
    ensures { FirstReaching c b a bound low high result }
{
    if low == high {
        return None;
    }
    if curve_at(c, b, a, high) < bound {
        return None;
    }
    Some(search_rising_curve(c, b, a, bound, low, high))
}

// Returns the value of the curve after n steps: c + b n + a n (n - 1) / 2.
fn curve_at(c: i128, b: i128, a: i128, n: u64) -> i128
    requires start { IsWithin 82 c }
    requires slope { IsWithin 96 b }
    requires bend { IsSecondState a }
    requires steps { n ≤ look_span }
    ensures { result ≡ curve_at c b a n }
{
    c + curve_linear_part(n, b) + curve_quadratic_part(n, a)
}

// Returns the linear part of the increase after n steps, with b per step.
fn curve_linear_part(n: u64, b: i128) -> i128
    requires steps { n ≤ look_span }
    requires slope { IsWithin 96 b }
    ensures value { result ≡ pos n *ℤ b }
    ensures bound { IsWithin 112 result }
{
    i128::from(n) * b
}

// Returns the quadratic part of the increase after n steps: each step adds a more than the last
// one.
fn curve_quadratic_part(n: u64, a: i128) -> i128
    requires steps { n ≤ look_span }
    requires bend { IsSecondState a }
    ensures value { result ≡ pos (sum_to n) *ℤ a }
    ensures bound { IsWithin 125 result }
{
    sum_curve_steps(n) * a
}

// Returns 0 + 1 + .. + (n - 1).
fn sum_curve_steps(n: u64) -> i128
    requires { n ≤ look_span }
    ensures value { result ≡ pos (sum_to n) }
    ensures bound { IsWithin 31 result }
{
    if n == 0 {
        return 0;
    }
    i128::from(n * (n - 1) / 2)
}

// Returns the first step after `low` at which the curve is at least `bound`. The curve must not
// decrease from `low` to `high`.
fn search_rising_curve(c: i128, b: i128, a: i128, bound: i128, low: u64, high: u64) -> u64
    requires start { IsWithin 82 c }
    requires slope { IsWithin 96 b }
    requires bend { IsSecondState a }
    requires order { low < high }
    requires steps { high ≤ look_span }
    requires below { curve_at c b a low <ℤ bound }
    requires above { bound ≤ℤ curve_at c b a high }
    requires rises { (m : ℕ) → low ≤ m → m < high → pos 0 ≤ℤ (b +ℤ pos m *ℤ a) }
    ensures later { low < result }
    ensures in_reach { result ≤ high }
    ensures holds { bound ≤ℤ curve_at c b a result }
    ensures first { (m : ℕ) → low ≤ m → m < result → curve_at c b a m <ℤ bound }
{
    let mut below = low;
    let mut above = high;
    while above - below > 1 {
        let middle = below + (above - below) / 2;
        if curve_at(c, b, a, middle) < bound {
            below = middle;
        } else {
            above = middle;
        }
    }
    above
}
