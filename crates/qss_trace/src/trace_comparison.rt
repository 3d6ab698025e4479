//! Compares two traces by V of their difference: finds the first common time at which V is
//! greatest.

ghost use Rattle.std.specs.Prelude.{◌≡◌, ◌+◌, ◌*◌, ◌^◌, ◌<◌, ◌≤◌, ◌↔◌, ◌-ℤ◌, ◌*ℤ◌, ◌≤ℤ◌, ℕ, pos, length, IsSome, IfSome, Some, None, unsigned_abs};
ghost use Rattle.qss_trace.specs.Prelude.{tick_limit, sum_limit};
ghost use Rattle.qss_trace.specs.CommonTicks.{AreCommon, IsPairInRange, IsBoundInRange, bound_of, value_of, difference, IsGreatest};
ghost use Rattle.qss_trace.specs.Comparing.{with_tick_of};
ghost use Rattle.qss_trace.specs.Trace.{count_of};

use crate::trace::{Trace, trace_place_number};
use crate::trace_sums::{scale_trace_state, trace_state_gap};
use cert_matrix::{Matrix, RangedSum, quad};

/// The first common time at which V of the difference of two traces is greatest, with its bound.
/// `Range`: the first places at which a sum is out of range, or 0 and 0 for the bound.
#[derive(Clone, Copy, Debug, PartialEq, Eq)]
pub enum Greatest {
    Found {
        common: u64,
        place1: u32,
        place2: u32,
        value: i128,
        bound: i128,
    },
    Range {
        place1: u32,
        place2: u32,
    },
}

/// The number of common times so far, and the first of them at which V is greatest.
#[derive(Clone, Copy)]
pub(crate) struct Search {
    pub common: u64,
    pub place1: u32,
    pub place2: u32,
    pub value: i128,
}

/// Finds the first common time of two traces at which V of their difference is greatest.
/// `p` and `c` are the matrix and the bound C of a certificate, `k` is the unit of a level.
pub fn compare(p: &Matrix, c: i128, k: i128, t1: &Trace, t2: &Trace) -> Greatest
    requires unit { (pos 1 ≤ℤ k) × (k ≤ℤ pos (2 ^ 44)) }
    requires first { t1.now.n ≡ length p.now }
    requires second { t2.now.n ≡ length p.now }
    ensures { IsGreatest p.now c k t1.now t2.now result }
{
    let Some(bound) = comparison_bound_at(c, k, t1, t2) else {
        return Greatest::Range {
            place1: 0,
            place2: 0,
        };
    };
    let mut search = Search {
        common: 0,
        place1: 0,
        place2: 0,
        value: 0,
    };
    for place1 in 0..t1.places() {
        if let Some(place2) = common_trace_place(t1, t2, place1) {
            let Some(value) = comparison_value_at(p, t1, t2, place1, place2) else {
                return Greatest::Range { place1, place2 };
            };
            search = comparison_with_tick(&search, place1, place2, &value);
        }
    }
    Greatest::Found {
        common: search.common,
        place1: search.place1,
        place2: search.place2,
        value: search.value,
        bound,
    }
}

// The bound: the square of the common unit times `c`. `None` if a product is out of range.
fn comparison_bound_at(c: i128, k: i128, t1: &Trace, t2: &Trace) -> Option<i128>
    ensures in_range { IsSome result ↔ IsBoundInRange c k t1.now t2.now }
    ensures value { IfSome result (λ bound. bound ≡ bound_of c k t1.now t2.now) }
{
    let scales = multiply_comparison_terms(i128::from(t1.scale), i128::from(t2.scale))?;
    let unit = multiply_comparison_terms(scales, k)?;
    let square = multiply_comparison_terms(unit, unit)?;
    multiply_comparison_terms(square, c)
}

// The product, or `None` if it exceeds 2^126 in absolute value.
fn multiply_comparison_terms(a: i128, b: i128) -> Option<i128>
    ensures in_range { IsSome result ↔ (unsigned_abs a * unsigned_abs b ≤ sum_limit) }
    ensures value { IfSome result (λ value. value ≡ a *ℤ b) }
{
    let sum = RangedSum::new().plus(a, b)?;
    Some(sum.total())
}

// The place of the second trace at the same time as a place of the first, if there is one.
fn common_trace_place(t1: &Trace, t2: &Trace, i1: u32) -> Option<u32>
    requires { i1 < count_of t1.now }
    ensures some { IfSome result (λ i2. AreCommon t1.now t2.now i1 i2) }
    ensures none { result ≡ None → (i2 : ℕ) → AreCommon t1.now t2.now i1 i2 → ⊥ }
{
    let tick = u64::from(i1) * u64::from(t2.refine);
    let place = tick / u64::from(t1.refine);
    if tick % u64::from(t1.refine) != 0 || place >= u64::from(t2.places()) {
        return None;
    }
    Some(place as u32)
}

// V of the difference at two places, or `None` if a sum is out of range.
fn comparison_value_at(p: &Matrix, t1: &Trace, t2: &Trace, i1: u32, i2: u32) -> Option<i128>
    requires size { length p.now ≡ t1.now.n }
    requires same { t2.now.n ≡ t1.now.n }
    requires first { i1 < count_of t1.now }
    requires second { i2 < count_of t2.now }
    ensures in_range { IsSome result ↔ IsPairInRange p.now t1.now t2.now i1 i2 }
    ensures value { IfSome result (λ value. value ≡ value_of p.now t1.now t2.now i1 i2) }
{
    let mut gaps = [0; 16];
    for j in 0..t1.n {
        gaps[j as usize] = comparison_difference_at(t1, t2, i1, i2, j);
    }
    quad(p, &gaps[..t1.n as usize])
}

// The difference of state `j` at two places, in the common unit.
fn comparison_difference_at(t1: &Trace, t2: &Trace, i1: u32, i2: u32, j: u8) -> i128
    requires same { t2.now.n ≡ t1.now.n }
    requires first { i1 < count_of t1.now }
    requires second { i2 < count_of t2.now }
    requires state { j < t1.now.n }
    ensures { result ≡ difference t1.now t2.now i1 i2 j }
{
    let one = trace_place_number(t1.states.as_slice(), t1.n, i1, j);
    let two = trace_place_number(t2.states.as_slice(), t2.n, i2, j);
    trace_state_gap(
        scale_trace_state(t2.scale, one),
        scale_trace_state(t1.scale, two),
    )
}

// The search after one more common time.
fn comparison_with_tick(search: &Search, place1: u32, place2: u32, value: &i128) -> Search
    requires { search.now.common < tick_limit }
    ensures { result ≡ with_tick_of search.now place1 place2 value.now }
{
    let common = search.common + 1;
    if search.common == 0 || search.value < *value {
        return Search {
            common,
            place1,
            place2,
            value: *value,
        };
    }
    Search {
        common,
        place1: search.place1,
        place2: search.place2,
        value: search.value,
    }
}
