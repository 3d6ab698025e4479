//! The sums that compute the sides of facts about traces. Each fits in 128 bits.

ghost use Rattle.std.specs.Prelude.{◌≡◌, ◌^◌, ◌<◌, ◌≤◌, ◌+ℤ◌, ◌-ℤ◌, ◌*ℤ◌, ◌≤ℤ◌, ℕ, pos, length, unsigned_abs, All};
ghost use Rattle.qss_trace.specs.Prelude.{IsWithin, IsLevel, IsState, times, table, vector, system};
ghost use Rattle.qss_trace.specs.TraceLimits.{IsFactor};
ghost use Rattle.qss_trace.specs.TraceSums.{IsSmall};

use cert_check::AffineSystem;

/// The slope of state `j` at these levels, per tick, in the trace's units.
pub fn trace_rise(a: &AffineSystem, scale: u32, levels: &[i128], j: u8) -> i128
    requires scale { IsFactor scale }
    requires size_limit { IsSmall a.now }
    requires same_length { length levels.now ≡ a.now.n }
    requires levels { All (IsWithin 64) levels.now }
    requires row { j < a.now.n }
    ensures value { result
        ≡ times a.now.n (table a.now.coef) (vector levels.now) j +ℤ pos scale *ℤ vector
        a.now.constant j }
    ensures bound { IsWithin 118 result }
{
    add_trace_numbers(
        trace_level_sum(a, levels, j),
        scale_trace_number(scale, a.constant.at(j)),
    )
}

/// A start state of the machine in the trace's units.
pub fn scale_trace_start(scale: u32, start: i128) -> i128
    requires scale { IsFactor scale }
    requires start { IsState start }
    ensures { result ≡ pos scale *ℤ start }
{
    scale_trace_number(scale, start)
}

/// The change of a state per tick, between two consecutive places.
pub(crate) fn trace_rate(refine: u32, from: i128, to: i128) -> i128
    requires refine { IsFactor refine }
    requires from { IsWithin 108 from }
    requires to { IsWithin 108 to }
    ensures { result ≡ pos refine *ℤ (to -ℤ from) }
{
    trace_places_times(refine, trace_gap(from, to))
}

/// The distance of a state from its level, in units of states.
pub(crate) fn trace_distance(unit: i128, state: i128, level: i128) -> i128
    requires unit { IsWithin 44 unit }
    requires state { IsWithin 108 state }
    requires level { IsWithin 64 level }
    ensures { result ≡ pos (unsigned_abs (state -ℤ unit *ℤ level)) }
{
    trace_gap(trace_level_in_states(unit, level), state).abs()
}

/// The quantum: the largest distance of a state from its level, in the trace's units of states.
pub fn trace_reach(scale: u32, unit: i128, quantum: i128) -> i128
    requires scale { IsFactor scale }
    requires unit { IsWithin 44 unit }
    requires quantum { IsLevel quantum }
    ensures { result ≡ pos scale *ℤ unit *ℤ quantum }
{
    scale_trace_unit(scale, unit) * quantum
}

/// A state in units that are `scale` times finer.
pub(crate) fn scale_trace_state(scale: u32, state: i128) -> i128
    requires scale { IsFactor scale }
    requires state { IsWithin 108 state }
    ensures value { result ≡ pos scale *ℤ state }
    ensures bound { IsWithin 124 result }
{
    i128::from(scale) * state
}

/// The difference of two states in a common unit.
pub(crate) fn trace_state_gap(a: i128, b: i128) -> i128
    requires first { IsWithin 124 a }
    requires second { IsWithin 124 b }
    ensures { result ≡ a -ℤ b }
{
    a - b
}

// The sum of two numbers.
fn add_trace_numbers(a: i128, b: i128) -> i128
    requires first { IsWithin 112 a }
    requires second { IsWithin 117 b }
    ensures value { result ≡ a +ℤ b }
    ensures bound { IsWithin 118 result }
{
    a + b
}

// The scalar product of row `j` of the coefficients and the levels.
fn trace_level_sum(a: &AffineSystem, levels: &[i128], j: u8) -> i128
    requires size_limit { IsSmall a.now }
    requires same_length { length levels.now ≡ a.now.n }
    requires levels { All (IsWithin 64) levels.now }
    requires row { j < a.now.n }
    ensures value { result ≡ times a.now.n (table a.now.coef) (vector levels.now) j }
    ensures bound { IsWithin 112 result }
{
    let mut sum: i128 = 0;
    for k in 0..a.n {
        sum += trace_level_term(a.coef.get(j, k), levels[k as usize]);
    }
    sum
}

// A coefficient times a level.
fn trace_level_term(coefficient: i128, level: i128) -> i128
    requires coefficient { IsWithin 44 coefficient }
    requires level { IsWithin 64 level }
    ensures value { result ≡ coefficient *ℤ level }
    ensures bound { IsWithin 108 result }
{
    coefficient * level
}

// A number in units that are `scale` times finer.
fn scale_trace_number(scale: u32, number: i128) -> i128
    requires scale { IsFactor scale }
    requires number { IsWithin 101 number }
    ensures value { result ≡ pos scale *ℤ number }
    ensures bound { IsWithin 117 result }
{
    i128::from(scale) * number
}

// A number times the refinement.
fn trace_places_times(refine: u32, number: i128) -> i128
    requires refine { IsFactor refine }
    requires number { IsWithin 109 number }
    ensures { result ≡ pos refine *ℤ number }
{
    i128::from(refine) * number
}

// The difference `to` less `from` of two states.
fn trace_gap(from: i128, to: i128) -> i128
    requires from { IsWithin 108 from }
    requires to { IsWithin 108 to }
    ensures value { result ≡ to -ℤ from }
    ensures bound { IsWithin 109 result }
{
    to - from
}

/// A level in units of states.
pub fn trace_level_in_states(unit: i128, level: i128) -> i128
    requires unit { IsWithin 44 unit }
    requires level { IsWithin 64 level }
    ensures value { result ≡ unit *ℤ level }
    ensures bound { IsWithin 108 result }
{
    unit * level
}

// The size of a level in the trace's units of states.
fn scale_trace_unit(scale: u32, unit: i128) -> i128
    requires scale { IsFactor scale }
    requires unit { IsWithin 44 unit }
    ensures value { result ≡ pos scale *ℤ unit }
    ensures bound { IsWithin 60 result }
{
    i128::from(scale) * unit
}
