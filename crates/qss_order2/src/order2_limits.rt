//! Finds states and rows that exceed a limit. A bound on levels makes most of these checks
//! unnecessary.

ghost use Rattle.std.specs.Prelude.{◌≡◌, ◌<◌, ◌≤◌, ◌^◌, ◌≤ℤ◌, ℕ, All, None, Some, true, false, length, ℤ, pos, IfOk};
ghost use Rattle.qss_order2.specs.Prelude.{overflow_of, IsWithin, exceeds, state_count, is_listed, int_at, first_exceeding, abs_of, variable_limit, bits_of_second_level, bits_of_second_state};
ghost use Rattle.qss_order2.specs.Places.{AreLevelsWithin, AreLinesWithin, place_in, IsLineWithin};
ghost use Rattle.qss_order2.specs.SecondRunLimits.{heavy_row, steep_row, IsFlat, past_levels, IsSafeBound, IsSafeIfKnown};
ghost use Rattle.qss_order2.specs.SecondSteps.{rise_weight, rise_change_weight};
ghost use Rattle.qss_order2.specs.Stores.{AreLevelsSafe, AreLinesSafe, CanReadAt};

use crate::fixed_machine::FixedMachine;
use crate::order2_motion::Motion;
use crate::order2_rises::{is_rise_change_steep, rise_weight_of};
use mu_num::{SECOND_LEVEL_BITS, SECOND_WEIGHT_BITS, exceeds_power_of_two, unit};
use qss_hand::Over;
use qss_sched::repeat_value;
use std::alloc::{AllocError, Global};

/// Whether the absolute row sum of the level slopes exceeds its limit for a row of a list.
pub(crate) fn has_bend_past_limit(f: &FixedMachine, list: &[u32], changes: &[i128]) -> bool
    requires list { All (λ j. j < state_count f.now.machine) list.now }
    requires changes { length changes.now ≡ state_count f.now.machine }
    ensures { result ≡ false
        → (j : ℕ) → is_listed list.now j ≡ true
        → IsFlat f.now.machine changes.now j }
{
    for state in list {
        if is_bend_past_limit(f, *state as usize, changes) {
            return true;
        }
    }
    false
}

/// Checks the absolute row sums of the level slopes. The error is the least row that exceeds its
/// limit.
#[cold]
#[inline(never)]
pub(crate) fn check_level_slope_sums(f: &FixedMachine, changes: &[i128]) -> Result<(), Over>
    requires { length changes.now ≡ state_count f.now.machine }
    ensures { overflow_of result ≡ steep_row f.now.machine changes.now }
{
    for row in 0..changes.len() {
        if is_bend_past_limit(f, row, changes) {
            return Err(Over { var: row as u32 });
        }
    }
    Ok(())
}

/// Whether levels are unbounded, or the level of a state of a list exceeds the safe bound.
pub(crate) fn is_limit_check_needed(
    unbounded: bool,
    safe_bound: Option<i128>,
    list: &[u32],
    q: &Motion,
) -> bool
    requires { All (λ j. j < length q.now.places.items) list.now }
    ensures was { result ≡ false → unbounded ≡ false }
    ensures bounded { result ≡ false → AreLevelsSafe safe_bound list.now q.now }
{
    if unbounded {
        return true;
    }
    match safe_bound {
        Some(bound) => has_place_above_limit(list, q, bound),
        None => true,
    }
}

/// Whether levels are unbounded, or for a state of a list, the level slope, or a level up to the
/// end of a window, exceeds the safe bound.
pub(crate) fn is_line_limit_needed(
    unbounded: bool,
    safe_bound: Option<i128>,
    list: &[u32],
    q: &Motion,
    window: u64,
) -> bool
    requires list { All (λ j. j < length q.now.places.items) list.now }
    requires reads { CanReadAt window q.now }
    ensures was { result ≡ false → unbounded ≡ false }
    ensures bounded { result ≡ false → AreLinesSafe safe_bound list.now q.now window }
{
    if unbounded {
        return true;
    }
    match safe_bound {
        Some(bound) => has_line_above_limit(list, q, window, bound),
        None => true,
    }
}

/// The greatest power of two up to which levels exceed no limit, if there is one.
pub(crate) fn greatest_safe_bound(
    alloc: Global,
    f: &FixedMachine,
) -> Result<Option<i128>, AllocError>
    ensures { IfOk result (λ bound. IsSafeIfKnown f.now.machine bound) }
{
    let mut bits = SECOND_LEVEL_BITS + 1;
    while bits > 0 {
        bits -= 1;
        if is_safe_bound(alloc, f, bits)? {
            return Ok(Some(unit(bits)));
        }
    }
    Ok(None)
}

// Whether the absolute row sum of the level slopes of a row exceeds its limit.
fn is_bend_past_limit(f: &FixedMachine, row: usize, changes: &[i128]) -> bool
    requires row { row < state_count f.now.machine }
    requires changes { length changes.now ≡ state_count f.now.machine }
    ensures { result ≡ exceeds bits_of_second_state (rise_change_weight f.now.machine changes.now row) }
{
    is_rise_change_steep(f.rows[row].as_slice(), changes)
}

// Whether the absolute value of the level of a state of a list exceeds a bound.
fn has_place_above_limit(list: &[u32], q: &Motion, bound: i128) -> bool
    requires { All (λ j. j < length q.now.places.items) list.now }
    ensures { result ≡ false → AreLevelsWithin bound list.now q.now.places.items }
{
    for state in list {
        if is_level_above_limit(q.places[*state as usize].level, bound) {
            return true;
        }
    }
    false
}

// Whether the absolute value of a number exceeds a bound.
fn is_level_above_limit(z: i128, bound: i128) -> bool
    ensures { result ≡ false → abs_of z ≤ℤ bound }
{
    bound < 0 || z.unsigned_abs() > bound as u128
}

// Whether for a state of a list the level, its slope, or the level at a later tick exceeds a
// bound.
fn has_line_above_limit(list: &[u32], q: &Motion, tick: u64, bound: i128) -> bool
    requires list { All (λ j. j < length q.now.places.items) list.now }
    requires reads { CanReadAt tick q.now }
    ensures { result ≡ false
        → AreLinesWithin bound list.now q.now.places.items q.now.changes.items tick }
{
    for state in list {
        if is_line_above_limit(q, tick, *state as usize, bound) {
            return true;
        }
    }
    false
}

// Whether the absolute value of a level, of its slope, or of the level at a later tick exceeds a
// bound.
fn is_line_above_limit(q: &Motion, tick: u64, state: usize, bound: i128) -> bool
    requires state { state < length q.now.places.items }
    requires reads { CanReadAt tick q.now }
    ensures { result ≡ false
        → IsLineWithin bound (place_in q.now.places.items state)
        (int_at q.now.changes.items state) tick }
{
    is_level_above_limit(q.places[state].level, bound)
        || is_level_above_limit(q.changes[state], bound)
        || is_level_above_limit(q.level_at(state, tick), bound)
}

/// Checks the limits of levels. The error is the least state whose level exceeds its limit. If
/// there is none, it is the least row whose absolute row sum exceeds its limit.
pub(crate) fn check_levels(f: &FixedMachine, levels: &[i128]) -> Result<(), Over>
    requires { length levels.now ≡ state_count f.now.machine }
    ensures { overflow_of result ≡ past_levels f.now.machine levels.now }
{
    check_level_sizes(levels)?;
    check_level_sums(f, levels)
}

// Checks the size of each level. The error is the least state whose level exceeds its limit.
fn check_level_sizes(levels: &[i128]) -> Result<(), Over>
    requires { length levels.now ≤ variable_limit }
    ensures { overflow_of result ≡ first_exceeding bits_of_second_level levels.now }
{
    for j in 0..levels.len() {
        if exceeds_power_of_two(levels[j], SECOND_LEVEL_BITS) {
            return Err(Over { var: j as u32 });
        }
    }
    Ok(())
}

// Checks the absolute row sums of levels. The error is the least row that exceeds its limit.
fn check_level_sums(f: &FixedMachine, levels: &[i128]) -> Result<(), Over>
    requires levels { length levels.now ≡ state_count f.now.machine }
    requires size_limit { All (IsWithin 50) levels.now }
    ensures { overflow_of result ≡ heavy_row f.now.machine levels.now }
{
    for row in 0..levels.len() {
        if is_row_past_limit(f, row, levels) {
            return Err(Over { var: row as u32 });
        }
    }
    Ok(())
}

// Whether the absolute row sum of a row exceeds its limit.
fn is_row_past_limit(f: &FixedMachine, row: usize, levels: &[i128]) -> bool
    requires row { row < state_count f.now.machine }
    requires levels { length levels.now ≡ state_count f.now.machine }
    requires size_limit { All (IsWithin 50) levels.now }
    ensures { result ≡ exceeds bits_of_second_state (rise_weight f.now.machine levels.now row) }
{
    exceeds_power_of_two(
        rise_weight_of(f.rows[row].as_slice(), f.drives[row], levels),
        SECOND_WEIGHT_BITS,
    )
}

// Whether levels of at most `bits` bits exceed no limit.
fn is_safe_bound(alloc: Global, f: &FixedMachine, bits: u8) -> Result<bool, AllocError>
    requires { bits ≤ 49 }
    ensures { IfOk result (λ safe. safe ≡ true → IsSafeBound f.now.machine (pos (2 ^ bits))) }
{
    let levels = repeat_value(alloc, unit(bits), f.limits.len())?;
    Ok(check_levels(f, &levels).is_ok())
}
