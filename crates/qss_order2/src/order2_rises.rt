//! Updates the slopes of states and levels after new levels. The slopes are sums over rows at the
//! start values of the discrete variables.

ghost use Rattle.std.specs.Prelude.{◌≡◌, ◌<◌, ◌≤◌, ◌*ℤ◌, ◌+ℤ◌, [], ◌+◌, ◌*◌, ◌^◌, ℕ, ℤ, All, None, true, false, length, pos, unsigned_abs, MatchOption};
ghost use Rattle.qss_order2.specs.Prelude.{overflow_of, int_wrap, w128, IsWithin, exceeds, is_listed, IsWritten, state_count, level_unit, int_at, abs_of, variable_limit, bits_of_second_state, IsState, IsSlope, IsSecondState, weighted_sum};
ghost use Rattle.qss_order2.specs.Words.{place_in, change_shift, bend_at, steep_row, IsFlat, AreFlatOutside, AreHeld, past_levels, rise_at, rise_change_weight, fine_levels, first_exceeding_limit, AreChanges, IsAnswer, IsRuled2, levels_of, rises_of, bends_of, HasBends, HasLists, HasChanged, absolute_sum};

use crate::fixed_machine::{FixedMachine, add_fixed_column_multiple};
use crate::order2_limits::{check_level_slope_sums, check_levels, has_bend_past_limit};
use crate::order2_motion::{Motion, motion_difference};
use crate::slope_rule::SlopeRule;
use qss_hand::Over;
use qss_machine::Entry;

/// Computes slopes, level slopes and second differences at the start. The rule is applied to all
/// states before the limits are checked.
pub(crate) fn begin_rises(
    f: &FixedMachine,
    rule: &SlopeRule,
    all: &[u32],
    levels: &mut [i128],
    q: &mut Motion,
) -> Result<(), Over>
    requires lists { HasLists f.now.machine q.old }
    requires levels { length levels.old ≡ state_count f.now.machine }
    requires all { All (λ j. j < state_count f.now.machine) all.now }
    requires each { (j : ℕ) → j < state_count f.now.machine → is_listed all.now j ≡ true }
    requires here { (j : ℕ) → j < state_count f.now.machine
        → (place_in q.old.places.items j).since ≡ 0 }
    requires start { levels_of f.now.machine q.old 0
        ≡ fine_levels f.now.machine }
    ensures lists { HasLists f.now.machine q.new }
    ensures places { q.new.places ≡ q.old.places }
    ensures changes { AreChanges (IsRuled2 rule.now.nearest) f.now.machine (λ j. true)
        (fine_levels f.now.machine) [] q.new.changes.items }
    ensures overflow { overflow_of result
        ≡ first_exceeding_limit f.now.machine (fine_levels f.now.machine) q.new.changes.items }
    ensures held { overflow_of result ≡ None → AreHeld f.now.machine q.new.changes.items }
    ensures rises { overflow_of result ≡ None
        → q.new.rises.items ≡ rises_of f.now.machine (fine_levels f.now.machine) }
    ensures bends { overflow_of result ≡ None
        → q.new.bends.items ≡ bends_of f.now.machine q.new.changes.items }
{
    q.list_levels(0, levels);
    set_rises(f, all, levels, &mut q.rises);
    set_rise_changes(f, rule, all, &q.rises, &mut q.changes);
    check_levels(f, levels)?;
    bend(f, all, &q.changes, &mut q.bends)
}

/// Sets the level slopes of the states that left, and the second differences of the rows that read
/// them, for new levels and slopes of states. The levels exceed no limit.
pub(crate) fn apply_slope_rule(
    f: &FixedMachine,
    rule: &SlopeRule,
    tick: u64,
    left: &[u32],
    q: &mut Motion,
)
    requires lists { HasLists f.now.machine q.old }
    requires within { past_levels f.now.machine
        (levels_of f.now.machine q.old tick)
        ≡ None }
    requires left { All (λ j. j < state_count f.now.machine) left.now }
    requires risen { (j : ℕ) → is_listed left.now j ≡ true
        → int_at q.old.rises.items j
        ≡ rise_at f.now.machine j
        (levels_of f.now.machine q.old tick) }
    requires bends { HasBends f.now.machine q.old }
    requires held { AreHeld f.now.machine q.old.changes.items }
    ensures lists { HasLists f.now.machine q.new }
    ensures applied { HasChanged (IsRuled2 rule.now.nearest) f.now.machine left.now
        (levels_of f.now.machine q.old tick)
        q.old q.new }
{
    update_rise_changes(f, rule, left, q);
}

/// Whether the sum of the absolute values of all coefficients times level slopes exceeds 2^94.
pub(crate) fn is_rise_change_steep(entries: &[Entry], changes: &[i128]) -> bool
    requires count_limit { length entries.now ≤ variable_limit }
    requires known { All (λ entry. entry.var < length changes.now) entries.now }
    ensures { result
        ≡ exceeds bits_of_second_state
        (absolute_sum entries.now changes.now) }
{
    let mut sum: u128 = 0;
    for entry in entries {
        match rise_entry_size(*entry, changes) {
            Some(size) => sum += size,
            None => return true,
        }
    }
    sum > 1 << 94
}

/// The absolute row sum: the slope of a state with the absolute value of each term.
pub(crate) fn rise_weight_of(entries: &[Entry], drive: i128, levels: &[i128]) -> i128
    requires count_limit { length entries.now ≤ variable_limit }
    requires size_limit { All (λ entry. IsWithin 44 entry.coef) entries.now }
    requires known { All (λ entry. entry.var < length levels.now) entries.now }
    requires levels { All (IsWithin 50) levels.now }
    requires drive { IsSlope drive }
    ensures value { result
        ≡ absolute_sum entries.now levels.now +ℤ pos 64
        *ℤ abs_of drive }
    ensures bound { IsWithin 107 result }
{
    rise_level_weight(entries, levels) + 64 * rise_drive_size(drive)
}

/// Computes the slopes of the states of a list at levels.
pub(crate) fn set_rises(f: &FixedMachine, list: &[u32], levels: &[i128], rises: &mut [i128])
    requires list { All (λ j. j < state_count f.now.machine) list.now }
    requires count { length levels.now ≡ state_count f.now.machine }
    requires size_limit { All (IsWithin 50) levels.now }
    requires rises { length rises.old ≡ state_count f.now.machine }
    ensures { IsWritten (pos 0) (λ j z. z ≡ rise_at f.now.machine j levels.now) list.now rises.old
        rises.new }
{
    for state in list {
        let j = *state as usize;
        rises[j] = rise_at(f, j, levels);
    }
}

// The slope of a state at levels.
fn rise_at(f: &FixedMachine, row: usize, levels: &[i128]) -> i128
    requires row { row < state_count f.now.machine }
    requires count { length levels.now ≡ state_count f.now.machine }
    requires size_limit { All (IsWithin 50) levels.now }
    ensures { result ≡ rise_at f.now.machine row levels.now }
{
    rise_of(f.rows[row].as_slice(), f.drives[row], levels)
}

/// The slope of a state at levels. `drive` is the constant part of its row, in the machine's own
/// units.
pub(crate) fn rise_of(entries: &[Entry], drive: i128, levels: &[i128]) -> i128
    requires count_limit { length entries.now ≤ variable_limit }
    requires size_limit { All (λ entry. IsWithin 44 entry.coef) entries.now }
    requires known { All (λ entry. entry.var < length levels.now) entries.now }
    requires levels { All (IsWithin 50) levels.now }
    requires drive { IsSlope drive }
    ensures value { result ≡ weighted_sum entries.now levels.now +ℤ pos 64 *ℤ drive }
    ensures bound { IsWithin 107 result }
{
    rise_level_sum(entries, levels) + 64 * drive
}

/// The sum of all coefficients times the levels of their states.
pub(crate) fn rise_level_sum(entries: &[Entry], levels: &[i128]) -> i128
    requires count_limit { length entries.now ≤ variable_limit }
    requires size_limit { All (λ entry. IsWithin 44 entry.coef) entries.now }
    requires known { All (λ entry. entry.var < length levels.now) entries.now }
    requires levels { All (IsWithin 50) levels.now }
    ensures value { result ≡ weighted_sum entries.now levels.now }
    ensures bound { unsigned_abs result ≤ 2 ^ 106 }
{
    let mut sum: i128 = 0;
    for entry in entries {
        sum += entry_rise_term(*entry, levels);
    }
    sum
}

// A coefficient times a level.
fn rise_term(coef: i64, level: i128) -> i128
    requires coef { IsWithin 44 coef }
    requires level { IsWithin 50 level }
    ensures value { result ≡ coef *ℤ level }
    ensures bound { IsSecondState result }
{
    i128::from(coef) * level
}

/// Sets the slopes of the levels of the states of a list by the rule.
pub(crate) fn set_rise_changes(
    f: &FixedMachine,
    rule: &SlopeRule,
    list: &[u32],
    rises: &[i128],
    changes: &mut [i128],
)
    requires list { All (λ j. j < length changes.old) list.now }
    requires rises { length rises.now ≡ length changes.old }
    requires size_limit { (j : ℕ) → is_listed list.now j ≡ true → IsWithin 95 (int_at rises.now j) }
    ensures { IsWritten (pos 0)
        (λ j z. IsAnswer rule.now.nearest (int_at rises.now j) (level_unit f.now.machine) z) list.now
        changes.old changes.new }
{
    for state in list {
        let j = *state as usize;
        changes[j] = rule.change(rises[j], f.unit);
    }
}

// Sets the second differences of the states of a list, unless the absolute row sum of the level
// slopes exceeds its limit for a row. There is no such row outside the list. The error is the least
// such row.
fn bend(f: &FixedMachine, list: &[u32], changes: &[i128], bends: &mut [i128]) -> Result<(), Over>
    requires list { All (λ j. j < state_count f.now.machine) list.now }
    requires changes { length changes.now ≡ state_count f.now.machine }
    requires bends { length bends.old ≡ state_count f.now.machine }
    requires flat { AreFlatOutside f.now.machine list.now changes.now }
    ensures overflow { overflow_of result ≡ steep_row f.now.machine changes.now }
    ensures bends { overflow_of result ≡ None
        → IsWritten (pos 0) (λ j z. z ≡ bend_at f.now.machine j changes.now) list.now bends.old
        bends.new }
{
    check_level_slopes(f, true, list, changes)?;
    set_rise_bends(f, list, changes, bends);
    Ok(())
}

/// Checks the absolute row sums of the level slopes. The error is the least row that exceeds its
/// limit. There is none outside the list, and none at all unless levels are unbounded.
pub(crate) fn check_level_slopes(
    f: &FixedMachine,
    unbounded: bool,
    list: &[u32],
    changes: &[i128],
) -> Result<(), Over>
    requires list { All (λ j. j < state_count f.now.machine) list.now }
    requires changes { length changes.now ≡ state_count f.now.machine }
    requires flat { AreFlatOutside f.now.machine list.now changes.now }
    requires bounded { unbounded ≡ false
        → (j : ℕ) → j < state_count f.now.machine
        → IsFlat f.now.machine changes.now j }
    ensures { overflow_of result ≡ steep_row f.now.machine changes.now }
{
    if !unbounded {
        return Ok(());
    }
    if has_bend_past_limit(f, list, changes) {
        return check_level_slope_sums(f, changes);
    }
    Ok(())
}

// Sets the second differences of the states of a list.
fn set_rise_bends(f: &FixedMachine, list: &[u32], changes: &[i128], bends: &mut [i128])
    requires list { All (λ j. j < state_count f.now.machine) list.now }
    requires changes { length changes.now ≡ state_count f.now.machine }
    requires bends { length bends.old ≡ state_count f.now.machine }
    requires within { (j : ℕ) → is_listed list.now j ≡ true
        → IsFlat f.now.machine changes.now j }
    ensures { IsWritten (pos 0) (λ j z. z ≡ bend_at f.now.machine j changes.now) list.now bends.old
        bends.new }
{
    for state in list {
        let j = *state as usize;
        bends[j] = rise_bend_at(f, j, changes);
    }
}

// The second difference of a state: the increment of its slope per tick.
fn rise_bend_at(f: &FixedMachine, row: usize, changes: &[i128]) -> i128
    requires row { row < state_count f.now.machine }
    requires changes { length changes.now ≡ state_count f.now.machine }
    requires within { exceeds bits_of_second_state (rise_change_weight f.now.machine changes.now row) ≡ false }
    ensures { result ≡ bend_at f.now.machine row changes.now }
{
    rise_change_sum(f.rows[row].as_slice(), changes)
}

/// The sum of all coefficients times the level slopes of their states. The absolute values add up
/// to at most 2^94.
pub(crate) fn rise_change_sum(entries: &[Entry], changes: &[i128]) -> i128
    requires count_limit { length entries.now ≤ variable_limit }
    requires known { All (λ entry. entry.var < length changes.now) entries.now }
    requires within { exceeds bits_of_second_state
        (absolute_sum entries.now changes.now)
        ≡ false }
    ensures { result ≡ weighted_sum entries.now changes.now }
{
    let mut sum: i128 = 0;
    for entry in entries {
        sum += rise_change_term(*entry, changes);
    }
    sum
}

// The coefficient of an entry times the level slope of its state, at most 2^94.
fn rise_change_term(entry: Entry, changes: &[i128]) -> i128
    requires known { entry.var < length changes.now }
    requires within { IsSecondState (entry.coef *ℤ int_at changes.now entry.var) }
    ensures value { result ≡ entry.coef *ℤ int_at changes.now entry.var }
    ensures bound { unsigned_abs result ≤ 2 ^ 94 }
{
    i128::from(entry.coef) * changes[entry.var as usize]
}

// Sets the slopes of the levels of the states of a list by the rule, and adds the differences to the
// second differences of the rows that read these states, modulo 2^128.
fn update_rise_changes(f: &FixedMachine, rule: &SlopeRule, list: &[u32], q: &mut Motion)
    requires list { All (λ j. j < state_count f.now.machine) list.now }
    requires lists { HasLists f.now.machine q.old }
    requires size_limit { (j : ℕ) → is_listed list.now j ≡ true
        → IsWithin 95 (int_at q.old.rises.items j) }
    ensures lists { HasLists f.now.machine q.new }
    ensures places { q.new.places ≡ q.old.places }
    ensures rises { q.new.rises ≡ q.old.rises }
    ensures changes { IsWritten (pos 0)
        (λ j z. IsAnswer rule.now.nearest (int_at q.old.rises.items j) (level_unit f.now.machine) z)
        list.now q.old.changes.items q.new.changes.items }
    ensures bends { (i : ℕ) (z : ℤ) → i < state_count f.now.machine
        → int_at q.old.bends.items i ≡ int_wrap w128 z
        → int_at q.new.bends.items i
        ≡ int_wrap w128 (z +ℤ change_shift f.now.machine i q.old.changes.items q.new.changes.items) }
{
    for state in list {
        let j = *state as usize;
        let old = q.changes[j];
        let new = rule.change(q.rises[j], f.unit);
        q.changes[j] = new;
        add_fixed_column_multiple(
            f.columns[j].as_slice(),
            motion_difference(new, old),
            &mut q.bends,
        );
    }
}

// The absolute value of an entry's coefficient times the level slope of its state, or `None` if it
// exceeds 2^94.
fn rise_entry_size(entry: Entry, changes: &[i128]) -> Option<u128>
    requires { entry.var < length changes.now }
    ensures { MatchOption result (exceeds bits_of_second_state (entry.coef *ℤ int_at changes.now entry.var) ≡ true)
        (λ s. (pos s ≡ abs_of (entry.coef *ℤ int_at changes.now entry.var)) × (s ≤ 2 ^ 94)) }
{
    rise_size_within(entry.coef, changes[entry.var as usize])
}

// The absolute value of a coefficient times a level slope, or `None` if it exceeds 2^94. Never
// overflows.
fn rise_size_within(coef: i64, change: i128) -> Option<u128>
    ensures { MatchOption result (exceeds bits_of_second_state (coef *ℤ change) ≡ true)
        (λ s. (s ≡ unsigned_abs (coef *ℤ change)) × (s ≤ 2 ^ 94)) }
{
    let factor = u128::from(coef.unsigned_abs());
    let change = change.unsigned_abs();
    if factor == 0 {
        return Some(0);
    }
    if change > (1 << 94) / factor {
        return None;
    }
    Some(factor * change)
}

/// The sum of the absolute values of all coefficients times the levels of their states.
pub(crate) fn rise_level_weight(entries: &[Entry], levels: &[i128]) -> i128
    requires count_limit { length entries.now ≤ variable_limit }
    requires size_limit { All (λ entry. IsWithin 44 entry.coef) entries.now }
    requires known { All (λ entry. entry.var < length levels.now) entries.now }
    requires levels { All (IsWithin 50) levels.now }
    ensures value { result
        ≡ absolute_sum entries.now levels.now }
    ensures bound { unsigned_abs result ≤ 2 ^ 106 }
{
    let mut sum: i128 = 0;
    for entry in entries {
        sum += rise_level_size(*entry, levels);
    }
    sum
}

// The absolute value of an entry's coefficient times the level of its state.
fn rise_level_size(entry: Entry, levels: &[i128]) -> i128
    requires size_limit { IsWithin 44 entry.coef }
    requires known { entry.var < length levels.now }
    requires levels { All (IsWithin 50) levels.now }
    ensures value { result ≡ abs_of (entry.coef *ℤ int_at levels.now entry.var) }
    ensures bound { unsigned_abs result ≤ 2 ^ 94 }
{
    entry_rise_term(entry, levels).abs()
}

// The coefficient of an entry times the level of its state.
fn entry_rise_term(entry: Entry, levels: &[i128]) -> i128
    requires size_limit { IsWithin 44 entry.coef }
    requires known { entry.var < length levels.now }
    requires levels { All (IsWithin 50) levels.now }
    ensures value { result ≡ entry.coef *ℤ int_at levels.now entry.var }
    ensures bound { unsigned_abs result ≤ 2 ^ 94 }
{
    rise_term(entry.coef, levels[entry.var as usize])
}

// The absolute value of the constant part of a row.
fn rise_drive_size(drive: i128) -> i128
    requires { IsSlope drive }
    ensures value { result ≡ abs_of drive }
    ensures bound { IsState result }
{
    drive.abs()
}
