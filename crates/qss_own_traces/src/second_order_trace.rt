//! The trace of a machine's second-order run under the nearest rule, computed tick by tick from
//! sums over the rows of the affine system.

ghost use Rattle.std.specs.Prelude.{◌≡◌, ◌<◌, ◌≤◌, ◌||◌, ◌+ℤ◌, ◌*ℤ◌, ◌<ℤ◌, if◌then◌else◌, [], ◌-ℤ◌, ◌+◌, ℕ, All, None, length, pos, replicate, true, IfOk, IfErr, IfSome, MatchOption, position, unsigned_abs, OnOk};
ghost use Rattle.qss_own_traces.specs.Prelude.{AreHeld, list_any, range_with_len, floor_of, IsWithin, exceeds, flag_at, state_count, level_unit, int_at, tabulate, abs_of, sum_limit, bits_of_second_state, is_limit_check, is_requantization, nearest_change, rise_at, IsSize, IsRunOf, overflow_of, table, IsSmall, fine_states, fine_levels, leaves_quantum, next_states, first_exceeding_limit, past_levels, second_step, second_snapshot_unless};
ghost use Rattle.qss_order2.specs.SecondSteps.{next_levels};
ghost use Rattle.qss_own_traces.specs.Words.{change_after, changes_after, is_wide_at, leaves_at, Fits, heavy_row, row_weight, system_weight, IsSecondTrace, IsSecondRefusal};

use crate::own_trace_draft::{
    Draft, TraceOver, check_none, check_sizes, levels_below, risen, states_at_start,
};
use cert_check::{AffineSystem, affine_system};
use cert_matrix::RangedSum;
use mu_num::{
    LOOK_SPAN, SECOND_LEVEL_BITS, SECOND_WEIGHT_BITS, exceeds_power_of_two, floor_div, near_div,
};
use qss_hand::Over;
use qss_machine::Machine;
use qss_sched::repeat_value;
use qss_trace::{Trace, trace_level_in_states, trace_reach, trace_rise};
use std::alloc::{AllocError, Global};

/// The greatest absolute value of a state in a trace.
const WIDEST_STATE: u128 = 1 << 108;

/// The greatest absolute value of a level in a trace.
const WIDEST_LEVEL: u128 = 1 << 64;

/// The number of second-order units in one unit of the machine.
pub(crate) const FINENESS: u32 = 64;

/// The factor of the constant part in the absolute row sum of levels.
pub(crate) const DRIVEN: u32 = FINENESS;

/// The factor of the constant part in the absolute row sum of level slopes.
pub(crate) const UNDRIVEN: u32 = 0;

/// The current point of the run, and its states and levels so far.
#[derive(Drop)]
pub(crate) struct SecondCourse {
    pub place: SecondPlace,
    pub draft: Draft,
}

impl SecondCourse {
    ghost use Rattle.qss_own_traces.specs.SecondCourses.{IsAt, IsAtEnd};

    /// The run at tick 0.
    pub(crate) fn new(
        alloc: Global,
        m: &Machine,
        a: &AffineSystem,
    ) -> Result<SecondCourse, TraceOver>
        requires { Fits m.now a.now }
        ensures start { IfOk result (λ course. IsAt m.now 0 course) }
        ensures refused { IfErr result (λ why. IsSecondRefusal m.now why) }
    {
        let mut place = SecondPlace::new(alloc, m)?;
        if let Err(over) = place.settle(m, a) {
            return Err(TraceOver::Over {
                tick: 0,
                var: over.var,
            });
        }
        let draft = Draft::new(alloc, &place.states, &place.levels)?;
        Ok(SecondCourse { place, draft })
    }

    // Advances by one tick.
    fn advance_tick(&mut self, m: &Machine, a: &AffineSystem, tick: u64) -> Result<(), TraceOver>
        requires fits { Fits m.now a.now }
        requires at { IsAt m.now tick self.old }
        requires tick_limit { tick < m.now.last }
        ensures next { OnOk result (IsAt m.now (tick + 1) self.new) }
        ensures refused { IfErr result (λ why. IsSecondRefusal m.now why) }
    {
        let tick = tick + 1;
        if let Err(over) = self.place.advance_tick(m, a, tick) {
            return Err(TraceOver::Over {
                tick,
                var: over.var,
            });
        }
        if let Err(over) = self.place.check_range(m) {
            return Err(TraceOver::Over {
                tick,
                var: over.var,
            });
        }
        self.draft.add(&self.place.states, &self.place.levels)?;
        Ok(())
    }

    /// Advances to the last tick.
    pub(crate) fn run_to_last_tick(
        &mut self,
        m: &Machine,
        a: &AffineSystem,
    ) -> Result<(), TraceOver>
        requires fits { Fits m.now a.now }
        requires at { IsAt m.now 0 self.old }
        ensures end { OnOk result (IsAtEnd m.now self.new) }
        ensures refused { IfErr result (λ why. IsSecondRefusal m.now why) }
    {
        for tick in 0..m.last {
            self.advance_tick(m, a, tick)?;
        }
        Ok(())
    }
}

/// The states, the levels, the slopes of the levels per tick, and the states requantized at the
/// last tick.
#[derive(Drop)]
pub(crate) struct SecondPlace {
    pub states: Vec<i128>,
    pub levels: Vec<i128>,
    pub changes: Vec<i128>,
    pub left: Vec<bool>,
}

impl SecondPlace {
    ghost use Rattle.qss_own_traces.specs.SecondPlaces.{IsSized, IsWithinLimits, level_after, snapshot_of};
    ghost use Rattle.qss_own_traces.specs.SecondRuns.{first_wide};

    /// The states and levels at tick 0. All states are marked as requantized, with level slopes of
    /// 0.
    pub(crate) fn new(alloc: Global, m: &Machine) -> Result<SecondPlace, AllocError>
        ensures sized { IfOk result (λ place. IsSized m.now place) }
        ensures states { IfOk result (λ place. place.states.items ≡ fine_states m.now) }
        ensures levels { IfOk result (λ place. place.levels.items ≡ fine_levels m.now) }
        ensures changes { IfOk result
            (λ place. place.changes.items ≡ replicate (state_count m.now) (pos 0)) }
        ensures left { IfOk result
            (λ place. place.left.items ≡ replicate (state_count m.now) true) }
    {
        let states = states_at_start(alloc, m, FINENESS)?;
        let levels = levels_below(alloc, m, &states)?;
        let count = states.len();
        Ok(SecondPlace {
            states,
            levels,
            changes: repeat_value(alloc, 0, count)?,
            left: repeat_value(alloc, true, count)?,
        })
    }

    /// Sets the level slopes of the requantized states. The error is the least state or row that
    /// exceeds a limit: by its level, else by its absolute row sum of levels, else by that of level
    /// slopes.
    pub(crate) fn settle(&mut self, m: &Machine, a: &AffineSystem) -> Result<(), Over>
        requires fits { Fits m.now a.now }
        requires sized { IsSized m.now self.old }
        requires held { AreHeld m.now self.old.changes.items }
        ensures overflow { overflow_of result
            ≡ first_exceeding_limit m.now self.old.levels.items (changes_after m.now self.old) }
        ensures changes { overflow_of result ≡ None
            → self.new.changes.items ≡ changes_after m.now self.old }
        ensures held { overflow_of result ≡ None → AreHeld m.now self.new.changes.items }
        ensures sized { IsSized m.now self.new }
        ensures kept { (self.new.states ≡ self.old.states) × (self.new.levels ≡ self.old.levels) }
    {
        check_levels(m, a, &self.levels)?;
        self.update_changes(m, a);
        check_row_sums(m, a, UNDRIVEN, &self.changes)
    }

    // Sets the level slopes of the requantized states to the nearest ones.
    fn update_changes(&mut self, m: &Machine, a: &AffineSystem)
        requires fits { Fits m.now a.now }
        requires sized { IsSized m.now self.old }
        requires size_limit { All (IsWithin 64) self.old.levels.items }
        ensures changes { self.new.changes.items ≡ changes_after m.now self.old }
        ensures kept { (self.new.states ≡ self.old.states) × (self.new.levels ≡ self.old.levels) }
        ensures left { self.new.left ≡ self.old.left }
    {
        for j in 0..a.n {
            self.changes[j as usize] = self.next_change(m, a, j);
        }
    }

    // The slope of a level: the nearest one to the state's slope if the state is requantized, else
    // the old one.
    fn next_change(&self, m: &Machine, a: &AffineSystem, state: u8) -> i128
        requires fits { Fits m.now a.now }
        requires sized { IsSized m.now self.now }
        requires size_limit { All (IsWithin 64) self.now.levels.items }
        requires state { state < state_count m.now }
        ensures { result ≡ change_after m.now self.now state }
    {
        if self.left[state as usize] {
            near_div(self.rise(m, a, state), a.unit)
        } else {
            self.changes[state as usize]
        }
    }

    // The slope of a state per tick.
    fn rise(&self, m: &Machine, a: &AffineSystem, state: u8) -> i128
        requires fits { Fits m.now a.now }
        requires levels { length self.now.levels.items ≡ state_count m.now }
        requires size_limit { All (IsWithin 64) self.now.levels.items }
        requires state { state < state_count m.now }
        ensures value { result ≡ rise_at m.now state self.now.levels.items }
        ensures bound { IsWithin 118 result }
    {
        trace_rise(a, FINENESS, &self.levels, state)
    }

    // Moves states and levels by one tick, and marks the requantized states. Returns whether there
    // are some.
    fn move_on(&mut self, m: &Machine, a: &AffineSystem) -> bool
        requires fits { Fits m.now a.now }
        requires stands { IsWithinLimits m.now self.old }
        ensures states { self.new.states.items ≡ next_states m.now (snapshot_of self.old) }
        ensures levels { self.new.levels.items ≡ next_levels m.now (snapshot_of self.old) }
        ensures changes { self.new.changes ≡ self.old.changes }
        ensures left { (j : ℕ) → j < state_count m.now
            → flag_at self.new.left.items j ≡ leaves_quantum m.now (snapshot_of self.old) j }
        ensures sized { IsSized m.now self.new }
        ensures value { result ≡ is_requantization m.now (snapshot_of self.old) }
    {
        self.move_states(m, a);
        self.move_levels(m, a);
        is_any_left(&self.left)
    }

    // Moves all states by one tick, and marks those that are requantized.
    fn move_states(&mut self, m: &Machine, a: &AffineSystem)
        requires fits { Fits m.now a.now }
        requires stands { IsWithinLimits m.now self.old }
        ensures states { self.new.states.items ≡ next_states m.now (snapshot_of self.old) }
        ensures left { (j : ℕ) → j < state_count m.now
            → flag_at self.new.left.items j ≡ leaves_quantum m.now (snapshot_of self.old) j }
        ensures bound { All (IsWithin 119) self.new.states.items }
        ensures sized { IsSized m.now self.new }
        ensures kept { (self.new.levels ≡ self.old.levels) × (self.new.changes ≡ self.old.changes) }
    {
        for j in 0..a.n {
            let place = j as usize;
            let x = risen(self.states[place], self.rise(m, a, j));
            self.states[place] = x;
            self.left[place] = self.leaves_level(m, a, j, x);
        }
    }

    // Whether a state at `x` is at least a quantum from its level after one tick.
    fn leaves_level(&self, m: &Machine, a: &AffineSystem, state: u8, x: i128) -> bool
        requires fits { Fits m.now a.now }
        requires sized { IsSized m.now self.now }
        requires state { state < state_count m.now }
        requires number { IsWithin 119 x }
        requires level { IsWithin 64 (int_at self.now.levels.items state) }
        requires change { IsWithin 95 (level_unit m.now *ℤ int_at self.now.changes.items state) }
        ensures { result ≡ leaves_at m.now self.now state x }
    {
        let place = state as usize;
        let is_near = distance_after(a.unit, x, self.levels[place], self.changes[place])
            < trace_reach(FINENESS, a.unit, a.quantum.at(state));
        !is_near
    }

    // Moves all levels by one tick, for states that have moved.
    fn move_levels(&mut self, m: &Machine, a: &AffineSystem)
        requires fits { Fits m.now a.now }
        requires sized { IsSized m.now self.old }
        requires small_states { All (IsWithin 119) self.old.states.items }
        requires small_levels { All (IsWithin 64) self.old.levels.items }
        requires held { AreHeld m.now self.old.changes.items }
        ensures levels { self.new.levels.items
            ≡ tabulate (state_count m.now) (level_after m.now self.old) }
        ensures kept { (self.new.states ≡ self.old.states) × (self.new.changes ≡ self.old.changes) }
        ensures left { self.new.left ≡ self.old.left }
    {
        for j in 0..a.n {
            let place = j as usize;
            self.levels[place] = next_level(
                self.left[place],
                a.unit,
                self.states[place],
                self.levels[place],
                self.changes[place],
            );
        }
    }

    /// Advances by one tick, to `tick`. The error is the state that overflows there.
    pub(crate) fn advance_tick(
        &mut self,
        m: &Machine,
        a: &AffineSystem,
        tick: u64,
    ) -> Result<(), Over>
        requires fits { Fits m.now a.now }
        requires stands { IsWithinLimits m.now self.old }
        ensures step { second_step nearest_change m.now tick (snapshot_of self.old)
            ≡ second_snapshot_unless (overflow_of result) (snapshot_of self.new) }
        ensures sized { IsSized m.now self.new }
        ensures held { overflow_of result ≡ None → AreHeld m.now self.new.changes.items }
    {
        let requantized = self.move_on(m, a);
        if is_check_due(m, tick, requantized) {
            return self.settle(m, a);
        }
        Ok(())
    }

    /// Checks the range of traces. The error is the least state that exceeds it, itself or by its
    /// level.
    pub(crate) fn check_range(&self, m: &Machine) -> Result<(), Over>
        requires { IsSized m.now self.now }
        ensures { overflow_of result ≡ first_wide (snapshot_of self.now) }
    {
        check_none(first_out_of_range(&self.states, &self.levels))
    }
}

/// Computes the second-order run of a machine under the nearest rule as a trace: one point per
/// tick, in units 64 times finer than the machine's, with its quanta. Returns an error if the run
/// overflows or exceeds the range of traces.
pub fn second_trace(alloc: Global, m: &Machine) -> Result<Trace, TraceOver>
    requires plain { m.now.clauses ≡ [] }
    requires size { IsSize (state_count m.now) }
    requires short { m.now.last ≤ 65535 }
    ensures traced { IfOk result (λ t. IsSecondTrace m.now t) }
    ensures refused { IfErr result (λ why. IsSecondRefusal m.now why) }
    ensures legitimate { IfOk result (λ t. IsRunOf m.now t) }
{
    let a = affine_system(m);
    let mut course = SecondCourse::new(alloc, m, &a)?;
    course.run_to_last_tick(m, &a)?;
    let SecondCourse { place: _, draft } = course;
    Ok(draft.finish(alloc, m, FINENESS)?)
}

// Checks the limits of levels. The error is the least state whose level exceeds its limit. If there
// is none, it is the least row whose absolute row sum exceeds its limit.
fn check_levels(m: &Machine, a: &AffineSystem, levels: &[i128]) -> Result<(), Over>
    requires fits { Fits m.now a.now }
    requires levels { length levels.now ≡ state_count m.now }
    ensures { overflow_of result ≡ past_levels m.now levels.now }
{
    check_sizes(levels, SECOND_LEVEL_BITS)?;
    check_row_sums(m, a, DRIVEN, levels)
}

// Checks the absolute row sums at some numbers, with the constant parts times `share`. The error is
// the least row that exceeds its limit.
fn check_row_sums(m: &Machine, a: &AffineSystem, share: u32, numbers: &[i128]) -> Result<(), Over>
    requires fits { Fits m.now a.now }
    requires numbers { length numbers.now ≡ state_count m.now }
    ensures { overflow_of result ≡ heavy_row m.now share numbers.now }
{
    check_none((0..a.n).position(|row| is_heavy(m, a, share, numbers, row)))
}

// Whether the absolute row sum of a row exceeds its limit.
fn is_heavy(m: &Machine, a: &AffineSystem, share: u32, numbers: &[i128], row: u8) -> bool
    requires fits { Fits m.now a.now }
    requires row { row < state_count m.now }
    requires numbers { length numbers.now ≡ state_count m.now }
    ensures { result ≡ exceeds bits_of_second_state (row_weight m.now share numbers.now row) }
{
    match row_sum(a, share, numbers, row) {
        Some(sum) => exceeds_power_of_two(sum, SECOND_WEIGHT_BITS),
        None => true,
    }
}

// The absolute row sum of a row at some numbers, with the constant part times `share`, or `None` if
// it exceeds 2^126.
fn row_sum(a: &AffineSystem, share: u32, numbers: &[i128], row: u8) -> Option<i128>
    requires size_limit { IsSmall a.now }
    requires row { row < a.now.n }
    requires numbers { length numbers.now ≡ a.now.n }
    ensures { MatchOption result (sum_limit < system_weight a.now share numbers.now row)
        (λ sum. sum ≡ pos (system_weight a.now share numbers.now row)) }
{
    let mut sum = RangedSum::new().plus_size(a.constant.at(row), i128::from(share))?;
    for k in 0..a.n {
        sum = sum.plus_size(numbers[k as usize], coefficient_size(a, row, k))?;
    }
    Some(sum.total())
}

// The absolute value of a coefficient.
fn coefficient_size(a: &AffineSystem, row: u8, column: u8) -> i128
    requires size_limit { IsSmall a.now }
    requires row { row < a.now.n }
    requires column { column < a.now.n }
    ensures { result ≡ abs_of (table a.now.coef row column) }
{
    a.coef.get(row, column).abs()
}

/// The distance of a state from its level after one tick.
pub(crate) fn distance_after(unit: i128, x: i128, level: i128, change: i128) -> i128
    requires unit { IsWithin 44 unit }
    requires state { IsWithin 119 x }
    requires level { IsWithin 64 level }
    requires change { IsWithin 95 (unit *ℤ change) }
    ensures { result ≡ pos (unsigned_abs (x -ℤ unit *ℤ (level +ℤ change))) }
{
    less_two(
        x,
        trace_level_in_states(unit, level),
        state_change(unit, change),
    )
    .abs()
}

// The difference x - a - b.
fn less_two(x: i128, a: i128, b: i128) -> i128
    requires number { IsWithin 119 x }
    requires first { IsWithin 108 a }
    requires second { IsWithin 95 b }
    ensures { result ≡ x -ℤ a -ℤ b }
{
    x - a - b
}

// The increment of a level per tick, in units of a state.
fn state_change(unit: i128, change: i128) -> i128
    requires { IsWithin 95 (unit *ℤ change) }
    ensures value { result ≡ unit *ℤ change }
    ensures bound { IsWithin 95 result }
{
    unit * change
}

// A level after one tick: the floor of the state if the state is requantized, else a point of its
// line.
fn next_level(left: bool, unit: i128, x: i128, level: i128, change: i128) -> i128
    requires unit { pos 0 <ℤ unit }
    requires level { IsWithin 64 level }
    requires change { IsWithin 95 change }
    ensures { result ≡ (if left then floor_of x unit else level +ℤ change) }
{
    if left {
        floor_div(x, unit)
    } else {
        level + change
    }
}

// Whether the limits are checked at a tick.
fn is_check_due(m: &Machine, tick: u64, requantized: bool) -> bool
    ensures { result ≡ is_limit_check m.now tick requantized }
{
    tick % LOOK_SPAN == 0 || tick == m.last || requantized
}

// Whether a state is requantized.
fn is_any_left(left: &[bool]) -> bool
    ensures { result ≡ list_any (λ flag. flag) left.now }
{
    left.iter().any(|left| *left)
}

// The least state that exceeds the range of traces, itself or by its level.
fn first_out_of_range(states: &[i128], levels: &[i128]) -> Option<usize>
    requires { length levels.now ≡ length states.now }
    ensures value { result
        ≡ position (is_wide_at states.now levels.now) (range_with_len 0 (length states.now)) }
    ensures bound { IfSome result (λ j. j < length states.now) }
{
    (0..states.len()).position(|j| is_out_of_range(states[j], levels[j]))
}

// Whether a state or its level exceeds the range of traces.
fn is_out_of_range(x: i128, level: i128) -> bool
    ensures { result ≡ exceeds 108 x || exceeds 64 level }
{
    x.unsigned_abs() > WIDEST_STATE || level.unsigned_abs() > WIDEST_LEVEL
}
