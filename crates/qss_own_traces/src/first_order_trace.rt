//! The trace of a machine's run under the rule `floor`, computed tick by tick.

ghost use Rattle.std.specs.Prelude.{◌≡◌, [], ◌<◌, ◌≤◌, ◌+◌, ◌-ℤ◌, ◌*ℤ◌, if◌then◌else◌, ℕ, None, position, length, pos, unsigned_abs, int_lt, IfOk, IfErr, OnOk};
ghost use Rattle.qss_own_traces.specs.Prelude.{floor_level, IsPositiveWithin, IsLevel, AreLevels, IsState, state_count, level_unit, start_discretes, row_at, is_within_quantum, exceeds_row_limits, moved_states, next_levels, IsSize, IsRunOf, overflow_of, start_snapshot, step, snapshot_unless};
ghost use Rattle.qss_own_traces.specs.FirstRuns.{IsFirstTrace, IsFirstRefusal};

use crate::own_trace_draft::{
    Draft, TraceOver, check_none, check_sizes, levels_below, risen, states_at_start,
};
use mu_num::{LEVEL_BITS, STATE_BITS, WEIGHT_BITS, exceeds_power_of_two, floor_div};
use qss_hand::Over;
use qss_machine::Machine;
use qss_order2::{fixed_discretes_of, leaving_gap_of};
use qss_sched::repeat_value;
use qss_trace::Trace;
use std::alloc::{AllocError, Global};

/// The current point of the run, and its states and levels so far.
#[derive(Drop)]
pub(crate) struct FirstCourse {
    pub place: FirstPlace,
    pub draft: Draft,
}

impl FirstCourse {
    ghost use Rattle.qss_own_traces.specs.FirstCourses.{IsAt, IsAtEnd};

    /// The run at tick 0.
    pub(crate) fn new(alloc: Global, m: &Machine) -> Result<FirstCourse, AllocError>
        requires { m.now.clauses ≡ [] }
        ensures { IfOk result (λ course. IsAt m.now 0 course) }
    {
        let place = FirstPlace::new(alloc, m)?;
        let draft = Draft::new(alloc, &place.states, &place.levels)?;
        Ok(FirstCourse { place, draft })
    }

    // Advances by one tick.
    fn advance_tick(&mut self, m: &Machine, discretes: &[i64], tick: u64) -> Result<(), TraceOver>
        requires plain { m.now.clauses ≡ [] }
        requires discretes { discretes.now ≡ start_discretes m.now }
        requires at { IsAt m.now tick self.old }
        requires tick_limit { tick < m.now.last }
        ensures next { OnOk result (IsAt m.now (tick + 1) self.new) }
        ensures refused { IfErr result (λ why. IsFirstRefusal m.now why) }
    {
        let tick = tick + 1;
        if let Err(over) = self.place.advance_tick(m, discretes) {
            return Err(TraceOver::Over {
                tick,
                var: over.var,
            });
        }
        self.draft.add(&self.place.states, &self.place.levels)?;
        Ok(())
    }

    /// Advances to the last tick.
    pub(crate) fn run_to_last_tick(
        &mut self,
        m: &Machine,
        discretes: &[i64],
    ) -> Result<(), TraceOver>
        requires plain { m.now.clauses ≡ [] }
        requires discretes { discretes.now ≡ start_discretes m.now }
        requires at { IsAt m.now 0 self.old }
        ensures end { OnOk result (IsAtEnd m.now self.new) }
        ensures refused { IfErr result (λ why. IsFirstRefusal m.now why) }
    {
        for tick in 0..m.last {
            self.advance_tick(m, discretes, tick)?;
        }
        Ok(())
    }
}

/// The states and levels at a tick. `short_levels` holds the levels in 64 bits.
#[derive(Drop)]
pub(crate) struct FirstPlace {
    pub states: Vec<i128>,
    pub levels: Vec<i128>,
    pub short_levels: Vec<i64>,
}

impl FirstPlace {
    ghost use Rattle.qss_own_traces.specs.FirstPlaces.{snapshot_of, IsWithinLimits};

    /// The point at tick 0.
    pub(crate) fn new(alloc: Global, m: &Machine) -> Result<FirstPlace, AllocError>
        requires { m.now.clauses ≡ [] }
        ensures start { IfOk result (λ place. snapshot_of m.now place ≡ start_snapshot m.now) }
        ensures stands { IfOk result (λ place. IsWithinLimits m.now place) }
    {
        let states = states_at_start(alloc, m, 1)?;
        let levels = levels_below(alloc, m, &states)?;
        let short_levels = repeat_value(alloc, 0, levels.len())?;
        let mut place = FirstPlace {
            states,
            levels,
            short_levels,
        };
        place.shorten_levels();
        Ok(place)
    }

    /// Advances by one tick. The error is the least state that exceeds its limit. If there is none,
    /// it is the least state whose level does, or else the least row whose absolute row sum does.
    pub(crate) fn advance_tick(&mut self, m: &Machine, discretes: &[i64]) -> Result<(), Over>
        requires stands { IsWithinLimits m.now self.old }
        requires plain { m.now.clauses ≡ [] }
        requires discretes { discretes.now ≡ start_discretes m.now }
        ensures step { (tick : ℕ)
            → step floor_level m.now tick (snapshot_of m.now self.old)
            ≡ snapshot_unless (overflow_of result) (snapshot_of m.now self.new) }
        ensures stands { overflow_of result ≡ None → IsWithinLimits m.now self.new }
    {
        self.move_states(m, discretes);
        check_sizes(&self.states, STATE_BITS)?;
        self.update_levels(m);
        check_sizes(&self.levels, LEVEL_BITS)?;
        self.shorten_levels();
        check_row_sums(m, &self.short_levels, discretes)
    }

    // Moves all states by one tick.
    fn move_states(&mut self, m: &Machine, discretes: &[i64])
        requires stands { IsWithinLimits m.now self.old }
        requires discretes { discretes.now ≡ start_discretes m.now }
        ensures moved { self.new.states.items ≡ moved_states m.now (snapshot_of m.now self.old) }
        ensures kept { (self.new.levels ≡ self.old.levels)
            × (self.new.short_levels ≡ self.old.short_levels) }
    {
        for j in 0..self.states.len() {
            self.states[j] = risen(
                self.states[j],
                m.slope(j as u32, &self.short_levels, discretes),
            );
        }
    }

    // Sets the new levels of all states.
    fn update_levels(&mut self, m: &Machine)
        requires { IsWithinLimits m.now self.old }
        ensures levels { self.new.levels.items
            ≡ next_levels floor_level m.now self.old.states.items self.old.levels.items }
        ensures kept { (self.new.states ≡ self.old.states)
            × (self.new.short_levels ≡ self.old.short_levels) }
    {
        for j in 0..self.levels.len() {
            self.levels[j] = level_after(m, j as u32, self.states[j], self.levels[j]);
        }
    }

    // Copies the levels to 64 bits.
    fn shorten_levels(&mut self)
        requires same_length { length self.old.short_levels.items ≡ length self.old.levels.items }
        requires size_limit { AreLevels self.old.levels.items }
        ensures shortened { self.new.short_levels.items ≡ self.old.levels.items }
        ensures kept { (self.new.states ≡ self.old.states) × (self.new.levels ≡ self.old.levels) }
    {
        for j in 0..self.levels.len() {
            self.short_levels[j] = self.levels[j] as i64;
        }
    }
}

/// Computes the run of a machine under the rule `floor` as a trace: one point per tick, in the
/// machine's own units, with its quanta. Returns an error if the run overflows.
pub fn first_trace(alloc: Global, m: &Machine) -> Result<Trace, TraceOver>
    requires plain { m.now.clauses ≡ [] }
    requires size { IsSize (state_count m.now) }
    requires short { m.now.last ≤ 65535 }
    ensures traced { IfOk result (λ t. IsFirstTrace m.now t) }
    ensures refused { IfErr result (λ why. IsFirstRefusal m.now why) }
    ensures legitimate { m.now.relative ≡ 0 → IfOk result (λ t. IsRunOf m.now t) }
{
    let discretes = fixed_discretes_of(alloc, m)?;
    let mut course = FirstCourse::new(alloc, m)?;
    course.run_to_last_tick(m, &discretes)?;
    let FirstCourse { place: _, draft } = course;
    Ok(draft.finish(alloc, m, 1)?)
}

// The new level of a state: the old one if the state is within its quantum, else the floor of the
// state.
fn level_after(m: &Machine, state: u32, x: i128, level: i128) -> i128
    requires state { state < state_count m.now }
    requires small_state { IsState x }
    requires small_level { IsLevel level }
    ensures { result
        ≡ (if is_within_quantum m.now state x level then level else floor_level (level_unit m.now) x level) }
{
    let unit = m.level_unit();
    if is_close(unit, x, level, m.quantum_at(state, level as i64)) {
        level
    } else {
        floor_div(x, unit)
    }
}

// Whether a state is less than a quantum from its level.
fn is_close(unit: i128, x: i128, level: i128, quantum: i64) -> bool
    requires unit { IsPositiveWithin 44 unit }
    requires state { IsState x }
    requires level { IsLevel level }
    ensures { result ≡ int_lt (pos (unsigned_abs (x -ℤ unit *ℤ level))) (unit *ℤ quantum) }
{
    leaving_gap_of(x, level, unit).abs() < in_states(unit, quantum)
}

// A number of levels in units of a state.
fn in_states(unit: i128, count: i64) -> i128
    requires { IsPositiveWithin 44 unit }
    ensures { result ≡ unit *ℤ count }
{
    unit * i128::from(count)
}

// Checks the absolute row sums of levels. The error is the least row that exceeds its limit.
fn check_row_sums(m: &Machine, levels: &[i64], discretes: &[i64]) -> Result<(), Over>
    requires discretes { discretes.now ≡ start_discretes m.now }
    requires levels { length levels.now ≡ state_count m.now }
    requires size_limit { AreLevels levels.now }
    ensures { overflow_of result
        ≡ position (exceeds_row_limits m.now levels.now (start_discretes m.now)) m.now.rows }
{
    check_none((0..levels.len()).position(|row| is_heavy(m, row as u32, levels, discretes)))
}

// Whether the absolute row sum of a row exceeds its limit.
fn is_heavy(m: &Machine, row: u32, levels: &[i64], discretes: &[i64]) -> bool
    requires row { row < state_count m.now }
    requires discretes { discretes.now ≡ start_discretes m.now }
    requires levels { length levels.now ≡ state_count m.now }
    requires size_limit { AreLevels levels.now }
    ensures { result ≡ exceeds_row_limits m.now levels.now (start_discretes m.now) (row_at m.now row) }
{
    exceeds_power_of_two(m.weight(row, levels, discretes), WEIGHT_BITS)
}
