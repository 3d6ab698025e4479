//! Sets the new levels of the moved states at a tick, with a row for each level that changes, and
//! moves due states along their lines.

ghost use Rattle.std.specs.Prelude.{◌≡◌, ◌+◌, ◌<◌, ◌≤◌, ◌++◌, if◌then◌else◌, List, ℤ, None, Some, length, pos, vec_len, vec_capacity, true, false};
ghost use Rattle.qss_states.specs.Prelude.{option_or, overflow_of, exceeds, first_exceeding, int_at, state_count, level_unit, level_rows, state_at, AreRisingBelow, IsAllowedLevel, IsFirstOf, IsNextLevel, IsWritten, tick_limit, bits_of_level, IsLevel, IsState, AreLevels};
ghost use Rattle.qss_states.specs.EventContexts.{AreMovedTo, CanRequantize, HasLeft};
ghost use Rattle.qss_states.specs.LevelChanges.{AreRequantizedAt, HasTaken, HaveOneMore};
ghost use Rattle.qss_states.specs.StateLines.{line_at, passes_at, MayArrive};
ghost use Rattle.qss_machine.specs.declared.machine_parts.RowKind.TheVariants as kind;

use crate::event_contexts::Arrival;
use mu_num::{LEVEL_BITS, STATE_BITS, exceeds_power_of_two};
use qss_events::requantize_level;
use qss_hand::Over;
use qss_machine::{Row, RowKind};
use qss_quant::{Integrator, Quantizer};

/// Sets the rows of a tick to those of its handlers.
pub(crate) fn begin_rows(rows: &mut Vec<Row>, log: &[Row])
    requires { length log.now ≤ vec_capacity rows.old }
    ensures rows { rows.new.items ≡ log.now }
    ensures room { vec_capacity rows.new ≡ vec_capacity rows.old }
{
    rows.clear();
    for row in log {
        rows.push_reserved(*row);
    }
}

/// Sets the new levels of the moved states, with a row for each level that changes. The error is
/// the least state whose level exceeds its limit.
pub(crate) fn set_new_levels(
    at: &Arrival,
    q: &Quantizer,
    levels: &mut [i64],
    rows: &mut Vec<Row>,
) -> Result<(), Over>
    requires { CanRequantize at.now levels.old (vec_len rows.old) (vec_capacity rows.old) }
    ensures taken { (new : List ℤ) × AreRequantizedAt at.now.machine.now q.now.name
        at.now.moved.now at.now.states.now levels.old levels.new new
        (first_exceeding bits_of_level new)
        (overflow_of result) }
    ensures size_limit { overflow_of result ≡ None → AreLevels levels.new }
    ensures rows { overflow_of result ≡ None
        → (states : List ℤ)
        → AreMovedTo at.now.machine.now at.now.moved.now at.now.states.now levels.old states
        → rows.new.items ≡ rows.old.items ++ level_rows at.now.tick levels.old levels.new states }
    ensures room { vec_capacity rows.new ≡ vec_capacity rows.old }
{
    let unit = at.machine.level_unit();
    let mut first = Ok(());
    for state in at.moved {
        let j = *state as usize;
        let fresh = next_level(at, q, *state, levels[j], unit);
        let past = take_within_limit(at, *state, fresh, &mut levels[j], rows);
        first = first_past(first, *state, past);
    }
    first
}

// The new level of a moved state. A state that has left its quantum gets the result of the rule
// without another test.
#[inline(always)]
fn next_level(at: &Arrival, q: &Quantizer, state: u32, level: i64, unit: i128) -> i128
    requires state { state < state_count at.now.machine.now }
    requires states { length at.now.states.now ≡ state_count at.now.machine.now }
    requires small_state { IsState (int_at at.now.states.now state) }
    requires small_level { IsLevel level }
    requires unit { unit ≡ level_unit at.now.machine.now }
    requires left { at.now.joined ≡ false
        → HasLeft at.now.machine.now state (int_at at.now.states.now state) level }
    ensures { IsNextLevel (IsAllowedLevel q.now.name) at.now.machine.now state
        (int_at at.now.states.now state) level result }
{
    let x = at.states[state as usize];
    if at.joined {
        return requantize_level(at.machine, q, state, x, level, unit);
    }
    q.answer(x, level, unit)
}

// Sets the level of a moved state, and appends a row if the level changes, unless the new level
// exceeds its limit. It returns whether it does.
fn take_within_limit(
    at: &Arrival,
    state: u32,
    fresh: i128,
    level: &mut i64,
    rows: &mut Vec<Row>,
) -> bool
    requires state { state < length at.now.states.now }
    requires small_state { IsState (int_at at.now.states.now state) }
    requires room { vec_len rows.old < vec_capacity rows.old }
    ensures past { result ≡ exceeds bits_of_level fresh }
    ensures left { result ≡ true → (level.new ≡ level.old) × (rows.new.items ≡ rows.old.items) }
    ensures taken { result ≡ false
        → HasTaken at.now.tick state (int_at at.now.states.now state) level.old fresh level.new
        rows.old.items rows.new.items }
    ensures one_more { HaveOneMore rows.old rows.new }
{
    if exceeds_power_of_two(fresh, LEVEL_BITS) {
        return true;
    }
    let row = Row {
        tick: at.tick,
        kind: RowKind::Level,
        var: state,
        level: fresh as i64,
        state: at.states[state as usize],
    };
    take_level(level, &row, rows);
    false
}

// Sets the level to that of a row, and appends the row if the level changes.
fn take_level(level: &mut i64, row: &Row, rows: &mut Vec<Row>)
    requires kind { row.now.kind ≡ kind.Level }
    requires room { vec_len rows.old < vec_capacity rows.old }
    ensures taken { HasTaken row.now.tick row.now.var row.now.state level.old row.now.level
        level.new rows.old.items rows.new.items }
    ensures one_more { HaveOneMore rows.old rows.new }
{
    if *level == row.level {
        return;
    }
    *level = row.level;
    rows.push_reserved(*row);
}

// The first error, else that of this state if it exceeds its limit.
#[inline(always)]
fn first_past(first: Result<(), Over>, state: u32, past: bool) -> Result<(), Over>
    ensures { overflow_of result
        ≡ option_or (overflow_of first) (if past then Some state else None) }
{
    if past {
        return first_or(first, state);
    }
    first
}

// The first error, else that of this state. It is not inlined, since a state rarely exceeds its
// limit.
#[cold]
#[inline(never)]
fn first_or(first: Result<(), Over>, state: u32) -> Result<(), Over>
    ensures { overflow_of result ≡ option_or (overflow_of first) (Some state) }
{
    first.and(Err(Over { var: state }))
}

// The state with this index at a tick, along its line.
fn state_on_line(lines: &[Integrator], tick: u64, state: u32) -> i128
    requires known { state < length lines.now }
    requires later { (line_at lines.now state).tick ≤ tick }
    requires tick_limit { tick ≤ tick_limit }
    ensures { result ≡ state_at (line_at lines.now state) tick }
{
    let j = state as usize;
    lines[j].value_at(tick)
}

/// Moves the due states to a tick along their lines. The error is the least state that exceeds the
/// limit of states.
pub(crate) fn move_along_lines(
    lines: &[Integrator],
    tick: u64,
    due: &[u32],
    x: &mut [i128],
) -> Result<(), Over>
    requires may_arrive { MayArrive tick lines.now x.old }
    requires due { AreRisingBelow (length lines.now) due.now }
    ensures first { IsFirstOf (passes_at tick lines.now) due.now (overflow_of result) }
    ensures arrived { IsWritten (pos 0)
        (λ j z. z ≡ state_at (line_at lines.now j) tick) due.now x.old x.new }
{
    let mut first = Ok(());
    for state in due {
        let j = *state as usize;
        let value = state_on_line(lines, tick, *state);
        first = first_past(first, *state, exceeds_power_of_two(value, STATE_BITS));
        x[j] = value;
    }
    first
}
