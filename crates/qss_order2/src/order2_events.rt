//! The event step of a second-order run: from one event or limit check to the next.

ghost use Rattle.std.specs.Prelude.{◌≡◌, ◌<◌, ◌≤◌, ◌+◌, ◌-◌, ◌≤ℤ◌, ℕ, ℤ, All, None, Some, true, false};
ghost use Rattle.qss_order2.specs.Prelude.{is_listed, overflow_of, state_count};
ghost use Rattle.qss_order2.specs.Calls.{IsEventStep, view_of, tick_of, end_of};
ghost use Rattle.qss_order2.specs.Events.{IsNext2};
ghost use Rattle.qss_order2.specs.Places.{place_in};
ghost use Rattle.qss_order2.specs.SecondRunLimits.{past_levels};
ghost use Rattle.qss_order2.specs.SlopeRules.{IsRuled2};
ghost use Rattle.qss_order2.specs.Stores.{snapshot_at, levels_of, AreLinesSafe, KeepsWindow, IsMovableUntil, motion_at, HasLists, FitsMachine, Moves, IsStoreAt, IsWithinLimits, HasSchedule, KeepsDues, due_at, until, IsNextEvent, HasNewLevels, AreQuiet, FollowsLevels, CanApplyRule, IsRuleApplied};

use crate::fixed_machine::FixedMachine;
use crate::order2_leaving::{Window, set_leaving_dues, ticks_to_limit_check, ticks_to_next_event};
use crate::order2_limits::{check_levels, is_limit_check_needed, is_line_limit_needed};
use crate::order2_motion::{Motion, take_motion_levels};
use crate::order2_rises::{apply_slope_rule, check_level_slopes};
use crate::order2_rows::{Kind2, set_end_rows, set_left_rows, set_overflow_row};
use crate::order2_start::Store;
use crate::outcome2::Outcome2;
use crate::slope_rule::SlopeRule;
use crate::touching::{touch, touch_all};
use qss_hand::Over;

/// An event step: its tick and its result. The error is the state that exceeds a limit.
#[derive(Clone, Copy)]
pub(crate) struct EventStep {
    pub tick: u64,
    pub ran: Result<(), Over>,
}

/// Advances to the next tick with rows, to an overflow, or to the last tick. Allocates no memory.
pub(crate) fn advance_to_event(
    f: &FixedMachine,
    rule: &SlopeRule,
    from: u64,
    s: &mut Store,
) -> Outcome2
    requires is_store { IsStoreAt f.now.machine from s.old }
    requires tick_limit { from ≤ f.now.machine.last }
    ensures next { IsNext2 (IsRuled2 rule.now.nearest) (view_of f.now.machine from s.old None)
        (view_of f.now.machine (tick_of f.now.machine.last result) s.new (end_of result))
        result }
    ensures is_store { end_of result ≡ None
        → IsStoreAt f.now.machine (tick_of f.now.machine.last result) s.new }
{
    if let Err(over) = s.over {
        set_overflow_row(from, over.var, &mut s.rows);
        return Outcome2::Over {
            tick: from,
            var: over.var,
        };
    }
    let mut tick = from;
    while tick < f.machine.last {
        let step = go_to_event(f, rule, tick, s);
        tick = step.tick;
        if let Err(over) = step.ran {
            set_overflow_row(tick, over.var, &mut s.rows);
            return Outcome2::Over {
                tick,
                var: over.var,
            };
        }
        if !s.rows.is_empty() {
            return Outcome2::Events { tick };
        }
    }
    set_end_rows(f, tick, &s.motion, &mut s.rows);
    Outcome2::Done
}

/// Advances to the next event or limit check, and lists the rows of the states that left there.
/// After an error, the snapshot of the store is unspecified.
pub(crate) fn go_to_event(f: &FixedMachine, rule: &SlopeRule, tick: u64, s: &mut Store) -> EventStep
    requires is_store { IsStoreAt f.now.machine tick s.old }
    requires within { overflow_of s.old.over ≡ None }
    requires tick_limit { tick < f.now.machine.last }
    ensures visited { IsEventStep (IsRuled2 rule.now.nearest) f.now.machine tick s.old result s.new }
    ensures later { tick < result.tick }
    ensures tick_limit { result.tick ≤ f.now.machine.last }
    ensures is_store { overflow_of result.ran ≡ None → IsStoreAt f.now.machine result.tick s.new }
    ensures fits { FitsMachine f.now.machine s.new }
    ensures same { s.new.over ≡ s.old.over }
{
    prepare_event(f, tick, s);
    let ticks = move_to_event(f, tick, s);
    let ran = apply_rule_at_event(f, rule, tick + ticks, s);
    set_left_rows(Kind2::Level, tick + ticks, &s.left, &s.motion, &mut s.rows);
    EventStep {
        tick: tick + ticks,
        ran,
    }
}

// Computes the due ticks of all states, up to the end of the window.
fn prepare_event(f: &FixedMachine, tick: u64, s: &mut Store)
    requires is_store { IsStoreAt f.now.machine tick s.old }
    requires within { overflow_of s.old.over ≡ None }
    requires tick_limit { tick < f.now.machine.last }
    ensures fits { FitsMachine f.now.machine s.new }
    ensures ready { HasSchedule f.now.machine tick s.new }
    ensures same { motion_at f.now.machine s.new.motion tick
        ≡ motion_at f.now.machine s.old.motion tick }
    ensures over { s.new.over ≡ s.old.over }
{
    open_event_window(f, tick, s);
    let window = Window {
        from: tick,
        ticks: s.window - tick,
    };
    set_leaving_dues(f, &s.motion, window, s.affected.places(), &mut s.dues);
}

// At the end of a window, moves all states to the tick and begins the next window.
fn open_event_window(f: &FixedMachine, tick: u64, s: &mut Store)
    requires is_store { IsStoreAt f.now.machine tick s.old }
    requires within { overflow_of s.old.over ≡ None }
    requires tick_limit { tick < f.now.machine.last }
    ensures fits { FitsMachine f.now.machine s.new }
    ensures goes { IsWithinLimits f.now.machine tick s.new }
    ensures keeps { KeepsDues f.now.machine tick s.new.window
        (snapshot_at f.now.machine s.new.motion tick) (is_listed s.new.affected.places) s.new.dues }
    ensures same { motion_at f.now.machine s.new.motion tick
        ≡ motion_at f.now.machine s.old.motion tick }
    ensures over { s.new.over ≡ s.old.over }
{
    if tick < s.window {
        return;
    }
    let reach = ticks_to_limit_check(tick, f.machine.last);
    s.window = tick + reach;
    touch_all(f.machine.states.as_slice().len() as u32, &mut s.affected);
    move_all_at_event(f, tick, s.affected.places(), &mut s.motion);
    s.unbounded = is_line_limit_needed(
        false,
        s.safe_bound,
        s.affected.places(),
        &s.motion,
        s.window,
    );
}

// Moves all states to a tick.
fn move_all_at_event(f: &FixedMachine, tick: u64, all: &[u32], q: &mut Motion)
    requires lists { HasLists f.now.machine q.old }
    requires all { All (λ j. j < state_count f.now.machine) all.now }
    requires each { (j : ℕ) → j < state_count f.now.machine → is_listed all.now j ≡ true }
    requires moves { Moves f.now.machine (motion_at f.now.machine q.old tick) }
    requires movable { IsMovableUntil f.now.machine tick tick q.old }
    ensures lists { HasLists f.now.machine q.new }
    ensures same { motion_at f.now.machine q.new tick ≡ motion_at f.now.machine q.old tick }
    ensures here { (j : ℕ) → j < state_count f.now.machine
        → (place_in q.new.places.items j).since ≡ tick }
{
    q.advance(all, tick);
}

// Moves the states that the next event affects to its tick, and returns the number of ticks to it.
fn move_to_event(f: &FixedMachine, tick: u64, s: &mut Store) -> u64
    requires fits { FitsMachine f.now.machine s.old }
    requires ready { HasSchedule f.now.machine tick s.old }
    ensures fits { FitsMachine f.now.machine s.new }
    ensures next { IsNextEvent f.now.machine tick
        (snapshot_at f.now.machine s.old.motion tick)
        (λ j. until tick (due_at s.old.dues j)) (is_listed s.new.left.items) result }
    ensures can_apply { CanApplyRule f.now.machine (tick + result) s.new }
    ensures arrived { HasNewLevels f.now.machine (tick + result) s.new.left.items s.new.affected.places
        s.old.motion s.new.motion }
    ensures dues { (j : ℕ) → is_listed s.new.left.items j ≡ false
        → due_at s.new.dues j ≡ due_at s.old.dues j }
    ensures kept { KeepsWindow s.old s.new }
    ensures over { s.new.over ≡ s.old.over }
{
    let ticks = ticks_to_next_event(f, tick, s.window, &mut s.dues, &mut s.left);
    touch(f, &s.left, &mut s.affected);
    move_on_at_event(f, tick + ticks, &s.left, s.affected.places(), &mut s.motion);
    ticks
}

// Moves the affected states to a tick, and gives new levels to those that left.
fn move_on_at_event(f: &FixedMachine, tick: u64, left: &[u32], affected: &[u32], q: &mut Motion)
    requires lists { HasLists f.now.machine q.old }
    requires movable { IsMovableUntil f.now.machine tick tick q.old }
    requires left { All (λ j. j < state_count f.now.machine) left.now }
    requires affected { All (λ j. j < state_count f.now.machine) affected.now }
    requires own { (j : ℕ) → is_listed left.now j ≡ true → is_listed affected.now j ≡ true }
    requires quiet { AreQuiet f.now.machine (is_listed left.now) (is_listed affected.now) }
    requires rises { FollowsLevels f.now.machine tick q.old }
    ensures lists { HasLists f.now.machine q.new }
    ensures arrived { HasNewLevels f.now.machine tick left.now affected.now q.old q.new }
{
    q.advance(affected, tick);
    take_motion_levels(f, left, &mut q.places, &mut q.rises);
}

// Sets the level slopes and the second differences for new levels. The error is the least state
// that exceeds a limit.
fn apply_rule_at_event(
    f: &FixedMachine,
    rule: &SlopeRule,
    tick: u64,
    s: &mut Store,
) -> Result<(), Over>
    requires fits { FitsMachine f.now.machine s.old }
    requires can_apply { CanApplyRule f.now.machine tick s.old }
    ensures fits { FitsMachine f.now.machine s.new }
    ensures applied { IsRuleApplied (IsRuled2 rule.now.nearest) f.now.machine s.old.left.items
        s.old.affected.places
        (levels_of f.now.machine s.old.motion tick)
        s.old.motion s.new.motion
        (overflow_of result) }
    ensures same { s.new
        ≡ record s.old {
          motion = s.new.motion;
          unbounded = s.new.unbounded;
          levels = s.new.levels;
        } }
    ensures unbounded { overflow_of result ≡ None
        → s.new.unbounded ≡ false
        → (s.old.unbounded ≡ false) × AreLinesSafe s.old.safe_bound s.old.left.items s.new.motion s.old.window }
{
    check_event_levels(f, tick, s)?;
    apply_slope_rule(f, rule, tick, &s.left, &mut s.motion);
    s.unbounded = is_line_limit_needed(s.unbounded, s.safe_bound, &s.left, &s.motion, s.window);
    check_level_slopes(f, s.unbounded, s.affected.places(), &s.motion.changes)
}

// Checks the limits of levels at a tick. The error is the least state that exceeds a limit.
fn check_event_levels(f: &FixedMachine, tick: u64, s: &mut Store) -> Result<(), Over>
    requires fits { FitsMachine f.now.machine s.old }
    requires can_apply { CanApplyRule f.now.machine tick s.old }
    ensures fits { FitsMachine f.now.machine s.new }
    ensures can_apply { CanApplyRule f.now.machine tick s.new }
    ensures past { overflow_of result
        ≡ past_levels f.now.machine (levels_of f.now.machine s.old.motion tick) }
    ensures same { s.new ≡ record s.old { unbounded = s.new.unbounded; levels = s.new.levels } }
    ensures unbounded { s.new.unbounded ≡ false → s.old.unbounded ≡ false }
{
    s.unbounded = is_limit_check_needed(s.unbounded, s.safe_bound, &s.left, &s.motion);
    if !s.unbounded {
        return Ok(());
    }
    s.motion.list_levels(tick, &mut s.levels);
    check_levels(f, &s.levels)
}
