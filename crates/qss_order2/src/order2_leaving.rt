//! Computes and schedules the ticks at which states reach their quanta, and lists the states that
//! leave at the next of these ticks.

ghost use Rattle.std.specs.Prelude.{◌≡◌, ◌≤◌, ◌<◌, ◌%◌, ◌+◌, ◌-◌, ◌^◌, ◌<ℤ◌, ◌≤ℤ◌, ◌-ℤ◌, ◌*ℤ◌, pos, unsigned_abs, ℕ, All, length, Some, None, true, false, vec_capacity};
ghost use Rattle.qss_order2.specs.Prelude.{curve_at, FirstUpTo, IsWithin, IsPositiveWithin, is_listed, AreRisingBelow, IsWritten, tick_limit, look_span, IsSecondLevel, IsSecondState, state_count};
ghost use Rattle.qss_order2.specs.Places.{place_in};
ghost use Rattle.qss_order2.specs.SecondSteps.{SecondSnapshot};
ghost use Rattle.qss_order2.specs.Stores.{snapshot_at, motion_at, HasLists, Moves, due_at, until, IsDue2, IsWindow, HasDues, IsNextEvent};

use crate::fixed_machine::FixedMachine;
use crate::order2_motion::Motion;
use mu_num::{LOOK_SPAN, first_curve};
use qss_sched::Agenda;

/// A tick, and the number of ticks up to which events after it are searched.
#[derive(Clone, Copy)]
pub(crate) struct Window {
    pub from: u64,
    pub ticks: u64,
}

/// Schedules the ticks at which the states of a list reach their quanta.
pub(crate) fn set_leaving_dues(
    f: &FixedMachine,
    q: &Motion,
    window: Window,
    list: &[u32],
    dues: &mut Agenda,
)
    requires lists { HasLists f.now.machine q.now }
    requires moves { Moves f.now.machine (motion_at f.now.machine q.now window.from) }
    requires tick { window.from ≤ tick_limit }
    requires list { All (λ j. j < state_count f.now.machine) list.now }
    requires here { (j : ℕ) → is_listed list.now j ≡ true
        → (place_in q.now.places.items j).since ≡ window.from }
    requires dues { length dues.old ≡ state_count f.now.machine }
    requires some { 1 ≤ window.ticks }
    requires count_limit { window.ticks ≤ look_span }
    ensures { IsWritten None
        (λ j due. IsDue2 f.now.machine (snapshot_at f.now.machine q.now window.from) window.ticks j
        (until window.from due)) list.now
        dues.old dues.new }
{
    for state in list {
        dues.set(*state, leaving_due_tick(f, q, window, *state as usize));
    }
}

/// The number of ticks to the next scheduled limit check.
pub(crate) fn ticks_to_limit_check(tick: u64, last: u64) -> u64
    requires { tick < last }
    ensures { IsWindow tick last result }
{
    let to_look = LOOK_SPAN - tick % LOOK_SPAN;
    let to_last = last - tick;
    if to_last < to_look { to_last } else { to_look }
}

/// The number of ticks to the next event or limit check. Lists the states that leave their quanta
/// there and removes them from the event queue.
pub(crate) fn ticks_to_next_event(
    f: &FixedMachine,
    tick: u64,
    window: u64,
    dues: &mut Agenda,
    left: &mut Vec<u32>,
) -> u64
    requires dues { length dues.old ≡ state_count f.now.machine }
    requires room { state_count f.now.machine ≤ vec_capacity left.old }
    requires has_dues { (w : SecondSnapshot) × HasDues f.now.machine tick window w dues.old }
    ensures next { (w : SecondSnapshot) → HasDues f.now.machine tick window w dues.old
        → IsNextEvent f.now.machine tick w (λ j. until tick (due_at dues.old j)) (is_listed left.new.items) result }
    ensures within { tick + result ≤ window }
    ensures numbers { AreRisingBelow (state_count f.now.machine) left.new.items }
    ensures count { length dues.new ≡ state_count f.now.machine }
    ensures others { (j : ℕ) → is_listed left.new.items j ≡ false
        → due_at dues.new j ≡ due_at dues.old j }
    ensures room { vec_capacity left.new ≡ vec_capacity left.old }
{
    let next = dues.next_tick(window);
    dues.take_all(next, 0, f.machine.states.as_slice().len() as u32, left);
    next - tick
}

// The tick at which a state reaches its quantum, or `None` if it is after the window.
fn leaving_due_tick(f: &FixedMachine, q: &Motion, window: Window, state: usize) -> Option<u64>
    requires lists { HasLists f.now.machine q.now }
    requires moves { Moves f.now.machine (motion_at f.now.machine q.now window.from) }
    requires tick { window.from ≤ tick_limit }
    requires state { state < state_count f.now.machine }
    requires here { (place_in q.now.places.items state).since ≡ window.from }
    requires some { 1 ≤ window.ticks }
    requires count_limit { window.ticks ≤ look_span }
    ensures { IsDue2 f.now.machine (snapshot_at f.now.machine q.now window.from) window.ticks state
        (until window.from result) }
{
    match leaving_due_of(f, q, window, state) {
        Some(ticks) => Some(window.from + ticks),
        None => None,
    }
}

// The number of ticks, up to those of the window, after which a state reaches its quantum, or
// `None`. The place of the state is of the first tick of the window.
fn leaving_due_of(f: &FixedMachine, q: &Motion, window: Window, state: usize) -> Option<u64>
    requires lists { HasLists f.now.machine q.now }
    requires moves { Moves f.now.machine (motion_at f.now.machine q.now window.from) }
    requires state { state < state_count f.now.machine }
    requires here { (place_in q.now.places.items state).since ≡ window.from }
    requires some { 1 ≤ window.ticks }
    requires count_limit { window.ticks ≤ look_span }
    ensures { IsDue2 f.now.machine (snapshot_at f.now.machine q.now window.from) window.ticks state
        result }
{
    let p = q.places[state];
    let gap = leaving_gap_of(p.state, p.level, f.unit);
    let drift = leaving_drift_of(q.rises[state], q.changes[state], f.unit);
    first_step_past_limit(gap, drift, q.bends[state], f.limits[state], window.ticks)
}

/// The signed distance of a state from its level, in units 64 times finer than those of states.
pub fn leaving_gap_of(x: i128, level: i128, unit: i128) -> i128
    requires state { IsSecondState x }
    requires level { IsSecondLevel level }
    requires unit { IsPositiveWithin 44 unit }
    ensures value { result ≡ x -ℤ unit *ℤ level }
    ensures bound { IsWithin 95 result }
{
    x - scale_leaving_level(level, unit)
}

// A level in units of a state.
fn scale_leaving_level(level: i128, unit: i128) -> i128
    requires level { IsSecondLevel level }
    requires unit { IsPositiveWithin 44 unit }
    ensures value { result ≡ unit *ℤ level }
    ensures bound { IsWithin 93 result }
{
    unit * level
}

// The increment of that distance in the next tick, if the level changes by `change` per tick.
fn leaving_drift_of(rise: i128, change: i128, unit: i128) -> i128
    requires rise { IsSecondState rise }
    requires change { IsWithin 95 (unit *ℤ change) }
    ensures value { result ≡ rise -ℤ unit *ℤ change }
    ensures bound { IsWithin 96 result }
{
    rise - unit * change
}

// The first step up to `reach` at which a curve is at least a limit in size, or `None`. A curve that
// does not change is not searched.
fn first_step_past_limit(gap: i128, drift: i128, bend: i128, limit: i128, reach: u64) -> Option<u64>
    requires inside { pos (unsigned_abs gap) <ℤ limit }
    requires bound { limit ≤ℤ pos (2 ^ 82) }
    requires slope { IsWithin 96 drift }
    requires bend { IsSecondState bend }
    requires some { 1 ≤ reach }
    requires reach { reach ≤ look_span }
    ensures { FirstUpTo (λ n. limit ≤ℤ pos (unsigned_abs (curve_at gap drift bend n))) reach result }
{
    if is_never_leaving(drift, bend) {
        return None;
    }
    first_curve(gap, drift, bend, limit, reach)
}

// Whether a curve with this first difference and second difference does not change.
fn is_never_leaving(drift: i128, bend: i128) -> bool
    ensures { result ≡ true → (drift ≡ pos 0) × (bend ≡ pos 0) }
{
    drift == 0 && bend == 0
}
