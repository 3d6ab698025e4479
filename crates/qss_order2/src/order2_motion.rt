//! States and levels, each at a tick of its own, and their motion along parabolas and lines.

ghost use Rattle.std.specs.Prelude.{◌≡◌, ◌≤◌, ◌<◌, ◌+◌, ◌*◌, ◌-◌, ◌/◌, ◌+ℤ◌, ◌-ℤ◌, ◌*ℤ◌, All, ℕ, ℤ, List, length, pos};
ghost use Rattle.qss_order2.specs.Prelude.{int_wrap, w128, sum_to, curve_at, IsWithin, IsWritten, int_at, look_span, IsSecondLevel, IsSecondState, state_count, level_unit};
ghost use Rattle.qss_order2.specs.Places.{levels_in, no_place, place_in, place_at, floor_place, level_on, level_shift, IsSmallPlace};
ghost use Rattle.qss_order2.specs.Stores.{CanAdvance, CanReadAt, IsAdvanced, place_there, rise_there};

use crate::fixed_machine::{FixedMachine, add_fixed_column_multiple};
use mu_num::floor_div;

/// A state and its level at a tick of the state's own.
#[derive(Clone, Copy)]
pub(crate) struct Place {
    pub since: u64,
    pub state: i128,
    pub level: i128,
}

/// By state: its place, the slope of its level per tick, its own slope at the tick of its place, and
/// its second difference, which is the increment of its slope per tick.
#[derive(Drop)]
pub(crate) struct Motion {
    pub places: Vec<Place>,
    pub changes: Vec<i128>,
    pub rises: Vec<i128>,
    pub bends: Vec<i128>,
}

impl Motion {
    /// Moves the states of a list to a tick, with their slopes.
    pub(crate) fn advance(&mut self, list: &[u32], tick: u64)
        requires moves { CanAdvance tick self.old }
        requires list { All (λ j. j < length self.old.places.items) list.now }
        ensures { IsAdvanced tick list.now self.old self.new }
    {
        for state in list {
            let j = *state as usize;
            let rise = self.rise_at(j, tick);
            self.places[j] = self.place_at(j, tick);
            self.rises[j] = rise;
        }
    }

    // The slope of a state at a tick.
    fn rise_at(&self, state: usize, tick: u64) -> i128
        requires moves { CanAdvance tick self.now }
        requires state { state < length self.now.places.items }
        ensures { result ≡ rise_there tick self.now state }
    {
        let p = self.places[state];
        if p.since == tick {
            return self.rises[state];
        }
        slope_after_motion(self.rises[state], self.bends[state], tick - p.since)
    }

    /// The place of a state at a tick. A place of that tick is returned unchanged.
    pub(crate) fn place_at(&self, state: usize, tick: u64) -> Place
        requires moves { CanAdvance tick self.now }
        requires state { state < length self.now.places.items }
        ensures { result ≡ place_there tick self.now state }
    {
        let p = self.places[state];
        if p.since == tick {
            return p;
        }
        place_after_motion(
            p,
            self.changes[state],
            self.rises[state],
            self.bends[state],
            tick,
        )
    }

    /// The level of a state at a tick.
    pub(crate) fn level_at(&self, state: usize, tick: u64) -> i128
        requires state { state < length self.now.places.items }
        requires reads { CanReadAt tick self.now }
        ensures { result
            ≡ level_on (place_in self.now.places.items state) (int_at self.now.changes.items state)
            tick }
    {
        let p = self.places[state];
        if p.since == tick {
            return p.level;
        }
        line_after_motion(p.level, self.changes[state], tick - p.since)
    }

    /// Lists the levels of all states at a tick.
    pub(crate) fn list_levels(&self, tick: u64, levels: &mut [i128])
        requires reads { CanReadAt tick self.now }
        requires levels { length levels.old ≡ length self.now.places.items }
        ensures { levels.new ≡ levels_in self.now.places.items self.now.changes.items tick }
    {
        for j in 0..levels.len() {
            levels[j] = self.level_at(j, tick);
        }
    }
}

/// Gives each state of a list the greatest level that is at most the state, and adds the
/// differences of levels to the slopes of the rows that read these states, modulo 2^128.
pub(crate) fn take_motion_levels(
    f: &FixedMachine,
    list: &[u32],
    places: &mut [Place],
    rises: &mut [i128],
)
    requires places { length places.old ≡ state_count f.now.machine }
    requires rises { length rises.old ≡ state_count f.now.machine }
    requires list { All (λ j. j < state_count f.now.machine) list.now }
    ensures places { IsWritten no_place
        (λ j p. p ≡ floor_place (place_in places.old j) (level_unit f.now.machine)) list.now
        places.old places.new }
    ensures rises { (i : ℕ) (z : ℤ) → i < state_count f.now.machine
        → int_at rises.old i ≡ int_wrap w128 z
        → int_at rises.new i
        ≡ int_wrap w128 (z +ℤ level_shift f.now.machine i places.old places.new) }
{
    for state in list {
        let j = *state as usize;
        let old = places[j];
        let new = floor_motion_place(f, old);
        places[j] = new;
        add_fixed_column_multiple(
            f.columns[j].as_slice(),
            motion_difference(new.level, old.level),
            rises,
        );
    }
}

// A slope after some ticks, at a constant second difference.
fn slope_after_motion(rise: i128, bend: i128, ticks: u64) -> i128
    requires rise { IsSecondState rise }
    requires bend { IsSecondState bend }
    requires ticks { ticks ≤ look_span }
    ensures { result ≡ rise +ℤ pos ticks *ℤ bend }
{
    rise + rise_in_motion(ticks, bend)
}

// The increment of a number over some ticks, from its increment per tick.
fn rise_in_motion(ticks: u64, change: i128) -> i128
    requires ticks { ticks ≤ look_span }
    requires change { IsWithin 95 change }
    ensures value { result ≡ pos ticks *ℤ change }
    ensures bound { IsWithin 111 result }
{
    i128::from(ticks) * change
}

// The place of a state at a later tick: the state on its parabola, the level on its line.
fn place_after_motion(p: Place, change: i128, rise: i128, bend: i128, tick: u64) -> Place
    requires place { IsSmallPlace p }
    requires change { IsWithin 95 change }
    requires rise { IsSecondState rise }
    requires bend { IsSecondState bend }
    requires since { p.since ≤ tick }
    requires ticks { tick ≤ p.since + look_span }
    ensures { result ≡ place_at p change rise bend tick }
{
    let ticks = tick - p.since;
    Place {
        since: tick,
        state: state_after_motion(p.state, rise, bend, ticks),
        level: line_after_motion(p.level, change, ticks),
    }
}

// A state after some ticks, along its parabola.
fn state_after_motion(x: i128, rise: i128, bend: i128, ticks: u64) -> i128
    requires state { IsSecondState x }
    requires rise { IsSecondState rise }
    requires bend { IsSecondState bend }
    requires ticks { ticks ≤ look_span }
    ensures { result ≡ curve_at x rise bend ticks }
{
    x + rise_in_motion(ticks, rise) + bend_in_motion(ticks, bend)
}

// The contribution of the second difference to a state over some ticks.
fn bend_in_motion(ticks: u64, bend: i128) -> i128
    requires ticks { ticks ≤ look_span }
    requires bend { IsSecondState bend }
    ensures value { result ≡ pos (sum_to ticks) *ℤ bend }
    ensures bound { IsWithin 125 result }
{
    motion_turns(ticks) * bend
}

// The sum 0 + 1 + .. + (ticks - 1): the coefficient of the second difference after these ticks.
fn motion_turns(ticks: u64) -> i128
    requires { ticks ≤ look_span }
    ensures value { result ≡ pos (sum_to ticks) }
    ensures bound { IsWithin 31 result }
{
    if ticks == 0 {
        return 0;
    }
    i128::from(ticks * (ticks - 1) / 2)
}

// A level after some ticks, along its line.
fn line_after_motion(level: i128, change: i128, ticks: u64) -> i128
    requires level { IsSecondLevel level }
    requires change { IsWithin 95 change }
    requires ticks { ticks ≤ look_span }
    ensures { result ≡ level +ℤ pos ticks *ℤ change }
{
    level + rise_in_motion(ticks, change)
}

// A place with the greatest level that is at most the state.
fn floor_motion_place(f: &FixedMachine, p: Place) -> Place
    ensures { result ≡ floor_place p (level_unit f.now.machine) }
{
    Place {
        since: p.since,
        state: p.state,
        level: floor_div(p.state, f.unit),
    }
}

/// The difference of two numbers, modulo 2^128.
pub(crate) fn motion_difference(new: i128, old: i128) -> i128
    ensures { result ≡ int_wrap w128 (new -ℤ old) }
{
    new.wrapping_sub(old)
}
