//! The data of a second-order simulator, and its store at tick 0.

ghost use Rattle.std.specs.Prelude.{◌≡◌, ◌≤◌, ◌*ℤ◌, IfOk, length, pos, vec_capacity};
ghost use Rattle.qss_order2.specs.Prelude.{range_with_len, int_at, tabulate, IsState};
ghost use Rattle.qss_order2.specs.SecondRuns.{start_rows};
ghost use Rattle.qss_order2.specs.SecondSteps.{fine_states, fine_levels, IsStart2};
ghost use Rattle.qss_order2.specs.SlopeRules.{IsRuled2};
ghost use Rattle.qss_order2.specs.Stores.{snapshot_at, IsAtRest, IsAllocated, IsStoreAt};

use crate::fixed_machine::FixedMachine;
use crate::order2_limits::greatest_safe_bound;
use crate::order2_motion::{Motion, Place};
use crate::order2_rises::begin_rises;
use crate::order2_rows::{Kind2, Row2, add_discretes, set_left_rows};
use crate::slope_rule::SlopeRule;
use mu_num::floor_div;
use qss_hand::Over;
use qss_machine::Machine;
use qss_sched::{Agenda, PlaceSet, repeat_value};
use std::alloc::{AllocError, Global};

/// The states, each at a tick of its own, and the event queue.
///
/// `window` is the tick of the next scheduled limit check. `dues` has the tick of the next event of
/// each state, up to `window`; for the states in `affected`, which the last event affected, it is
/// not yet computed. `left` has the states that left their quanta at the last event, at the start
/// all states. Levels and level slopes of absolute value at most `safe_bound` exceed no limit.
/// Unless `unbounded` is set, all levels up to `window` and all level slopes are within
/// `safe_bound`. `levels` is a buffer for the levels of all states. `over` is an error if a state
/// exceeds a limit at the start.
#[derive(Drop)]
pub(crate) struct Store {
    pub motion: Motion,
    pub window: u64,
    pub dues: Agenda,
    pub left: Vec<u32>,
    pub affected: PlaceSet,
    pub safe_bound: Option<i128>,
    pub unbounded: bool,
    pub levels: Vec<i128>,
    pub over: Result<(), Over>,
    pub rows: Vec<Row2>,
}

/// A store at tick 0, with the start rows.
pub(crate) fn start_order2_store(
    alloc: Global,
    f: &FixedMachine,
    rule: &SlopeRule,
) -> Result<Store, AllocError>
    ensures is_store { IfOk result (λ s. IsStoreAt f.now.machine 0 s) }
    ensures start { IfOk result
        (λ s.
        IsStart2 (IsRuled2 rule.now.nearest) f.now.machine
        (snapshot_at f.now.machine s.motion 0)) }
    ensures rows { IfOk result
        (λ s.
        s.rows.items
        ≡ start_rows f.now.machine (snapshot_at f.now.machine s.motion 0)) }
{
    let mut store = allocate_order2_store(alloc, f)?;
    begin_order2_store(f, rule, &mut store);
    Ok(store)
}

// All the memory of a store, with the states and levels of the start.
fn allocate_order2_store(alloc: Global, f: &FixedMachine) -> Result<Store, AllocError>
    ensures { IfOk result (λ s. IsAllocated f.now.machine s) }
{
    let states = f.machine.states.as_slice().len();
    let discretes = f.machine.discretes.as_slice().len();
    Ok(Store {
        motion: start_order2_motion(alloc, f)?,
        window: 0,
        dues: Agenda::with_places(alloc, states as u32)?,
        left: start_order2_list(alloc, states as u32)?,
        affected: PlaceSet::empty(alloc, states)?,
        safe_bound: greatest_safe_bound(alloc, f)?,
        unbounded: true,
        levels: repeat_value(alloc, 0, states)?,
        over: Ok(()),
        rows: Vec::with_capacity(alloc, states + states + discretes + 1)?,
    })
}

// The states at the start, with slopes of 0.
fn start_order2_motion(alloc: Global, f: &FixedMachine) -> Result<Motion, AllocError>
    ensures { IfOk result (λ q. IsAtRest f.now.machine q) }
{
    let states = start_order2_states(alloc, &f.machine)?;
    let levels = start_order2_levels(alloc, f, &states)?;
    let count = states.len();
    Ok(Motion {
        places: start_order2_places(alloc, &states, &levels)?,
        changes: repeat_value(alloc, 0, count)?,
        rises: repeat_value(alloc, 0, count)?,
        bends: repeat_value(alloc, 0, count)?,
    })
}

// The states at the start, in units 64 times finer.
fn start_order2_states(alloc: Global, m: &Machine) -> Result<Vec<i128>, AllocError>
    ensures { IfOk result (λ list. list.items ≡ fine_states m.now) }
{
    let states = m.states.as_slice();
    let mut list: Vec<i128> = Vec::with_capacity(alloc, states.len())?;
    for j in 0..states.len() {
        list.push_reserved(fine_state(states[j].x0));
    }
    Ok(list)
}

// A state in units 64 times finer.
fn fine_state(x: i128) -> i128
    requires { IsState x }
    ensures { result ≡ pos 64 *ℤ x }
{
    64 * x
}

// The levels at the start: the floors of the states.
fn start_order2_levels(
    alloc: Global,
    f: &FixedMachine,
    states: &[i128],
) -> Result<Vec<i128>, AllocError>
    requires { states.now ≡ fine_states f.now.machine }
    ensures { IfOk result (λ list. list.items ≡ fine_levels f.now.machine) }
{
    let mut list: Vec<i128> = Vec::with_capacity(alloc, states.len())?;
    for j in 0..states.len() {
        list.push_reserved(floor_div(states[j], f.unit));
    }
    Ok(list)
}

// Places of tick 0 with these states and levels.
fn start_order2_places(
    alloc: Global,
    states: &[i128],
    levels: &[i128],
) -> Result<Vec<Place>, AllocError>
    requires { length levels.now ≡ length states.now }
    ensures { IfOk result
        (λ list.
        list.items
        ≡ tabulate (length states.now)
        (λ j. record { since = 0; state = int_at states.now j; level = int_at levels.now j })) }
{
    let mut list: Vec<Place> = Vec::with_capacity(alloc, states.len())?;
    for j in 0..states.len() {
        list.push_reserved(Place {
            since: 0,
            state: states[j],
            level: levels[j],
        });
    }
    Ok(list)
}

// The numbers of all states, in increasing order.
fn start_order2_list(alloc: Global, count: u32) -> Result<Vec<u32>, AllocError>
    ensures list { IfOk result (λ list. list.items ≡ range_with_len 0 count) }
    ensures room { IfOk result (λ list. count ≤ vec_capacity list) }
{
    let mut list: Vec<u32> = Vec::with_capacity(alloc, count as usize)?;
    for j in 0..count {
        list.push_reserved(j);
    }
    Ok(list)
}

// Applies the rule to all states and lists the start rows.
fn begin_order2_store(f: &FixedMachine, rule: &SlopeRule, s: &mut Store)
    requires { IsAllocated f.now.machine s.old }
    ensures is_store { IsStoreAt f.now.machine 0 s.new }
    ensures start { IsStart2 (IsRuled2 rule.now.nearest) f.now.machine
        (snapshot_at f.now.machine s.new.motion 0) }
    ensures rows { s.new.rows.items
        ≡ start_rows f.now.machine (snapshot_at f.now.machine s.new.motion 0) }
{
    s.over = begin_rises(f, rule, &s.left, &mut s.levels, &mut s.motion);
    set_left_rows(Kind2::Start, 0, &s.left, &s.motion, &mut s.rows);
    add_discretes(f, Kind2::Start, 0, &mut s.rows);
}
