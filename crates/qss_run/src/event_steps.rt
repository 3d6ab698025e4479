//! Advances a run from one event to the next: skips event-free ticks, and runs the event step of
//! the tick after them.

ghost use Rattle.std.specs.Prelude.{◌≡◌, ◌+◌, ◌<◌, ◌^◌, if◌then◌else◌, ◌≢◌, ◌≤◌, ◌++◌, ◌-◌, ℕ, None, Some, length, true, false, vec_capacity, vec_len, List, Option};
ghost use Rattle.qss_run.specs.Prelude.{overflow_of, conditions, int_at, state_count, slope_at, tabulate, due_at, states_with, line_at, states_at, MayArrive, goes_from, replaced_lines_from, is_listed, state_rows, discrete_rows, snapshot_rows, last_snapshot, tick_rows, IsAllowedLevel, IsNext, tick_of, end_of, Snapshot, Rule, AreEventFree, IsVisit, variable_limit, tick_limit, is_touched, state_at};
ghost use Rattle.qss_run.specs.Words.{IsUnderWay, snapshot_after, snapshot_of, IsStoreAt, HasDueRemoved, IsEventRun, CanContinueAfterHandlers, snapshot_left, has_risen, ListsFlipped, AreDue, AreChanging, AreMovedOut, HasRoomFor, IsTakenAfter, view_of, MovesTouched, touches_at};
ghost use Rattle.qss_machine.specs.declared.machine_parts.RowKind.TheVariants as kind;

use crate::condition_detectors::update_detectors_after_handlers;
use crate::run_conditions::{Conditions, StatesAt};
use crate::run_start::Store;
use qss_events::{Outcome, add_event_discrete_rows, set_event_overflow_row};
use qss_hand::{Over, Work};
use qss_machine::{Machine, Row, RowKind};
use qss_quant::{Integrator, Quantizer, Steps};
use qss_sched::Agenda;
use qss_states::HandlerArrival;
use std::sync::ledger::Ledger;

/// An event step: its tick and its result. The error is the variable that overflows.
#[derive(Clone, Copy)]
pub(crate) struct EventStep {
    pub tick: u64,
    pub ran: Result<(), Over>,
}

/// Advances to the next tick with rows, to an overflow, or to the last tick.
pub(crate) fn go_to_next_event<L: Ledger>(
    m: &Machine,
    q: &Quantizer,
    from: u64,
    s: &mut Store,
    steps: &mut Steps<L>,
) -> Outcome
    requires stands { IsStoreAt m.now from s.old }
    requires tick_limit { from ≤ m.now.last }
    ensures next { IsNext (IsAllowedLevel q.now.name) (view_of m.now from s.old None)
        (view_of m.now (tick_of m.now.last result) s.new (end_of result)) result }
    ensures stands { end_of result ≡ None → IsStoreAt m.now (tick_of m.now.last result) s.new }
    ensures counted { MovesTouched (IsAllowedLevel q.now.name) (view_of m.now from s.old None)
        (view_of m.now (tick_of m.now.last result) s.new (end_of result)) result
        (steps.new - steps.old) }
{
    let mut tick = from;
    while tick < m.last {
        let step = go_to_event(m, q, tick, s, steps);
        tick = step.tick;
        if let Err(over) = step.ran {
            set_event_overflow_row(tick, over.var, &mut s.rows);
            return Outcome::Over {
                tick,
                var: over.var,
            };
        }
        if !s.rows.is_empty() {
            return Outcome::Events { tick };
        }
    }
    set_last_rows(m, s);
    Outcome::Done
}

/// Skips event-free ticks, and runs the event step after them.
pub(crate) fn go_to_event<L: Ledger>(
    m: &Machine,
    q: &Quantizer,
    tick: u64,
    s: &mut Store,
    steps: &mut Steps<L>,
) -> EventStep
    requires { IsUnderWay m.now tick s.old }
    ensures later { tick < result.tick }
    ensures tick_limit { result.tick ≤ m.now.last }
    ensures due { result.tick < m.now.last
        → (place : ℕ) × (due_at s.old.agenda place ≡ Some result.tick) }
    ensures visited { (silent : List Snapshot)
        × IsVisit (IsAllowedLevel q.now.name) m.now tick (snapshot_of tick s.old) silent result.tick
        (snapshot_after result s.new)
        × (overflow_of result.ran ≡ None
        → s.new.rows.items
        ≡ tick_rows m.now result.tick (last_snapshot (snapshot_of tick s.old) silent)
        (snapshot_of result.tick s.new))
        × (steps.new
        ≤ steps.old
        + touches_at m.now result.tick (last_snapshot (snapshot_of tick s.old) silent)
        (snapshot_after result s.new)) }
    ensures stands { overflow_of result.ran ≡ None → IsStoreAt m.now result.tick s.new }
    ensures room { vec_capacity s.new.rows ≡ vec_capacity s.old.rows }
{
    let before = skip_to_event(m, tick, s);
    EventStep {
        tick: before + 1,
        ran: run_event(m, q, before, s, steps),
    }
}

// Advances to the tick before the earliest due tick, or before the last tick. It returns this tick.
fn skip_to_event(m: &Machine, tick: u64, s: &mut Store) -> u64
    requires { IsUnderWay m.now tick s.old }
    ensures later { tick ≤ result }
    ensures before { result < m.now.last }
    ensures reached { result + 1 < m.now.last
        → (place : ℕ) × (due_at s.old.agenda place ≡ Some (result + 1)) }
    ensures silent { (name : Option Rule)
        → (silent : List Snapshot)
        × AreEventFree (IsAllowedLevel name) m.now tick (snapshot_of tick s.old) silent result
        (snapshot_of result s.new) }
    ensures stands { IsStoreAt m.now result s.new }
    ensures room { vec_capacity s.new.rows ≡ vec_capacity s.old.rows }
{
    let next = earliest_due_tick(&s.agenda, m.last);
    s.conditions.copy_settled(tick + 1 < next);
    next - 1
}

/// The earliest due tick, or the last tick of the run if nothing is due before it.
pub(crate) fn earliest_due_tick(agenda: &Agenda, last: u64) -> u64
    ensures at_most { result ≤ last }
    ensures none_before { (place tick : ℕ) → due_at agenda.now place ≡ Some tick → result ≤ tick }
    ensures reached { result < last → (place : ℕ) × (due_at agenda.now place ≡ Some result) }
{
    agenda.next_tick(last)
}

/// Runs the tick after `before`. The error is the variable that overflows. After an error the store
/// is unspecified, except for the capacity for rows. The line and the due tick of a state that is
/// not affected do not change.
pub(crate) fn run_event<L: Ledger>(
    m: &Machine,
    q: &Quantizer,
    before: u64,
    s: &mut Store,
    steps: &mut Steps<L>,
) -> Result<(), Over>
    requires { IsUnderWay m.now before s.old }
    ensures visited { IsEventRun m.now q.now.name before s.old s.new (overflow_of result) steps.old
        steps.new }
    ensures kept { overflow_of result ≡ None → (j : ℕ) → j < state_count m.now
        → is_touched m.now (before + 1) (snapshot_of before s.old)
        (snapshot_of (before + 1) s.new) j ≡ false
        → (line_at s.new.states.lines.items j ≡ line_at s.old.states.lines.items j)
        × (due_at s.new.agenda j ≡ due_at s.old.agenda j) }
{
    let states = s.states.lines.len() as u32;
    let conditions = s.conditions.branches.len() as u32;
    s.conditions
        .make_risen_due(s.rising, before + 1, states, &mut s.agenda);
    take_due_states(&mut s.agenda, before + 1, states, &mut s.moment.moved);
    take_due_conditions(
        &mut s.agenda,
        before + 1,
        states,
        conditions,
        &mut s.moment.changed,
    );
    run_due_event(m, q, before, s, steps)
}

/// Removes the states that are due at a tick from the event queue, and lists them in increasing
/// order. Nothing is due before the tick.
pub fn take_due_states(agenda: &mut Agenda, tick: u64, states: u32, moved: &mut Vec<u32>)
    requires has { HasRoomFor states (vec_capacity moved.old) agenda.old }
    requires none_before { (place due : ℕ) → due_at agenda.old place ≡ Some due → tick ≤ due }
    ensures due { AreDue states tick agenda.old moved.new.items }
    ensures out { AreMovedOut moved.old moved.new agenda.old agenda.new }
{
    agenda.take_all(tick, 0, states, moved);
}

/// Removes the conditions that are due at a tick from the event queue, and lists them in increasing
/// order. No state is due at the tick.
pub fn take_due_conditions(
    agenda: &mut Agenda,
    tick: u64,
    states: u32,
    conditions: u32,
    changed: &mut Vec<u32>,
)
    requires room { conditions ≤ vec_capacity changed.old }
    requires places { states + conditions ≤ length agenda.old }
    requires count_limit { states + conditions < 2 ^ 32 }
    requires none_before { (place due : ℕ) → due_at agenda.old place ≡ Some due → tick ≤ due }
    requires no_states { (j : ℕ) → j < states → due_at agenda.old j ≢ Some tick }
    ensures changing { AreChanging states conditions tick agenda.old changed.new.items }
    ensures taken { IsTakenAfter states changed.new.items agenda.old agenda.new }
    ensures room { vec_capacity changed.new ≡ vec_capacity changed.old }
{
    agenda.take_all(tick, states, conditions, changed);
}

/// Runs the tick after `before`. The due states and the conditions to be evaluated are already
/// removed from the event queue. The error is the variable that overflows. After an error the
/// store is unspecified, except for the capacity for rows. A state that is not affected was not
/// due, and its line and due tick do not change.
pub(crate) fn run_due_event<L: Ledger>(
    m: &Machine,
    q: &Quantizer,
    before: u64,
    s: &mut Store,
    steps: &mut Steps<L>,
) -> Result<(), Over>
    requires { HasDueRemoved m.now before s.old }
    ensures visited { IsEventRun m.now q.now.name before s.old s.new (overflow_of result) steps.old
        steps.new }
    ensures kept { overflow_of result ≡ None → (j : ℕ) → j < state_count m.now
        → is_touched m.now (before + 1) (snapshot_of before s.old)
        (snapshot_of (before + 1) s.new) j ≡ false
        → (line_at s.new.states.lines.items j ≡ line_at s.old.states.lines.items j)
        × (due_at s.new.agenda j ≡ due_at s.old.agenda j)
        × (is_listed s.old.moment.moved.items j ≡ false) }
{
    let at = StatesAt {
        machine: m,
        tick: before + 1,
        states: &s.states,
    };
    s.conditions
        .handle_changed_conditions(&at, &mut s.moment, &mut s.work, &mut s.agenda)?;
    let handled = HandlerArrival {
        machine: m,
        uses: &s.uses,
        tick: before + 1,
        moved: &s.moment.moved,
        assigned: &s.moment.assigned,
        work: &s.work,
    };
    s.states.requantize(&handled, q, &mut s.rows)?;
    continue_after_handlers(m, before + 1, s, steps);
    Ok(())
}

// Continues the states and conditions of a tick after its handlers: those that changed, and those
// that read a change.
fn continue_after_handlers<L: Ledger>(m: &Machine, tick: u64, s: &mut Store, steps: &mut Steps<L>)
    requires { CanContinueAfterHandlers m.now tick s.old }
    ensures stands { IsStoreAt m.now tick s.new }
    ensures snapshot { snapshot_of tick s.new ≡ snapshot_left m.now tick s.old }
    ensures rows { s.new.rows ≡ s.old.rows }
    ensures kept { (j : ℕ) → j < state_count m.now
        → goes_from tick
        (int_at (states_with s.old.states.lines.items tick s.old.moment.moved.items s.old.work.x) j)
        (int_at s.old.states.levels.items j)
        (slope_at m.now j s.old.states.levels.items s.old.work.d)
        (line_at s.old.states.lines.items j) ≡ true
        → line_at s.new.states.lines.items j ≡ line_at s.old.states.lines.items j }
    ensures counted { steps.new
        ≡ steps.old
        + replaced_lines_from (state_count m.now) tick
        (states_with s.old.states.lines.items tick s.old.moment.moved.items s.old.work.x)
        s.old.states.levels.items
        (tabulate (state_count m.now)
        (λ j. slope_at m.now j s.old.states.levels.items s.old.work.d))
        s.old.states.lines.items }
{
    let handled = HandlerArrival {
        machine: m,
        uses: &s.uses,
        tick,
        moved: &s.moment.moved,
        assigned: &s.moment.assigned,
        work: &s.work,
    };
    s.states.continue_lines(&handled, &mut s.agenda, steps);
    update_detectors_after_handlers(m, tick, s);
    schedule_next_if_risen(tick, s);
}

// Sets whether a condition became true during the handlers of a tick. If so, it schedules the next
// tick at the index after the conditions. Nothing is due there before.
fn schedule_next_if_risen(tick: u64, s: &mut Store)
    requires flipped { ListsFlipped s.old.conditions }
    requires places { length s.old.agenda
        ≡ length s.old.states.lines.items + length s.old.conditions.branches.items + 1 }
    requires count_limit { length s.old.states.lines.items
        + length s.old.conditions.branches.items < 2 ^ 32 }
    requires none_due { due_at s.old.agenda
        (length s.old.states.lines.items + length s.old.conditions.branches.items) ≡ None }
    requires tick_limit { tick < tick_limit }
    ensures rising { s.new.rising ≡ has_risen s.old.conditions }
    ensures own { due_at s.new.agenda
        (length s.old.states.lines.items + length s.old.conditions.branches.items)
        ≡ (if s.new.rising then Some (tick + 1) else None) }
    ensures others { (place : ℕ)
        → place < length s.old.states.lines.items + length s.old.conditions.branches.items
        → due_at s.new.agenda place ≡ due_at s.old.agenda place }
    ensures same_length { length s.new.agenda ≡ length s.old.agenda }
    ensures same { s.new ≡ record s.old { rising = s.new.rising; agenda = s.new.agenda } }
{
    let place = (s.states.lines.len() + s.conditions.branches.len()) as u32;
    s.rising = s.conditions.schedule_risen(tick, place, &mut s.agenda);
}

// Sets the end rows, with the states at the last tick.
fn set_last_rows(m: &Machine, s: &mut Store)
    requires { IsStoreAt m.now m.now.last s.old }
    ensures rows { s.new.rows.items ≡ snapshot_rows kind.End m.now.last (snapshot_of m.now.last s.old) }
    ensures snapshot { snapshot_of m.now.last s.new ≡ snapshot_of m.now.last s.old }
{
    move_work_states(&s.states.lines, m.last, &mut s.work);
    set_all_rows(RowKind::End, m.last, &s.work, &s.states.levels, &mut s.rows);
}

/// Sets the states in the values of handlers to those on their lines at a tick.
pub(crate) fn move_work_states(lines: &[Integrator], tick: u64, work: &mut Work)
    requires same_length { length work.old.x ≡ length lines.now }
    requires not_later { (j : ℕ) → j < length lines.now → (line_at lines.now j).tick ≤ tick }
    requires tick_limit { tick < tick_limit }
    ensures { work.new ≡ record work.old { x = states_at lines.now tick } }
{
    move_states_along_lines(lines, tick, work.x.as_mut_slice());
}

// The states at a tick, along their lines.
fn move_states_along_lines(lines: &[Integrator], tick: u64, x: &mut [i128])
    requires { MayArrive tick lines.now x.old }
    ensures { x.new ≡ tabulate (length lines.now) (λ j. state_at (line_at lines.now j) tick) }
{
    for j in 0..lines.len() {
        x[j] = lines[j].value_at(tick);
    }
}

/// Sets the rows of all states and discrete variables, at the start or at the end.
pub(crate) fn set_all_rows(
    kind: RowKind,
    tick: u64,
    work: &Work,
    levels: &[i64],
    rows: &mut Vec<Row>,
)
    requires count_limit { length work.now.x + length work.now.d ≤ variable_limit }
    requires same_length { length levels.now ≡ length work.now.x }
    requires room { length work.now.x + length work.now.d ≤ vec_capacity rows.old }
    ensures rows { rows.new.items
        ≡ state_rows kind tick levels.now work.now.x
        ++ discrete_rows kind tick (length work.now.x) work.now.d }
    ensures room { vec_capacity rows.new ≡ vec_capacity rows.old }
{
    rows.clear();
    add_state_rows(kind, tick, &work.x, levels, rows);
    add_event_discrete_rows(kind, tick, work.x.len(), &work.d, rows);
}

// Appends a row of each state.
fn add_state_rows(kind: RowKind, tick: u64, x: &[i128], levels: &[i64], rows: &mut Vec<Row>)
    requires count_limit { length x.now ≤ variable_limit }
    requires same_length { length levels.now ≡ length x.now }
    requires room { vec_len rows.old + length x.now ≤ vec_capacity rows.old }
    ensures rows { rows.new.items ≡ rows.old.items ++ state_rows kind tick levels.now x.now }
    ensures count { vec_len rows.new ≡ vec_len rows.old + length x.now }
    ensures room { vec_capacity rows.new ≡ vec_capacity rows.old }
{
    for j in 0..x.len() {
        rows.push_reserved(Row {
            tick,
            kind,
            var: j as u32,
            level: levels[j],
            state: x[j],
        });
    }
}
