//! Steps a coupled model from one event to the next: event-free ticks, and then one tick that may
//! have an event. It also adds the rows at the start and at the end.

ghost use Rattle.std.specs.Prelude.{◌≡◌, ◌+◌, ◌<◌, ◌≤◌, ◌++◌, if◌then◌else◌, All, None, length, map, vec_capacity, vec_len, ℕ, Option, Some, List};
ghost use Rattle.qss_devs.specs.Prelude.{overflow_of, first_exceeding, variable_limit, tick_limit, bits_of_state, Snapshot, snapshot_unless, handlers_at, IsStep, tick_rows, state_rows, discrete_rows, snapshot_rows, state_at, IsAllowedLevel, IsNext, tick_of, end_of, state_count, conditions, HasNoEventBefore, IsLineNext, IsCrossingNext, AreNext, AreEventFree};
ghost use Rattle.qss_devs.specs.CoupledEvents.{snapshot_of, StoreRepresents, IsAfterHandlers, view_of};
ghost use Rattle.qss_devs.specs.CoupledSteps.{IsNamed};
ghost use Rattle.qss_devs.specs.Coupling.{line_at, crossing_at};
ghost use Rattle.qss_machine.specs.declared.machine_parts.RowKind.TheVariants as kind;

use crate::coupled_arrivals::{
    compute_arrival_states, read_crossings_on_arrival, settle_arrival_truths,
};
use crate::coupled_branches::fire_clauses_on_arrival;
use crate::coupled_messages::{
    send_assigned_messages, send_integrator_level_messages, send_slope_messages,
};
use crate::coupled_start::Store;
use qss_components::{IntegratorModel, least_advance, least_integrator_leaving};
use qss_events::{
    Outcome, add_event_discrete_rows, has_event_condition_risen, set_event_overflow_row,
};
use qss_hand::{Over, Work};
use qss_machine::{Machine, Row, RowKind};
use qss_quant::Quantizer;

/// Advances to the next tick with rows, to an overflow, or to the last tick. Allocates no memory.
pub(crate) fn go_to_next_rows(m: &Machine, q: &Quantizer, from: u64, s: &mut Store) -> Outcome
    requires named { IsNamed q.now.name }
    requires represents_snapshot { StoreRepresents m.now q.now.name from s.old }
    requires tick_limit { from ≤ m.now.last }
    ensures next { IsNext (IsAllowedLevel q.now.name) (view_of m.now from s.old None)
        (view_of m.now (tick_of m.now.last result) s.new (end_of result)) result }
    ensures represents_snapshot { end_of result ≡ None
        → StoreRepresents m.now q.now.name (tick_of m.now.last result) s.new }
    ensures tick_limit { tick_of m.now.last result ≤ m.now.last }
{
    let mut tick = from;
    while tick < m.last {
        let before = skip_event_free_ticks(m, q, tick, s);
        tick = before + 1;
        if let Err(over) = run_next_tick(m, q, before, s) {
            set_event_overflow_row(tick, over.var, &mut s.rows);
            return Outcome::Over {
                tick,
                var: over.var,
            };
        }
        if !s.rows.is_empty() {
            return Outcome::Events { tick };
        }
    }
    set_rows_at_end(m, q, s);
    Outcome::Done
}

// Advances to the tick before the next one that may have an event, and returns it.
fn skip_event_free_ticks(m: &Machine, q: &Quantizer, tick: u64, s: &mut Store) -> u64
    requires represents_snapshot { StoreRepresents m.now q.now.name tick s.old }
    requires tick_limit { tick < m.now.last }
    ensures later { tick ≤ result }
    ensures before { result < m.now.last }
    ensures silent { (silent : List Snapshot) × AreEventFree (IsAllowedLevel q.now.name) m.now tick
        (snapshot_of tick s.old) silent result (snapshot_of result s.new) }
    ensures represents_snapshot { StoreRepresents m.now q.now.name result s.new }
    ensures room { vec_capacity s.new.rows ≡ vec_capacity s.old.rows }
{
    let next = next_step_tick(m, q, tick, s);
    copy_truths_if_still(
        tick + 1 < next,
        &s.truths.after_handlers,
        &mut s.truths.at_arrival,
    );
    next - 1
}

/// The tick of the next event step. It is the next tick if a handler made a condition true, else
/// the least tick of the next transitions of components, at most the last tick.
pub(crate) fn next_step_tick(m: &Machine, q: &Quantizer, tick: u64, s: &Store) -> u64
    requires represents_snapshot { StoreRepresents m.now q.now.name tick s.now }
    requires tick_limit { tick < m.now.last }
    ensures later { tick < result }
    ensures at_most { result ≤ m.now.last }
    ensures lines { (j next : ℕ) → j < state_count m.now
        → IsLineNext m.now j (line_at s.now.parts j) (Some next) → result ≤ next }
    ensures crossings { (place next : ℕ) → place < length (conditions m.now)
        → IsCrossingNext (crossing_at s.now.parts place).detector (Some next) → result ≤ next }
    ensures dues { tick + 1 < result → (due : ℕ → Option ℕ)
        × AreNext m.now tick (snapshot_of tick s.now)
        (line_at s.now.parts) (crossing_at s.now.parts) due
        × HasNoEventBefore result due }
{
    if has_event_condition_risen(&s.truths.at_arrival, &s.truths.after_handlers) {
        return tick + 1;
    }
    let first = least_integrator_leaving(&s.parts.integrators, m.last);
    let second = least_advance(&s.parts.functions, first);
    least_advance(&s.parts.crossings, second)
}

// After an event-free tick, the truth values on arrival are those after the last handlers.
fn copy_truths_if_still(still: bool, after_handlers: &[bool], at_arrival: &mut [bool])
    requires { length at_arrival.old ≡ length after_handlers.now }
    ensures { at_arrival.new ≡ (if still then after_handlers.now else at_arrival.old) }
{
    if still {
        at_arrival.copy_from_slice(after_handlers);
    }
}

/// Runs the tick after the current one: crossings are read, handlers fire, integrators make their
/// transitions, then functions. The error is the variable that overflows. After an error, the store
/// is unspecified, except for its memory for rows.
#[tactic(none)]
fn run_next_tick(m: &Machine, q: &Quantizer, tick: u64, s: &mut Store) -> Result<(), Over>
    requires named { IsNamed q.now.name }
    requires represents_snapshot { StoreRepresents m.now q.now.name tick s.old }
    requires tick_limit { tick < m.now.last }
    ensures stepped { IsStep (IsAllowedLevel q.now.name) m.now (tick + 1) (snapshot_of tick s.old)
        (snapshot_unless (overflow_of result) (snapshot_of (tick + 1) s.new)) }
    ensures rows { overflow_of result ≡ None → s.new.rows.items
        ≡ tick_rows m.now (tick + 1) (snapshot_of tick s.old) (snapshot_of (tick + 1) s.new) }
    ensures represents_snapshot { overflow_of result ≡ None
        → StoreRepresents m.now q.now.name (tick + 1) s.new }
    ensures room { vec_capacity s.new.rows ≡ vec_capacity s.old.rows }
{
    run_handlers_of_tick(m, q, tick, s)?;
    update_components(m, q, tick + 1, s)
}

// Runs the handlers of the next tick: crossings are read on arrival, then branches fire. The error
// is the variable that overflows on arrival or by an assignment.
#[tactic(none)]
fn run_handlers_of_tick(m: &Machine, q: &Quantizer, tick: u64, s: &mut Store) -> Result<(), Over>
    requires represents_snapshot { StoreRepresents m.now q.now.name tick s.old }
    requires tick_limit { tick < m.now.last }
    ensures overflow { overflow_of result
        ≡ (handlers_at m.now (tick + 1) (snapshot_of tick s.old)).overflow }
    ensures handled { overflow_of result ≡ None
        → IsAfterHandlers m.now q.now.name (tick + 1) (snapshot_of tick s.old) s.new }
    ensures room { vec_capacity s.new.rows ≡ vec_capacity s.old.rows }
{
    let next = tick + 1;
    s.work.begin(next);
    compute_arrival_states(&s.parts.integrators, next, &mut s.work)?;
    s.truths.current.copy_from_slice(&s.truths.after_handlers);
    read_crossings_on_arrival(m, &mut s.parts, next, &mut s.truths.current);
    fire_clauses_on_arrival(m, &s.truths, &mut s.work)
}

// Sends the assignments of the handlers, then makes the transitions of integrators, then those of
// functions, and computes the truth values of the conditions. The error is the variable that
// overflows.
#[tactic(none)]
fn update_components(m: &Machine, q: &Quantizer, tick: u64, s: &mut Store) -> Result<(), Over>
    requires named { IsNamed q.now.name }
    requires handled { (w : Snapshot) × IsAfterHandlers m.now q.now.name tick w s.old }
    ensures stepped { (w : Snapshot) → IsAfterHandlers m.now q.now.name tick w s.old
        → IsStep (IsAllowedLevel q.now.name) m.now tick w
        (snapshot_unless (overflow_of result) (snapshot_of tick s.new)) }
    ensures rows { (w : Snapshot) → IsAfterHandlers m.now q.now.name tick w s.old
        → overflow_of result ≡ None
        → s.new.rows.items ≡ tick_rows m.now tick w (snapshot_of tick s.new) }
    ensures represents_snapshot { overflow_of result ≡ None
        → StoreRepresents m.now q.now.name tick s.new }
    ensures room { vec_capacity s.new.rows ≡ vec_capacity s.old.rows }
{
    send_assigned_messages(m, &mut s.parts, tick, &s.work);
    list_handler_rows(&s.work, &mut s.rows);
    send_integrator_level_messages(m, &mut s.parts, tick, &mut s.rows)?;
    send_slope_messages(m, &mut s.parts, tick)?;
    settle_arrival_truths(&s.parts.crossings, &mut s.truths);
    Ok(())
}

// Lists the rows of the handlers as the first rows of the tick.
fn list_handler_rows(work: &Work, rows: &mut Vec<Row>)
    requires { length work.now.log ≤ vec_capacity rows.old }
    ensures rows { rows.new.items ≡ work.now.log }
    ensures room { vec_capacity rows.new ≡ vec_capacity rows.old }
{
    rows.clear();
    for row in work.log.as_slice() {
        rows.push_reserved(*row);
    }
}

// The end rows, with the states at the last tick.
fn set_rows_at_end(m: &Machine, q: &Quantizer, s: &mut Store)
    requires { StoreRepresents m.now q.now.name m.now.last s.old }
    ensures rows { s.new.rows.items ≡ snapshot_rows kind.End m.now.last (snapshot_of m.now.last s.old) }
    ensures snapshot { snapshot_of m.now.last s.new ≡ snapshot_of m.now.last s.old }
{
    set_snapshot_rows(
        RowKind::End,
        m.last,
        &s.parts.integrators,
        handler_discretes(&s.work),
        &mut s.rows,
    );
}

/// The rows of all states and discrete variables, at the start or at the end.
pub(crate) fn set_snapshot_rows(
    kind: RowKind,
    tick: u64,
    integrators: &[IntegratorModel],
    d: &[i64],
    rows: &mut Vec<Row>,
)
    requires count_limit { length integrators.now + length d.now ≤ variable_limit }
    requires not_later { All (λ i. i.line.tick ≤ tick) integrators.now }
    requires tick_limit { tick < tick_limit }
    requires room { length integrators.now + length d.now ≤ vec_capacity rows.old }
    ensures rows { rows.new.items ≡ state_rows kind tick
        (map (λ i. i.line.level) integrators.now) (map (λ i. state_at i.line tick) integrators.now)
        ++ discrete_rows kind tick (length integrators.now) d.now }
    ensures room { vec_capacity rows.new ≡ vec_capacity rows.old }
{
    rows.clear();
    add_component_rows(kind, tick, integrators, rows);
    add_event_discrete_rows(kind, tick, integrators.len(), d, rows);
}

// Appends a row for each state.
fn add_component_rows(
    kind: RowKind,
    tick: u64,
    integrators: &[IntegratorModel],
    rows: &mut Vec<Row>,
)
    requires count_limit { length integrators.now ≤ variable_limit }
    requires not_later { All (λ i. i.line.tick ≤ tick) integrators.now }
    requires tick_limit { tick < tick_limit }
    requires room { vec_len rows.old + length integrators.now ≤ vec_capacity rows.old }
    ensures rows { rows.new.items ≡ rows.old.items ++ state_rows kind tick
        (map (λ i. i.line.level) integrators.now)
        (map (λ i. state_at i.line tick) integrators.now) }
    ensures count { vec_len rows.new ≡ vec_len rows.old + length integrators.now }
    ensures room { vec_capacity rows.new ≡ vec_capacity rows.old }
{
    for j in 0..integrators.len() {
        rows.push_reserved(component_state_row(kind, tick, j as u32, &integrators[j]));
    }
}

// The row of a state at a tick.
fn component_state_row(kind: RowKind, tick: u64, var: u32, integrator: &IntegratorModel) -> Row
    requires not_later { integrator.now.line.tick ≤ tick }
    requires tick_limit { tick < tick_limit }
    ensures { result ≡ record {
      tick = tick;
      kind = kind;
      var = var;
      level = integrator.now.line.level;
      state = state_at integrator.now.line tick;
    } }
{
    let state = integrator.line.value_at(tick);
    let level = integrator.line.level;
    Row {
        tick,
        kind,
        var,
        level,
        state,
    }
}

// The discrete values that handlers read and write.
fn handler_discretes(work: &Work) -> &[i64]
    ensures { result.now ≡ work.now.d }
{
    &work.d
}
