//! The states and the truth values of conditions on arrival at a tick, and the truth values after
//! the handlers of the tick.

ghost use Rattle.std.specs.Prelude.{◌≡◌, ◌<◌, ◌≤◌, ℕ, Bool, length, map, All, Some, slice_index_or};
ghost use Rattle.qss_devs.specs.Prelude.{compares, first_exceeding, conditions, flag_at, variable_limit, tick_limit, bits_of_state, state_at, holds_at, IsTimely, CrossingModel, Truth, IsCrossingNext, Values, overflow_of};
ghost use Rattle.qss_devs.specs.CoupledEvents.{CrossingsLater};
ghost use Rattle.qss_devs.specs.CoupledSteps.{Agrees};
ghost use Rattle.qss_devs.specs.Coupling.{crossing_at, AreComponents, IsReadAt};
ghost use Rattle.qss_devs.specs.Flags.{HaveFlags};

use crate::coupled_messages::Components;
use crate::coupled_start::Truths;
use mu_num::{STATE_BITS, exceeds_power_of_two};
use qss_components::{Atomic, CrossingModel, IntegratorModel, Message, is_due};
use qss_hand::{Over, Work};
use qss_machine::Machine;

/// Computes the states of all lines at a tick, on which the handlers work. The error is the first
/// state that exceeds its limit.
pub(crate) fn compute_arrival_states(
    integrators: &[IntegratorModel],
    tick: u64,
    work: &mut Work,
) -> Result<(), Over>
    requires count_limit { length integrators.now ≤ variable_limit }
    requires same_length { length work.old.x ≡ length integrators.now }
    requires not_later { All (λ i. i.line.tick ≤ tick) integrators.now }
    requires tick_limit { tick < tick_limit }
    ensures work { work.new ≡ record work.old {
      x = map (λ i. state_at i.line tick) integrators.now;
    } }
    ensures overflow { overflow_of result
        ≡ first_exceeding bits_of_state (map (λ i. state_at i.line tick) integrators.now) }
{
    fill_arrival_states(integrators, tick, &mut work.x);
    check_arrival_states(&work.x)
}

#[tactic(none)]
/// Computes which conditions hold on arrival. Crossings that are due make their transitions.
pub(crate) fn read_crossings_on_arrival(
    m: &Machine,
    parts: &mut Components,
    tick: u64,
    now: &mut [bool],
)
    requires parts { AreComponents m.now parts.old }
    requires flags { length now.old ≡ length (conditions m.now) }
    requires tick_limit { tick < tick_limit }
    requires timely { (place : ℕ) → place < length (conditions m.now)
        → IsTimely (crossing_at parts.old place).detector.tick
        (IsCrossingNext (crossing_at parts.old place).detector) tick }
    requires own { (place : ℕ) → place < length (conditions m.now)
        → (crossing_at parts.old place).place ≡ place }
    requires held { (place : ℕ) → place < length (conditions m.now)
        → flag_at now.old place
        ≡ compares (crossing_at parts.old place).detector.rel
        (crossing_at parts.old place).detector.value }
    ensures unchanged { parts.new ≡ record parts.old { crossings = parts.new.crossings } }
    ensures parts { AreComponents m.now parts.new }
    ensures now { (place : ℕ) → place < length (conditions m.now)
        → flag_at now.new place ≡ holds_at (crossing_at parts.old place).detector tick }
    ensures agree { (v : Values) → Agrees m.now tick v parts.old → Agrees m.now tick v parts.new }
    ensures later { CrossingsLater m.now tick (crossing_at parts.new) }
{
    read_all_on_arrival(&mut parts.crossings, tick, now);
}

/// Stores the truth values on arrival and after the handlers.
pub(crate) fn settle_arrival_truths(crossings: &[CrossingModel], truths: &mut Truths)
    requires { HaveFlags (length crossings.now) truths.old }
    ensures current { truths.new.current.items ≡ truths.old.current.items }
    ensures at_arrival { truths.new.at_arrival.items ≡ truths.old.current.items }
    ensures after_handlers { truths.new.after_handlers.items
        ≡ map (λ c. compares c.detector.rel c.detector.value) crossings.now }
{
    truths.at_arrival.copy_from_slice(&truths.current);
    settle_all_arrival_truths(crossings, &mut truths.after_handlers);
}

// Computes the states of all lines at a tick.
fn fill_arrival_states(integrators: &[IntegratorModel], tick: u64, x: &mut [i128])
    requires same_length { length x.old ≡ length integrators.now }
    requires not_later { All (λ i. i.line.tick ≤ tick) integrators.now }
    requires tick_limit { tick < tick_limit }
    ensures { x.new ≡ map (λ i. state_at i.line tick) integrators.now }
{
    for j in 0..integrators.len() {
        x[j] = integrators[j].line.value_at(tick);
    }
}

// The error is the first state that exceeds its limit.
fn check_arrival_states(states: &[i128]) -> Result<(), Over>
    requires { length states.now ≤ variable_limit }
    ensures { overflow_of result ≡ first_exceeding bits_of_state states.now }
{
    for j in 0..states.len() {
        if exceeds_power_of_two(states[j], STATE_BITS) {
            return Err(Over { var: j as u32 });
        }
    }
    Ok(())
}

// Computes which conditions hold on arrival.
fn read_all_on_arrival(crossings: &mut [CrossingModel], tick: u64, now: &mut [bool])
    requires same_length { length now.old ≡ length crossings.old }
    requires timely { All (λ c. IsTimely c.detector.tick (IsCrossingNext c.detector) tick)
        crossings.old }
    requires held { now.old ≡ map (λ c. compares c.detector.rel c.detector.value) crossings.old }
    ensures now { now.new ≡ map (λ c. holds_at c.detector tick) crossings.old }
    ensures read { (place : ℕ) (d : CrossingModel) → place < length crossings.old
        → IsReadAt tick (slice_index_or crossings.old place d)
        (slice_index_or crossings.new place d) }
{
    for place in 0..crossings.len() {
        let held = now[place];
        now[place] = read_crossing_on_arrival(&mut crossings[place], tick, held);
    }
}

// Whether a condition holds on arrival. A crossing that is due makes its transition; otherwise the
// truth value is unchanged.
fn read_crossing_on_arrival(crossing: &mut CrossingModel, tick: u64, held: bool) -> bool
    requires timely { IsTimely crossing.old.detector.tick (IsCrossingNext crossing.old.detector)
        tick }
    requires held { held ≡ compares crossing.old.detector.rel crossing.old.detector.value }
    ensures now { result ≡ holds_at crossing.old.detector tick }
    ensures read { IsReadAt tick crossing.old crossing.new }
{
    if !is_due(crossing, tick) {
        return held;
    }
    let now = message_truth(crossing.output(), held);
    crossing.internal();
    now
}

// The truth value in a crossing's message, or `held` if it sends none.
fn message_truth(msg: Option<Message>, held: bool) -> bool
    ensures { (condition : ℕ) (now : Bool) → msg ≡ Some (Truth condition now) → result ≡ now }
{
    match msg {
        Some(Message::Truth { now, .. }) => now,
        _ => held,
    }
}

// Computes the truth values of all conditions at the ticks of their crossings.
pub(crate) fn settle_all_arrival_truths(crossings: &[CrossingModel], flags: &mut [bool])
    requires { length flags.old ≡ length crossings.now }
    ensures { flags.new ≡ map (λ c. compares c.detector.rel c.detector.value) crossings.now }
{
    for place in 0..crossings.len() {
        flags[place] = crossings[place].detector.truth();
    }
}
