//! Integrators by their numbers: their messages, their transitions, and the least tick of their
//! next transitions.

ghost use Rattle.std.specs.Prelude.{◌≡◌, ◌<◌, ◌≤◌, ℕ, length, All, List, Option, Some, None, slice_index_or, slice_set};
ghost use Rattle.qss_components.specs.Prelude.{Rule};
ghost use Rattle.qss_components.specs.ComponentModels.{IsGivenLine};
ghost use Rattle.qss_components.specs.ComponentPlaces.{EachAt};
ghost use Rattle.qss_components.specs.Integrators.{IsLineNext};
ghost use Rattle.qss_components.specs.Messages.{IsMessage, IsTimely};
ghost use Rattle.qss_components.specs.Transitions.{IsTransitionMade};

use crate::atomic::{Atomic, Message, Transition, least_advance, make_transition};
use crate::integrator_model::IntegratorModel;
use qss_machine::Machine;

/// Sends a message to the integrator with this number. All integrators belong to the machine. The
/// tick is below 2^32, and for no integrator before its last transition or after its next one.
pub fn send_to_integrator_model(
    m: &Machine,
    integrators: &mut [IntegratorModel],
    var: u32,
    tick: u64,
    msg: Message,
)
    requires known { var < length integrators.old }
    requires machine { All (λ i. i.machine.value ≡ m.now) integrators.old }
    requires timely { All (λ i. IsTimely i.line.tick
        (IsLineNext i.machine.value i.var i.line) tick) integrators.old }
    requires message { IsMessage m.now msg }
    ensures { (t : _) × (integrators.new ≡ slice_set integrators.old var t)
        × IsGivenLine (slice_index_or integrators.old var t) tick msg t }
{
    integrators[var as usize].external(tick, msg);
}

/// Makes the transition of the integrator with this number at a tick, if it is due, unless its
/// level exceeds its limit. The rules have names.
pub fn make_integrator_transition(
    integrators: &mut [IntegratorModel],
    var: u32,
    tick: u64,
) -> Transition
    requires known { var < length integrators.old }
    requires named { (rule : Rule)
        × All (λ i. i.quantizer.value.name ≡ Some rule) integrators.old }
    ensures { (t : _) × (integrators.new ≡ slice_set integrators.old var t)
        × IsTransitionMade (slice_index_or integrators.old var t) tick result t }
{
    make_transition(&mut integrators[var as usize], tick)
}

/// The least tick of the next transitions of integrators, or `until` if none is earlier.
pub fn least_integrator_leaving(integrators: &[IntegratorModel], until: u64) -> u64
    ensures within { result ≤ until }
    ensures not_past { All (λ i. (next : ℕ)
        → IsLineNext i.machine.value i.var i.line (Some next) → result ≤ next) integrators.now }
    ensures later { (tick : ℕ) → tick < until
        → All (λ i. (next : ℕ) → IsLineNext i.machine.value i.var i.line (Some next)
        → tick < next) integrators.now → tick < result }
    ensures dues { (dues : List (Option ℕ)) × (length dues ≡ length integrators.now)
        × EachAt (λ place i. IsLineNext i.machine.value i.var i.line
        (slice_index_or dues place None)) integrators.now }
{
    least_advance(integrators, until)
}
