//! Static functions: the right sides of states as components. A function sends its sum when the sum
//! changes.

ghost use Rattle.std.specs.Prelude.{◌≡◌, ◌<◌};
ghost use Rattle.qss_components.specs.Prelude.{state_count};
ghost use Rattle.qss_components.specs.FunctionInputs.{AreInputs, input_levels, input_discretes};
ghost use Rattle.qss_components.specs.Functions.{sum_at, change_by};

use crate::atomic::{Atomic, Message};
use crate::function_inputs::{FunctionInput, receive_input};
use crate::function_sums::slope_at_inputs;
use qss_machine::Machine;
use std::rc::Rc;

/// The right side of a state as a component. It reads levels and discrete values, and sends its sum
/// when that changes. It sends 2^88 + 1 if its mode coefficients or its absolute row sum exceed
/// their limits.
#[derive(Drop)]
pub struct FunctionModel {
    pub machine: Rc<Machine>,
    /// The number of the state.
    pub row: u32,
    /// The tick of its last transition.
    pub tick: u64,
    /// The variables that the row reads, with their current values, sorted by variable.
    pub inputs: Vec<FunctionInput>,
    /// The tick of the first change of the sum since the last message.
    pub changed: Option<u64>,
    pub ghost known: { row < state_count machine.value },
    pub ghost are_inputs: { AreInputs machine.value row inputs.items },
}

impl FunctionModel {
    // The sum at the current inputs.
    fn sum(&self) -> i128
        ensures { result ≡ sum_at self.now.machine.value self.now.row
            (input_levels self.now.machine.value self.now.inputs.items)
            (input_discretes self.now.machine.value self.now.inputs.items) }
    {
        slope_at_inputs(&self.machine, self.row, self.inputs.as_slice())
    }
}

impl Atomic for FunctionModel {
    ghost use Rattle.std.specs.Prelude.{◌≡◌, ℕ, Option, Some};
    ghost use Rattle.qss_components.specs.ComponentModels.{function_state_of};
    ghost use Rattle.qss_components.specs.Functions.{sum_of, summing_sent, function_after_message};
    ghost use Rattle.qss_components.specs.declared.atomic.Message.TheVariants.{Slope};

    ghost part_of = { λ s. s.machine.value };

    ghost own_tick = { λ s. s.tick };

    ghost is_next = { λ s next. s.changed ≡ next };

    ghost sends = { λ s tick sent. sent ≡ Slope s.row (sum_of s.machine.value (function_state_of s)) };

    ghost turns = { λ s tick sent t. (t.machine.value ≡ s.machine.value)
        × (function_state_of t ≡ summing_sent (function_state_of s) tick) };

    ghost has_small = { λ s tick. Unit {0} };

    ghost given = { λ s tick message t. (t.machine.value ≡ s.machine.value)
        × (function_state_of t ≡ function_after_message s.machine.value (function_state_of s) tick message) };

    fn advance(&self) -> Option<u64> {
        self.changed
    }

    fn output(&self) -> Option<Message> {
        self.changed?;
        Some(Message::Slope {
            var: self.row,
            slope: self.sum(),
        })
    }

    fn internal(&mut self) {
        if let Some(tick) = self.changed {
            self.tick = tick;
            self.changed = None;
        }
    }

    fn external(&mut self, tick: u64, msg: Message) {
        let before = self.sum();
        receive_input(&self.machine, self.row, self.inputs.as_mut_slice(), msg);
        self.tick = tick;
        self.changed = function_change_by(self.changed, tick, before, self.sum());
    }
}

// The tick of the first change of a sum that is `before` until this tick and `after` from it on.
fn function_change_by(changed: Option<u64>, tick: u64, before: i128, after: i128) -> Option<u64>
    ensures { result ≡ change_by changed tick before after }
{
    match changed {
        Some(first) => Some(first),
        None => { if before == after { None } else { Some(tick) } }
    }
}
