//! The inputs of a function: the variables that its row reads, with their current values.

ghost use Rattle.std.specs.Prelude.{◌≡◌, ◌≢◌, ◌<◌, ◌&&◌, ◌==◌, if◌then◌else◌, ℕ, length, All, slice_index_or, MatchOption};
ghost use Rattle.qss_components.specs.Prelude.{IsLevel, row_at, row_reads};
ghost use Rattle.qss_components.specs.FunctionInputs.{input_value, input_levels, input_discretes, AreValued, AreInputs};
ghost use Rattle.qss_components.specs.Functions.{levels_after_message, discretes_after_message};
ghost use Rattle.qss_components.specs.Messages.{IsMessage};

use crate::atomic::Message;
use qss_machine::Machine;

/// A variable that a row reads, with its current value.
#[derive(Clone, Copy)]
pub struct FunctionInput {
    /// The variable's number. States come first, then discrete variables.
    pub var: u32,
    /// Its coefficient in the row, in units of 2^-p. It is 0 if the variable is only in products.
    pub coef: i64,
    /// The level of the state or the discrete value, in units of 2^-f.
    pub value: i64,
}

/// Sets the level or the discrete value of a message, if the row reads the variable.
pub(crate) fn receive_input(m: &Machine, row: u32, inputs: &mut [FunctionInput], msg: Message)
    requires message { IsMessage m.now msg }
    requires inputs { AreInputs m.now row inputs.old }
    ensures inputs { AreInputs m.now row inputs.new }
    ensures levels { input_levels m.now inputs.new
        ≡ levels_after_message m.now row (input_levels m.now inputs.old) msg }
    ensures discretes { input_discretes m.now inputs.new
        ≡ discretes_after_message m.now row (input_discretes m.now inputs.old) msg }
{
    match msg {
        Message::Level { var, level } => set_input_value(m, row, inputs, var, level as i64),
        Message::Discrete { var, value } => set_input_value(m, row, inputs, var, value),
        Message::Slope { .. } | Message::State { .. } | Message::Truth { .. } => {}
    }
}

/// The value of a variable, or 0 if it is not an input.
pub(crate) fn value_of_input(inputs: &[FunctionInput], var: u32) -> i64
    requires { AreValued inputs.now }
    ensures value { result ≡ input_value inputs.now var }
    ensures bound { IsLevel result }
{
    match find_input_place(inputs, var) {
        Some(place) => inputs[place].value,
        None => 0,
    }
}

// Sets the value of a variable, if the row reads it.
fn set_input_value(m: &Machine, row: u32, inputs: &mut [FunctionInput], var: u32, value: i64)
    requires inputs { AreInputs m.now row inputs.old }
    requires value { IsLevel value }
    ensures inputs { AreInputs m.now row inputs.new }
    ensures values { (i : ℕ) → input_value inputs.new i
        ≡ (if row_reads var (row_at m.now row) && i == var then value
        else input_value inputs.old i) }
{
    if let Some(place) = find_input_place(inputs, var) {
        inputs[place] = with_function_value(inputs[place], value);
    }
}

// The index of the input of a variable, if there is one.
fn find_input_place(inputs: &[FunctionInput], var: u32) -> Option<usize>
    requires { AreValued inputs.now }
    ensures { MatchOption result (All (λ input. input.var ≢ var) inputs.now)
        (λ place. (place < length inputs.now) × ((d : FunctionInput)
        → (slice_index_or inputs.now place d).var ≡ var)) }
{
    match inputs.binary_search_by_key(&var, |input| input.var) {
        Ok(place) => Some(place),
        Err(_) => None,
    }
}

// An input with another value.
fn with_function_value(input: FunctionInput, value: i64) -> FunctionInput
    ensures { result ≡ record input { value = value } }
{
    FunctionInput { value, ..input }
}
