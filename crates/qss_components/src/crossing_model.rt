//! Crossings: the conditions of a machine as components. A crossing stores the inputs of its form
//! with their lines, and detects the ticks at which its condition changes.

ghost use Rattle.std.specs.Prelude.{◌≡◌, ◌<◌, ◌+◌, ◌^◌, ◌||◌, ◌==◌, ◌*◌, ◌≤◌, ◌*ℤ◌, ℕ, map, All, Some, unsigned_abs, sum_by};
ghost use Rattle.qss_components.specs.Prelude.{IsWithin, state_count, discrete_count, level_unit, value_at, IsSmall, sum_over, tick_limit, IsState, IsSlope};
ghost use Rattle.qss_components.specs.Crossings.{IsCrossingNext, input_at, input_after_message, form_at, speed_by, IsInput, StaysIfDiscrete, AreParts, entry_of};
ghost use Rattle.qss_components.specs.Messages.{IsMessage};

use crate::atomic::{Atomic, Message};
use qss_cross::Detector;
use qss_machine::{
    Machine, add_form_parts, form_constant_part, form_time_part, multiply_form_coefficient,
    scale_discrete_value,
};
use std::rc::Rc;

/// A condition as a component. It reads the states, slopes and discrete values of its form, and
/// sends its truth value when that changes.
#[derive(Drop)]
pub struct CrossingModel {
    pub machine: Rc<Machine>,
    /// The number of the condition, in source order.
    pub place: u32,
    /// The zero-crossing detector of its form, in units of 2^-(f+2p+k).
    pub detector: Detector,
    /// The entries of its form, with the lines of their variables.
    pub inputs: Vec<Input>,
    /// The coefficient of time, in units of 2^-p.
    pub time: i64,
    /// The constant, in units of 2^-(f+p).
    pub gamma: i128,
    pub ghost lines: { All (IsInput detector.tick) inputs.items },
    pub ghost stays: { All (StaysIfDiscrete (state_count machine.value)) inputs.items },
    pub ghost parts: { AreParts inputs.items time gamma },
}

impl Atomic for CrossingModel {
    ghost use Rattle.std.specs.Prelude.{◌≡◌, ℕ, Option, Some};
    ghost use Rattle.qss_components.specs.Prelude.{holds_at};
    ghost use Rattle.qss_components.specs.Words.{crossing_of, IsCrossingNext, crossing_after_transition, crossing_after_message, AreSmallAt, Truth};

    ghost part_of = { λ c. c.machine.value };

    ghost own_tick = { λ c. c.detector.tick };

    ghost is_next = { λ c next. IsCrossingNext c.detector next };

    ghost sends = { λ c tick sent. sent ≡ Truth c.place (holds_at c.detector tick) };

    ghost turns = { λ c tick sent d. (d.machine.value ≡ c.machine.value)
        × (crossing_of d ≡ crossing_after_transition (crossing_of c) tick) };

    ghost has_small = { λ c tick. AreSmallAt c.machine.value c.inputs.items tick };

    ghost given = { λ c tick message d. (d.machine.value ≡ c.machine.value)
        × (crossing_of d ≡ crossing_after_message c.machine.value (crossing_of c) tick message) };

    fn advance(&self) -> Option<u64> {
        self.detector.next_change()
    }

    fn output(&self) -> Option<Message> {
        self.advance()?;
        Some(Message::Truth {
            condition: self.place,
            now: !self.detector.truth(),
        })
    }

    fn internal(&mut self) {
        if let Some(tick) = self.advance() {
            self.detector = crossing_detector_at_change(&self.detector, tick);
        }
    }

    fn external(&mut self, tick: u64, msg: Message) {
        update_crossing_inputs(&self.machine, self.inputs.as_mut_slice(), tick, msg);
        self.detector = crossing_detector_of(
            &self.machine,
            &self.detector,
            self.inputs.as_slice(),
            self.time,
            self.gamma,
            tick,
        );
    }
}

/// An entry of a form, with the line of its variable.
#[derive(Clone, Copy)]
pub struct Input {
    /// The number of the variable: states, then discrete variables, then their values before the
    /// tick.
    pub var: u32,
    /// The coefficient, in units of 2^-p.
    pub coef: i64,
    /// The first tick of the line.
    pub tick: u64,
    /// The value at that tick, in units of a state.
    pub at: i128,
    /// The increment of the value per tick.
    pub speed: i128,
}

// A detector moved to the tick at which its truth value changes. Its next change is later.
fn crossing_detector_at_change(detector: &Detector, tick: u64) -> Detector
    requires { IsCrossingNext detector.now (Some tick) }
    ensures moved { result
        ≡ record detector.now { tick = tick; value = value_at detector.now tick } }
    ensures later { (next : ℕ) → IsCrossingNext result (Some next) → tick < next }
{
    let _ = &detector.speed;
    let mut next = *detector;
    next.move_to(tick);
    next
}

// Updates all inputs by a message.
fn update_crossing_inputs(m: &Machine, inputs: &mut [Input], tick: u64, msg: Message)
    requires lines { All (IsInput tick) inputs.old }
    requires tick_limit { tick < tick_limit }
    requires message { IsMessage m.now msg }
    ensures { inputs.new ≡ map (input_after_message m.now tick msg) inputs.old }
{
    for k in 0..inputs.len() {
        inputs[k] = crossing_input_after_message(m, inputs[k], tick, msg);
    }
}

// An input after a message.
fn crossing_input_after_message(m: &Machine, input: Input, tick: u64, msg: Message) -> Input
    requires line { IsInput tick input }
    requires tick_limit { tick < tick_limit }
    requires message { IsMessage m.now msg }
    ensures { result ≡ input_after_message m.now tick msg input }
{
    match msg {
        Message::Slope { var, slope } => {
            if input.var == var {
                begin_crossing_input(input, tick, crossing_input_at(input, tick), slope)
            } else {
                input
            }
        }
        Message::State { var, state } => {
            if input.var == var {
                begin_crossing_input(input, tick, state, input.speed)
            } else {
                input
            }
        }
        Message::Discrete { var, value } => {
            if is_crossing_input_of(m, input.var, var) {
                begin_crossing_input(input, tick, scale_discrete_value(value, m.p + m.k), 0)
            } else {
                input
            }
        }
        Message::Level { .. } | Message::Truth { .. } => input,
    }
}

// An input whose line starts at a tick with this value and this increment per tick.
fn begin_crossing_input(input: Input, tick: u64, at: i128, speed: i128) -> Input
    ensures { result ≡ record input { tick = tick; at = at; speed = speed } }
{
    Input {
        tick,
        at,
        speed,
        ..input
    }
}

/// The value of an input at a tick.
pub(crate) fn crossing_input_at(input: Input, tick: u64) -> i128
    requires line { IsInput tick input }
    requires tick_limit { tick < tick_limit }
    ensures { result ≡ input_at tick input }
{
    input.at + i128::from(tick - input.tick) * input.speed
}

// Whether an input reads a discrete variable, or its value before the tick.
fn is_crossing_input_of(m: &Machine, input: u32, var: u32) -> bool
    ensures { result ≡ (input == var || input == var + discrete_count m.now) }
{
    input == var || input as usize == var as usize + m.discretes.as_slice().len()
}

/// The detector of a form with these inputs, at a tick below 2^32: the form's value and its
/// increment per tick, in units of 2^-(f+2p+k). The comparison is that of `detector`. The inputs
/// are within 2^88 at the tick.
pub fn crossing_detector_of(
    m: &Machine,
    detector: &Detector,
    inputs: &[Input],
    time: i64,
    gamma: i128,
    tick: u64,
) -> Detector
    requires parts { AreParts inputs.now time gamma }
    requires lines { All (IsInput tick) inputs.now }
    requires size_limit { All (λ i. IsState (input_at tick i)) inputs.now }
    requires tick_limit { tick < tick_limit }
    ensures { result ≡ record {
      rel = detector.now.rel;
      tick = tick;
      value = form_at m.now inputs.now time gamma tick;
      speed = speed_by m.now inputs.now time;
    } }
{
    let value = crossing_form_at(m, inputs, time, gamma, tick);
    let speed = crossing_speed_by(m, inputs, time);
    Detector {
        rel: detector.rel,
        tick,
        value,
        speed,
    }
}

/// The value at a tick of a form with these inputs, in units of 2^-(f+2p+k).
pub(crate) fn crossing_form_at(
    m: &Machine,
    inputs: &[Input],
    time: i64,
    gamma: i128,
    tick: u64,
) -> i128
    requires parts { AreParts inputs.now time gamma }
    requires lines { All (IsInput tick) inputs.now }
    requires size_limit { All (λ i. IsState (input_at tick i)) inputs.now }
    requires tick_limit { tick < tick_limit }
    ensures value { result ≡ form_at m.now inputs.now time gamma tick }
    ensures bound { IsSmall result }
{
    let own = crossing_value_sum(inputs, tick);
    let moved = form_time_part(time, tick, m.f + m.p);
    let fixed = form_constant_part(gamma, m.p + m.k);
    add_form_parts(own, moved, fixed)
}

// The sum of all coefficients times the values of the inputs at a tick.
fn crossing_value_sum(inputs: &[Input], tick: u64) -> i128
    requires coefficients { sum_by (λ i. unsigned_abs i.coef) inputs.now ≤ 2 ^ 38 }
    requires lines { All (IsInput tick) inputs.now }
    requires tick_limit { tick < tick_limit }
    requires size_limit { All (λ i. IsState (input_at tick i)) inputs.now }
    ensures value { result ≡ sum_over (λ i. i.coef *ℤ input_at tick i) inputs.now }
    ensures bound { unsigned_abs result ≤ sum_by (λ i. unsigned_abs i.coef) inputs.now * 2 ^ 88 }
{
    let mut sum: i128 = 0;
    for input in inputs {
        sum += crossing_value_part(*input, tick);
    }
    sum
}

// The coefficient of an input times its value at a tick.
fn crossing_value_part(input: Input, tick: u64) -> i128
    requires coef { IsWithin 38 input.coef }
    requires line { IsInput tick input }
    requires tick_limit { tick < tick_limit }
    requires size_limit { IsState (input_at tick input) }
    ensures value { result ≡ input.coef *ℤ input_at tick input }
    ensures bound { unsigned_abs result ≤ unsigned_abs input.coef * 2 ^ 88 }
{
    multiply_form_coefficient(input.coef, crossing_input_at(input, tick))
}

/// The increment of the form per tick.
pub(crate) fn crossing_speed_by(m: &Machine, inputs: &[Input], time: i64) -> i128
    requires parts { sum_by (λ entry. unsigned_abs entry.coef) (map entry_of inputs.now)
        + unsigned_abs time ≤ 2 ^ 38 }
    requires slow { All (λ i. IsSlope i.speed) inputs.now }
    ensures value { result ≡ speed_by m.now inputs.now time }
    ensures bound { IsSmall result }
{
    let own = crossing_speed_sum(inputs);
    let moved = form_time_part(time, 1, m.f + m.p);
    add_form_parts(own, moved, 0)
}

// The sum of all coefficients times the increments of the inputs per tick.
fn crossing_speed_sum(inputs: &[Input]) -> i128
    requires coefficients { sum_by (λ i. unsigned_abs i.coef) inputs.now ≤ 2 ^ 38 }
    requires slow { All (λ i. IsSlope i.speed) inputs.now }
    ensures value { result ≡ sum_over (λ i. i.coef *ℤ i.speed) inputs.now }
    ensures bound { unsigned_abs result ≤ sum_by (λ i. unsigned_abs i.coef) inputs.now * 2 ^ 88 }
{
    let mut sum: i128 = 0;
    for input in inputs {
        sum += crossing_speed_part(*input);
    }
    sum
}

// The coefficient of an input times its increment per tick.
fn crossing_speed_part(input: Input) -> i128
    requires coef { IsWithin 38 input.coef }
    requires slow { IsSlope input.speed }
    ensures value { result ≡ input.coef *ℤ input.speed }
    ensures bound { unsigned_abs result ≤ unsigned_abs input.coef * 2 ^ 88 }
{
    multiply_form_coefficient(input.coef, input.speed)
}
