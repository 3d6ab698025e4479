//! Quantized integrators: the states of a machine as components. An integrator moves along a line
//! and sends its new level when it leaves its quantum.

ghost use Rattle.std.specs.Prelude.{◌≡◌, ◌<◌, ◌≤◌, ◌-ℤ◌, ◌*ℤ◌, ℕ, Option, Some, pos, unsigned_abs, int_lt};
ghost use Rattle.qss_components.specs.Prelude.{IsWithin, IsPositiveWithin, IsWithinOneLevel, IsLevel, IsQuantum, IsState, IsSlope, state_count, level_unit, is_within_quantum, state_at, IsAnswer};
ghost use Rattle.qss_components.specs.Integrators.{IsLineNext, line_moved, line_told};
ghost use Rattle.qss_components.specs.Messages.{IsMessage, IsTimely};

use crate::atomic::{Atomic, Message};
use qss_events::{event_tick_leaving_level, requantize_level};
use qss_machine::Machine;
use qss_quant::{Integrator, LevelRule, Quantizer, levels_in_units};
use std::rc::Rc;

/// A state of a machine as a component (quantized integrator; Kofman and Junco 2001). It moves
/// along a line, and sends a new level when it is a quantum away from its level.
#[derive(Drop)]
pub struct IntegratorModel {
    pub machine: Rc<Machine>,
    pub quantizer: Rc<Quantizer>,
    /// The number of the state.
    pub var: u32,
    pub line: Integrator,
    pub ghost known: { var < state_count machine.value },
}

impl IntegratorModel {
    // Its line at a tick that is not after its next transition.
    fn moved(&self, tick: u64) -> Integrator
        requires { IsTimely self.now.line.tick
            (IsLineNext self.now.machine.value self.now.var self.now.line) tick }
        ensures { result ≡ line_moved self.now.line tick }
    {
        let line = &self.line;
        let slope = line.slope;
        let x = line.value_at(tick);
        Integrator {
            tick,
            x,
            slope,
            level: line.level,
        }
    }

    // Its line after a message.
    fn apply_message(&self, line: Integrator, msg: Message) -> Integrator
        requires { IsMessage self.now.machine.value msg }
        ensures { result ≡ line_told self.now.var line msg }
    {
        match msg {
            Message::Slope { var, slope } => {
                if var == self.var {
                    line_with_slope(line, slope)
                } else {
                    line
                }
            }
            Message::State { var, state } => {
                if var == self.var {
                    line_with_state(line, state)
                } else {
                    line
                }
            }
            Message::Level { .. } | Message::Discrete { .. } | Message::Truth { .. } => line,
        }
    }

    // Its line after it takes a level at the tick of its next transition. It leaves the new quantum
    // later.
    fn taken(&self, tick: u64, level: i128) -> Integrator
        requires next { IsLineNext self.now.machine.value self.now.var self.now.line (Some tick) }
        requires close { IsWithinOneLevel (level_unit self.now.machine.value) (state_at self.now.line tick)
            self.now.line.level level }
        requires size_limit { IsLevel level }
        ensures taken { result ≡ record {
          tick = tick;
          x = state_at self.now.line tick;
          slope = self.now.line.slope;
          level = level;
        } }
        ensures later { (next : ℕ)
            → IsLineNext self.now.machine.value self.now.var result (Some next) → tick < next }
    {
        let line = &self.line;
        let slope = line.slope;
        let state = line.value_at(tick);
        Integrator {
            tick,
            x: state,
            slope,
            level: level as i64,
        }
    }
}

impl Atomic for IntegratorModel {
    ghost use Rattle.std.specs.Prelude.{◌≡◌, ℕ, ◌<◌, Option, Some};
    ghost use Rattle.qss_components.specs.Integrators.{IsLineNext, SendsLevel, TakesLevel, line_after_message};

    ghost part_of = { λ i. i.machine.value };

    ghost own_tick = { λ i. i.line.tick };

    ghost is_next = { λ i next. IsLineNext i.machine.value i.var i.line next };

    ghost sends = { λ i tick sent.
        SendsLevel i.machine.value i.quantizer.value.name
        (λ state old unit new. LevelRule.post i.quantizer.value.rule state old unit new)
        i.var i.line tick sent };

    ghost turns = { λ i tick sent j. (j.machine.value ≡ i.machine.value)
        × (j.quantizer.value ≡ i.quantizer.value) × (j.var ≡ i.var)
        × TakesLevel i.var i.line tick sent j.line };

    ghost has_small = { λ i tick. Unit {0} };

    ghost given = { λ i tick message j. (j.machine.value ≡ i.machine.value)
        × (j.quantizer.value ≡ i.quantizer.value) × (j.var ≡ i.var)
        × (j.line ≡ line_after_message i.var i.line tick message) };

    fn advance(&self) -> Option<u64> {
        next_transition_tick(&self.machine, self.var, &self.line)
    }

    fn output(&self) -> Option<Message> {
        let tick = self.advance()?;
        let level = level_on_leaving(&self.machine, &self.quantizer, self.var, &self.line, tick);
        Some(Message::Level {
            var: self.var,
            level,
        })
    }

    fn internal(&mut self) {
        if let Some(tick) = self.advance() {
            let level = level_on_leaving(
                &self.machine,
                &self.quantizer,
                self.var,
                &self.line,
                tick,
            );
            self.line = self.taken(tick, level);
        }
    }

    fn external(&mut self, tick: u64, msg: Message) {
        let line = self.moved(tick);
        self.line = self.apply_message(line, msg);
    }
}

// The line with another slope.
fn line_with_slope(line: Integrator, slope: i128) -> Integrator
    requires { IsSlope slope }
    ensures { result ≡ record line { slope = slope } }
{
    Integrator { slope, ..line }
}

// The line with another state.
fn line_with_state(line: Integrator, state: i128) -> Integrator
    requires { IsState state }
    ensures { result ≡ record line { x = state } }
{
    Integrator { x: state, ..line }
}

// The tick of the next transition of a state's line.
fn next_transition_tick(m: &Machine, var: u32, line: &Integrator) -> Option<u64>
    requires { var < state_count m.now }
    ensures next { IsLineNext m.now var line.now result }
    ensures only { (next : Option ℕ) → IsLineNext m.now var line.now next → next ≡ result }
{
    if is_inside_own_quantum(m, var, line.x, line.level) {
        event_tick_leaving_level(m, var, line)
    } else {
        Some(line.tick)
    }
}

// Whether a state is less than its quantum away from its level.
fn is_inside_own_quantum(m: &Machine, var: u32, x: i128, level: i64) -> bool
    requires known { var < state_count m.now }
    requires state { IsWithin 89 x }
    requires level { IsLevel level }
    ensures { result ≡ is_within_quantum m.now var x level }
{
    is_inside_quantum(x, level, m.quantum_at(var, level), m.level_unit())
}

// Whether a state is less than `quantum` levels away from a level.
fn is_inside_quantum(x: i128, level: i64, quantum: i64, unit: i128) -> bool
    requires state { IsWithin 89 x }
    requires level { IsLevel level }
    requires quantum { IsQuantum quantum }
    requires unit { IsPositiveWithin 44 unit }
    ensures { result ≡ int_lt (pos (unsigned_abs (x -ℤ unit *ℤ level))) (unit *ℤ quantum) }
{
    let place = levels_in_units(level, unit);
    let limit = levels_in_units(quantum, unit);
    distance_from_level(x, place) < limit
}

// The distance of a state from its level, in units of a state.
fn distance_from_level(x: i128, level: i128) -> i128
    requires state { IsWithin 89 x }
    requires level { IsWithin 87 level }
    ensures { result ≡ pos (unsigned_abs (x -ℤ level)) }
{
    (x - level).abs()
}

// A level that the rule returns for a state at the tick at which it leaves its quantum.
fn level_on_leaving(m: &Machine, q: &Quantizer, var: u32, line: &Integrator, tick: u64) -> i128
    requires known { var < state_count m.now }
    requires next { IsLineNext m.now var line.now (Some tick) }
    ensures allowed { IsAnswer q.now.name (state_at line.now tick) line.now.level
        (level_unit m.now) result }
    ensures ruled { LevelRule.post q.now.rule (state_at line.now tick) line.now.level
        (level_unit m.now) result }
{
    let level = line.level;
    let x = line.value_at(tick);
    requantize_level(m, q, var, x, level, m.level_unit())
}
