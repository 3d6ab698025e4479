//! The outcome of a call that advances a run, and what all simulators share at an event. This is
//! the rows of discrete variables and of overflows, and the test whether a condition became true.

ghost use Rattle.std.specs.Prelude.{◌≡◌, ◌+◌, ◌<◌, ◌≤◌, ◌++◌, ◌∷◌, [], length, pos, vec_len, vec_capacity};
ghost use Rattle.qss_events.specs.Prelude.{discrete_rows, list_any, variable_limit, firing_flags};
ghost use Rattle.qss_machine.specs.declared.machine_parts.RowKind.TheVariants as kind;

use qss_machine::{Row, RowKind};

/// The outcome of a call that advances a run to its next event.
#[derive(Clone, Copy, PartialEq, Eq, Debug, Drop)]
pub enum Outcome {
    /// The tick has rows.
    Events { tick: u64 },
    /// No tick up to the last one has further rows. Only the end rows remain.
    Done,
    /// The variable with this index exceeds its limit at the tick.
    Over { tick: u64, var: u32 },
}

impl Outcome {
    ghost use Rattle.std.specs.Prelude.{◌≡◌};
    ghost use Rattle.qss_events.specs.Outcomes.{tick_of, end_of};

    /// The tick of the simulator after a call with this outcome. `last` is the last tick of the
    /// run.
    pub fn tick(self, last: u64) -> u64
        ensures { result ≡ tick_of last self }
    {
        match self {
            Outcome::Events { tick } => tick,
            Outcome::Done => last,
            Outcome::Over { tick, .. } => tick,
        }
    }

    /// The end of the run after a call with this outcome, if the run has ended.
    pub fn end(self) -> Option<Outcome>
        ensures { result ≡ end_of self }
    {
        match self {
            Outcome::Events { .. } => None,
            Outcome::Done | Outcome::Over { .. } => Some(self),
        }
    }
}

/// A tick that a simulator reached, and the index of the variable that overflowed there, if any.
#[derive(Clone, Copy)]
pub struct Visited {
    pub tick: u64,
    pub over: Option<u32>,
}

/// Appends a row of this kind for each discrete variable at a tick. `first` is the index of the
/// first discrete variable.
pub fn add_event_discrete_rows(
    kind: RowKind,
    tick: u64,
    first: usize,
    d: &[i64],
    rows: &mut Vec<Row>,
)
    requires count_limit { first + length d.now ≤ variable_limit }
    requires room { vec_len rows.old + length d.now ≤ vec_capacity rows.old }
    ensures rows { rows.new.items ≡ rows.old.items ++ discrete_rows kind tick first d.now }
    ensures room { vec_capacity rows.new ≡ vec_capacity rows.old }
{
    for g in 0..d.len() {
        rows.push_reserved(Row {
            tick,
            kind,
            var: (first + g) as u32,
            level: d[g],
            state: 0,
        });
    }
}

/// Replaces the rows by the row of a variable that overflows at a tick.
pub fn set_event_overflow_row(tick: u64, var: u32, rows: &mut Vec<Row>)
    requires { 0 < vec_capacity rows.old }
    ensures rows { rows.new.items ≡ record {
      tick = tick;
      kind = kind.Overflow;
      var = var;
      level = pos 0;
      state = pos 0;
    } ∷ [] }
    ensures room { vec_capacity rows.new ≡ vec_capacity rows.old }
{
    rows.clear();
    rows.push_reserved(Row {
        tick,
        kind: RowKind::Overflow,
        var,
        level: 0,
        state: 0,
    });
}

/// Whether some condition became true during the handlers. The lists are the truths on arrival at a
/// tick and after its handlers.
pub fn has_event_condition_risen(at_arrival: &[bool], after_handlers: &[bool]) -> bool
    requires { length at_arrival.now ≡ length after_handlers.now }
    ensures { result ≡ list_any (λ flag. flag) (firing_flags after_handlers.now at_arrival.now after_handlers.now) }
{
    let mut risen = false;
    for place in 0..after_handlers.len() {
        risen |= after_handlers[place] & !at_arrival[place];
    }
    risen
}
