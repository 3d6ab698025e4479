//! The contexts that are passed to the parts of an event step.

use qss_hand::Work;
use qss_machine::{Machine, Uses};

/// A machine and its discrete values, which determine the coefficients of each row in the current
/// mode.
#[derive(Clone, Copy)]
pub(crate) struct Mode<'a> {
    pub machine: &'a Machine,
    pub discretes: &'a [i64],
}

/// A machine at a tick at which states take new levels. `uses`: the rows and conditions that read
/// each variable. `moved`: the indices of the states that move, increasing. `levels`: the new
/// levels of all states, in units of 2^-f and at most 2^43 in absolute value.
#[derive(Clone, Copy)]
pub(crate) struct NewLevels<'a> {
    pub machine: &'a Machine,
    pub uses: &'a Uses,
    pub tick: u64,
    pub moved: &'a [u32],
    pub levels: &'a [i64],
}

/// The result of the handlers of a tick. `assigned`: the indices of the assigned discrete
/// variables, counted after the states. `states`: in units of 2^-(f+p+k) and at most 2^88 in
/// absolute value, valid only for the moved states. `before` and `discretes`: the discrete values
/// before and after the handlers, in units of 2^-f and at most 2^43 in absolute value.
#[derive(Clone, Copy)]
pub(crate) struct HandlerResult<'a> {
    pub assigned: &'a [u32],
    pub states: &'a [i128],
    pub before: &'a [i64],
    pub discretes: &'a [i64],
}

/// New levels at a tick after its handlers, the result of the handlers, and the slopes of all
/// states from this tick on. Slopes are in units of 2^-(f+p+k) per tick and at most 2^88 in
/// absolute value.
#[derive(Clone, Copy)]
pub(crate) struct NewSlopes<'a> {
    pub event: NewLevels<'a>,
    pub handled: HandlerResult<'a>,
    pub slopes: &'a [i128],
}

/// A machine at a tick below 2^32 after its handlers: the rows and conditions that read each
/// variable, and the indices of the states that move (increasing) and of the assigned discrete
/// variables, counted after the states. `work`: the values after the handlers. The states among
/// these values are valid only for the moved states.
#[derive(Clone, Copy)]
pub struct HandlerArrival<'a> {
    pub machine: &'a Machine,
    pub uses: &'a Uses,
    pub tick: u64,
    pub moved: &'a [u32],
    pub assigned: &'a [u32],
    pub work: &'a Work,
}

/// A machine at a tick at which states have moved: their indices (increasing), and the states,
/// valid only for the moved ones. `joined`: whether a moved state may be within its quantum, as a
/// reinitialized state may be. If not, each of them has left its quantum.
#[derive(Clone, Copy)]
pub(crate) struct Arrival<'a> {
    pub machine: &'a Machine,
    pub tick: u64,
    pub moved: &'a [u32],
    pub states: &'a [i128],
    pub joined: bool,
}

impl<'a> HandlerArrival<'a> {
    ghost use Rattle.qss_states.specs.EventContexts.{IsResultOf};

    /// The result of the handlers.
    pub(crate) fn handler_result(&self) -> HandlerResult<'a>
        ensures { IsResultOf self.now result }
    {
        let work = self.work;
        HandlerResult {
            assigned: self.assigned,
            states: work.x.as_slice(),
            before: work.pre.as_slice(),
            discretes: work.d.as_slice(),
        }
    }
}
