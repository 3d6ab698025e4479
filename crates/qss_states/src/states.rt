//! The states of a machine, and the parts of an event step that change them.

ghost use Rattle.std.specs.Prelude.{◌≡◌, ◌+◌, ◌≤◌, [], None, length, vec_capacity};
ghost use Rattle.qss_states.specs.Prelude.{overflow_of, state_count, AreLevels};
ghost use Rattle.qss_states.specs.EventContexts.{CanContinue, HaveContinuedAfter, HaveLeftAt, HaveWeights, HoldsLevels, IsHandlerArrival, replaced_lines_after, slopes_after};
ghost use Rattle.qss_states.specs.LevelChanges.{AreRowsAfter, HaveNewLevels};
ghost use Rattle.qss_states.specs.StateLines.{CanArriveWithin, HaveArrivedWithin};

use crate::event_contexts::{Arrival, HandlerArrival, NewLevels, NewSlopes};
use crate::kept_weights::Weights;
use crate::requantization::{begin_rows, move_along_lines, set_new_levels};
use crate::slope_updates::{continue_states, update_slopes_from_handlers};
use qss_hand::Over;
use qss_machine::Row;
use qss_quant::{Integrator, Quantizer, Steps};
use qss_sched::Agenda;
use std::sync::ledger::Ledger;

/// The states of a machine: the line, the level and the slope of each state. `levels`: in units of
/// 2^-f and at most 2^43 in absolute value. `slopes`: in units of 2^-(f+p+k) per tick. `weights`:
/// the absolute row sums, or a bound up to which no row exceeds its limits.
#[derive(Drop)]
pub struct States {
    pub lines: Vec<Integrator>,
    pub levels: Vec<i64>,
    pub slopes: Vec<i128>,
    pub weights: Weights,
}

impl States {
    /// Moves the due states to a tick below 2^32 along their lines. The error is the least state
    /// that is more than 2^88 in absolute value there, in units of 2^-(f+p+k). No state that is not
    /// due exceeds this limit.
    pub fn arrive(&self, tick: u64, due: &[u32], x: &mut [i128]) -> Result<(), Over>
        requires { CanArriveWithin tick self.now.lines.items due.now x.old }
        ensures { HaveArrivedWithin tick self.now.lines.items due.now x.old x.new
            (overflow_of result) }
    {
        move_along_lines(self.lines.as_slice(), tick, due, x)
    }

    /// Sets the new levels of the moved states after handlers that assigned these discrete
    /// variables. If the handlers did nothing, each moved state has left its quantum. The rows are
    /// those of the handlers and then those of the levels. It updates the absolute row sums. The
    /// error is the state whose level is more than 2^43 in absolute value, or whose row exceeds its
    /// limits. After an error, levels, sums and rows are unspecified.
    pub fn requantize(
        &mut self,
        at: &HandlerArrival,
        q: &Quantizer,
        rows: &mut Vec<Row>,
    ) -> Result<(), Over>
        requires ready { IsHandlerArrival at.now }
        requires held { HoldsLevels at.now.machine.now self.old at.now.work.now.pre }
        requires left { at.now.work.now.log ≡ [] → HaveLeftAt at.now self.old }
        requires room { length at.now.work.now.log + state_count at.now.machine.now
            ≤ vec_capacity rows.old }
        ensures taken { HaveNewLevels at.now q.now.name self.old self.new (overflow_of result) }
        ensures size_limit { overflow_of result ≡ None → AreLevels self.new.levels.items }
        ensures weights { overflow_of result ≡ None
            → HaveWeights at.now.machine.now self.new at.now.work.now.d }
        ensures rows { overflow_of result ≡ None
            → AreRowsAfter at.now self.old self.new rows.new.items }
        ensures room { vec_capacity rows.new ≡ vec_capacity rows.old }
        ensures same { self.new
            ≡ record self.old { levels = self.new.levels; weights = self.new.weights } }
    {
        let work = at.work;
        begin_rows(rows, work.log.as_slice());
        let handled = at.handler_result();
        let arrival = Arrival {
            machine: at.machine,
            tick: at.tick,
            moved: at.moved,
            states: handled.states,
            joined: !work.log.as_slice().is_empty(),
        };
        set_new_levels(&arrival, q, self.levels.as_mut_slice(), rows)?;
        let new = NewLevels {
            machine: at.machine,
            uses: at.uses,
            tick: at.tick,
            moved: at.moved,
            levels: self.levels.as_slice(),
        };
        let lines = self.lines.as_slice();
        self.weights
            .update_weights_after_handlers(&new, &handled, lines)
    }

    /// Restarts the moved states at a tick after handlers, from the states after the handlers. It
    /// also continues the states whose rows read a moved state or an assigned discrete variable.
    /// All get their new slopes and due ticks. `steps` counts the lines that move.
    pub fn continue_lines<L: Ledger>(
        &mut self,
        at: &HandlerArrival,
        agenda: &mut Agenda,
        steps: &mut Steps<L>,
    )
        requires { CanContinue at.now self.old agenda.old }
        ensures slopes { self.new.slopes.items ≡ slopes_after at.now self.old }
        ensures continued { HaveContinuedAfter at.now self.old agenda.old self.new agenda.new }
        ensures counted { steps.new ≡ steps.old + replaced_lines_after at.now self.old }
        ensures same { self.new
            ≡ record self.old { lines = self.new.lines; slopes = self.new.slopes } }
    {
        let handled = at.handler_result();
        let event = NewLevels {
            machine: at.machine,
            uses: at.uses,
            tick: at.tick,
            moved: at.moved,
            levels: self.levels.as_slice(),
        };
        let lines = self.lines.as_slice();
        update_slopes_from_handlers(&event, &handled, lines, self.slopes.as_mut_slice());
        let on = NewSlopes {
            event,
            handled,
            slopes: self.slopes.as_slice(),
        };
        continue_states(&on, self.lines.as_mut_slice(), agenda, steps);
    }
}
