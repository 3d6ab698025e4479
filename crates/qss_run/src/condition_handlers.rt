//! Runs the handlers of a tick at which conditions change. The statements of the due branches are
//! executed, and the states and discrete variables that they set are listed.

ghost use Rattle.std.specs.Prelude.{◌≡◌, ◌≤◌, [], ◌+◌, ◌<◌, ◌||◌, All, None, length, vec_capacity, ℕ, true, false, Some};
ghost use Rattle.qss_run.specs.Prelude.{conditions, truths, run_clauses, state_count, row_room, AreValuesOf, handling_of, values_after, overflow_of, states_at, CanArriveWithin, HaveArrivedWithin, AreLinesAt, MayArrive, list_any, form_of, has_entry, int_at, AreWithin, is_reinit, due_at, is_set, assigned_of, is_listed, AreRisingBelow};
ghost use Rattle.qss_run.specs.ConditionContexts.{CanHandle};
ghost use Rattle.qss_run.specs.ConditionPlaces.{AreConditionsOf, AreBranchesAt};
ghost use Rattle.qss_run.specs.DueLists.{AreAlikeBut, HasRoom, IsWithout, AreMovedOut, HasRoomFor, IsTakenFrom};
ghost use Rattle.qss_run.specs.HandlerReads.{action_reads, fired_reads, AreArrived};
ghost use Rattle.qss_run.specs.HandlerResults.{IsHandlerEffect, handling_at, handling_from, flags_of, is_reinitialized};

use crate::event_steps::take_due_states;
use crate::moment::Moment;
use crate::run_conditions::{BranchPlace, Conditions, StatesAt};
use qss_hand::{Over, Work, fire};
use qss_machine::{Action, Form, Machine, Row, RowKind};
use qss_quant::Integrator;
use qss_sched::Agenda;
use qss_states::States;

impl Conditions {
    /// Runs the handlers of a tick. The moved states of `moment` are the due ones, and its changed
    /// conditions are those to be evaluated. In the event queue no due state has a due tick, and
    /// nothing is due up to the tick. The reinitialized states are added to the moved ones, and
    /// their due ticks are removed. The assigned discrete variables are listed in `moment`. The
    /// truths on arrival are set. The error is the variable that overflows, on arrival or by an
    /// assignment.
    pub fn handle_changed_conditions(
        &mut self,
        at: &StatesAt,
        moment: &mut Moment,
        work: &mut Work,
        agenda: &mut Agenda,
    ) -> Result<(), Over>
        requires ready { CanHandle at.now self.old moment.old work.old agenda.old }
        requires room { row_room at.now.machine.now.clauses ≤ work.old.room }
        requires lists { HasRoom at.now.machine.now moment.old }
        ensures overflow { overflow_of result
            ≡ (handling_from at.now.machine.now at.now.tick
            (states_at at.now.states.now.lines.items at.now.tick)
            work.old.d self.old.at_arrival.items self.old.after_handlers.items).overflow }
        ensures handled { overflow_of result ≡ None
            → IsHandlerEffect at.now.machine.now at.now.tick at.now.states.now.lines.items
            moment.old.moved.items moment.new.moved.items moment.new.assigned.items
            work.old work.new
            (handling_from at.now.machine.now at.now.tick
            (states_at at.now.states.now.lines.items at.now.tick)
            work.old.d self.old.at_arrival.items self.old.after_handlers.items) }
        ensures at_arrival { overflow_of result ≡ None
            → self.new.at_arrival.items
            ≡ truths at.now.machine.now
            (states_at at.now.states.now.lines.items at.now.tick) work.old.d at.now.tick }
        ensures alike { overflow_of result ≡ None
            → AreAlikeBut moment.old.changed.items self.new.at_arrival.items
            self.new.after_handlers.items }
        ensures none_apart { overflow_of result ≡ None → self.new.flipped.places ≡ [] }
        ensures rest { self.new
            ≡ record self.old { at_arrival = self.new.at_arrival; flipped = self.new.flipped } }
        ensures fits { overflow_of result ≡ None → AreConditionsOf at.now.machine.now self.new }
        ensures changed { moment.new.changed ≡ moment.old.changed }
        ensures without { overflow_of result ≡ None
            → IsWithout moment.new.moved.items agenda.old agenda.new }
        ensures lists { HasRoom at.now.machine.now moment.new }
    {
        move_due_handler_states(at.states, at.tick, &moment.moved, work)?;
        // The truths on the last arrival are read here, before the new ones are set.
        let changed: &[u32] = &moment.changed;
        self.list_fired(at.tick, changed, &mut moment.fired);
        self.read_changed(at.tick, changed);
        if moment.fired.is_empty() {
            work.begin(at.tick);
            moment.assigned.clear();
            return Ok(());
        }
        handle_fired_conditions(at, &self.branches, &moment.fired, work)?;
        let states = at.machine.states.as_slice().len() as u32;
        let log: &[Row] = &work.log;
        join_handler_reinitialized(agenda, at.tick, states, log, &mut moment.moved);
        list_handler_assigned(log, &mut moment.assigned);
        Ok(())
    }
}

// Moves the due states, in the values of handlers, to a tick along their lines. The error is
// the least state that exceeds its limit there.
fn move_due_handler_states(
    states: &States,
    tick: u64,
    moved: &[u32],
    work: &mut Work,
) -> Result<(), Over>
    requires { CanArriveWithin tick states.now.lines.items moved.now work.old.x }
    ensures at_arrival { HaveArrivedWithin tick states.now.lines.items moved.now work.old.x
        work.new.x (overflow_of result) }
    ensures work { work.new ≡ record work.old { x = work.new.x } }
{
    states.arrive(tick, moved, work.x.as_mut_slice())
}

/// Runs the handlers of a tick at which these branches are due. It moves the states that the
/// statements read to the tick. A state that is neither read nor reinitialized does not change. So
/// a caller that uses the value of such a state after the call moves it to the tick before the
/// call. The error is the variable that overflows.
pub(crate) fn handle_fired_conditions(
    at: &StatesAt,
    branches: &[BranchPlace],
    fired: &[u32],
    work: &mut Work,
) -> Result<(), Over>
    requires due { AreBranchesAt at.now.machine.now branches.now fired.now }
    requires lines { AreLinesAt at.now.machine.now at.now.tick at.now.states.now.lines.items }
    requires values { AreWithin at.now.machine.now work.old.x work.old.d }
    requires room { row_room at.now.machine.now.clauses ≤ work.old.room }
    ensures overflow { overflow_of result ≡ (handling_at at.now work.old.d fired.now).overflow }
    ensures work { overflow_of result ≡ None
        → let h = handling_at at.now work.old.d fired.now in
        work.new
        ≡ record {
          x = work.new.x;
          d = h.discretes;
          pre = work.old.d;
          tick = at.now.tick;
          log = h.rows;
          room = work.old.room;
        } }
    ensures fits { overflow_of result ≡ None → AreValuesOf at.now.machine.now work.new }
    ensures many { overflow_of result ≡ None
        → length (handling_at at.now work.old.d fired.now).states
        ≡ state_count at.now.machine.now }
    ensures at_arrival { overflow_of result ≡ None
        → (j : ℕ) → int_at work.old.x j
        ≡ int_at (states_at at.now.states.now.lines.items at.now.tick) j
        → int_at work.new.x j ≡ int_at (handling_at at.now work.old.d fired.now).states j }
    ensures reinitialized { overflow_of result ≡ None
        → let h = handling_at at.now work.old.d fired.now in
        (j : ℕ)
        → is_reinitialized h.rows j ≡ true
        → int_at work.new.x j ≡ int_at h.states j }
    ensures others { overflow_of result ≡ None
        → let h = handling_at at.now work.old.d fired.now in
        (j : ℕ)
        → fired_reads j at.now.machine.now branches.now fired.now ≡ false
        → is_reinitialized h.rows j ≡ false
        → int_at work.new.x j ≡ int_at work.old.x j }
{
    move_work_read_by_branches(at, branches, fired, work);
    work.begin(at.tick);
    run_fired_handlers(at.machine, branches, fired, work)
}

// Moves the states that the statements of these branches read, in the values of handlers, to a
// tick along their lines.
fn move_work_read_by_branches(
    at: &StatesAt,
    branches: &[BranchPlace],
    fired: &[u32],
    work: &mut Work,
)
    requires due { AreBranchesAt at.now.machine.now branches.now fired.now }
    requires may_arrive { MayArrive at.now.tick at.now.states.now.lines.items work.old.x }
    ensures work { work.new ≡ record work.old { x = work.new.x } }
    ensures states { AreArrived (λ j. fired_reads j at.now.machine.now branches.now fired.now)
        (states_at at.now.states.now.lines.items at.now.tick) work.old.x work.new.x }
{
    move_read_by_branches(at, branches, fired, work.x.as_mut_slice());
}

// Moves the states that the statements of these branches read to a tick along their lines.
fn move_read_by_branches(at: &StatesAt, branches: &[BranchPlace], fired: &[u32], x: &mut [i128])
    requires due { AreBranchesAt at.now.machine.now branches.now fired.now }
    requires may_arrive { MayArrive at.now.tick at.now.states.now.lines.items x.old }
    ensures { AreArrived (λ j. fired_reads j at.now.machine.now branches.now fired.now)
        (states_at at.now.states.now.lines.items at.now.tick) x.old x.new }
{
    let lines = at.states.lines.as_slice();
    for place in fired {
        let own = branches[*place as usize];
        let clauses = at.machine.clauses.as_slice();
        let choices = clauses[own.clause as usize].branches.as_slice();
        let actions = choices[own.branch as usize].actions.as_slice();
        move_read_by_actions(actions, at.tick, lines, x);
    }
}

// Moves the states that these statements read to a tick along their lines.
fn move_read_by_actions(actions: &[Action], tick: u64, lines: &[Integrator], x: &mut [i128])
    requires { MayArrive tick lines.now x.old }
    ensures { AreArrived (λ j. list_any (action_reads j) actions.now) (states_at lines.now tick)
        x.old x.new }
{
    for action in actions {
        move_read_by_form(handler_form_of(action), tick, lines, x);
    }
}

// Moves the states that a form reads to a tick along their lines.
fn move_read_by_form(form: &Form, tick: u64, lines: &[Integrator], x: &mut [i128])
    requires { MayArrive tick lines.now x.old }
    ensures { AreArrived (λ j. has_entry j form.now.entries) (states_at lines.now tick) x.old
        x.new }
{
    for entry in form.entries.as_slice() {
        let j = entry.var as usize;
        if j < lines.len() {
            x[j] = lines[j].value_at(tick);
        }
    }
}

/// Moves the states that a form reads, in the values of handlers, to a tick along their lines.
pub(crate) fn move_work_read_by_form(form: &Form, tick: u64, lines: &[Integrator], work: &mut Work)
    requires { MayArrive tick lines.now work.old.x }
    ensures work { work.new ≡ record work.old { x = work.new.x } }
    ensures states { AreArrived (λ j. has_entry j form.now.entries) (states_at lines.now tick)
        work.old.x work.new.x }
{
    move_read_by_form(form, tick, lines, work.x.as_mut_slice());
}

// The form of the right-hand side of a statement.
fn handler_form_of(action: &Action) -> &Form
    ensures { result.now ≡ form_of action.now }
{
    match action {
        Action::Set { form, .. } => form,
        Action::Reinit { form, .. } => form,
    }
}

/// Fires the first of these branches in each clause, in source order, up to an assignment that
/// exceeds its limit.
pub(crate) fn run_fired_handlers(
    m: &Machine,
    branches: &[BranchPlace],
    fired: &[u32],
    w: &mut Work,
) -> Result<(), Over>
    requires due { AreBranchesAt m.now branches.now fired.now }
    requires fits { AreValuesOf m.now w.old }
    requires room { length w.old.log + row_room m.now.clauses ≤ w.old.room }
    ensures values { w.new
        ≡ values_after w.old
        (run_clauses m.now w.old.tick w.old.pre 0 (handling_of w.old) m.now.clauses
        (flags_of (length branches.now) fired.now)) }
    ensures overflow { overflow_of result
        ≡ (run_clauses m.now w.old.tick w.old.pre 0 (handling_of w.old) m.now.clauses
        (flags_of (length branches.now) fired.now)).overflow }
    ensures fits { AreValuesOf m.now w.new }
{
    // All clauses before `next` are done.
    let mut next = 0;
    for place in fired {
        let at = branches[*place as usize];
        if at.clause >= next {
            fire(m, at.clause, at.branch, w)?;
            next = at.clause + 1;
        }
    }
    Ok(())
}

/// Adds the states that these rows reinitialize to the moved states, and removes all of these from
/// the event queue.
pub(crate) fn join_handler_reinitialized(
    agenda: &mut Agenda,
    tick: u64,
    states: u32,
    log: &[Row],
    moved: &mut Vec<u32>,
)
    requires has { HasRoomFor states (vec_capacity moved.old) agenda.old }
    requires moved { AreRisingBelow states moved.old.items }
    requires known { (j : ℕ) → is_reinitialized log.now j ≡ true → j < states }
    requires taken { IsTakenFrom tick moved.old.items agenda.old }
    ensures numbers { AreRisingBelow states moved.new.items }
    ensures each { (j : ℕ)
        → is_listed moved.new.items j ≡ (is_listed moved.old.items j || is_reinitialized log.now j) }
    ensures out { AreMovedOut moved.old moved.new agenda.old agenda.new }
{
    if !has_handler_reinitialization(log) {
        return;
    }
    // The event queue merges the two lists of states, in increasing order and each state once.
    put_back_states(agenda, tick, moved);
    schedule_handler_reinitialized(agenda, tick, log);
    take_due_states(agenda, tick, states, moved);
}

// Schedules states at a tick that were removed from the event queue.
fn put_back_states(agenda: &mut Agenda, tick: u64, moved: &[u32])
    requires { All (λ place. place < length agenda.old) moved.now }
    ensures same_length { length agenda.new ≡ length agenda.old }
    ensures back { (place : ℕ) → is_listed moved.now place ≡ true
        → due_at agenda.new place ≡ Some tick }
    ensures others { (place : ℕ) → is_listed moved.now place ≡ false
        → due_at agenda.new place ≡ due_at agenda.old place }
{
    for place in moved {
        agenda.set(*place, Some(tick));
    }
}

// Whether some row reinitializes a state.
fn has_handler_reinitialization(log: &[Row]) -> bool
    ensures { result ≡ list_any (λ row. is_reinit row.kind) log.now }
{
    log.iter().any(|row| is_handler_reinitialization(row))
}

/// Whether a row reinitializes a state.
pub(crate) fn is_handler_reinitialization(row: &Row) -> bool
    ensures { result ≡ is_reinit row.now.kind }
{
    matches!(row.kind, RowKind::Reinit)
}

// Schedules the states that these rows reinitialize at a tick.
fn schedule_handler_reinitialized(agenda: &mut Agenda, tick: u64, log: &[Row])
    requires { (j : ℕ) → is_reinitialized log.now j ≡ true → j < length agenda.old }
    ensures same_length { length agenda.new ≡ length agenda.old }
    ensures given { (place : ℕ) → is_reinitialized log.now place ≡ true
        → due_at agenda.new place ≡ Some tick }
    ensures others { (place : ℕ) → is_reinitialized log.now place ≡ false
        → due_at agenda.new place ≡ due_at agenda.old place }
{
    for row in log {
        if is_handler_reinitialization(row) {
            agenda.set(row.var, Some(tick));
        }
    }
}

/// Lists the variables that these rows assign.
pub(crate) fn list_handler_assigned(log: &[Row], assigned: &mut Vec<u32>)
    requires { length log.now ≤ vec_capacity assigned.old }
    ensures assigned { assigned.new.items ≡ assigned_of log.now }
    ensures room { vec_capacity assigned.new ≡ vec_capacity assigned.old }
{
    assigned.clear();
    for row in log {
        if is_handler_assignment(row) {
            assigned.push_reserved(row.var);
        }
    }
}

// Whether a row assigns a discrete variable.
fn is_handler_assignment(row: &Row) -> bool
    ensures { result ≡ is_set row.now.kind }
{
    matches!(row.kind, RowKind::Set)
}
