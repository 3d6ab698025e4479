//! Sets the zero-crossing detectors of conditions at new values and speeds. At the start all
//! detectors are set, later those that are affected by handlers or by new slopes.

ghost use Rattle.std.specs.Prelude.{◌≡◌, ◌+◌, ◌<◌, ◌≤◌, ◌&&◌, ◌||◌, ◌==◌, ◌∷◌, [], ◌^◌, ℕ, length, All, true, unsigned_abs};
ghost use Rattle.qss_run.specs.Prelude.{flag_at, is_listed, AreRisingBelow, IsBounded, state_count, truth, value_of, speed_of, discrete_count, conditions, truths, due_at, condition_at, AreDiscretes, AreVariablesOf, AreSlopesOf, reinitialized_of, states_at, AreLinesAt, tick_limit, AreSlopes, uses_of, IsSmall, value_at};
ghost use Rattle.qss_run.specs.Words.{AreConditionsOf, AreDetectorsAt, KnowsApart, CanSetDetectors, AreConditionValues, CanSettle, CanUpdateDetectors, CanUpdateReaderDetectors, differ, AreAlikeBut, IsSameBut, AreAlikeButSettled, AreMarkedChanged, AreSettled, detector_states_of, AreSettledAlong, readers_of, touched_of, touched_by, readers_before, touched_after, OthersAreKept, OthersAreUnread, is_reinitialized, HadDetectors, HasDetectorsUpdated, FitsMachine, GoesOn, AreDetectorsUpdated, AreReaderDetectorsUpdated};

use crate::condition_handlers::{is_handler_reinitialization, move_work_read_by_form};
use crate::moment::Moment;
use crate::run_conditions::{ConditionContext, ConditionValues, Conditions};
use crate::run_start::Store;
use qss_cross::Detector;
use qss_hand::Work;
use qss_machine::{Condition, Form, Machine, Row, multiply_form_coefficient};
use qss_sched::{Agenda, PlaceSet};

impl Conditions {
    /// Settles a condition at a tick: sets its truth and its detector, and schedules the tick of
    /// its next change.
    pub(crate) fn settle_detector(
        &mut self,
        m: &Machine,
        at: &ConditionValues,
        place: u32,
        agenda: &mut Agenda,
    )
        requires allowed { CanSetDetectors m.now at.now self.old agenda.old }
        requires place { place < length (conditions m.now) }
        ensures after_handlers { AreSettled m.now at.now.tick at.now.states.now at.now.discretes.now
            at.now.slopes.now (place ∷ []) (detector_states_of self.old agenda.old)
            (detector_states_of self.new agenda.new) }
        ensures noted { AreMarkedChanged (place ∷ []) self.old self.new }
        ensures flipped { (other : ℕ) → is_listed self.new.flipped.places other
            ≡ (is_listed self.old.flipped.places other
            || (place == other && differ
            (truth m.now (condition_at m.now place) at.now.states.now at.now.discretes.now
            at.now.tick)
            (flag_at self.old.at_arrival.items place))) }
        ensures rest { AreAlikeButSettled self.old self.new }
    {
        let condition = self.condition(m, place);
        let detector = detector_at_values(m, condition, at);
        let holds = detector.truth();
        mark_changed_detector(&self.at_arrival, place, holds, &mut self.flipped);
        let after_handlers = self.after_handlers.as_mut_slice();
        after_handlers[place as usize] = holds;
        agenda.set(at.slopes.len() as u32 + place, detector.next_change());
        let detectors = self.detectors.as_mut_slice();
        detectors[place as usize] = detector;
    }

    /// Sets the detectors of all conditions at a tick, and schedules the ticks of their next
    /// changes.
    pub fn set_all_detectors(&mut self, m: &Machine, at: &ConditionValues, agenda: &mut Agenda)
        requires { CanSetDetectors m.now at.now self.old agenda.old }
        ensures after_handlers { self.new.after_handlers.items
            ≡ truths m.now at.now.states.now at.now.discretes.now at.now.tick }
        ensures detectors { AreDetectorsAt m.now at.now.tick at.now.states.now at.now.discretes.now
            at.now.slopes.now self.new.detectors.items agenda.new }
        ensures rest { AreAlikeButSettled self.old self.new }
        ensures fits { AreConditionsOf m.now self.new }
        ensures places { length agenda.new ≡ length agenda.old }
        ensures others { (place : ℕ) → place < state_count m.now
            → due_at agenda.new place ≡ due_at agenda.old place }
        ensures beyond { (place : ℕ) → state_count m.now + length (conditions m.now) ≤ place
            → due_at agenda.new place ≡ due_at agenda.old place }
    {
        for place in 0..self.branches.len() {
            self.settle_detector(m, at, place as u32, agenda);
        }
    }

    // Settles one condition: sets its truth and its detector at the states on the lines.
    fn settle_detector_along(
        &mut self,
        at: &ConditionContext,
        place: u32,
        work: &mut Work,
        agenda: &mut Agenda,
    )
        requires ready { CanSettle at.now self.old agenda.old work.old }
        requires place { place < length (conditions at.now.machine.now) }
        ensures { AreSettledAlong at.now (place ∷ []) self.old self.new agenda.old agenda.new
            work.old work.new }
    {
        let condition = self.condition(at.machine, place);
        move_work_read_by_form(&condition.form, at.tick, at.lines, work);
        let point = ConditionValues {
            tick: at.tick,
            states: &work.x,
            discretes: &work.d,
            slopes: at.slopes,
        };
        self.settle_detector(at.machine, &point, place, agenda);
    }

    // Settles the conditions at these indices. It is not inlined, so that the code of event steps
    // stays small.
    #[inline(never)]
    fn settle_detectors_at(
        &mut self,
        at: &ConditionContext,
        places: &[u32],
        work: &mut Work,
        agenda: &mut Agenda,
    )
        requires ready { CanSettle at.now self.old agenda.old work.old }
        requires known { All (λ place. place < length (conditions at.now.machine.now)) places.now }
        ensures { AreSettledAlong at.now places.now self.old self.new agenda.old agenda.new work.old
            work.new }
    {
        for place in places {
            self.settle_detector_along(at, *place, work, agenda);
        }
    }

    // Settles the conditions that read one of these variables.
    fn settle_reader_detectors(
        &mut self,
        at: &ConditionContext,
        vars: &[u32],
        work: &mut Work,
        agenda: &mut Agenda,
    )
        requires ready { CanSettle at.now self.old agenda.old work.old }
        requires known { AreVariablesOf at.now.machine.now vars.now }
        ensures { AreSettledAlong at.now (readers_of at.now.machine.now vars.now) self.old self.new
            agenda.old agenda.new work.old work.new }
    {
        for var in vars {
            let places = at.uses.conditions_of(*var);
            self.settle_detectors_at(at, places, work, agenda);
        }
    }

    // Settles the conditions that read this variable, or a state whose row reads it. It is not
    // inlined, so that the code of event steps stays small.
    #[inline(never)]
    fn settle_touched_detectors_of(
        &mut self,
        at: &ConditionContext,
        var: u32,
        work: &mut Work,
        agenda: &mut Agenda,
    )
        requires ready { CanSettle at.now self.old agenda.old work.old }
        requires known { var < state_count at.now.machine.now + discrete_count at.now.machine.now }
        ensures { AreSettledAlong at.now (touched_of at.now.machine.now var) self.old self.new
            agenda.old agenda.new work.old work.new }
    {
        let rows = at.uses.rows_of(var);
        self.settle_reader_detectors(at, rows, work, agenda);
        let places = at.uses.conditions_of(var);
        self.settle_detectors_at(at, places, work, agenda);
    }

    // Settles the conditions that are affected by one of these variables.
    fn settle_touched_detectors(
        &mut self,
        at: &ConditionContext,
        vars: &[u32],
        work: &mut Work,
        agenda: &mut Agenda,
    )
        requires ready { CanSettle at.now self.old agenda.old work.old }
        requires known { AreVariablesOf at.now.machine.now vars.now }
        ensures { AreSettledAlong at.now (touched_by at.now.machine.now vars.now) self.old self.new
            agenda.old agenda.new work.old work.new }
    {
        for var in vars {
            self.settle_touched_detectors_of(at, *var, work, agenda);
        }
    }

    // Settles the conditions that are affected by a state that the handlers reinitialized.
    fn settle_reinitialized_detectors(
        &mut self,
        at: &ConditionContext,
        work: &mut Work,
        agenda: &mut Agenda,
    )
        requires ready { CanSettle at.now self.old agenda.old work.old }
        requires known { (j : ℕ) → is_reinitialized work.old.log j ≡ true
            → j < state_count at.now.machine.now }
        ensures { AreSettledAlong at.now
            (touched_by at.now.machine.now (reinitialized_of work.old.log)) self.old self.new
            agenda.old agenda.new work.old work.new }
    {
        for index in 0..work.log.len() {
            let row = work.log.as_slice()[index];
            if is_handler_reinitialization(&row) {
                self.settle_touched_detectors_of(at, row.var, work, agenda);
            }
        }
    }

    // Settles the conditions that read the value before the tick of one of these discrete
    // variables.
    fn settle_assigned_detectors(
        &mut self,
        at: &ConditionContext,
        assigned: &[u32],
        work: &mut Work,
        agenda: &mut Agenda,
    )
        requires ready { CanSettle at.now self.old agenda.old work.old }
        requires assigned { AreDiscretes at.now.machine.now assigned.now }
        ensures { AreSettledAlong at.now (readers_before at.now.machine.now assigned.now) self.old
            self.new agenda.old agenda.new work.old work.new }
    {
        let discretes = work.d.len() as u32;
        for var in assigned {
            let places = at.uses.conditions_of(*var + discretes);
            self.settle_detectors_at(at, places, work, agenda);
        }
    }

    /// Settles the conditions that the handlers affect. These are the changed ones, those that read
    /// a reinitialized state, an assigned variable or its value before the tick, and those that
    /// read a state whose row reads such a variable. Of the states in `work` it writes only those
    /// that these conditions read.
    pub fn settle_detectors_after_handlers(
        &mut self,
        at: &ConditionContext,
        moment: &Moment,
        work: &mut Work,
        agenda: &mut Agenda,
    )
        requires ready { CanSettle at.now self.old agenda.old work.old }
        requires reinitialized { (j : ℕ) → is_reinitialized work.old.log j ≡ true
            → j < state_count at.now.machine.now }
        requires assigned { AreDiscretes at.now.machine.now moment.now.assigned.items }
        requires changed { AreRisingBelow (length (conditions at.now.machine.now))
            moment.now.changed.items }
        ensures { AreSettledAlong at.now
            (touched_after at.now.machine.now (reinitialized_of work.old.log)
            moment.now.assigned.items moment.now.changed.items)
            self.old self.new agenda.old agenda.new work.old work.new }
    {
        let changed: &[u32] = &moment.changed;
        let assigned: &[u32] = &moment.assigned;
        if changed.is_empty() && assigned.is_empty() && work.log.is_empty() {
            return;
        }
        self.settle_detectors_at(at, changed, work, agenda);
        self.settle_reinitialized_detectors(at, work, agenda);
        self.settle_touched_detectors(at, assigned, work, agenda);
        self.settle_assigned_detectors(at, assigned, work, agenda);
    }

    // Sets the speed of the detector of one condition at a tick.
    fn update_detector(&mut self, at: &ConditionContext, place: u32, agenda: &mut Agenda)
        requires place { place < length (conditions at.now.machine.now) }
        requires ready { CanUpdateDetectors at.now self.old agenda.old }
        ensures { AreDetectorsUpdated at.now (place ∷ [])
            self.old self.new agenda.old agenda.new }
    {
        let condition = self.condition(at.machine, place);
        let speed = detector_speed_at(at.machine, &condition.form, at.slopes);
        let entry = (at.slopes.len() + place as usize) as u32;
        let detectors = self.detectors.as_mut_slice();
        update_detector_speed(
            &mut detectors[place as usize],
            at.tick,
            speed,
            entry,
            agenda,
        );
    }

    // Sets the speeds of the detectors of the conditions at these indices at a tick.
    fn update_detectors_at(&mut self, at: &ConditionContext, places: &[u32], agenda: &mut Agenda)
        requires known { All (λ place. place < length (conditions at.now.machine.now)) places.now }
        requires ready { CanUpdateDetectors at.now self.old agenda.old }
        ensures { AreDetectorsUpdated at.now places.now
            self.old self.new agenda.old agenda.new }
    {
        for place in places {
            self.update_detector(at, *place, agenda);
        }
    }

    // Sets the speeds of the detectors of the conditions that read one of these states at a tick.
    fn update_detectors_of_states(
        &mut self,
        at: &ConditionContext,
        states: &[u32],
        agenda: &mut Agenda,
    )
        requires uses { at.now.uses.now ≡ uses_of at.now.machine.now }
        requires known { All (λ state. state < state_count at.now.machine.now) states.now }
        requires ready { CanUpdateDetectors at.now self.old agenda.old }
        ensures { AreDetectorsUpdated at.now (readers_of at.now.machine.now states.now) self.old
            self.new agenda.old agenda.new }
    {
        for state in states {
            let places = at.uses.conditions_of(*state);
            self.update_detectors_at(at, places, agenda);
        }
    }

    /// Sets the speeds of the detectors of the conditions that read a state whose row reads a moved
    /// state, at a tick. All detectors that were valid for the old slopes are then valid for the
    /// new ones, and their next changes are scheduled. It is not inlined, so that the code of event
    /// steps stays small.
    #[inline(never)]
    pub fn update_detectors_of(&mut self, at: &ConditionContext, moved: &[u32], agenda: &mut Agenda)
        requires { CanUpdateReaderDetectors at.now moved.now self.old agenda.old }
        ensures { AreReaderDetectorsUpdated at.now moved.now self.old self.new agenda.old agenda.new }
    {
        for state in moved {
            let states = at.uses.rows_of(*state);
            self.update_detectors_of_states(at, states, agenda);
        }
    }
}

/// Settles the conditions that the handlers affect. These are the changed ones, those that read a
/// reinitialized state, an assigned variable or its value before the tick, and those that read a
/// state whose row reads such a variable. Of the states in the values of handlers it writes only
/// those that these conditions read. Then it sets the new speeds of the conditions that read a
/// state whose row reads a moved state. Other detectors do not change.
pub(crate) fn update_detectors_after_handlers(m: &Machine, tick: u64, s: &mut Store)
    requires fits { FitsMachine m.now s.old }
    requires moved { AreRisingBelow (state_count m.now) s.old.moment.moved.items }
    requires reinitialized { (j : ℕ) → is_reinitialized s.old.work.log j ≡ true
        → j < state_count m.now }
    requires assigned { AreDiscretes m.now s.old.moment.assigned.items }
    requires changed { AreRisingBelow (length (conditions m.now)) s.old.moment.changed.items }
    requires lines { AreLinesAt m.now tick s.old.states.lines.items }
    requires slopes { AreSlopesOf m.now s.old.states.slopes.items }
    requires before { HadDetectors m.now tick s.old }
    ensures after_handlers { s.new.conditions.after_handlers.items
        ≡ truths m.now (states_at s.old.states.lines.items tick) s.old.work.d tick }
    ensures detectors { AreDetectorsAt m.now tick (states_at s.old.states.lines.items tick)
        s.old.work.d s.old.states.slopes.items s.new.conditions.detectors.items s.new.agenda }
    ensures kept { OthersAreKept m.now (reinitialized_of s.old.work.log) s.old.moment.assigned.items
        s.old.moment.changed.items s.old.states.slopes.items
        (detector_states_of s.old.conditions s.old.agenda)
        (detector_states_of s.new.conditions s.new.agenda) }
    ensures unread { OthersAreUnread m.now (reinitialized_of s.old.work.log) s.old.moment.assigned.items
        s.old.moment.changed.items s.old.work.x s.new.work.x }
    ensures alike { AreAlikeBut s.old.moment.changed.items
        s.old.conditions.at_arrival.items s.old.conditions.after_handlers.items
        → KnowsApart s.new.conditions }
    ensures rest { HasDetectorsUpdated s.old s.new }
    ensures fits { FitsMachine m.now s.new }
    ensures others { (place : ℕ) → place < state_count m.now
        → due_at s.new.agenda place ≡ due_at s.old.agenda place }
    ensures beyond { (place : ℕ) → state_count m.now + length (conditions m.now) ≤ place
        → due_at s.new.agenda place ≡ due_at s.old.agenda place }
{
    if s.conditions.detectors.is_empty() {
        return;
    }
    let at = ConditionContext {
        machine: m,
        uses: &s.uses,
        tick,
        lines: &s.states.lines,
        slopes: &s.states.slopes,
    };
    s.conditions
        .settle_detectors_after_handlers(&at, &s.moment, &mut s.work, &mut s.agenda);
    s.conditions
        .update_detectors_of(&at, &s.moment.moved, &mut s.agenda);
}

// The detector of a condition at a tick, with its value and its speed.
fn detector_at_values(m: &Machine, condition: &Condition, at: &ConditionValues) -> Detector
    requires form { IsBounded condition.now.form }
    requires point { AreConditionValues m.now at.now }
    ensures { result
        ≡ record {
          rel = condition.now.rel;
          tick = at.now.tick;
          value = value_of m.now condition.now.form at.now.states.now at.now.discretes.now
              at.now.discretes.now at.now.tick;
          speed = speed_of m.now condition.now.form at.now.slopes.now;
        } }
{
    let value = m.form_value(
        &condition.form,
        at.states,
        at.discretes,
        at.discretes,
        at.tick,
    );
    let speed = m.form_speed(&condition.form, at.slopes);
    Detector {
        rel: condition.rel,
        tick: at.tick,
        value,
        speed,
    }
}

// Adds a condition to `flipped` if its truth after the handlers, `holds`, differs from its truth on
// arrival.
fn mark_changed_detector(at_arrival: &[bool], place: u32, holds: bool, flipped: &mut PlaceSet)
    requires place { place < length at_arrival.now }
    requires count { flipped.old.count ≡ length at_arrival.now }
    ensures count { flipped.new.count ≡ flipped.old.count }
    ensures places { (other : ℕ) → is_listed flipped.new.places other
        ≡ (is_listed flipped.old.places other
        || (place == other && differ holds (flag_at at_arrival.now place))) }
{
    if is_detector_truth_changed(holds, at_arrival[place as usize]) {
        flipped.insert(place);
    }
}

// Whether two flags differ.
fn is_detector_truth_changed(one: bool, other: bool) -> bool
    ensures { result ≡ differ one other }
{
    one != other
}

// The change of a form per tick at these slopes. Most forms read exactly one state, and not the
// time.
#[inline(always)]
fn detector_speed_at(m: &Machine, form: &Form, slopes: &[i128]) -> i128
    requires form { IsBounded form.now }
    requires same_length { length slopes.now ≡ state_count m.now }
    requires size_limit { AreSlopes slopes.now }
    ensures value { result ≡ speed_of m.now form.now slopes.now }
    ensures bound { unsigned_abs result < 2 ^ 127 }
{
    if form.time == 0 {
        if let [entry] = form.entries.as_slice() {
            let var = entry.var as usize;
            if var < slopes.len() {
                return multiply_form_coefficient(entry.coef, slopes[var]);
            }
        }
    }
    m.form_speed(form, slopes)
}

// Sets the speed of a detector at a tick, and schedules the tick of its next change. A detector
// that already has this speed does not change.
fn update_detector_speed(
    detector: &mut Detector,
    tick: u64,
    speed: i128,
    place: u32,
    agenda: &mut Agenda,
)
    requires later { detector.old.tick ≤ tick }
    requires tick_limit { tick ≤ tick_limit }
    requires size_limit { IsSmall (value_at detector.old tick) }
    requires speed { IsSmall speed }
    requires place { place < length agenda.old }
    ensures goes_on { GoesOn tick speed detector.old detector.new (due_at agenda.old place)
        (due_at agenda.new place) }
    ensures speed { detector.new.speed ≡ speed }
    ensures same { IsSameBut place agenda.old agenda.new }
{
    if detector.speed == speed {
        return;
    }
    detector.move_to(tick);
    let value = detector.value;
    detector.set(value, speed);
    agenda.set(place, detector.next_change());
}
