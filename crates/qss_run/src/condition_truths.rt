//! The truths of conditions on arrival at a tick, and the conditions that became true during the
//! handlers of a tick.

ghost use Rattle.std.specs.Prelude.{◌≡◌, ◌+◌, ◌<◌, if◌then◌else◌, ◌≤◌, ◌&&◌, [], ℕ, length, None, Some, false, slice_set, not, vec_capacity, true};
ghost use Rattle.qss_run.specs.Prelude.{filter, due_at, became_true, flag_at, IsSmall, value_at, holds_at, IsWritten, tick_limit};
ghost use Rattle.qss_run.specs.ConditionContexts.{CanMakeDue, MayBeRead};
ghost use Rattle.qss_run.specs.ConditionPlaces.{detector_at, has_risen, ListsFlipped};
ghost use Rattle.qss_run.specs.DueLists.{AreRisenDue, IsSameBut};

use crate::run_conditions::Conditions;
use qss_cross::Detector;
use qss_sched::Agenda;

impl Conditions {
    /// Whether some condition became true during the handlers. If so, it schedules the next tick at
    /// this index of the event queue. Nothing is due there before.
    pub fn schedule_risen(&self, tick: u64, place: u32, agenda: &mut Agenda) -> bool
        requires flipped { ListsFlipped self.now }
        requires place { place < length agenda.old }
        requires none_due { due_at agenda.old place ≡ None }
        requires tick_limit { tick < tick_limit }
        ensures rises { result ≡ has_risen self.now }
        ensures own { due_at agenda.new place ≡ (if result then Some (tick + 1) else None) }
        ensures same { IsSameBut place agenda.old agenda.new }
    {
        if !self.has_risen() {
            return false;
        }
        agenda.set(place, Some(tick + 1));
        true
    }

    /// If some condition became true (`rising`), schedules at this tick the conditions that became
    /// true during the handlers before the tick, and clears the index after the conditions.
    /// Otherwise the event queue does not change.
    pub fn make_risen_due(&self, rising: bool, tick: u64, states: u32, agenda: &mut Agenda)
        requires ready { CanMakeDue states self.now agenda.old }
        requires none_risen { rising ≡ false
            → (place : ℕ) → place < length self.now.after_handlers.items
            → became_true self.now.at_arrival.items self.now.after_handlers.items place ≡ false }
        requires none_behind { rising ≡ false
            → due_at agenda.old (states + length self.now.after_handlers.items) ≡ None }
        ensures { AreRisenDue states tick self.now agenda.old agenda.new }
    {
        if rising {
            self.make_flipped_due(tick, states, agenda);
        }
    }

    /// Sets the truths on arrival: those of these conditions from their detectors, the others to
    /// their settled truths.
    pub(crate) fn read_changed(&mut self, tick: u64, changed: &[u32])
        requires read { MayBeRead tick self.old changed.now }
        requires flipped { ListsFlipped self.old }
        ensures at_arrival { IsWritten false
            (λ place flag. flag ≡ holds_at (detector_at self.old.detectors.items place) tick)
            changed.now self.old.after_handlers.items self.new.at_arrival.items }
        ensures flipped { self.new.flipped ≡ record self.old.flipped { places = [] } }
        ensures rest { self.new
            ≡ record self.old { at_arrival = self.new.at_arrival; flipped = self.new.flipped } }
    {
        self.copy_all_settled();
        let detectors = self.detectors.as_slice();
        let at_arrival = self.at_arrival.as_mut_slice();
        for condition in changed {
            let place = *condition as usize;
            at_arrival[place] = is_condition_true_at(&detectors[place], tick);
        }
    }

    /// Lists those of these conditions whose branches are due: they hold on arrival, and did not
    /// hold both on the last arrival and after the last handlers.
    pub(crate) fn list_fired(&self, tick: u64, changed: &[u32], fired: &mut Vec<u32>)
        requires read { MayBeRead tick self.now changed.now }
        requires flipped { ListsFlipped self.now }
        requires room { length self.now.after_handlers.items ≤ vec_capacity fired.old }
        ensures fired { fired.new.items
            ≡ filter
            (λ place. holds_at (detector_at self.now.detectors.items place) tick
            && not (flag_at self.now.at_arrival.items place
            && flag_at self.now.after_handlers.items place))
            changed.now }
        ensures room { vec_capacity fired.new ≡ vec_capacity fired.old }
    {
        let detectors = self.detectors.as_slice();
        let at_arrival = self.at_arrival.as_slice();
        let after_handlers = self.after_handlers.as_slice();
        fired.clear();
        for condition in changed {
            let place = *condition as usize;
            if is_condition_true_at(&detectors[place], tick)
                && !(at_arrival[place] && after_handlers[place])
            {
                fired.push_reserved(*condition);
            }
        }
    }

    /// If `still` is true, no condition changes at a tick: it sets the truths on arrival to the
    /// settled truths. Otherwise nothing changes.
    pub fn copy_settled(&mut self, still: bool)
        requires { ListsFlipped self.old }
        ensures at_arrival { self.new.at_arrival.items
            ≡ (if still then self.old.after_handlers.items else self.old.at_arrival.items) }
        ensures flipped { ListsFlipped self.new }
        ensures rest { self.new
            ≡ record self.old { at_arrival = self.new.at_arrival; flipped = self.new.flipped } }
    {
        if still {
            self.copy_all_settled();
        }
    }

    // Sets the truth of each condition on arrival to its settled truth.
    fn copy_all_settled(&mut self)
        requires { ListsFlipped self.old }
        ensures at_arrival { self.new.at_arrival.items ≡ self.old.after_handlers.items }
        ensures flipped { self.new.flipped ≡ record self.old.flipped { places = [] } }
        ensures rest { self.new
            ≡ record self.old { at_arrival = self.new.at_arrival; flipped = self.new.flipped } }
    {
        let flipped = self.flipped.places();
        let after_handlers = self.after_handlers.as_slice();
        let at_arrival = self.at_arrival.as_mut_slice();
        for condition in flipped {
            let place = *condition as usize;
            at_arrival[place] = after_handlers[place];
        }
        self.flipped.clear();
    }

    // Whether some condition became true during the handlers.
    fn has_risen(&self) -> bool
        requires { ListsFlipped self.now }
        ensures { result ≡ has_risen self.now }
    {
        let flipped = self.flipped.places();
        for condition in flipped {
            if self.is_risen(*condition) {
                return true;
            }
        }
        false
    }

    // Whether the condition at an index became true during the handlers.
    fn is_risen(&self, place: u32) -> bool
        requires as_many { length self.now.at_arrival.items ≡ length self.now.after_handlers.items }
        requires place { place < length self.now.after_handlers.items }
        ensures { result
            ≡ became_true self.now.at_arrival.items self.now.after_handlers.items place }
    {
        let at = place as usize;
        self.after_handlers.as_slice()[at] & !self.at_arrival.as_slice()[at]
    }

    // Schedules the conditions that became true during the handlers before a tick at this tick, and
    // clears the index after the conditions.
    fn make_flipped_due(&self, tick: u64, states: u32, agenda: &mut Agenda)
        requires { CanMakeDue states self.now agenda.old }
        ensures { AreRisenDue states tick self.now agenda.old agenda.new }
    {
        let flipped = self.flipped.places();
        for condition in flipped {
            let risen = self.is_risen(*condition);
            make_risen_truth_due(agenda, tick, states + *condition, risen);
        }
        agenda.set(states + self.after_handlers.as_slice().len() as u32, None);
    }
}

// Schedules a tick at an index of the event queue, if a condition became true.
fn make_risen_truth_due(agenda: &mut Agenda, tick: u64, place: u32, risen: bool)
    requires { place < length agenda.old }
    ensures { agenda.new
        ≡ (if risen then slice_set agenda.old place (Some tick) else agenda.old) }
{
    if risen {
        agenda.set(place, Some(tick));
    }
}

// Whether the condition of a detector holds at a tick, if its speed stays constant.
fn is_condition_true_at(detector: &Detector, tick: u64) -> bool
    requires later { detector.now.tick ≤ tick }
    requires tick_limit { tick ≤ tick_limit }
    requires size_limit { IsSmall (value_at detector.now tick) }
    ensures { result ≡ holds_at detector.now tick }
{
    let mut moved = *detector;
    moved.move_to(tick);
    moved.truth()
}
