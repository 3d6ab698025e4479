//! Theorems about events and event-free ticks, for every simulator that skips ticks. Each is the
//! contract of a function with an empty body.

ghost use Rattle.qss_events.specs.EventFreeTicks.{SkippingIsSound, EventFreeTickIsUnique, RowsOfVisits};
ghost use Rattle.qss_events.specs.Schedules.{NoEventBeforeDue, SchedulesHold, GoesToNextVisit, OnlyDueStatesPass};
ghost use Rattle.qss_events.specs.SlopeChanges.{SlopesFollowLevels, SlopesFollowDiscretes, LeavingChangesLevel};

/// Theorem: a simulator may skip event-free ticks.
pub fn event_skipping_is_sound()
    ensures { SkippingIsSound }
{}

/// Theorem: no event occurs before the earliest due tick of a simulator.
pub fn no_event_before_due()
    ensures { NoEventBeforeDue }
{}

/// Theorem: the lines, detectors and due ticks of a simulator stay valid until the earliest due
/// tick.
pub fn event_schedules_hold()
    ensures { SchedulesHold }
{}

/// Theorem: if one level changes, each slope changes by the coefficient in the current mode times
/// this change. Each absolute row sum changes by the absolute values of these numbers.
pub fn event_slopes_follow_levels()
    ensures { SlopesFollowLevels }
{}

/// Theorem: a state that is due changes its level.
pub fn event_leaving_changes_level()
    ensures { LeavingChangesLevel }
{}

/// Theorem: a simulator may advance in one step to the tick before its next event step.
pub fn event_visit_is_next()
    ensures { GoesToNextVisit }
{}

/// Theorem: only a state that is due can exceed its limit on arrival at a tick.
pub fn event_passes_due_states()
    ensures { OnlyDueStatesPass }
{}

/// Theorem: an event-free tick has exactly one result, even under the free rule.
pub fn event_free_tick_is_unique()
    ensures { EventFreeTickIsUnique }
{}

/// Theorem: if one discrete value changes, the slope of a row without a product of this value
/// changes by its coefficient times this change.
pub fn event_slopes_follow_discretes()
    ensures { SlopesFollowDiscretes }
{}

/// Theorem: the rows that one tick adds to the rows of a run, and the rows at the end.
pub fn event_visits_have_rows()
    ensures { RowsOfVisits }
{}
