//! Event-free ticks, and the next event of a run, for every simulator that skips ticks.
//! Main items: `Outcome`, `event_tick_leaving_level`, `requantize_level`, and the theorems of
//! `event_laws`.
//! Depends on machines (qss_machine), quantizers, zero crossings (qss_cross) and output rows.
#![tactic(auto)]

mod event_laws;
mod event_levels;
mod event_outcome;

pub use event_laws::{
    event_free_tick_is_unique, event_leaving_changes_level, event_passes_due_states,
    event_schedules_hold, event_skipping_is_sound, event_slopes_follow_discretes,
    event_slopes_follow_levels, event_visit_is_next, event_visits_have_rows, no_event_before_due,
};
pub use event_levels::{event_start_levels, event_tick_leaving_level, requantize_level};
pub use event_outcome::{
    Outcome, Visited, add_event_discrete_rows, has_event_condition_risen, set_event_overflow_row,
};
