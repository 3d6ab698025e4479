//! The first-order event-driven simulator: event steps, handlers, and runs written to a sink.
//! Main items: `Sim` (a simulator) and `write_run_by_rule` (a complete run as lines of text).
//! Depends on qss_rows (output), qss_events (event-free ticks), qss_states and the crates below.
#![tactic(auto)]

mod condition_detectors;
mod condition_handlers;
mod condition_truths;
mod event_steps;
mod moment;
mod ruled_run;
mod run_conditions;
mod run_start;
mod run_state;
mod run_summary;
mod sim;

pub use qss_events::Outcome;
pub use ruled_run::write_run_by_rule;
pub use run_conditions::BranchPlace;
pub use run_state::RunState;
pub use run_summary::{RunSummary, summarize};
pub use sim::Sim;
