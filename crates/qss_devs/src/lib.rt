//! The coupled DEVS model of a machine: its components, the messages between them, and its run.
//! Main function: `write_devs_run`, which prints a run; `Coupled` steps from event to event.
//! Depends on the components, the handlers, the events and rows of a run, and text sinks.
#![tactic(auto)]

mod coupled_arrivals;
mod coupled_branches;
mod coupled_events;
mod coupled_inputs;
mod coupled_messages;
mod coupled_model;
mod coupled_run;
mod coupled_start;

pub use coupled_messages::Components;
pub use coupled_model::Coupled;
pub use coupled_run::write_devs_run;
pub use coupled_start::{StartValues, Store, Truths};
pub use qss_components::{
    Atomic, CrossingModel, FunctionInput, FunctionModel, IntegratorModel, Message,
};
pub use qss_events::Outcome;
