//! Components of a machine as atomic DEVS models: integrators, static functions and crossings.
//! Main trait: `Atomic`, with the internal and external transitions of a component.
//! Depends on the machine model, quantizers, zero-crossing detectors, and the definition of a run.
#![tactic(auto)]

mod atomic;
mod component_laws;
mod crossing_model;
mod function_inputs;
mod function_model;
mod function_sums;
mod integrator_list;
mod integrator_model;

pub use atomic::{Atomic, Message, Transition, is_due, least_advance, make_transition};
pub use component_laws::{
    agreement_lasts, component_crossings_tell, components_hear_handler_rows, components_move,
    components_stand, messages_keep_agreement, named_component_sends_one, settled_components_stand,
};
pub use crossing_model::{CrossingModel, Input, crossing_detector_of};
pub use function_inputs::FunctionInput;
pub use function_model::FunctionModel;
pub use integrator_list::{
    least_integrator_leaving, make_integrator_transition, send_to_integrator_model,
};
pub use integrator_model::IntegratorModel;
