//! Theorems that combine several crates: sources, flat models, simulator steps and printed lines.
//! Main items: the theorems of `program_laws`, such as `program_events_lead_freely`.
//! Depends on the compiler's crates, the simulator's (qss_machine to qss_events), qss_order2,
//! cert_check and qss_answers.
#![tactic(auto)]

mod program_laws;

pub use program_laws::{
    printed_program_runs_are_free, program_affected_states_are_bounded,
    program_bound_lines_are_fields, program_certificates_are_short, program_events_lead_freely,
    program_items_are_kept, program_lines_are_fields, program_listings_are_right,
    program_names_are_taken, program_second_order_lines_are_fields,
    program_sources_are_well_formed,
};
