//! Theorems about the answers of the program, for the bytes that it reads or known contents.
//! Main items: `answers_have_properties`, `sessions_have_properties`, `run_on_known_contents`.
//! Depends on qss_top (the program as a function, its specification) and qss_answers.
#![tactic(auto)]

mod answer_laws;
mod command_laws;
mod known_files;
mod session_laws;

pub use answer_laws::{
    bounds_hold, certificate_answers_are_unique, compared_runs_are_within_bound,
    comparisons_are_judged, proposals_are_sound, proposals_are_unique, runs_are_accepted,
    trace_answers_are_unique, upgrades_keep,
};
pub use command_laws::{
    answers_are_unique, answers_exist, answers_have_properties, byte_answers_are_unique,
    bytes_determine_answers, certify_is_complete, certify_is_sound, check_accepts_runs,
    compare_is_complete, compare_is_sound, devs_answers_as_run, gen_prints_summary,
    print_prints_canonical_text, propose_is_complete, propose_is_sound, run_prints_rows_of_machine,
    run2_prints_second_order_rows, upgrade_is_complete, upgrade_keeps_certificate,
};
pub use known_files::run_on_known_contents;
pub use session_laws::{
    calls_have_properties, printed_runs_are_near_solution, sessions_have_properties,
};
