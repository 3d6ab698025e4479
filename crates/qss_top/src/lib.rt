//! The program `qss` as a function of arguments, files and streams.
//! Main functions: `qss_main`, and `answer_source` and its variants for bytes in memory.
//! Depends on qss_cli, qss_compile, qss_run, qss_devs, qss_order2, qss_answers and their crates.
#![tactic(auto)]

mod byte_answers;
mod command;
mod command_outcome;
mod comparison;
mod coupled_devs_run;
mod file_reading;
mod generation;
mod machine_task;
mod run_origin;
mod second_order_run;
mod source;
mod status;
mod top;
mod two_file_command;

pub use byte_answers::{
    answer_certificate, answer_comparison, answer_print, answer_source, answer_trace,
    answer_upgrade,
};
pub use command_outcome::{Outcome, report};
pub use qss_compile::{ModelErr, compile};
pub use qss_generate::generate;
pub use qss_own_traces::{TraceOver, first_trace, second_trace};
pub use run_origin::{RunSource, RunSources};
pub use status::Status;
pub use top::qss_main;
