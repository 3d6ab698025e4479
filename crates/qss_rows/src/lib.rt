//! Output rows as lines of CSV, filters of rows, and the writing of a run event by event.
//! Main items: `write_simulation` for any type with the trait `Simulation`, and `Filter`.
//! Depends on sinks (mu_io), exact arithmetic (mu_num) and the data of machines (qss_machine).
#![tactic(auto)]

mod filter;
mod line_text;
mod line_writer;
mod simulation_rows;

pub use filter::Filter;
pub use line_writer::{LineWriter, header, line_variable_name, row_bytes, writer_lines_are_plain};
pub use simulation_rows::{
    RunEnd, RunResult, Simulation, WriteStop, write_simulation, write_simulation_bytes,
};
