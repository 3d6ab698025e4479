//! Handlers: execution of the statements of branches that fire.
//! Main type and function: `Work` (the values that handlers read and write) and `fire`.
//! Depends on exact arithmetic (mu_num) and on the data of machines (qss_machine).
#![tactic(auto)]

mod handler_statements;
mod work;

pub use handler_statements::{Over, fire};
pub use work::Work;
