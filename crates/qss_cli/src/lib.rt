//! The command line: parses the program's arguments into a request.
//! Main items: `read_words`, and the type `Request` of a valid command.
//! Depends on `qss_quant` (quantizer rules).
#![tactic(auto)]

mod argument_laws;
mod arguments;
mod request;
mod request_reading;
mod verb;

pub use argument_laws::{argument_lists_are_read, arguments_follow_dashes};
pub use request::{Generation, Options, Request, Side, Sides, Task, TwoFileTask, TwoFiles};
pub use request_reading::read_words;
