//! Traces of a machine's own runs: of first order (rule `floor`) and of second order (QSS2).
//! Main functions: `first_trace` and `second_trace`.
//! Depends on the machine model, the checker's traces and affine systems, and second-order runs.
#![tactic(auto)]

mod first_order_trace;
mod own_trace_draft;
mod second_order_trace;

pub use first_order_trace::first_trace;
pub use own_trace_draft::TraceOver;
pub use second_order_trace::second_trace;
