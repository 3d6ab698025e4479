//! The results of certify, upgrade, propose, check and compare for a machine and bytes.
//! Main functions: `certify`, `upgrade`, `propose_text`, `check_trace_text` and `comparison_text`.
//! Depends on cert_check, cert_propose, qss_trace, qss_own_traces, qss_machine and mu_io.
#![tactic(auto)]

mod answer_result;
mod answer_writing;
mod certificate_reading;
mod certifying;
mod checking;
mod comparing;
mod comparison_basis;
mod comparison_ending;
mod comparison_side;
mod proposing;
mod refusal;
mod refusal_lines;
mod trace_reading;
mod upgrading;

pub use answer_result::AnswerResult;
pub use certificate_reading::{CERTIFICATE_LIMIT, CertificateText};
pub use certifying::certify;
pub use checking::check_trace_text;
pub use comparing::comparison_text;
pub use comparison_basis::{Basis, usable_certificate};
pub use comparison_ending::ComparisonStop;
pub use comparison_side::{first_side, second_side, traced_side};
pub use proposing::propose_text;
pub use refusal::Refusal;
pub use refusal_lines::{cause_line, verdict_line, write_refusal};
pub use trace_reading::{TRACE_LIMIT, TraceText};
pub use upgrading::upgrade;
