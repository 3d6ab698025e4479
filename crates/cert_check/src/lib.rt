//! Certificates that bound the distance of any two quantized runs: syntax, check and soundness.
//! Main items: `Certificate`, `read_certificate`, and `check`, which returns a `Verdict`.
//! Depends on cert_matrix (ranged sums), qss_machine (the machine), csv, mu_io and mu_num.
#![tactic(auto)]

mod affine_data;
mod certificate;
mod certificate_assembly;
mod certificate_laws;
mod certificate_parser;
mod certificate_scope;
mod certificate_writer;
mod column;
mod inequality_checker;
mod inequality_sides;
mod machine_system;
mod start_rows;
mod text_err;

pub use affine_data::AffineSystem;
pub use certificate::Certificate;
pub use certificate_laws::{
    certificate_texts_are_judged, certificate_verdicts_are_unique,
    certificates_allow_smaller_quanta, certificates_are_sound,
};
pub use certificate_parser::{number as number_of_field, read_certificate};
pub use certificate_scope::{Outside, scope};
pub use certificate_writer::write_certificate;
pub use column::Column;
pub use inequality_checker::{Verdict, check};
pub use machine_system::affine_system;
pub use text_err::{TextErr, TextErr as CertErr};
