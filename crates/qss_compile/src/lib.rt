//! The compiler: translates the bytes of a source to a machine, or reports the first error.
//! Main functions: `compile`, `compile_tree` and `phase_fault_line`, which prints an error.
//! Depends on mu_io, mu_num, qss_machine and the language's crates from mu_lexer to mu_affine.
#![tactic(auto)]

mod compiler;
mod compiler_laws;
mod model_refusal;

pub use compiler::{compile, compile_source_to_tree, compile_tree};
pub use compiler_laws::{
    compile_causes_are_unique, compile_decides_sources, compiled_machines_are_unique,
    compiled_models_are_formed, compiled_sources_are_accepted,
};
pub use model_refusal::{ModelErr, Refused, phase_fault_line};
