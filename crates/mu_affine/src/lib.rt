//! Exact affine forms of a flat model, and the machine to which they are rounded.
//! Main functions: `normal` (forms along a causal order) and `to_machine` (rounding).
//! Depends on mu_io, mu_num (fractions), mu_tree (flat models), mu_causal and qss_machine.
#![tactic(auto)]

mod affine_fault;
mod affine_laws;
mod exact_form;
mod expression_form;
mod form_product;
mod form_sum;
mod machine_fault;
mod normal_forms;
mod rounded_form;
mod rounded_machine;

pub use affine_fault::AffineErr;
pub use affine_laws::{
    affine_forms_are_solution, affine_forms_have_layout, affine_machines_are_unique,
    affine_solutions_are_unique,
};
pub use exact_form::{ExactEntry, ExactForm, ExactProduct, Forms, Place, Sizes};
pub use form_sum::RunningForm;
pub use machine_fault::MachineErr;
pub use normal_forms::normal;
pub use rounded_machine::to_machine;
