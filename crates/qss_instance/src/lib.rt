//! An instance of the theorems: the example `decay`, its run, its certificate and the bound.
//! The theorem is the contract of `decay_is_bounded`.
//! It shows that the premises of the theorems on bounds can hold.
#![tactic(auto)]

mod instance_laws;

pub use instance_laws::decay_is_bounded;
