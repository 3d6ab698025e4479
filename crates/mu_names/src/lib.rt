//! Name analysis: the role, array size and values of each declared name, and the model's settings.
//! Main items: `roles`, which returns a `Scope` or a `NameErr`.
//! Depends on `mu_io` (names), `mu_num` (fractions) and `mu_tree` (syntax trees).
#![tactic(auto)]

mod constant_values;
mod declared_scope;
mod name_checks;
mod name_fault;
mod name_kind;
mod name_table;

pub use constant_values::{combine_constant_factors, combine_constant_terms};
pub use declared_scope::{DeclarationValues, Known, Scope};
pub use name_checks::roles;
pub use name_fault::NameErr;
pub use name_kind::{NameContext, NameKind, NameRequirement, Role};
pub use name_table::{add, find};
