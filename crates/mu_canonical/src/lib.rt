//! Writes models in canonical form.
//! Main item: `write_model`, the canonical text of a model.
//! Depends on `mu_tree` (syntax trees and their canonical text) and `mu_io` (names).
#![tactic(auto)]

mod expression_text;
mod item_text;
mod model_text;

pub use model_text::write_model;
