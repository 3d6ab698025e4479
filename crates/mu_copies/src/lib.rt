//! Copies of models and flat models. The program itself copies only parts of models.
//! Main item: `Copied`, the trait of values that can be copied with an allocator.
//! Depends on `mu_tree` (syntax trees and flat models).
#![tactic(auto)]

mod copied;
mod copy_flat;
mod copy_tree;

pub use copied::Copied;
