//! Flattening: unrolls arrays and loops and replaces constants by their values.
//! Main function: `unroll`, which returns the flat model or an `UnrollErr`.
//! Depends on `mu_io`, `mu_num`, `mu_tree`, `mu_causal`, `mu_copies` and `mu_names`.
#![tactic(auto)]

mod constant_folding;
mod environment;
mod flat_variables;
mod flatten;
mod item_folding;
mod item_unrolling;
mod long_constants;
mod loop_folding;
mod start_values;
mod unroll_counts;
mod unroll_fault;
mod unrolled_values;
mod unroller;

pub use item_unrolling::Output;
pub use unroll_fault::UnrollErr;
pub use unroller::unroll;
