//! Causalization: the order in which the algebraic variables of a flat model can be computed.
//! Main items: `order`, which returns an `Order` or a `CausalErr`.
//! Depends on `mu_io` (lists) and `mu_tree` (flat models).
#![tactic(auto)]

mod causal_order;
mod causal_outcome;
mod dependency_graph;
mod equation_counts;

pub use causal_order::{order, order_excludes_chains, order_excludes_cycle, order_is_unique};
pub use causal_outcome::{CausalErr, Order};
