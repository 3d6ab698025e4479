//! The data types of models: syntax trees, flat models and settings, and the canonical text of a
//! model.
//! Main items: `Model`, `Nest`, `FlatModel`, `Settings`.
//! Depends on `mu_io` (names) and `mu_num` (fractions).
#![tactic(auto)]

mod expr;
mod flat;
mod nest;
mod tree;

pub use expr::{Expr, Factor, Ref, Term};
pub use flat::{
    FlatBranch, FlatClause, FlatEquation, FlatExpr, FlatFactor, FlatModel, FlatRole, FlatStatement,
    FlatTerm, FlatVar, Settings,
};
pub use nest::{Nest, Nested, Range, RangeRef};
pub use tree::{
    Branch, Clause, Cond, Decl, Equation, Model, Prefix, Rel, SettingItem, SettingName, Statement,
};
