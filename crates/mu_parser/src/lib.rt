//! The parser: turns the tokens of a source into the syntax tree of a model.
//! Main function: `parse`, which returns the tree or the first syntax error.
//! Depends on mu_io, mu_lexer (tokens), mu_tree (syntax trees) and mu_grammar (the grammar).
#![tactic(auto)]

mod annotation_item;
mod awaited_expression;
mod declaration;
mod expression;
mod parser;
mod section;

pub use parser::{Next, parse};
