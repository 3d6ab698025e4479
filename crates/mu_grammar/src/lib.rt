//! The grammar of models as a relation on token lists, and a state machine that decides it.
//! Main definitions: `SpellsModel` and `model_machine`; the theorems on them are in `grammar_laws`.
//! Depends on mu_lexer (tokens) and mu_tree (syntax trees, canonical text).
#![tactic(auto)]

mod grammar_laws;
mod parse_fault;
mod symbol;

pub use grammar_laws::{
    grammar_is_unambiguous, grammar_machine_decides, grammar_parses_or_fails,
    grammar_reads_models_back, grammar_tokens_of_sources, parse_faults_are_unique,
};
pub use parse_fault::ParseErr;
pub use symbol::{Bracket, Fixed, Shape, Symbol, is_named_symbol};
