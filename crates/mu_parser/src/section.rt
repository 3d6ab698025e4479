//! The states of the parser, and its transitions in the sections of a model.

pub mod body;
pub mod clause;
pub mod equation;
pub mod follow_section;
pub mod loops;
pub mod state;
pub mod statement;
pub mod target;
