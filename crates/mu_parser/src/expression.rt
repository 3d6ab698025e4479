//! State machines for expressions and conditions.

pub mod condition;
pub mod machine;
