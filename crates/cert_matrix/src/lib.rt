//! Square matrices of whole numbers, quadratic forms, and sums with a range check.
//! Main items: `Matrix`, `RangedSum`, and `gram_test`, a test for positive semidefinite matrices.
//! Depends on the arithmetic of mu_num.
#![tactic(auto)]

mod gram;
mod heap_matrix;
mod matrix;
mod ranged_sum;
mod weighing;

pub use gram::{RowSides, Test, gram_row, gram_test};
pub use heap_matrix::HeapMatrix;
pub use matrix::{Matrix, quad};
pub use ranged_sum::RangedSum;
pub use weighing::weigh;
