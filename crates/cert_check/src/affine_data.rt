//! The affine system of a machine without clauses: its right side in whole numbers, at the start
//! values of the discrete variables.

ghost use Rattle.std.specs.Prelude.{◌^◌, ◌≤ℤ◌, ◌<ℤ◌, pos};

use crate::column::Column;
use cert_matrix::Matrix;

/// The affine system of a machine without clauses, at the start's discrete values.
/// In a tick a state changes by its row of `coef` times the levels plus `constant`.
/// `quantum` is in levels.
/// `unit` is the size of a level in units of a state. `share` is the relative quantum, in 4096ths.
#[derive(Drop)]
pub struct AffineSystem {
    pub n: u8,
    pub coef: Matrix,
    pub constant: Column,
    pub quantum: Column,
    pub unit: i128,
    pub share: i128,
    ghost positive: { pos 0 <ℤ unit },
    ghost small: { unit ≤ℤ pos (2 ^ 44) },
}
