//! Builds the affine system of a machine without clauses: the matrix of coefficients, the constant
//! parts and the quanta.

ghost use Rattle.std.specs.Prelude.{◌≡◌, ◌<◌, ℕ, length};
ghost use Rattle.cert_check.specs.Prelude.{state_count, quanta, start_coefficient, start_constant_part, table, IsSquare};
ghost use Rattle.cert_check.specs.CertificateData.{system};
ghost use Rattle.cert_check.specs.Scope.{IsInScope};
ghost use Rattle.cert_check.specs.Systems.{start_matrix, start_drives, system_of};

use crate::affine_data::AffineSystem;
use crate::column::Column;
use crate::start_rows::{slope_at_zero_levels, start_mode_coefficient};
use cert_matrix::Matrix;
use qss_machine::Machine;

/// The affine system of a machine without clauses and with 1 to 16 states.
#[inline(never)]
pub fn affine_system(m: &Machine) -> AffineSystem
    requires { IsInScope m.now }
    ensures size { result.n ≡ state_count m.now }
    ensures coef { length result.coef ≡ state_count m.now }
    ensures system { system result ≡ system_of m.now }
{
    let n = m.states.as_slice().len() as u8;
    AffineSystem {
        n,
        coef: affine_coefficients(m, n),
        constant: affine_constants(m),
        quantum: affine_quanta(m),
        unit: m.level_unit(),
        share: i128::from(m.relative),
    }
}

/// The matrix of the coefficients between states, at the start.
fn affine_coefficients(m: &Machine, n: u8) -> Matrix
    requires scope { IsInScope m.now }
    requires size { n ≡ state_count m.now }
    ensures { result ≡ start_matrix m.now }
{
    let mut coef = Matrix::new(n);
    for j in 0..n {
        write_row(m, &mut coef, j);
    }
    coef
}

/// Writes the coefficients of row `j` at the start into `coef`.
fn write_row(m: &Machine, coef: &mut Matrix, j: u8)
    requires scope { IsInScope m.now }
    requires size { length coef.old ≡ state_count m.now }
    requires row { j < state_count m.now }
    ensures size { length coef.new ≡ state_count m.now }
    ensures square { IsSquare coef.new }
    ensures row { (k : ℕ) → k < state_count m.now
        → table coef.new j k ≡ start_coefficient m.now j k }
    ensures others { (i k : ℕ) → i < j
        → k < state_count m.now
        → table coef.new i k ≡ table coef.old i k }
{
    let row = &m.rows.as_slice()[usize::from(j)];
    for k in 0..coef.size() {
        let coefficient = start_mode_coefficient(m, row, u32::from(k));
        coef.set(j, k, coefficient);
    }
}

/// The constant part of each slope: the slope at levels 0, at the start.
fn affine_constants(m: &Machine) -> Column
    requires { IsInScope m.now }
    ensures { result ≡ start_drives m.now }
{
    let mut constant = Column::new();
    for row in m.rows.as_slice() {
        constant.push(slope_at_zero_levels(m, row));
    }
    constant
}

/// The quanta of the states, in levels.
fn affine_quanta(m: &Machine) -> Column
    requires { IsInScope m.now }
    ensures { result ≡ quanta m.now }
{
    let mut quantum = Column::new();
    for state in m.states.as_slice() {
        quantum.push(i128::from(state.quantum));
    }
    quantum
}
