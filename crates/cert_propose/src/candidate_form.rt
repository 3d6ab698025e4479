//! Step 3 of the proposal: the matrix P of V, by fixed-point iteration of a discrete Lyapunov
//! equation.

ghost use Rattle.std.specs.Prelude.{◌≡◌, ◌<◌, ◌≤◌, ◌^◌, ◌*◌, ◌+ℤ◌, pos, length};
ghost use Rattle.cert_propose.specs.Prelude.{nearest_of, table, zeros, system, option_and_then};
ghost use Rattle.cert_propose.specs.ProposalLimits.{IsFormed, AreSmall};
ghost use Rattle.cert_propose.specs.RangedSums.{ranged_sum, product_of, repeated};
ghost use Rattle.cert_propose.specs.Candidate as Step;

use crate::candidate_exponent::power_of_exponent;
use crate::candidate_matrices::{
    add_candidate_terms, candidate_matrix_by, candidate_matrix_of, candidate_matrix_product,
};
use cert_check::AffineSystem;
use cert_matrix::Matrix;
use mu_num::near_div;

/// P after 4,096 rounds from 0. `None` if a sum is out of range.
#[inline(never)]
pub(crate) fn search_form(m: &AffineSystem, q: u8) -> Option<Matrix>
    requires formed { IsFormed m.now }
    requires size_limit { AreSmall (system m.now) }
    requires count_limit { q < 64 }
    ensures { result ≡ Step.form_matrix (system m.now) q }
{
    let phi = form_shifted_matrix(m, q);
    let columns = transpose_form_matrix(&phi);
    repeat_form_rounds(q, &phi, &columns)
}

// The matrix Phi = 2^q I + A.
#[inline(never)]
fn form_shifted_matrix(m: &AffineSystem, q: u8) -> Matrix
    requires formed { IsFormed m.now }
    requires size_limit { AreSmall (system m.now) }
    requires count_limit { q < 64 }
    ensures { result ≡ Step.shifted (system m.now) q }
{
    candidate_matrix_of(m.n, |i, j| form_shifted_entry(m, q, i, j))
}

// Entry (`i`, `j`) of Phi = 2^q I + A.
fn form_shifted_entry(m: &AffineSystem, q: u8, i: u8, j: u8) -> i128
    requires formed { IsFormed m.now }
    requires size_limit { AreSmall (system m.now) }
    requires count_limit { q < 64 }
    requires row { i < m.now.n }
    requires column { j < m.now.n }
    ensures { result ≡ Step.on_diagonal (pos (2 ^ q)) i j +ℤ table m.now.coef i j }
{
    form_diagonal_entry(power_of_exponent(q), i, j) + m.coef.get(i, j)
}

// The number if (`i`, `j`) is on the diagonal, else 0.
fn form_diagonal_entry(number: i128, i: u8, j: u8) -> i128
    ensures { result ≡ Step.on_diagonal number i j }
{
    if i == j { number } else { 0 }
}

// The transpose.
#[inline(never)]
fn transpose_form_matrix(m: &Matrix) -> Matrix
    ensures { result ≡ Step.turned (length m.now) m.now }
{
    candidate_matrix_of(m.size(), |i, j| m.get(j, i))
}

// P after 4,096 rounds from 0.
#[inline(never)]
fn repeat_form_rounds(q: u8, phi: &Matrix, columns: &Matrix) -> Option<Matrix>
    requires count_limit { q < 64 }
    requires columns { columns.now ≡ Step.turned (length phi.now) phi.now }
    ensures { result
        ≡ repeated 4096 (Step.form_round (length phi.now) q phi.now) (zeros (length phi.now)) }
{
    let mut p = Matrix::new(phi.size());
    for _round in 0..4096u16 {
        match form_round(q, phi, columns, &p) {
            Some(next) => p = next,
            None => return None,
        }
    }
    Some(p)
}

// One round: 1024 I + Phi^T P Phi / 2^(2q). It and its parts are not inlined, so that each stack
// frame holds few matrices.
#[inline(never)]
fn form_round(q: u8, phi: &Matrix, columns: &Matrix, p: &Matrix) -> Option<Matrix>
    requires count_limit { q < 64 }
    requires size { length phi.now ≡ length p.now }
    requires columns { columns.now ≡ Step.turned (length p.now) phi.now }
    ensures { result ≡ Step.form_round (length p.now) q phi.now p.now }
{
    let right = candidate_matrix_product(p, phi)?;
    form_round_from(q, columns, &right)
}

// The end of a round: 1024 I + X Y / 2^(2q), where X is Phi^T and Y is P Phi.
#[inline(never)]
fn form_round_from(q: u8, columns: &Matrix, right: &Matrix) -> Option<Matrix>
    requires count_limit { q < 64 }
    requires size { length columns.now ≡ length right.now }
    ensures { result
        ≡ option_and_then (Step.next_form (length right.now) (pos (2 ^ (2 * q))))
        (product_of (length right.now) (table columns.now) (table right.now)) }
{
    let both = candidate_matrix_product(columns, right)?;
    next_form(q, &both)
}

// The matrix 1024 I + Y / 2^(2q), rounded to the nearest.
#[inline(never)]
fn next_form(q: u8, y: &Matrix) -> Option<Matrix>
    requires { q < 64 }
    ensures { result ≡ Step.next_form (length y.now) (pos (2 ^ (2 * q))) y.now }
{
    candidate_matrix_by(y.size(), |i, j| next_form_entry(q, y, i, j))
}

// Entry (`i`, `j`) of 1024 I + Y / 2^(2q), rounded to the nearest.
fn next_form_entry(q: u8, y: &Matrix, i: u8, j: u8) -> Option<i128>
    requires count_limit { q < 64 }
    requires row { i < length y.now }
    requires column { j < length y.now }
    ensures { result
        ≡ ranged_sum (Step.on_diagonal (pos 1024) i j)
        (nearest_of (table y.now i j) (pos (2 ^ (2 * q)))) }
{
    add_candidate_terms(
        form_diagonal_entry(1024, i, j),
        near_div(y.get(i, j), power_of_exponent(2 * q)),
    )
}
