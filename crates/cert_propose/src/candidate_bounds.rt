//! Step 4 of the proposal: the lower bounds p of V, and the bounds mu and lambda of the decrease of
//! V.

ghost use Rattle.std.specs.Prelude.{◌≡◌, ◌<◌, ◌≤◌, ◌≤ℤ◌, pos, length};
ghost use Rattle.cert_propose.specs.Prelude.{table, vector, system};
ghost use Rattle.cert_propose.specs.ProposalLimits.{IsFormed};
ghost use Rattle.cert_propose.specs.Candidate as Step;

use crate::candidate_matrices::{
    add_candidate_negatives, candidate_column_of, candidate_diagonal_surpluses,
    candidate_matrix_by, candidate_matrix_product, candidate_row_sizes, double_candidate_column,
    subtract_candidate_columns,
};
use cert_check::{AffineSystem, Column};
use cert_matrix::Matrix;
use mu_num::floor_div;

/// The lower bounds p of V, the bounds mu and lambda of its decrease, and the matrix P A (`pa`).
#[derive(Drop)]
pub(crate) struct Bounds {
    pub pa: Matrix,
    pub p: Column,
    pub lambda: i128,
    pub mu: Column,
}

/// The lower bounds of V with the matrix P. `None` if a sum is out of range.
#[inline(never)]
pub(crate) fn search_bounds(m: &AffineSystem, pm: &Matrix) -> Option<Bounds>
    requires formed { IsFormed m.now }
    requires size { length pm.now ≡ m.now.n }
    ensures { result ≡ Step.bounds_of (system m.now) pm.now }
{
    let p = candidate_diagonal_surpluses(pm)?;
    let pa = candidate_matrix_product(pm, &m.coef)?;
    let t = bounds_decrease_surpluses(&pa)?;
    let sizes = candidate_row_sizes(pm)?;
    find_decrease_bounds(raise_bounds(m.n, &p), pa, &t, &sizes)
}

// t: the diagonal entries of the decrease matrix less its off-diagonal absolute row sums. It is not
// inlined, so that the decrease matrix is not in the stack frame of the caller.
#[inline(never)]
fn bounds_decrease_surpluses(pa: &Matrix) -> Option<Column>
    ensures { result ≡ Step.falls_over (length pa.now) pa.now }
{
    let falls = bounds_decrease_matrix(pa)?;
    candidate_diagonal_surpluses(&falls)
}

// The matrix -(P A + A^T P) of the decrease of V.
#[inline(never)]
fn bounds_decrease_matrix(pa: &Matrix) -> Option<Matrix>
    ensures { result ≡ Step.decrease_of (length pa.now) pa.now }
{
    candidate_matrix_by(
        pa.size(),
        |i, j| add_candidate_negatives(pa.get(i, j), pa.get(j, i)),
    )
}

// The bounds lambda and mu, by t and by the absolute row sums of P.
fn find_decrease_bounds(p: Column, pa: Matrix, t: &Column, sizes: &Column) -> Option<Bounds>
    ensures { result ≡ Step.decrease_bounds (length pa) p pa t.now sizes.now }
{
    let n = pa.size();
    let doubles = double_candidate_column(n, sizes)?;
    let lambda = bounds_decrease_rate(n, t, &doubles);
    let mu = bounds_remaining_decrease(n, t, sizes, lambda)?;
    Some(Bounds { pa, p, lambda, mu })
}

// lambda: the least quotient of t and twice an absolute row sum of P, rounded down, at least 1.
fn bounds_decrease_rate(n: u8, t: &Column, doubles: &Column) -> i128
    ensures { result ≡ Step.rate_of n t.now doubles.now }
{
    let mut least = bounds_decrease_quotient(t, doubles, 0);
    for i in 0..n {
        least = least.min(bounds_decrease_quotient(t, doubles, i));
    }
    least.max(1)
}

// t divided by twice the absolute row sum of row `i` of P, rounded down.
fn bounds_decrease_quotient(t: &Column, doubles: &Column, i: u8) -> i128
    ensures { result ≡ Step.quotient_at t.now doubles.now i }
{
    floor_div(t.at(i), doubles.at(i).max(1))
}

// mu: t less lambda times the absolute row sums of P, each at least 1.
fn bounds_remaining_decrease(n: u8, t: &Column, sizes: &Column, lambda: i128) -> Option<Column>
    requires { n ≤ 16 }
    ensures { result ≡ Step.remaining_decrease n t.now sizes.now lambda }
{
    let rests = subtract_candidate_columns(n, t, lambda, sizes)?;
    Some(raise_bounds(n, &rests))
}

// The first `n` numbers of a column, each at least 1.
fn raise_bounds(n: u8, numbers: &Column) -> Column
    requires { n ≤ 16 }
    ensures { result ≡ Step.raised n numbers.now }
{
    candidate_column_of(n, |i| numbers.at(i).max(1))
}
