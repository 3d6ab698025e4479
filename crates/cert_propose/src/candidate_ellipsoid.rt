//! Step 6 of the proposal: the ellipsoid V <= C of the difference of two runs.

ghost use Rattle.std.specs.Prelude.{◌≡◌, ◌≤◌, length};
ghost use Rattle.cert_propose.specs.Prelude.{vector};
ghost use Rattle.cert_propose.specs.ProposalLimits.{AreBounds};
ghost use Rattle.cert_propose.specs.Candidate as Step;

use crate::candidate_basin::{basin_gains, basin_roots};
use crate::candidate_bounds::Bounds;
use crate::candidate_matrices::{
    double_candidate_column, multiply_candidate_sizes, sum_candidate_column,
};
use cert_check::Column;
use cert_matrix::Matrix;
use mu_num::ceil_div;

/// The ellipsoid V <= C of the difference of two runs (`cc`), with sigmaC (`sigma`) and E (`e`).
#[derive(Drop)]
pub(crate) struct Ellipsoid {
    pub cc: i128,
    pub sigma: Column,
    pub e: Column,
}

/// The ellipsoid for the level errors W. `None` if a sum is out of range.
#[inline(never)]
pub(crate) fn search_ellipsoid(n: u8, b: &Bounds, w: &Column) -> Option<Ellipsoid>
    requires { AreBounds n b.now }
    ensures { result ≡ Step.ellipsoid_of n b.now w.now }
{
    let gains = ellipsoid_pair_gains(&b.pa, w)?;
    let sigma = basin_gains(n, &b.mu, &gains)?;
    let sum = sum_candidate_column(n, &sigma)?;
    let cc = ceil_div(sum, b.lambda);
    let e = basin_roots(n, &b.p, &cc);
    Some(Ellipsoid { cc, sigma, e })
}

// The disturbance bounds gC of the difference of two runs, per tick.
fn ellipsoid_pair_gains(pa: &Matrix, w: &Column) -> Option<Column>
    ensures { result ≡ Step.pair_gains (length pa.now) pa.now w.now }
{
    let halves = multiply_candidate_sizes(&Column::new(), pa, w)?;
    double_candidate_column(pa.size(), &halves)
}
