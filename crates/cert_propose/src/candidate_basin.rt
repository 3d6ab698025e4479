//! Step 5 of the proposal: the invariant set V(x - c) <= R of one run, and the bounds that follow
//! from R. The computation begins with the least R that contains the start, and has 64 rounds.

ghost use Rattle.std.specs.Prelude.{◌≡◌, ◌<◌, ◌≤◌, ◌^◌, ◌≤ℤ◌, pos, length, ℕ, IfSome};
ghost use Rattle.cert_propose.specs.Prelude.{ceiling_of, table, vector, system};
ghost use Rattle.cert_propose.specs.ProposalLimits.{IsFormed, IsBound, AreBounds, ArePositive};
ghost use Rattle.cert_propose.specs.RangedSums.{root_up_of};
ghost use Rattle.cert_propose.specs.Candidate as Step;

use crate::candidate_bounds::Bounds;
use crate::candidate_centre::centre_rest_slopes;
use crate::candidate_matrices::{
    add_candidate_columns, candidate_column_of, candidate_dot_product, multiply_candidate_rows,
    multiply_candidate_sizes, squares, subtract_candidate_columns, sum_candidate_column,
};
use cert_check::{AffineSystem, Column};
use cert_matrix::Matrix;
use mu_num::{ceil_div, root_up};

/// The bounds that follow from R, in levels: Z (distance from the centre), S (change in a tick) and
/// W = Q + S (distance from the level one tick before). `sigma` is the addition to V in a tick.
#[derive(Drop)]
pub(crate) struct Reach {
    pub z: Column,
    pub s: Column,
    pub w: Column,
    pub sigma: Column,
}

/// The invariant set V(x - c) <= R, with the bounds that follow from R.
#[derive(Drop)]
pub(crate) struct Basin {
    pub r: i128,
    pub reach: Reach,
}

/// The invariant set, after 64 rounds. `None` if a sum is out of range.
#[inline(never)]
pub(crate) fn search_basin(
    m: &AffineSystem,
    start: &Column,
    c: &Column,
    pm: &Matrix,
    b: &Bounds,
) -> Option<Basin>
    requires formed { IsFormed m.now }
    requires size { length pm.now ≡ m.now.n }
    requires bounds { AreBounds m.now.n b.now }
    ensures { result ≡ Step.basin_of (system m.now) (vector start.now) c.now pm.now b.now }
{
    let least = start_basin(m, start, c, pm)?;
    let r = grow_basin_radius(m, c, pm, b, &least)?;
    let reach = basin_reach(m, c, pm, b, &r)?;
    Some(Basin { r, reach })
}

// The least R, in squares of levels, that contains the start.
fn start_basin(m: &AffineSystem, start: &Column, c: &Column, pm: &Matrix) -> Option<i128>
    requires formed { IsFormed m.now }
    requires size { length pm.now ≡ m.now.n }
    ensures { result ≡ Step.start_basin (system m.now) (vector start.now) c.now pm.now }
{
    let value = basin_start_value(m, start, c, pm)?;
    Some(ceil_div(value, m.unit * m.unit).max(0))
}

// V of the start less the centre, in squared units of states.
fn basin_start_value(m: &AffineSystem, start: &Column, c: &Column, pm: &Matrix) -> Option<i128>
    requires formed { IsFormed m.now }
    requires size { length pm.now ≡ m.now.n }
    ensures { result ≡ Step.start_value (system m.now) (vector start.now) c.now pm.now }
{
    let y = subtract_candidate_columns(m.n, start, m.unit, c)?;
    let z = multiply_candidate_rows(&Column::new(), pm, &y)?;
    candidate_dot_product(m.n, &y, &z)
}

// R after 64 rounds from a start value.
fn grow_basin_radius(
    m: &AffineSystem,
    c: &Column,
    pm: &Matrix,
    b: &Bounds,
    start: &i128,
) -> Option<i128>
    requires formed { IsFormed m.now }
    requires size { length pm.now ≡ m.now.n }
    requires bounds { AreBounds m.now.n b.now }
    requires basin { IsBound start.now }
    ensures { result ≡ Step.grown_radius (system m.now) c.now pm.now b.now start.now }
{
    let mut r = *start;
    for _round in 0..64u8 {
        r = basin_round(m, c, pm, b, &r)?;
    }
    Some(r)
}

// One round: R is at least the sum of sigmaR divided by lambda.
fn basin_round(m: &AffineSystem, c: &Column, pm: &Matrix, b: &Bounds, r: &i128) -> Option<i128>
    requires formed { IsFormed m.now }
    requires size { length pm.now ≡ m.now.n }
    requires bounds { AreBounds m.now.n b.now }
    requires basin { IsBound r.now }
    ensures { result ≡ Step.basin_round (system m.now) c.now pm.now b.now r.now }
{
    let reach = basin_reach(m, c, pm, b, r)?;
    let sum = sum_candidate_column(m.n, &reach.sigma)?;
    Some(ceil_div(sum, b.lambda).max(*r))
}

// The bounds that follow from R.
fn basin_reach(m: &AffineSystem, c: &Column, pm: &Matrix, b: &Bounds, r: &i128) -> Option<Reach>
    requires formed { IsFormed m.now }
    requires size { length pm.now ≡ m.now.n }
    requires bounds { AreBounds m.now.n b.now }
    requires basin { IsBound r.now }
    ensures { result ≡ Step.reach_of (system m.now) c.now pm.now b.now r.now }
{
    let rho = centre_rest_slopes(m, c)?;
    basin_reach_from(m, pm, b, &rho, basin_roots(m.n, &b.p, r))
}

// The bounds that follow from Z.
fn basin_reach_from(
    m: &AffineSystem,
    pm: &Matrix,
    b: &Bounds,
    rho: &Column,
    z: Column,
) -> Option<Reach>
    requires formed { IsFormed m.now }
    requires size { length pm.now ≡ m.now.n }
    requires bounds { AreBounds m.now.n b.now }
    ensures { result ≡ Step.reach_from (system m.now) pm.now b.now rho.now z }
{
    let s = basin_moves(m, rho, &z)?;
    let w = add_candidate_columns(m.n, &m.quantum, &s)?;
    let gains = basin_centre_gains(pm, &b.pa, rho, &w)?;
    let sigma = basin_gains(m.n, &b.mu, &gains)?;
    Some(Reach { z, s, w, sigma })
}

// S: the largest change of each state in a tick, in levels, if the slopes at the centre are rho and
// states are within Z of the centre.
fn basin_moves(m: &AffineSystem, rho: &Column, z: &Column) -> Option<Column>
    requires { IsFormed m.now }
    ensures { result ≡ Step.moves_of (system m.now) rho.now z.now }
{
    let reaches = add_candidate_columns(m.n, z, &m.quantum)?;
    let slopes = multiply_candidate_sizes(rho, &m.coef, &reaches)?;
    Some(basin_ceilings(m.n, &slopes, &m.unit))
}

// Each number divided by d, rounded up.
fn basin_ceilings(n: u8, numbers: &Column, d: &i128) -> Column
    requires count_limit { n ≤ 16 }
    requires divisor { pos 1 ≤ℤ d.now }
    ensures { result ≡ Step.ceiling_each n numbers.now (λ i. d.now) }
{
    candidate_column_of(n, |i| ceil_div(numbers.at(i), *d))
}

// The disturbance bounds gR about the centre, per tick.
fn basin_centre_gains(pm: &Matrix, pa: &Matrix, rho: &Column, w: &Column) -> Option<Column>
    requires { length pa.now ≡ length pm.now }
    ensures { result ≡ Step.centre_gains (length pm.now) pm.now pa.now rho.now w.now }
{
    let rests = multiply_candidate_rows(&Column::new(), pm, rho)?;
    multiply_candidate_sizes(&rests, pa, w)
}

/// The squares of the disturbance bounds divided by mu, rounded up.
pub(crate) fn basin_gains(n: u8, mu: &Column, gains: &Column) -> Option<Column>
    requires count_limit { n ≤ 16 }
    requires positive { ArePositive n (vector mu.now) }
    ensures { result ≡ Step.gains_over n mu.now gains.now }
{
    let squares = squares(n, gains)?;
    Some(candidate_column_of(n, |i| ceil_div(squares.at(i), mu.at(i))))
}

/// The square root of `z` divided by each entry of `p`, rounded up.
pub(crate) fn basin_roots(n: u8, p: &Column, z: &i128) -> Column
    requires count_limit { n ≤ 16 }
    requires positive { ArePositive n (vector p.now) }
    requires bound { IsBound z.now }
    ensures { result ≡ Step.roots_over n p.now z.now }
{
    candidate_column_of(n, |k| basin_root(p, z, k))
}

// The square root of `z` divided by entry `k` of `p`, rounded up.
fn basin_root(p: &Column, z: &i128, k: u8) -> i128
    requires positive { pos 1 ≤ℤ vector p.now k }
    requires bound { IsBound z.now }
    ensures { result ≡ root_up_of (ceiling_of z.now (vector p.now k)) }
{
    root_up(ceil_div(*z, p.at(k)))
}
