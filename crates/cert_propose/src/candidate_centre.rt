//! Step 2 of the proposal: the centre, by 4,096 rounds from 0, and the slopes if all levels are at
//! the centre.

ghost use Rattle.std.specs.Prelude.{◌≡◌, ◌<◌, ◌≤◌, ◌^◌, pos};
ghost use Rattle.cert_propose.specs.Prelude.{nearest_of, vector, system};
ghost use Rattle.cert_propose.specs.ProposalLimits.{IsFormed};
ghost use Rattle.cert_propose.specs.Candidate as Step;

use crate::candidate_exponent::power_of_exponent;
use crate::candidate_matrices::{
    add_candidate_columns, candidate_column_of, multiply_candidate_rows,
};
use cert_check::{AffineSystem, Column};
use mu_num::near_div;

/// The centre after 4,096 rounds from 0. `None` if a sum is out of range.
#[inline(never)]
pub(crate) fn search_centre(m: &AffineSystem, q: u8) -> Option<Column>
    requires formed { IsFormed m.now }
    requires count_limit { q < 64 }
    ensures { result ≡ Step.centre (system m.now) q }
{
    let mut c = candidate_column_of(m.n, |_i| 0);
    for _round in 0..4096u16 {
        c = next_centre_round(m, q, &c)?;
    }
    Some(c)
}

// One round of fixed-point iteration: c plus the slope at c divided by 2^q.
fn next_centre_round(m: &AffineSystem, q: u8, c: &Column) -> Option<Column>
    requires formed { IsFormed m.now }
    requires count_limit { q < 64 }
    ensures { result ≡ Step.centre_round (system m.now) q c.now }
{
    let slopes = centre_rest_slopes(m, c)?;
    add_candidate_columns(m.n, c, &nearest_centre_column(m.n, &slopes, q))
}

/// The slopes if all levels are at the centre.
pub(crate) fn centre_rest_slopes(m: &AffineSystem, c: &Column) -> Option<Column>
    requires { IsFormed m.now }
    ensures { result ≡ Step.rest_slopes (system m.now) c.now }
{
    multiply_candidate_rows(&m.constant, &m.coef, c)
}

// The first `n` numbers of a column divided by 2^q, rounded to the nearest.
fn nearest_centre_column(n: u8, numbers: &Column, q: u8) -> Column
    requires states { n ≤ 16 }
    requires count_limit { q < 64 }
    ensures { result ≡ Step.nearest_each n numbers.now (pos (2 ^ q)) }
{
    candidate_column_of(n, |i| nearest_centre_number(numbers, q, i))
}

// The number at index `i` divided by 2^q, rounded to the nearest.
fn nearest_centre_number(numbers: &Column, q: u8, i: u8) -> i128
    requires { q < 64 }
    ensures { result ≡ nearest_of (vector numbers.now i) (pos (2 ^ q)) }
{
    near_div(numbers.at(i), power_of_exponent(q))
}
