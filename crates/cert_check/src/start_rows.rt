//! Coefficients and constants of a machine's rows, at the start values of the discrete variables.
//! Each value is read from the machine, so that no list of them is on the stack.

ghost use Rattle.std.specs.Prelude.{◌≡◌, ◌<◌, ◌≤◌, ◌+◌, ◌-◌, ◌^◌, ◌*ℤ◌, unsigned_abs};
ghost use Rattle.cert_check.specs.Prelude.{IsWithin, int_at, IsRow, state_count, discrete_count, start_discretes, products_of, mode_coefficient, constant_part};

use mu_num::{near_div, unit};
use qss_machine::{Machine, SlopeRow, entry_coefficient, slope_term};

/// Returns the mode coefficient of a state in a row of the machine, at the start.
pub(crate) fn start_mode_coefficient(m: &Machine, row: &SlopeRow, state: u32) -> i128
    requires { IsRow (state_count m.now) (discrete_count m.now) row.now }
    ensures { result
        ≡ mode_coefficient m.now.f (state_count m.now) row.now (start_discretes m.now) state }
{
    let own = entry_coefficient(row.entries.as_slice(), state);
    let products = sum_start_products(m, row, state);
    own + near_div(products, unit(m.f))
}

/// Returns the slope of a row of the machine at levels 0, at the start.
pub(crate) fn slope_at_zero_levels(m: &Machine, row: &SlopeRow) -> i128
    requires { IsRow (state_count m.now) (discrete_count m.now) row.now }
    ensures { result ≡ constant_part (state_count m.now) row.now (start_discretes m.now) }
{
    let states = m.states.as_slice().len();
    let mut sum: i128 = 0;
    for entry in row.entries.as_slice() {
        if (entry.var as usize) < states {
            continue;
        }
        sum += start_term(m, entry.coef, entry.var);
    }
    sum + row.beta
}

/// Returns the sum of a state's products, each times the start value of its discrete variable.
fn sum_start_products(m: &Machine, row: &SlopeRow, state: u32) -> i128
    requires { IsRow (state_count m.now) (discrete_count m.now) row.now }
    ensures value { result
        ≡ products_of row.now.products (state_count m.now) (start_discretes m.now) state }
    ensures bound { unsigned_abs result ≤ 2 ^ 111 }
{
    let mut sum: i128 = 0;
    for product in row.products.as_slice() {
        if product.state != state {
            continue;
        }
        sum += start_term(m, product.coef, product.discrete);
    }
    sum
}

/// Returns a coefficient times the start value of a discrete variable.
fn start_term(m: &Machine, coef: i64, var: u32) -> i128
    requires size_limit { IsWithin 44 coef }
    requires from { state_count m.now ≤ var }
    requires to { var < state_count m.now + discrete_count m.now }
    ensures value { result ≡ coef *ℤ int_at (start_discretes m.now) (var - state_count m.now) }
    ensures bound { unsigned_abs result ≤ 2 ^ 87 }
{
    let place = var as usize - m.states.as_slice().len();
    slope_term(coef, m.discretes.as_slice()[place].d0)
}
