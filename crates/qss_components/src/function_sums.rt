//! The sum of a function: the slope of its row at its inputs, or a number beyond all slopes if a
//! limit is exceeded.

ghost use Rattle.std.specs.Prelude.{◌≡◌, ◌<◌, ◌+◌, ◌-◌, ◌^◌, ◌≤◌, ◌*ℤ◌, length, All, pos, unsigned_abs};
ghost use Rattle.qss_components.specs.Prelude.{IsWithin, nearest_of, int_at, IsLevel, state_count, discrete_count, AreProducts, IsRow, products_of, mode_coefficient, coefficient_of};
ghost use Rattle.qss_components.specs.FunctionInputs.{input_value, input_levels, input_discretes, AreValued, AreInputs};
ghost use Rattle.qss_components.specs.Functions.{sum_at};

use crate::function_inputs::{FunctionInput, value_of_input};
use mu_num::{WEIGHT_BITS, exceeds_power_of_two, near_div, unit};
use qss_machine::{Machine, Product, SlopeRow, slope_term};

/// One more than the greatest slope.
const PAST_SLOPES: i128 = (1 << 88) + 1;

/// The slope of a row at these inputs, or one more than the greatest slope if a mode coefficient or
/// the absolute row sum exceeds its limit.
pub(crate) fn slope_at_inputs(m: &Machine, row: u32, inputs: &[FunctionInput]) -> i128
    requires row { row < state_count m.now }
    requires inputs { AreInputs m.now row inputs.now }
    ensures { result ≡ sum_at m.now row
        (input_levels m.now inputs.now) (input_discretes m.now inputs.now) }
{
    let right_side = &m.rows.as_slice()[row as usize];
    let mut slope: i128 = 0;
    let mut weight: i128 = 0;
    for input in inputs {
        let mode = function_mode(m, right_side, inputs, *input);
        if exceeds_power_of_two(mode, 44) {
            return PAST_SLOPES;
        }
        let term = function_mode_term(mode, input.value);
        slope += term;
        weight += term.abs();
    }
    if exceeds_power_of_two(weight + right_side.beta.abs(), WEIGHT_BITS) {
        PAST_SLOPES
    } else {
        slope + right_side.beta
    }
}

// The mode coefficient of a state, or the coefficient of a discrete variable.
fn function_mode(
    m: &Machine,
    row: &SlopeRow,
    inputs: &[FunctionInput],
    input: FunctionInput,
) -> i128
    requires row { IsRow (state_count m.now) (discrete_count m.now) row.now }
    requires inputs { AreValued inputs.now }
    requires own { input.coef ≡ coefficient_of row.now.entries input.var }
    ensures value { result ≡ mode_coefficient m.now.f (state_count m.now) row.now
        (input_discretes m.now inputs.now) input.var }
    ensures bound { IsWithin 112 result }
{
    let own = i128::from(input.coef);
    if row.products.as_slice().is_empty() {
        return own;
    }
    own + rounded_function_products(m, row, inputs, input.var)
}

// The sum of the products of a state, rounded to units of 2^-p.
fn rounded_function_products(
    m: &Machine,
    row: &SlopeRow,
    inputs: &[FunctionInput],
    state: u32,
) -> i128
    requires row { IsRow (state_count m.now) (discrete_count m.now) row.now }
    requires inputs { AreValued inputs.now }
    ensures value { result ≡ nearest_of (products_of row.now.products (state_count m.now)
        (input_discretes m.now inputs.now) state) (pos (2 ^ m.now.f)) }
    ensures bound { unsigned_abs result ≤ 2 ^ 111 + 2 ^ 24 }
{
    let sum = sum_function_products(m, row.products.as_slice(), inputs, state);
    near_div(sum, unit(m.f))
}

// The sum of the products of a state, each times the value of its discrete variable. It finds the
// first product by binary search.
fn sum_function_products(
    m: &Machine,
    products: &[Product],
    inputs: &[FunctionInput],
    state: u32,
) -> i128
    requires count_limit { length products.now ≤ 2 ^ 24 }
    requires products { AreProducts (state_count m.now) (discrete_count m.now) products.now }
    requires size_limit { All (λ product. IsWithin 44 product.coef) products.now }
    requires inputs { AreValued inputs.now }
    ensures value { result
        ≡ products_of products.now (state_count m.now) (input_discretes m.now inputs.now) state }
    ensures bound { IsWithin 111 result }
{
    let from = products.partition_point(|product| product.state < state);
    let mut sum: i128 = 0;
    for product in &products[from..] {
        if product.state != state {
            return sum;
        }
        sum += function_product_term(*product, inputs);
    }
    sum
}

// The coefficient of a product times the value of its discrete variable.
fn function_product_term(product: Product, inputs: &[FunctionInput]) -> i128
    requires size_limit { IsWithin 44 product.coef }
    requires inputs { AreValued inputs.now }
    ensures value { result ≡ product.coef *ℤ input_value inputs.now product.discrete }
    ensures bound { unsigned_abs result ≤ 2 ^ 87 }
{
    slope_term(product.coef, value_of_input(inputs, product.discrete))
}

// A mode coefficient times a level, or a coefficient times a discrete value.
fn function_mode_term(mode: i128, value: i64) -> i128
    requires mode { IsWithin 44 mode }
    requires value { IsLevel value }
    ensures value { result ≡ mode *ℤ value }
    ensures bound { unsigned_abs result ≤ 2 ^ 87 }
{
    mode * i128::from(value)
}
