//! Evaluates the row of a state at levels and discrete values: its slope, its mode coefficients and
//! its absolute row sum. Powers of 2 are computed by 64-bit shifts, which cost less than 128-bit
//! shifts.

ghost use Rattle.std.specs.Prelude.{◌≡◌, ◌+◌, ◌*◌, ◌^◌, ◌<◌, ◌≤◌, ◌*ℤ◌, ◌+ℤ◌, ◌-◌, ◌++◌, ◌==◌, if◌then◌else◌, ◌&&◌, ◌-ℤ◌, ℕ, length, All, IsTrue, pos, unsigned_abs, map, not};
ghost use Rattle.qss_machine.specs.Prelude.{nearest_of, IsWithin, exceeds, int_at, sum_below, abs_of, sum_over, variable_limit, bits_of_weight, IsLevel, AreLevels, IsState, IsStrictlyIncreasing};
ghost use Rattle.qss_machine.specs.MachineLimits.{IsRow, AreProducts};
ghost use Rattle.qss_machine.specs.Slopes.{products_of, mode_fits, slope_of, coefficient_of, mode_coefficient, weighted_sum, weight_of};

use crate::form_values::add_form_parts;
use crate::machine_parts::{Entry, Product, SlopeRow};
use mu_num::{WEIGHT_BITS, exceeds_power_of_two, near_div};

/// Returns the slope of a row at these levels and discrete values, in units of 2^-(f+p+k).
pub(crate) fn row_slope(row: &SlopeRow, level_bits: u8, levels: &[i64], discretes: &[i64]) -> i128
    requires bits { level_bits ≤ 24 }
    requires count_limit { length levels.now + length discretes.now ≤ variable_limit }
    requires row { IsRow (length levels.now) (length discretes.now) row.now }
    requires levels { AreLevels levels.now }
    requires discretes { AreLevels discretes.now }
    requires modes { IsTrue (mode_fits level_bits (length levels.now) row.now discretes.now) }
    ensures value { result ≡ slope_of level_bits row.now levels.now discretes.now }
    ensures bound { IsWithin 101 result }
{
    let own = sum_slope_entries(row.entries.as_slice(), levels, discretes);
    let products = product_slope(row, level_bits, levels, discretes);
    add_form_parts(own, products, row.beta)
}

/// Returns whether the row is within its limits at these levels and discrete values: mode
/// coefficients at most 2^44 in size, absolute row sum at most 2^88.
pub fn is_row_in_limits(row: &SlopeRow, level_bits: u8, levels: &[i64], discretes: &[i64]) -> bool
    requires bits { level_bits ≤ 24 }
    requires count_limit { length levels.now + length discretes.now ≤ variable_limit }
    requires row { IsRow (length levels.now) (length discretes.now) row.now }
    requires levels { AreLevels levels.now }
    requires discretes { AreLevels discretes.now }
    ensures { result
        ≡ (mode_fits level_bits (length levels.now) row.now discretes.now
        && not (exceeds bits_of_weight (weight_of level_bits row.now levels.now discretes.now))) }
{
    row_modes_fit(row, level_bits, levels.len(), discretes)
        && !exceeds_power_of_two(
            absolute_row_sum(row, level_bits, levels, discretes),
            WEIGHT_BITS,
        )
}

/// Returns the coefficient of a variable, or 0 if no entry is of it.
pub fn entry_coefficient(entries: &[Entry], var: u32) -> i128
    requires count_limit { length entries.now ≤ 2 ^ 32 }
    ensures value { result ≡ coefficient_of entries.now var }
    ensures bound { IsWithin 95 result }
{
    let mut sum: i128 = 0;
    for entry in entries {
        sum += slope_entry_coefficient(*entry, var);
    }
    sum
}

/// Returns the sum of the entries' coefficients times the values of their variables.
pub(crate) fn sum_slope_entries(entries: &[Entry], first: &[i64], second: &[i64]) -> i128
    requires count_limit { length entries.now ≤ variable_limit }
    requires size_limit { All (λ entry. IsWithin 44 entry.coef) entries.now }
    requires known { All (λ entry. entry.var < length first.now + length second.now) entries.now }
    requires firsts { AreLevels first.now }
    requires seconds { AreLevels second.now }
    ensures value { result ≡ weighted_sum entries.now (first.now ++ second.now) }
    ensures bound { IsWithin 99 result }
{
    let mut sum: i128 = 0;
    for entry in entries {
        sum += slope_entry_term(*entry, first, second);
    }
    sum
}

/// Returns an entry's coefficient times the value of its variable.
pub(crate) fn slope_entry_term(entry: Entry, first: &[i64], second: &[i64]) -> i128
    requires size_limit { IsWithin 44 entry.coef }
    requires known { entry.var < length first.now + length second.now }
    requires firsts { AreLevels first.now }
    requires seconds { AreLevels second.now }
    ensures value { result ≡ entry.coef *ℤ int_at (first.now ++ second.now) entry.var }
    ensures bound { IsWithin 87 result }
{
    slope_term(
        entry.coef,
        slope_input_at(first, second, entry.var as usize),
    )
}

/// Multiplies a coefficient by a level or a discrete value.
pub fn slope_term(coef: i64, value: i64) -> i128
    requires coef { IsWithin 44 coef }
    requires value { IsLevel value }
    ensures value { result ≡ coef *ℤ value }
    ensures bound { IsWithin 87 result }
{
    i128::from(coef) * i128::from(value)
}

/// Returns the element at a place of two concatenated lists: levels, then discrete values.
pub fn slope_input_at(first: &[i64], second: &[i64], place: usize) -> i64
    requires place { place < length first.now + length second.now }
    requires firsts { AreLevels first.now }
    requires seconds { AreLevels second.now }
    ensures value { result ≡ int_at (first.now ++ second.now) place }
    ensures bound { IsLevel result }
{
    if place < first.len() {
        first[place]
    } else {
        second[place - first.len()]
    }
}

// Returns the sum, over the states with products, of the rounded products times the level.
fn product_slope(row: &SlopeRow, level_bits: u8, levels: &[i64], discretes: &[i64]) -> i128
    requires bits { level_bits ≤ 24 }
    requires count_limit { length levels.now + length discretes.now ≤ variable_limit }
    requires row { IsRow (length levels.now) (length discretes.now) row.now }
    requires levels { AreLevels levels.now }
    requires discretes { AreLevels discretes.now }
    requires modes { IsTrue (mode_fits level_bits (length levels.now) row.now discretes.now) }
    ensures value { result
        ≡ sum_below (length levels.now)
        (λ i. nearest_of (products_of row.now.products (length levels.now) discretes.now i)
        (pos (2 ^ level_bits)) *ℤ int_at levels.now i) }
    ensures bound { unsigned_abs result ≤ 2 ^ 100 }
{
    let mut sum: i128 = 0;
    let mut past = 0;
    for product in row.products.as_slice() {
        let state = product.state as usize;
        if state < past {
            continue;
        }
        sum += slope_product_at_level(row, level_bits, levels, discretes, state);
        past = state + 1;
    }
    sum
}

// Returns a state's rounded products times its level.
fn slope_product_at_level(
    row: &SlopeRow,
    level_bits: u8,
    levels: &[i64],
    discretes: &[i64],
    state: usize,
) -> i128
    requires bits { level_bits ≤ 24 }
    requires count_limit { length levels.now + length discretes.now ≤ variable_limit }
    requires row { IsRow (length levels.now) (length discretes.now) row.now }
    requires levels { AreLevels levels.now }
    requires discretes { AreLevels discretes.now }
    requires modes { IsTrue (mode_fits level_bits (length levels.now) row.now discretes.now) }
    requires state { state < length levels.now }
    ensures value { result
        ≡ nearest_of (products_of row.now.products (length levels.now) discretes.now state)
        (pos (2 ^ level_bits)) *ℤ int_at levels.now state }
    ensures bound { unsigned_abs result ≤ 2 ^ 88 }
{
    let rounded = rounded_row_products(row, level_bits, levels.len(), discretes, state as u32);
    wide_slope_term(rounded, levels[state])
}

/// Returns the sum of a state's products, rounded to units of 2^-p.
#[inline(always)]
pub(crate) fn rounded_row_products(
    row: &SlopeRow,
    level_bits: u8,
    state_count: usize,
    discretes: &[i64],
    state: u32,
) -> i128
    requires bits { level_bits ≤ 24 }
    requires count_limit { state_count + length discretes.now ≤ variable_limit }
    requires row { IsRow state_count (length discretes.now) row.now }
    requires size_limit { AreLevels discretes.now }
    ensures value { result
        ≡ nearest_of (products_of row.now.products state_count discretes.now state)
        (pos (2 ^ level_bits)) }
    ensures bound { unsigned_abs result ≤ 2 ^ 111 + 2 ^ 24 }
{
    let sum = sum_slope_products(row.products.as_slice(), state_count, discretes, state);
    if sum == 0 {
        return 0;
    }
    round_slope_products(sum, level_bits)
}

/// Returns the sum of a state's products, each times the value of its discrete variable. The case
/// of one product is inlined, because most rows with products have one.
#[inline(always)]
pub(crate) fn sum_slope_products(
    products: &[Product],
    first: usize,
    discretes: &[i64],
    state: u32,
) -> i128
    requires count_limit { length products.now ≤ 2 ^ 24 }
    requires products { AreProducts first (length discretes.now) products.now }
    requires size_limit { All (λ product. IsWithin 44 product.coef) products.now }
    requires values { AreLevels discretes.now }
    ensures value { result ≡ products_of products.now first discretes.now state }
    ensures bound { IsWithin 111 result }
{
    if products.len() == 1 {
        return slope_product_term_of(products[0], first, discretes, state);
    }
    sum_slope_products_halving(products, first, discretes, state)
}

// Returns a product's term if the product is of this state, else 0.
#[inline(always)]
fn slope_product_term_of(product: Product, first: usize, discretes: &[i64], state: u32) -> i128
    requires size_limit { IsWithin 44 product.coef }
    requires from { first ≤ product.discrete }
    requires to { product.discrete < first + length discretes.now }
    requires values { AreLevels discretes.now }
    ensures value { result
        ≡ (if product.state == state then product.coef
        *ℤ int_at discretes.now (product.discrete - first) else pos 0) }
    ensures bound { unsigned_abs result ≤ 2 ^ 87 }
{
    if product.state == state {
        slope_product_term(product, first, discretes)
    } else {
        0
    }
}

// Returns a product's coefficient times the value of its discrete variable.
fn slope_product_term(product: Product, first: usize, discretes: &[i64]) -> i128
    requires size_limit { IsWithin 44 product.coef }
    requires from { first ≤ product.discrete }
    requires to { product.discrete < first + length discretes.now }
    requires values { AreLevels discretes.now }
    ensures value { result ≡ product.coef *ℤ int_at discretes.now (product.discrete - first) }
    ensures bound { unsigned_abs result ≤ 2 ^ 87 }
{
    slope_term(
        product.coef,
        slope_input_at(discretes, &[], product.discrete as usize - first),
    )
}

// The general case of `sum_slope_products`. It finds the state's first product by binary search.
#[inline(never)]
fn sum_slope_products_halving(
    products: &[Product],
    first: usize,
    discretes: &[i64],
    state: u32,
) -> i128
    requires count_limit { length products.now ≤ 2 ^ 24 }
    requires products { AreProducts first (length discretes.now) products.now }
    requires size_limit { All (λ product. IsWithin 44 product.coef) products.now }
    requires values { AreLevels discretes.now }
    ensures value { result ≡ products_of products.now first discretes.now state }
    ensures bound { IsWithin 111 result }
{
    let from = products.partition_point(|product| product.state < state);
    let mut sum: i128 = 0;
    for product in &products[from..] {
        if product.state != state {
            return sum;
        }
        sum += slope_product_term(*product, first, discretes);
    }
    sum
}

// Converts a sum of products to units of a coefficient, rounded to the nearest, ties to even. It is
// not inlined, so that loops over readers stay small.
#[inline(never)]
fn round_slope_products(sum: i128, level_bits: u8) -> i128
    requires sum { IsWithin 111 sum }
    requires bits { level_bits ≤ 24 }
    ensures value { result ≡ nearest_of sum (pos (2 ^ level_bits)) }
    ensures bound { unsigned_abs result ≤ 2 ^ 111 + 2 ^ 24 }
{
    near_div(sum, units_in_one(level_bits))
}

/// Returns 2^bits, the number of units of 2^-bits in 1. The result is below 2^64.
pub(crate) fn units_in_one(bits: u8) -> i128
    requires { bits < 64 }
    ensures { result ≡ pos (2 ^ bits) }
{
    i128::from(1u64 << bits)
}

/// Multiplies a number of at most 2^45 in size by a level.
pub(crate) fn wide_slope_term(coef: i128, level: i64) -> i128
    requires coef { IsWithin 45 coef }
    requires level { IsLevel level }
    ensures value { result ≡ coef *ℤ level }
    ensures bound { IsState result }
{
    coef * i128::from(level)
}

/// Returns whether all mode coefficients of a row are at most 2^44 in size. Only states with
/// products are checked, because the other coefficients are within the limit by the row's
/// invariant.
pub(crate) fn row_modes_fit(
    row: &SlopeRow,
    level_bits: u8,
    state_count: usize,
    discretes: &[i64],
) -> bool
    requires bits { level_bits ≤ 24 }
    requires count_limit { state_count + length discretes.now ≤ variable_limit }
    requires row { IsRow state_count (length discretes.now) row.now }
    requires size_limit { AreLevels discretes.now }
    ensures { result ≡ mode_fits level_bits state_count row.now discretes.now }
{
    let mut past = 0;
    for product in row.products.as_slice() {
        let state = product.state;
        if state < past {
            continue;
        }
        let mode = row_mode_coefficient(row, level_bits, state_count, discretes, state);
        if exceeds_power_of_two(mode, 44) {
            return false;
        }
        past = state + 1;
    }
    true
}

/// Returns the mode coefficient of a state in a row at these discrete values, in units of 2^-p.
pub(crate) fn row_mode_coefficient(
    row: &SlopeRow,
    level_bits: u8,
    state_count: usize,
    discretes: &[i64],
    state: u32,
) -> i128
    requires bits { level_bits ≤ 24 }
    requires count_limit { state_count + length discretes.now ≤ variable_limit }
    requires row { IsRow state_count (length discretes.now) row.now }
    requires size_limit { AreLevels discretes.now }
    ensures value { result ≡ mode_coefficient level_bits state_count row.now discretes.now state }
    ensures bound { IsWithin 112 result }
{
    let own = search_slope_coefficient(row.entries.as_slice(), state);
    row_mode_coefficient_from(own, row, level_bits, state_count, discretes, state)
}

/// Returns the coefficient of a variable, or 0 if no entry is of it. It uses binary search; the
/// entries are sorted by variable.
pub(crate) fn search_slope_coefficient(entries: &[Entry], var: u32) -> i64
    requires rising { IsStrictlyIncreasing (map (λ entry. entry.var) entries.now) }
    ensures { result ≡ coefficient_of entries.now var }
{
    match entries.binary_search_by_key(&var, |entry| entry.var) {
        Ok(place) => entries[place].coef,
        Err(_) => 0,
    }
}

/// Returns the mode coefficient of a state, if its coefficient in the row is known.
#[inline(always)]
pub(crate) fn row_mode_coefficient_from(
    own: i64,
    row: &SlopeRow,
    level_bits: u8,
    state_count: usize,
    discretes: &[i64],
    state: u32,
) -> i128
    requires own { own ≡ coefficient_of row.now.entries state }
    requires bits { level_bits ≤ 24 }
    requires count_limit { state_count + length discretes.now ≤ variable_limit }
    requires row { IsRow state_count (length discretes.now) row.now }
    requires size_limit { AreLevels discretes.now }
    ensures value { result ≡ mode_coefficient level_bits state_count row.now discretes.now state }
    ensures bound { IsWithin 112 result }
{
    let own = i128::from(own);
    if row.products.as_slice().is_empty() {
        return own;
    }
    own + rounded_row_products(row, level_bits, state_count, discretes, state)
}

/// Returns the absolute row sum of a row at these levels and discrete values, in units of
/// 2^-(f+p+k).
pub(crate) fn absolute_row_sum(
    row: &SlopeRow,
    level_bits: u8,
    levels: &[i64],
    discretes: &[i64],
) -> i128
    requires bits { level_bits ≤ 24 }
    requires count_limit { length levels.now + length discretes.now ≤ variable_limit }
    requires row { IsRow (length levels.now) (length discretes.now) row.now }
    requires levels { AreLevels levels.now }
    requires discretes { AreLevels discretes.now }
    requires modes { IsTrue (mode_fits level_bits (length levels.now) row.now discretes.now) }
    ensures { result ≡ weight_of level_bits row.now levels.now discretes.now }
{
    let own = slope_entry_weight(row.entries.as_slice(), levels, discretes);
    let products = product_excess(row, level_bits, levels, discretes);
    add_form_parts(own, products, row.beta.abs())
}

/// Returns the sum of the absolute values of all entries' terms.
pub fn slope_entry_weight(entries: &[Entry], first: &[i64], second: &[i64]) -> i128
    requires count_limit { length entries.now ≤ variable_limit }
    requires size_limit { All (λ entry. IsWithin 44 entry.coef) entries.now }
    requires known { All (λ entry. entry.var < length first.now + length second.now) entries.now }
    requires firsts { AreLevels first.now }
    requires seconds { AreLevels second.now }
    ensures value { result
        ≡ sum_over (λ entry. abs_of (entry.coef *ℤ int_at (first.now ++ second.now) entry.var))
        entries.now }
    ensures bound { unsigned_abs result ≤ 2 ^ 99 }
{
    let mut sum: i128 = 0;
    for entry in entries {
        sum += slope_entry_size(*entry, first, second);
    }
    sum
}

/// Returns the absolute value of the entry's coefficient times its variable.
pub fn slope_entry_size(entry: Entry, first: &[i64], second: &[i64]) -> i128
    requires size_limit { IsWithin 44 entry.coef }
    requires known { entry.var < length first.now + length second.now }
    requires firsts { AreLevels first.now }
    requires seconds { AreLevels second.now }
    ensures value { result ≡ abs_of (entry.coef *ℤ int_at (first.now ++ second.now) entry.var) }
    ensures bound { unsigned_abs result ≤ 2 ^ 87 }
{
    slope_entry_term(entry, first, second).abs()
}

// The contribution of all products to the absolute row sum. It may be negative.
fn product_excess(row: &SlopeRow, level_bits: u8, levels: &[i64], discretes: &[i64]) -> i128
    requires bits { level_bits ≤ 24 }
    requires count_limit { length levels.now + length discretes.now ≤ variable_limit }
    requires row { IsRow (length levels.now) (length discretes.now) row.now }
    requires levels { AreLevels levels.now }
    requires discretes { AreLevels discretes.now }
    requires modes { IsTrue (mode_fits level_bits (length levels.now) row.now discretes.now) }
    ensures value { result
        ≡ sum_below (length levels.now)
        (λ i.
        (abs_of (mode_coefficient level_bits (length levels.now) row.now discretes.now i) -ℤ
        abs_of (coefficient_of row.now.entries i))
        *ℤ abs_of (int_at levels.now i)) }
    ensures bound { unsigned_abs result ≤ 2 ^ 100 }
{
    let mut sum: i128 = 0;
    let mut past = 0;
    for product in row.products.as_slice() {
        let state = product.state as usize;
        if state < past {
            continue;
        }
        sum += state_product_excess(row, level_bits, levels, discretes, state);
        past = state + 1;
    }
    sum
}

// The contribution of one state's products to the absolute row sum. It may be negative.
fn state_product_excess(
    row: &SlopeRow,
    level_bits: u8,
    levels: &[i64],
    discretes: &[i64],
    state: usize,
) -> i128
    requires bits { level_bits ≤ 24 }
    requires count_limit { length levels.now + length discretes.now ≤ variable_limit }
    requires row { IsRow (length levels.now) (length discretes.now) row.now }
    requires levels { AreLevels levels.now }
    requires discretes { AreLevels discretes.now }
    requires modes { IsTrue (mode_fits level_bits (length levels.now) row.now discretes.now) }
    requires state { state < length levels.now }
    ensures value { result
        ≡ (abs_of (mode_coefficient level_bits (length levels.now) row.now discretes.now state) -ℤ
        abs_of (coefficient_of row.now.entries state))
        *ℤ abs_of (int_at levels.now state) }
    ensures bound { unsigned_abs result ≤ 2 ^ 88 }
{
    let own = search_slope_coefficient(row.entries.as_slice(), state as u32);
    let mode = row_mode_coefficient_from(
        own,
        row,
        level_bits,
        levels.len(),
        discretes,
        state as u32,
    );
    wide_slope_term(
        slope_coefficient_excess(mode, i128::from(own)),
        slope_level_size(levels[state]),
    )
}

// Returns the difference between the absolute values of the mode coefficient and of the coefficient
// without products.
fn slope_coefficient_excess(mode: i128, own: i128) -> i128
    requires mode { IsWithin 44 mode }
    requires own { IsWithin 44 own }
    ensures value { result ≡ abs_of mode -ℤ abs_of own }
    ensures bound { IsWithin 45 result }
{
    mode.abs() - own.abs()
}

// Returns the absolute value of a level.
fn slope_level_size(level: i64) -> i64
    requires { IsLevel level }
    ensures value { result ≡ abs_of level }
    ensures bound { IsLevel result }
{
    level.abs()
}

// Returns an entry's coefficient if the entry is of this variable, else 0.
fn slope_entry_coefficient(entry: Entry, var: u32) -> i128
    ensures value { result ≡ (if entry.var == var then entry.coef else pos 0) }
    ensures bound { unsigned_abs result ≤ 2 ^ 63 }
{
    if entry.var == var {
        i128::from(entry.coef)
    } else {
        0
    }
}
