//! Products, quotients and powers of affine forms. A product has at least one factor without
//! coefficients, or is a product of states and discrete variables in an equation.

ghost use Rattle.std.specs.Prelude.{◌≡◌, ◌<◌, ◌≤◌, ◌↔◌, ◌+◌, ◌^◌, [], false, true, IfOk, OnOk, map, IsTrue, All};
ghost use Rattle.mu_affine.specs.Prelude.{nat_cmp, checked};
ghost use Rattle.mu_affine.specs.Words.{Place, is_nonzero, product_form, checked_form, form_meaning, IsFinished, IsVariable, IsOfStates, IsOfDiscretes, IsConstant, scaled_form, IsCheckedAnswer, scaled, ScalesList, placed, multiply_forms, raise_form, IsAnswer, named, pair_cmp, ChangesAt, IsRising, paired, SetsList, SetsTable, Crosses, beside};

use crate::affine_fault::AffineErr;
use crate::exact_form::{ExactEntry, ExactForm, ExactProduct, Place, Sizes};
use crate::form_sum::RunningForm;
use mu_io::Items;
use mu_num::{NumErr, Ratio};
use std::alloc::{AllocError, Global};
use std::collections::BTreeMap;

/// Returns the product of two forms. It is an error if both have coefficients, except in an
/// equation, where one form may have only states and the other one only discrete variables. It is
/// an error if a number of the product exceeds 2^62 in lowest terms.
pub fn product_of_forms(
    alloc: Global,
    place: Place,
    at: u32,
    left: &ExactForm,
    right: &ExactForm,
) -> Result<ExactForm, AffineErr>
    requires left { IsFinished place left.now }
    requires right { IsFinished place right.now }
    ensures { IsAnswer place
        (multiply_forms place false at (form_meaning left.now) (form_meaning right.now)) result }
{
    // These calls give the proof that the denominators are positive.
    let _ = (left.constant.den(), right.constant.den());
    if is_constant_factor(left) {
        return multiply_form_at(alloc, at, right, left.constant);
    }
    if is_constant_factor(right) {
        return multiply_form_at(alloc, at, left, right.constant);
    }
    multiply_variable_forms(alloc, place, at, left, right)
}

/// Returns the quotient of two forms. It is an error if the divisor has a coefficient or is 0, or
/// if a number of the quotient exceeds 2^62 in lowest terms.
pub fn divide(
    alloc: Global,
    place: Place,
    at: u32,
    left: &ExactForm,
    right: &ExactForm,
) -> Result<ExactForm, AffineErr>
    requires left { IsFinished place left.now }
    requires right { IsFinished place right.now }
    ensures { IsAnswer place
        (multiply_forms place true at (form_meaning left.now) (form_meaning right.now)) result }
{
    if !is_constant_factor(right) {
        return Err(AffineErr::NotAffine { at });
    }
    // This call gives the proof that the denominator is positive.
    let _ = right.constant.den();
    if is_zero_factor(right.constant) {
        return Err(AffineErr::ConstFault {
            at,
            fault: NumErr::ZeroDivisor,
        });
    }
    match multiply_form_by(alloc, left, true, right.constant)? {
        Ok(quotient) => Ok(quotient),
        Err(fault) => Err(AffineErr::ConstFault { at, fault }),
    }
}

/// Returns a power of a form. It is an error if the base has a coefficient, or if the power exceeds
/// 2^62 in lowest terms.
#[inline(never)]
pub fn raise_to_power(
    alloc: Global,
    place: Place,
    exp: u8,
    at: u32,
    base: &ExactForm,
) -> Result<ExactForm, AffineErr>
    requires { IsFinished place base.now }
    ensures { IsAnswer place (raise_form place exp at (form_meaning base.now)) result }
{
    if !is_constant_factor(base) {
        return Err(AffineErr::NotAffine { at });
    }
    match base.constant.pow(exp) {
        Ok(power) => Ok(ExactForm::constant(alloc, power)),
        Err(fault) => Err(AffineErr::ConstFault { at, fault }),
    }
}

/// Returns whether a form has no coefficients.
pub(crate) fn is_constant_factor(form: &ExactForm) -> bool
    ensures { IsTrue result ↔ IsConstant form.now }
{
    form.entries.as_slice().is_empty()
        && form.products.as_slice().is_empty()
        && is_zero_factor(form.time)
}

// Returns whether a fraction is 0.
pub(crate) fn is_zero_factor(value: Ratio) -> bool
    ensures { IsTrue result ↔ (is_nonzero value ≡ false) }
{
    value.num() == 0
}

// Returns the product of a form and a number.
fn multiply_form_at(
    alloc: Global,
    at: u32,
    form: &ExactForm,
    by: Ratio,
) -> Result<ExactForm, AffineErr>
    ensures { (p : Place) → IsFinished p form.now
        → IsAnswer p
        (placed at (checked_form p.sizes (scaled_form false (form_meaning form.now) by)))
        result }
{
    // These calls give the proof that the denominators are positive.
    let _ = (by.den(), form.constant.den());
    if is_zero_factor(by) {
        return Ok(ExactForm::constant(alloc, Ratio::whole(0)));
    }
    match multiply_form_by(alloc, form, false, by)? {
        Ok(product) => Ok(product),
        Err(fault) => Err(AffineErr::ConstFault { at, fault }),
    }
}

/// Multiplies or divides a form by a nonzero number. The fault is `Range` if a number of the result
/// exceeds 2^62 in lowest terms.
pub(crate) fn multiply_form_by(
    alloc: Global,
    form: &ExactForm,
    divide: bool,
    by: Ratio,
) -> Result<Result<ExactForm, NumErr>, AllocError>
    requires nonzero { is_nonzero by ≡ true }
    requires positive { 0 < by.den }
    ensures { IfOk result
        (λ answer. (p : Place)
        → IsFinished p form.now
        → IsCheckedAnswer p (scaled_form divide (form_meaning form.now) by) answer) }
{
    let entries = match multiply_form_entries(alloc, form.entries.as_slice(), divide, by)? {
        Ok(entries) => entries,
        Err(fault) => return Ok(Err(fault)),
    };
    let products = match scale_pair_products(alloc, form.products.as_slice(), divide, by)? {
        Ok(products) => products,
        Err(fault) => return Ok(Err(fault)),
    };
    let time = match multiply_form_ratio(divide, form.time, by) {
        Ok(time) => time,
        Err(fault) => return Ok(Err(fault)),
    };
    let constant = match multiply_form_ratio(divide, form.constant, by) {
        Ok(constant) => constant,
        Err(fault) => return Ok(Err(fault)),
    };
    Ok(Ok(ExactForm {
        entries: Items::new(entries),
        products: Items::new(products),
        time,
        constant,
    }))
}

// Multiplies or divides the coefficients of variables by a nonzero number.
fn multiply_form_entries(
    alloc: Global,
    entries: &[ExactEntry],
    divide: bool,
    by: Ratio,
) -> Result<Result<Vec<ExactEntry>, NumErr>, AllocError>
    requires { is_nonzero by ≡ true }
    ensures { IfOk result (ScalesList named divide by entries.now) }
{
    let mut all = Vec::new(alloc);
    for entry in entries {
        match multiply_form_ratio(divide, entry.coef, by) {
            Ok(coef) => all.push(ExactEntry {
                var: entry.var,
                coef,
            })?,
            Err(fault) => return Ok(Err(fault)),
        }
    }
    Ok(Ok(all))
}

// Multiplies or divides a fraction by a nonzero number.
fn multiply_form_ratio(divide: bool, value: Ratio, by: Ratio) -> Result<Ratio, NumErr>
    requires { is_nonzero by ≡ true }
    ensures { result ≡ checked (scaled divide value by) }
{
    if divide { value.div(by) } else { value.mul(by) }
}

// Multiplies or divides the coefficients of pairs by a nonzero number.
fn scale_pair_products(
    alloc: Global,
    products: &[ExactProduct],
    divide: bool,
    by: Ratio,
) -> Result<Result<Vec<ExactProduct>, NumErr>, AllocError>
    requires { is_nonzero by ≡ true }
    ensures { IfOk result (ScalesList paired divide by products.now) }
{
    let mut all = Vec::new(alloc);
    for product in products {
        match multiply_form_ratio(divide, product.coef, by) {
            Ok(coef) => all.push(ExactProduct {
                state: product.state,
                discrete: product.discrete,
                coef,
            })?,
            Err(fault) => return Ok(Err(fault)),
        }
    }
    Ok(Ok(all))
}

// Returns the product of two forms that both have coefficients.
fn multiply_variable_forms(
    alloc: Global,
    place: Place,
    at: u32,
    left: &ExactForm,
    right: &ExactForm,
) -> Result<ExactForm, AffineErr>
    requires left { IsVariable place left.now }
    requires right { IsVariable place right.now }
    ensures { IsAnswer place
        (multiply_forms place false at (form_meaning left.now) (form_meaning right.now)) result }
{
    if !place.in_equation {
        return Err(AffineErr::NotAffine { at });
    }
    if are_mixed_factors(place.sizes, left, right) {
        return multiply_mixed_forms(alloc, place, at, left, right);
    }
    if are_mixed_factors(place.sizes, right, left) {
        return multiply_mixed_forms(alloc, place, at, right, left);
    }
    Err(AffineErr::NotAffine { at })
}

/// Returns whether the left form has only coefficients of states and the right form only
/// coefficients of discrete variables.
pub(crate) fn are_mixed_factors(sizes: Sizes, left: &ExactForm, right: &ExactForm) -> bool
    ensures { IsTrue result ↔ (IsOfStates sizes left.now × IsOfDiscretes sizes right.now) }
{
    has_only_entries(left)
        && has_only_entries(right)
        && are_entries_of_states(sizes, left.entries.as_slice())
        && are_entries_of_discretes(sizes, right.entries.as_slice())
}

// Returns whether a form has neither products nor the time.
fn has_only_entries(form: &ExactForm) -> bool
    ensures { IsTrue result ↔ ((form.now.products ≡ []) × (is_nonzero form.now.time ≡ false)) }
{
    form.products.as_slice().is_empty() && is_zero_factor(form.time)
}

// Returns whether all these entries are of states.
fn are_entries_of_states(sizes: Sizes, entries: &[ExactEntry]) -> bool
    ensures { IsTrue result ↔ All (λ e. e.var < sizes.states) entries.now }
{
    entries.iter().all(|entry| entry.var < sizes.states)
}

// Returns whether all these entries are of discrete variables.
fn are_entries_of_discretes(sizes: Sizes, entries: &[ExactEntry]) -> bool
    ensures { IsTrue result
        ↔ All (λ e. (sizes.states ≤ e.var) × (e.var < sizes.states + sizes.discretes)) entries.now }
{
    entries.iter().all(|entry| sizes.states <= entry.var
        && entry.var - sizes.states < sizes.discretes)
}

/// Returns the product of a form of states and a form of discrete variables, in an equation. The
/// fault is `Range` if a number of the product exceeds 2^62 in lowest terms.
pub(crate) fn multiply_mixed_forms(
    alloc: Global,
    place: Place,
    at: u32,
    states: &ExactForm,
    discretes: &ExactForm,
) -> Result<ExactForm, AffineErr>
    requires in_equation { place.in_equation ≡ true }
    requires left { IsFinished place states.now }
    requires right { IsFinished place discretes.now }
    requires states { IsOfStates place.sizes states.now }
    requires discretes { IsOfDiscretes place.sizes discretes.now }
    ensures { IsAnswer place
        (placed at
        (checked_form place.sizes
        (product_form place.sizes (form_meaning states.now) (form_meaning discretes.now))))
        result }
{
    // These calls give the proof that the denominators are positive.
    let _ = (states.constant.den(), discretes.constant.den());
    match running_product(alloc, states, discretes)? {
        Ok(all) => {
            let product = all.finish(alloc)?;
            Ok(product)
        }
        Err(fault) => Err(AffineErr::ConstFault { at, fault }),
    }
}

// Returns the product as a running sum. Each coefficient is set once.
fn running_product(
    alloc: Global,
    states: &ExactForm,
    discretes: &ExactForm,
) -> Result<Result<RunningForm, NumErr>, AllocError>
    requires states { IsRising nat_cmp (map named states.now.entries) }
    requires discretes { IsRising nat_cmp (map named discretes.now.entries) }
    ensures { IfOk result (Crosses states.now discretes.now) }
{
    let mut all = RunningForm::new(alloc);
    match set_scaled_coefficients(
        &mut all.names,
        states.entries.as_slice(),
        discretes.constant,
    )? {
        Ok(()) => {}
        Err(fault) => return Ok(Err(fault)),
    }
    match set_scaled_coefficients(
        &mut all.names,
        discretes.entries.as_slice(),
        states.constant,
    )? {
        Ok(()) => {}
        Err(fault) => return Ok(Err(fault)),
    }
    match set_pair_products(
        &mut all.pairs,
        states.entries.as_slice(),
        discretes.entries.as_slice(),
    )? {
        Ok(()) => {}
        Err(fault) => return Ok(Err(fault)),
    }
    match states.constant.mul(discretes.constant) {
        Ok(constant) => {
            all.constant = constant;
            Ok(Ok(all))
        }
        Err(fault) => Ok(Err(fault)),
    }
}

// Sets the coefficient of each of these variables to its coefficient in `entries` times a number.
fn set_scaled_coefficients(
    row: &mut BTreeMap<u32, Ratio>,
    entries: &[ExactEntry],
    by: Ratio,
) -> Result<Result<(), NumErr>, AllocError>
    requires { IsRising nat_cmp (map named entries.now) }
    ensures { IfOk result
        (SetsList nat_cmp by row.old.entries row.new.entries (map named entries.now)) }
{
    for entry in entries {
        match entry.coef.mul(by) {
            Ok(coef) => set_coefficient(row, entry.var, coef)?,
            Err(fault) => return Ok(Err(fault)),
        }
    }
    Ok(Ok(()))
}

// Sets the coefficient of a variable.
fn set_coefficient(row: &mut BTreeMap<u32, Ratio>, var: u32, value: Ratio) -> Result<(), AllocError>
    ensures { OnOk result (ChangesAt nat_cmp row.old.entries row.new.entries var value) }
{
    row.insert(var, value)?;
    Ok(())
}

// Sets the coefficients of all pairs of these states and discrete variables to the products.
fn set_pair_products(
    row: &mut BTreeMap<(u32, u32), Ratio>,
    states: &[ExactEntry],
    discretes: &[ExactEntry],
) -> Result<Result<(), NumErr>, AllocError>
    requires states { IsRising nat_cmp (map named states.now) }
    requires discretes { IsRising nat_cmp (map named discretes.now) }
    ensures { IfOk result
        (SetsTable row.old.entries row.new.entries (map named states.now)
        (map named discretes.now)) }
{
    for state in states {
        match set_scaled_pairs(row, state.var, discretes, state.coef)? {
            Ok(()) => {}
            Err(fault) => return Ok(Err(fault)),
        }
    }
    Ok(Ok(()))
}

// Sets the coefficient of the pair of a state with each of these discrete variables to the
// coefficient in the list times a number.
fn set_scaled_pairs(
    row: &mut BTreeMap<(u32, u32), Ratio>,
    state: u32,
    discretes: &[ExactEntry],
    by: Ratio,
) -> Result<Result<(), NumErr>, AllocError>
    requires { IsRising nat_cmp (map named discretes.now) }
    ensures { IfOk result
        (SetsList pair_cmp by row.old.entries row.new.entries (map (beside state) discretes.now)) }
{
    for discrete in discretes {
        match discrete.coef.mul(by) {
            Ok(coef) => set_pair_coefficient(row, (state, discrete.var), coef)?,
            Err(fault) => return Ok(Err(fault)),
        }
    }
    Ok(Ok(()))
}

// Sets the coefficient of a pair of variables.
fn set_pair_coefficient(
    row: &mut BTreeMap<(u32, u32), Ratio>,
    pair: (u32, u32),
    value: Ratio,
) -> Result<(), AllocError>
    ensures { OnOk result (ChangesAt pair_cmp row.old.entries row.new.entries pair value) }
{
    row.insert(pair, value)?;
    Ok(())
}
