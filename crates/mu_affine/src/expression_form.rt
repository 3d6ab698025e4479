//! Computes the affine form of an expression, by recursion on its structure, and the forms of
//! conditions and statements.

ghost use Rattle.std.specs.Prelude.{◌≡◌, ◌<◌, ◌+◌, ◌^◌, if◌then◌else◌, false, pos, map, length, Ok, Err, true};
ghost use Rattle.mu_affine.specs.Prelude.{Variable, flat_expression, flat_terms_of, flat_factors_of, flat_signed, flat_scaled, flat_branch, flat_action, whole};
ghost use Rattle.mu_affine.specs.Words.{TimeHere, constant_form, name_form, time_form, none, form_meaning, sum_meaning, IsOver, IsFinished, IsReducedSum, join_forms, multiply_forms, IsAnswer, form_of, sum_form, product_of, context_of, AreSolved, IsNumbered, AreNumbered, AreNumberedFactors, JoinsTerm, IsNumberedAction, condition_form, action_form};

use crate::affine_fault::AffineErr;
use crate::exact_form::{ExactForm, Place};
use crate::form_product::{divide, product_of_forms, raise_to_power};
use crate::form_sum::RunningForm;
use mu_num::Ratio;
use mu_tree::{FlatBranch, FlatExpr, FlatFactor, FlatStatement, FlatTerm};
use std::alloc::Global;

/// Returns the form of a condition: its left side minus its right side.
pub(crate) fn form_of_condition(
    alloc: Global,
    place: Place,
    solved: &[ExactForm],
    branch: &FlatBranch,
) -> Result<ExactForm, AffineErr>
    requires solved { AreSolved place solved.now }
    requires sizes { place.sizes.states + place.sizes.discretes + place.sizes.discretes < 2 ^ 32 }
    requires left { IsNumbered place (length solved.now) (flat_expression branch.now.left) }
    requires right { IsNumbered place (length solved.now) (flat_expression branch.now.right) }
    ensures { IsAnswer place (condition_form (context_of place solved.now) (flat_branch branch.now))
        result }
{
    let left = expression_form(alloc, place, solved, &branch.left)?;
    let right = expression_form(alloc, place, solved, &branch.right)?;
    difference_of_forms(alloc, place, branch.at, &left, &right)
}

/// Returns the form of the value that a statement assigns.
pub(crate) fn form_of_action(
    alloc: Global,
    place: Place,
    solved: &[ExactForm],
    action: &FlatStatement,
) -> Result<ExactForm, AffineErr>
    requires solved { AreSolved place solved.now }
    requires sizes { place.sizes.states + place.sizes.discretes + place.sizes.discretes < 2 ^ 32 }
    requires numbered { IsNumberedAction place (length solved.now) (flat_action action.now) }
    ensures { IsAnswer place (action_form (context_of place solved.now) (flat_action action.now))
        result }
{
    match action {
        FlatStatement::FlatSet { value, .. } => expression_form(alloc, place, solved, value),
        FlatStatement::FlatReinit { value, .. } => expression_form(alloc, place, solved, value),
    }
}

/// Returns the form of an expression in its context. `solved` has the forms of the algebraic
/// variables.
#[cycle(walking)]
pub(crate) fn expression_form(
    alloc: Global,
    place: Place,
    solved: &[ExactForm],
    e: &FlatExpr,
) -> Result<ExactForm, AffineErr>
    requires solved { AreSolved place solved.now }
    requires sizes { place.sizes.states + place.sizes.discretes + place.sizes.discretes < 2 ^ 32 }
    requires numbered { IsNumbered place (length solved.now) (flat_expression e.now) }
    ensures { IsAnswer place (form_of (context_of place solved.now) (flat_expression e.now))
        result }
{
    match e {
        FlatExpr::Const { value, .. } => Ok(ExactForm::constant(alloc, *value)),
        FlatExpr::Var { var, at } => form_of_variable(alloc, place, solved, *var, *at),
        FlatExpr::Pre { var, .. } => form_of_previous(alloc, place, *var),
        FlatExpr::Time { at } => time(alloc, place, *at),
        FlatExpr::Sum { terms } => form_of_terms(alloc, place, solved, terms),
        FlatExpr::Product { factors } => form_of_factors(alloc, place, solved, factors),
        FlatExpr::Pow { base, exp, at } => {
            let base = expression_form(alloc, place, solved, base)?;
            raise_to_power(alloc, place, *exp, *at, &base)
        }
    }
}

// Returns the form of a variable: a coefficient 1 for a state or discrete variable, the solved form
// for an algebraic variable.
#[inline(never)]
fn form_of_variable(
    alloc: Global,
    place: Place,
    solved: &[ExactForm],
    var: u32,
    at: u32,
) -> Result<ExactForm, AffineErr>
    requires solved { AreSolved place solved.now }
    requires within { var < length solved.now }
    requires sizes { place.sizes.states + place.sizes.discretes < 2 ^ 32 }
    ensures { IsAnswer place (form_of (context_of place solved.now) (Variable var at)) result }
{
    if var < place.sizes.states + place.sizes.discretes {
        let form = ExactForm::name(alloc, var)?;
        return Ok(form);
    }
    let form = &solved[var as usize];
    if !place.in_equation && !form.products.as_slice().is_empty() {
        return Err(AffineErr::NotAffine { at });
    }
    let copy = form.copy(alloc)?;
    Ok(copy)
}

// Returns the form of the previous value of a discrete variable. It is allowed only outside
// equations.
#[inline(never)]
fn form_of_previous(alloc: Global, place: Place, var: u32) -> Result<ExactForm, AffineErr>
    requires outside { place.in_equation ≡ false }
    requires within { var < place.sizes.states + place.sizes.discretes }
    requires sizes { place.sizes.states + place.sizes.discretes + place.sizes.discretes < 2 ^ 32 }
    ensures { IsAnswer place (Ok (name_form (var + place.sizes.discretes))) result }
{
    let form = ExactForm::name(alloc, var + place.sizes.discretes)?;
    Ok(form)
}

// Returns the form of the time. It is an error in an equation.
#[inline(never)]
fn time(alloc: Global, place: Place, at: u32) -> Result<ExactForm, AffineErr>
    ensures { IsAnswer place (if place.in_equation then Err (TimeHere at) else Ok time_form)
        result }
{
    if place.in_equation {
        Err(AffineErr::TimeHere { at })
    } else {
        Ok(ExactForm::time(alloc))
    }
}

// Returns the form of a sum, term by term.
#[cycle(walking)]
fn form_of_terms(
    alloc: Global,
    place: Place,
    solved: &[ExactForm],
    terms: &[FlatTerm],
) -> Result<ExactForm, AffineErr>
    requires solved { AreSolved place solved.now }
    requires sizes { place.sizes.states + place.sizes.discretes + place.sizes.discretes < 2 ^ 32 }
    requires numbered { AreNumbered place (length solved.now)
        (flat_terms_of (map flat_signed terms.now)) }
    ensures { IsAnswer place
        (sum_form (context_of place solved.now) (Ok (constant_form none))
        (flat_terms_of (map flat_signed terms.now)))
        result }
{
    let mut total = RunningForm::new(alloc);
    for term in terms {
        let form = expression_form(alloc, place, solved, &term.value)?;
        join_expression_term(place, &mut total, term.minus, term.at, &form)?;
    }
    let form = total.finish(alloc)?;
    Ok(form)
}

/// Adds the form of a term to a sum, or subtracts it. After an error the sum contains a part of the
/// form.
pub(crate) fn join_expression_term(
    place: Place,
    total: &mut RunningForm,
    minus: bool,
    at: u32,
    form: &ExactForm,
) -> Result<(), AffineErr>
    requires form { IsFinished place form.now }
    requires reduced { IsReducedSum total.old }
    requires overflow { IsOver place (sum_meaning total.old) }
    ensures { JoinsTerm place minus at total.old total.new form.now result }
{
    match total.join(minus, form)? {
        Ok(()) => Ok(()),
        Err(fault) => Err(AffineErr::ConstFault { at, fault }),
    }
}

// Returns the form of a product, factor by factor.
#[cycle(walking)]
fn form_of_factors(
    alloc: Global,
    place: Place,
    solved: &[ExactForm],
    factors: &[FlatFactor],
) -> Result<ExactForm, AffineErr>
    requires solved { AreSolved place solved.now }
    requires sizes { place.sizes.states + place.sizes.discretes + place.sizes.discretes < 2 ^ 32 }
    requires numbered { AreNumberedFactors place (length solved.now)
        (flat_factors_of (map flat_scaled factors.now)) }
    ensures { IsAnswer place
        (product_of (context_of place solved.now) (Ok (constant_form (whole (pos 1))))
        (flat_factors_of (map flat_scaled factors.now)))
        result }
{
    let mut total = ExactForm::constant(alloc, Ratio::whole(1));
    for factor in factors {
        let form = expression_form(alloc, place, solved, &factor.value)?;
        total = take_expression_factor(alloc, place, factor.divide, factor.at, &total, &form)?;
    }
    Ok(total)
}

// Multiplies or divides a product by the form of a factor. It is not inlined, to keep the stack
// frame of the recursion small.
#[inline(never)]
fn take_expression_factor(
    alloc: Global,
    place: Place,
    divides: bool,
    at: u32,
    total: &ExactForm,
    form: &ExactForm,
) -> Result<ExactForm, AffineErr>
    requires total { IsFinished place total.now }
    requires form { IsFinished place form.now }
    ensures { IsAnswer place
        (multiply_forms place divides at (form_meaning total.now) (form_meaning form.now)) result }
{
    if divides {
        divide(alloc, place, at, total, form)
    } else {
        product_of_forms(alloc, place, at, total, form)
    }
}

// Returns the difference of two forms.
fn difference_of_forms(
    alloc: Global,
    place: Place,
    at: u32,
    left: &ExactForm,
    right: &ExactForm,
) -> Result<ExactForm, AffineErr>
    requires left { IsFinished place left.now }
    requires right { IsFinished place right.now }
    ensures { IsAnswer place
        (join_forms place true at (form_meaning left.now) (form_meaning right.now)) result }
{
    // This call gives the proof that the constant is in lowest terms.
    let _ = left.constant.den();
    let mut total = RunningForm::new(alloc);
    join_expression_term(place, &mut total, false, at, left)?;
    join_expression_term(place, &mut total, true, at, right)?;
    let form = total.finish(alloc)?;
    Ok(form)
}
