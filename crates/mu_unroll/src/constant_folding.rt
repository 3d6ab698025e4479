//! Constant folding: a constant expression without loop variables is replaced by a literal or a
//! quotient of two literals. Then a loop does not evaluate the expression in every round.

ghost use Rattle.std.specs.Prelude.{◌≡◌, is_some, map, IfOk, IfSome, IsTrue};
ghost use Rattle.mu_unroll.specs.Prelude.{Variable, Sum, Product, expression, reference, signed, scaled, terms_of, factors_of};
ghost use Rattle.mu_unroll.specs.ConstantFolding.{HasConstantValue, IsSameConstant, IsSameExpression, IsSameReference};
ghost use Rattle.mu_unroll.specs.FoldedLists.{AreFoldedFactors, AreFoldedTerms};
ghost use Rattle.mu_unroll.specs.VariablePlaces.{constant_of};
ghost use Rattle.mu_unroll.specs.VariableTables.{meant_at};

use crate::environment::NameDenotation;
use crate::unroll_fault::UnrollErr;
use crate::unrolled_values::{unrolled_constant_value, unrolled_literal_value};
use mu_copies::Copied;
use mu_io::Name;
use mu_names::{combine_constant_factors, combine_constant_terms, find};
use mu_num::Ratio;
use mu_tree::{Expr, Factor, Ref, Term};
use std::alloc::{AllocError, Global};
use std::collections::BTreeMap;

/// Returns whether a name is that of a declared constant.
pub fn declares_constant(declared: &BTreeMap<&[u8], NameDenotation>, name: &[u8]) -> bool
    ensures { result ≡ is_some (constant_of (meant_at declared.now name.now)) }
{
    declared_constant(declared, name).is_some()
}

// Returns the value of a declared constant.
fn declared_constant(declared: &BTreeMap<&[u8], NameDenotation>, name: &[u8]) -> Option<Ratio>
    ensures { result ≡ constant_of (meant_at declared.now name.now) }
{
    match find(declared, name) {
        Some(meant) => unrolled_constant_value(meant),
        None => None,
    }
}

/// Returns a copy of a constant expression: a short one if the expression has no loop variables and
/// has a value. Errors: out of memory.
pub fn fold_constant(
    alloc: Global,
    declared: &BTreeMap<&[u8], NameDenotation>,
    e: &Expr,
) -> Result<Expr, AllocError>
    ensures { IfOk result
        (λ copy. IsSameConstant (meant_at declared.now) (expression copy) (expression e.now)) }
{
    if let Some(value) = folded_value(declared, e) {
        let short = folded_fraction(alloc, value)?;
        if has_folded_value(declared, &short, value) {
            return Ok(short);
        }
    }
    e.copy(alloc)
}

// Returns the value of a constant expression without loop variables, if it has a value.
#[cycle(folding_values)]
fn folded_value(declared: &BTreeMap<&[u8], NameDenotation>, e: &Expr) -> Option<Ratio>
    ensures { IfSome result (HasConstantValue (meant_at declared.now) (expression e.now)) }
{
    match e {
        Expr::Num { digits, at } => unrolled_literal_value(digits.bytes(), *at).ok(),
        Expr::Var(target) => folded_reference_value(declared, target),
        Expr::Time { .. } | Expr::Pre(_) => None,
        Expr::Sum { terms } => folded_sum_value(declared, terms),
        Expr::Product { factors } => folded_product_value(declared, factors),
        Expr::Pow { base, exp, .. } => {
            let base = folded_value(declared, base)?;
            base.pow(*exp).ok()
        }
    }
}

// Returns the value of a reference to a declared constant.
fn folded_reference_value(declared: &BTreeMap<&[u8], NameDenotation>, target: &Ref) -> Option<Ratio>
    ensures { IfSome result
        (HasConstantValue (meant_at declared.now) (Variable (reference target.now))) }
{
    match &target.index {
        Some(_) => None,
        None => declared_constant(declared, target.name.bytes()),
    }
}

// Returns the value of a sum without loop variables, if it has a value.
#[cycle(folding_values)]
fn folded_sum_value(declared: &BTreeMap<&[u8], NameDenotation>, terms: &[Term]) -> Option<Ratio>
    ensures { IfSome result
        (HasConstantValue (meant_at declared.now) (Sum (terms_of (map signed terms.now)))) }
{
    let mut total = Ratio::whole(0);
    for term in terms {
        let value = folded_value(declared, &term.value)?;
        total = combine_constant_terms(total, term.minus, value).ok()?;
    }
    Some(total)
}

// Returns the value of a product without loop variables, if it has a value.
#[cycle(folding_values)]
fn folded_product_value(
    declared: &BTreeMap<&[u8], NameDenotation>,
    factors: &[Factor],
) -> Option<Ratio>
    ensures { IfSome result
        (HasConstantValue (meant_at declared.now) (Product (factors_of (map scaled factors.now)))) }
{
    let mut total = Ratio::whole(1);
    for factor in factors {
        let value = folded_value(declared, &factor.value)?;
        total = combine_constant_factors(total, factor.divide, value).ok()?;
    }
    Some(total)
}

// Returns a short expression for a fraction. Its value is not specified here: callers evaluate it.
fn folded_fraction(alloc: Global, fraction: Ratio) -> Result<Expr, AllocError> {
    let num = fraction.num();
    let value = folded_quotient(alloc, num.unsigned_abs() as u64, fraction.den() as u64)?;
    if num >= 0 {
        return Ok(value);
    }
    let mut terms = Vec::new(alloc);
    terms.push(Term {
        minus: true,
        at: 0,
        value,
    })?;
    Ok(Expr::Sum { terms })
}

// Returns a quotient of two literals, or one literal if the denominator is 1.
fn folded_quotient(alloc: Global, num: u64, den: u64) -> Result<Expr, AllocError> {
    let value = folded_literal(alloc, num)?;
    if den == 1 {
        return Ok(value);
    }
    let mut factors = Vec::new(alloc);
    factors.push(Factor {
        divide: false,
        at: 0,
        value,
    })?;
    let value = folded_literal(alloc, den)?;
    factors.push(Factor {
        divide: true,
        at: 0,
        value,
    })?;
    Ok(Expr::Product { factors })
}

// Returns a literal for a natural number.
fn folded_literal(alloc: Global, number: u64) -> Result<Expr, AllocError> {
    let digits = number.to_string(alloc)?;
    let digits = Name::new(alloc, digits.as_bytes())?;
    Ok(Expr::Num { digits, at: 0 })
}

// Returns whether the value of a constant expression without loop variables is this fraction.
fn has_folded_value(declared: &BTreeMap<&[u8], NameDenotation>, e: &Expr, value: Ratio) -> bool
    ensures { IsTrue result → HasConstantValue (meant_at declared.now) (expression e.now) value }
{
    match folded_value(declared, e) {
        Some(found) => found == value,
        None => false,
    }
}

/// Returns a copy of a reference with a short index. Errors: out of memory.
pub fn fold_reference(
    alloc: Global,
    declared: &BTreeMap<&[u8], NameDenotation>,
    target: &Ref,
) -> Result<Ref, AllocError>
    ensures { IfOk result
        (λ copy. IsSameReference (meant_at declared.now) (reference copy) (reference target.now)) }
{
    let name = target.name.copy(alloc)?;
    match &target.index {
        None => Ok(Ref {
            name,
            index: None,
            at: target.at,
        }),
        Some(index) => {
            let index = fold_constant(alloc, declared, index)?;
            let index = Box::new(alloc, index)?;
            Ok(Ref {
                name,
                index: Some(index),
                at: target.at,
            })
        }
    }
}

/// Returns a copy of an expression of an equation or of a clause with short indices. Errors: out of
/// memory.
#[cycle(folding_expressions)]
pub fn fold_expression(
    alloc: Global,
    declared: &BTreeMap<&[u8], NameDenotation>,
    e: &Expr,
) -> Result<Expr, AllocError>
    ensures { IfOk result
        (λ copy. IsSameExpression (meant_at declared.now) (expression copy) (expression e.now)) }
{
    match e {
        Expr::Num { .. } | Expr::Time { .. } => e.copy(alloc),
        Expr::Var(target) => {
            let target = fold_reference(alloc, declared, target)?;
            Ok(Expr::Var(target))
        }
        Expr::Pre(target) => {
            let target = fold_reference(alloc, declared, target)?;
            Ok(Expr::Pre(target))
        }
        Expr::Sum { terms } => {
            let terms = fold_terms(alloc, declared, terms)?;
            Ok(Expr::Sum { terms })
        }
        Expr::Product { factors } => {
            let factors = fold_factors(alloc, declared, factors)?;
            Ok(Expr::Product { factors })
        }
        Expr::Pow { base, exp, at } => {
            let base = fold_expression(alloc, declared, base)?;
            let base = Box::new(alloc, base)?;
            Ok(Expr::Pow {
                base,
                exp: *exp,
                at: *at,
            })
        }
    }
}

// Returns a copy of the terms of a sum with short indices. Errors: out of memory.
#[cycle(folding_expressions)]
fn fold_terms(
    alloc: Global,
    declared: &BTreeMap<&[u8], NameDenotation>,
    terms: &[Term],
) -> Result<Vec<Term>, AllocError>
    ensures { IfOk result
        (λ copy. AreFoldedTerms declared.now copy.items terms.now) }
{
    let mut all = Vec::new(alloc);
    for term in terms {
        let value = fold_expression(alloc, declared, &term.value)?;
        all.push(Term {
            minus: term.minus,
            at: term.at,
            value,
        })?;
    }
    Ok(all)
}

// Returns a copy of the factors of a product with short indices. Errors: out of memory.
#[cycle(folding_expressions)]
fn fold_factors(
    alloc: Global,
    declared: &BTreeMap<&[u8], NameDenotation>,
    factors: &[Factor],
) -> Result<Vec<Factor>, AllocError>
    ensures { IfOk result
        (λ copy. AreFoldedFactors declared.now copy.items factors.now) }
{
    let mut all = Vec::new(alloc);
    for factor in factors {
        let value = fold_expression(alloc, declared, &factor.value)?;
        all.push(Factor {
            divide: factor.divide,
            at: factor.at,
            value,
        })?;
    }
    Ok(all)
}
