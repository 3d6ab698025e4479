//! Flattens expressions and left sides: references become numbered variables, and constants are
//! replaced by their values.

ghost use Rattle.std.specs.Prelude.{◌≡◌, map, Ok, IfOk, IfErr};
ghost use Rattle.mu_unroll.specs.Prelude.{variable_limit, expression, reference, signed, scaled, terms_of, factors_of, flat_expression, flat_signed, flat_scaled};
ghost use Rattle.mu_unroll.specs.Flattening.{element_found, flattened, flattened_factors, flattened_terms, found, literal_part, number_of_kind, part_of, place_of, previous_part, whole_found};
ghost use Rattle.mu_unroll.specs.UnrollFaults.{IsFault};
ghost use Rattle.mu_unroll.specs.VariablePlaces.{ArePlaced, IsPlaced, is_kind};
ghost use Rattle.mu_unroll.specs.VariableTables.{denoted, meant_at};

use crate::environment::{Environment, NameDenotation, ResolvedReference};
use crate::unroll_fault::UnrollErr;
use crate::unrolled_values::{
    constant_value, unrolled_index_value, unrolled_literal_value, unrolled_whole_value,
};
use mu_num::Ratio;
use mu_tree::{Expr, Factor, FlatExpr, FlatFactor, FlatRole, FlatTerm, Ref, Term};
use std::alloc::Global;

/// Resolves a reference. Errors: an invalid index.
pub fn found(env: &Environment, target: &Ref) -> Result<ResolvedReference, UnrollErr>
    requires { ArePlaced variable_limit (meant_at env.now.declared) }
    ensures { result ≡ found (denoted env.now) (reference target.now) }
{
    let meant = env.meaning_of(target.name.bytes());
    match &target.index {
        None => Ok(flatten_whole_reference(meant)),
        Some(index) => flatten_element_reference(env, target.at, index, meant),
    }
}

// Resolves a name without an index.
fn flatten_whole_reference(meant: NameDenotation) -> ResolvedReference
    ensures { result ≡ whole_found meant }
{
    match meant {
        NameDenotation::Constant(value) => ResolvedReference::Value(value),
        NameDenotation::Variable(kind, first, size) => match size {
            None => ResolvedReference::Numbered(kind, first),
            Some(_) => ResolvedReference::Unfound,
        },
        NameDenotation::Nothing => ResolvedReference::Unfound,
    }
}

// Resolves an array element. Errors: an invalid index.
fn flatten_element_reference(
    env: &Environment,
    at: u32,
    index: &Expr,
    meant: NameDenotation,
) -> Result<ResolvedReference, UnrollErr>
    requires { IsPlaced variable_limit meant }
    ensures { result
        ≡ element_found (denoted env.now) at (expression index.now)
        meant }
{
    match meant {
        NameDenotation::Variable(kind, first, Some(size)) => {
            let value = constant_value(env, index)?;
            let whole = unrolled_whole_value(value, at)?;
            let place = unrolled_index_value(at, size, whole)?;
            Ok(ResolvedReference::Numbered(kind, first + place))
        }
        NameDenotation::Variable(_, _, None)
        | NameDenotation::Constant(_)
        | NameDenotation::Nothing => Ok(ResolvedReference::Unfound),
    }
}

/// Returns whether two roles are equal.
pub fn is_flattened_kind(kind: FlatRole, other: FlatRole) -> bool
    ensures { result ≡ is_kind kind other }
{
    match kind {
        FlatRole::State => match other {
            FlatRole::State => true,
            FlatRole::Discrete | FlatRole::Algebraic => false,
        },
        FlatRole::Discrete => match other {
            FlatRole::Discrete => true,
            FlatRole::State | FlatRole::Algebraic => false,
        },
        FlatRole::Algebraic => match other {
            FlatRole::Algebraic => true,
            FlatRole::State | FlatRole::Discrete => false,
        },
    }
}

/// Returns the number of a resolved variable with this role.
pub fn flattened_number_of_kind(kind: FlatRole, found: ResolvedReference) -> Option<u32>
    ensures { result ≡ number_of_kind kind found }
{
    match found {
        ResolvedReference::Numbered(other, number) => {
            if is_flattened_kind(kind, other) {
                Some(number)
            } else {
                None
            }
        }
        ResolvedReference::Value(_) | ResolvedReference::Unfound => None,
    }
}

/// Flattens an expression of a clause or of an equation. Errors: the first fault, or out of memory.
#[cycle(flattening)]
pub fn flatten(
    alloc: Global,
    env: &Environment,
    in_clause: bool,
    e: &Expr,
) -> Result<FlatExpr, UnrollErr>
    requires { ArePlaced variable_limit (meant_at env.now.declared) }
    ensures ok { IfOk result
        (λ flat. flattened in_clause (denoted env.now) (expression e.now)
        ≡ Ok (flat_expression flat)) }
    ensures err { IfErr result
        (IsFault
        (flattened in_clause (denoted env.now) (expression e.now))) }
{
    match e {
        Expr::Num { digits, at } => {
            let value = unrolled_literal_value(digits.bytes(), *at)?;
            Ok(FlatExpr::Const { value, at: *at })
        }
        Expr::Var(target) => {
            let found = found(env, target)?;
            Ok(flatten_found_reference(target.at, found))
        }
        Expr::Time { at } => Ok(FlatExpr::Time { at: *at }),
        Expr::Pre(target) => {
            let found = found(env, target)?;
            let number = flattened_number_of_kind(FlatRole::Discrete, found);
            Ok(flatten_previous(in_clause, target.at, number))
        }
        Expr::Sum { terms } => {
            let terms = flatten_terms(alloc, env, in_clause, terms)?;
            Ok(FlatExpr::Sum { terms })
        }
        Expr::Product { factors } => {
            let factors = flatten_factors(alloc, env, in_clause, factors)?;
            Ok(FlatExpr::Product { factors })
        }
        Expr::Pow { base, exp, at } => {
            let base = flatten(alloc, env, in_clause, base)?;
            let base = Box::new(alloc, base)?;
            Ok(FlatExpr::Pow {
                base,
                exp: *exp,
                at: *at,
            })
        }
    }
}

// Returns a resolved reference as a flat expression.
fn flatten_found_reference(at: u32, found: ResolvedReference) -> FlatExpr
    ensures { flat_expression result ≡ part_of at found }
{
    match found {
        ResolvedReference::Value(value) => FlatExpr::Const { value, at },
        ResolvedReference::Numbered(_, var) => FlatExpr::Var { var, at },
        ResolvedReference::Unfound => FlatExpr::Const {
            value: Ratio::whole(0),
            at,
        },
    }
}

// Returns `pre` of a variable as a flat expression. It is allowed only in clauses.
fn flatten_previous(in_clause: bool, at: u32, number: Option<u32>) -> FlatExpr
    ensures { flat_expression result ≡ previous_part in_clause at number }
{
    if in_clause {
        match number {
            Some(var) => FlatExpr::Pre { var, at },
            None => FlatExpr::Const {
                value: Ratio::whole(0),
                at,
            },
        }
    } else {
        FlatExpr::Const {
            value: Ratio::whole(0),
            at,
        }
    }
}

// Flattens the terms of a sum.
#[cycle(flattening)]
fn flatten_terms(
    alloc: Global,
    env: &Environment,
    in_clause: bool,
    terms: &[Term],
) -> Result<Vec<FlatTerm>, UnrollErr>
    requires { ArePlaced variable_limit (meant_at env.now.declared) }
    ensures ok { IfOk result
        (λ flat. flattened_terms in_clause (denoted env.now)
        (terms_of (map signed terms.now))
        ≡ Ok (map flat_signed flat.items)) }
    ensures err { IfErr result
        (IsFault
        (flattened_terms in_clause (denoted env.now)
        (terms_of (map signed terms.now)))) }
{
    let mut all = Vec::new(alloc);
    for term in terms {
        let value = flatten(alloc, env, in_clause, &term.value)?;
        all.push(FlatTerm {
            minus: term.minus,
            at: term.at,
            value,
        })?;
    }
    Ok(all)
}

// Flattens the factors of a product.
#[cycle(flattening)]
fn flatten_factors(
    alloc: Global,
    env: &Environment,
    in_clause: bool,
    factors: &[Factor],
) -> Result<Vec<FlatFactor>, UnrollErr>
    requires { ArePlaced variable_limit (meant_at env.now.declared) }
    ensures ok { IfOk result
        (λ flat. flattened_factors in_clause (denoted env.now)
        (factors_of (map scaled factors.now))
        ≡ Ok (map flat_scaled flat.items)) }
    ensures err { IfErr result
        (IsFault
        (flattened_factors in_clause (denoted env.now)
        (factors_of (map scaled factors.now)))) }
{
    let mut all = Vec::new(alloc);
    for factor in factors {
        let value = flatten(alloc, env, in_clause, &factor.value)?;
        all.push(FlatFactor {
            divide: factor.divide,
            at: factor.at,
            value,
        })?;
    }
    Ok(all)
}
