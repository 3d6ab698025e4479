//! Evaluates constant expressions inside loops, which specify the rounds of loops and the elements
//! of arrays.

ghost use Rattle.std.specs.Prelude.{◌≡◌, ◌≤◌, ◌^◌, ◌+ℤ◌, ◌≤ℤ◌, pos, map, int_le, nat_eq, unsigned_abs, IfOk};
ghost use Rattle.mu_unroll.specs.Prelude.{decimal_value, whole, expression, reference, signed, scaled, terms_of, factors_of};
ghost use Rattle.mu_unroll.specs.ConstantValues.{constant_value, placed, product_value, reference_value, sum_value, whole_at, zero_value};
ghost use Rattle.mu_unroll.specs.Flattening.{bound_of, constants_in, index_in};
ghost use Rattle.mu_unroll.specs.LoopBounds.{AreRoundsBounded, bounds_of};
ghost use Rattle.mu_unroll.specs.VariablePlaces.{constant_of};
ghost use Rattle.mu_unroll.specs.VariableTables.{denoted};

use crate::environment::{Environment, NameDenotation};
use crate::unroll_fault::UnrollErr;
use mu_names::{combine_constant_factors, combine_constant_terms};
use mu_num::{NumErr, Ratio, decimal};
use mu_tree::{Expr, Factor, RangeRef, Ref, Term};

/// The remaining rounds of a loop: the values of its variable in the next and in the last round.
#[derive(Clone, Copy, Drop)]
pub struct Rounds {
    pub next: i128,
    pub last: i128,
}

impl Rounds {
    /// Returns whether a round remains.
    pub fn has_next_value(self) -> bool
        ensures { result ≡ int_le self.next self.last }
    {
        self.next <= self.last
    }

    /// Returns the value of the loop variable in the next round.
    pub fn first(self) -> i128
        ensures { result ≡ self.next }
    {
        self.next
    }

    /// Returns the rounds after the next one.
    pub fn after_next_value(self) -> Rounds
        requires near { AreRoundsBounded self }
        requires there { self.next ≤ℤ self.last }
        ensures { result ≡ record { next = self.next +ℤ pos 1; last = self.last } }
    {
        Rounds {
            next: self.next + 1,
            last: self.last,
        }
    }
}

/// Returns all rounds of a loop. Errors: its first fault.
pub fn unrolled_bound_values(env: &Environment, range: RangeRef) -> Result<Rounds, UnrollErr>
    ensures value { result
        ≡ bounds_of (denoted env.now) range.entry.at (expression range.entry.from.now)
        (expression range.entry.to.now) }
    ensures near { IfOk result AreRoundsBounded }
{
    let next = unrolled_bound_value(env, range.at, range.from)?;
    let last = unrolled_bound_value(env, range.at, range.to)?;
    Ok(Rounds { next, last })
}

/// Returns the zero-based position of an element for a one-based index. Errors: `Index`.
pub fn unrolled_index_value(at: u32, size: u32, index: i128) -> Result<u32, UnrollErr>
    ensures { result ≡ index_in at size index }
{
    if 1 <= index && index <= size as i128 {
        Ok((index - 1) as u32)
    } else {
        Err(UnrollErr::Index {
            at,
            value: index,
            size,
        })
    }
}

// Returns a bound of the loop over the variable at this offset. Errors: its first fault.
fn unrolled_bound_value(env: &Environment, at: u32, e: &Expr) -> Result<i128, UnrollErr>
    ensures value { result
        ≡ bound_of (denoted env.now) at (expression e.now) }
    ensures size { IfOk result (λ number. unsigned_abs number ≤ 2 ^ 62) }
{
    let value = constant_value(env, e)?;
    unrolled_whole_value(value, at)
}

/// Returns the value of a constant expression. Errors: the first fault of its parts.
#[cycle(valuing)]
pub fn constant_value(env: &Environment, e: &Expr) -> Result<Ratio, UnrollErr>
    ensures { result
        ≡ constant_value (constants_in (denoted env.now))
        (expression e.now) }
{
    match e {
        Expr::Num { digits, at } => unrolled_literal_value(digits.bytes(), *at),
        Expr::Var(target) => reference_value(env, target),
        Expr::Time { .. } | Expr::Pre(_) => Ok(Ratio::whole(0)),
        Expr::Sum { terms } => sum_value(env, terms),
        Expr::Product { factors } => product_value(env, factors),
        Expr::Pow { base, exp, at } => {
            let base = constant_value(env, base)?;
            locate_number_fault(base.pow(*exp), *at)
        }
    }
}

/// Returns the value of a literal. Errors: `ConstFault`.
pub fn unrolled_literal_value(digits: &[u8], at: u32) -> Result<Ratio, UnrollErr>
    ensures { result ≡ placed at (decimal_value digits.now) }
{
    locate_number_fault(decimal(digits), at)
}

// Returns the number, or its error as a fault at the offset.
fn locate_number_fault(answer: Result<Ratio, NumErr>, at: u32) -> Result<Ratio, UnrollErr>
    ensures { result ≡ placed at answer }
{
    match answer {
        Ok(value) => Ok(value),
        Err(fault) => Err(UnrollErr::ConstFault { at, fault }),
    }
}

// Returns the value of a reference.
fn reference_value(env: &Environment, target: &Ref) -> Result<Ratio, UnrollErr>
    ensures { result
        ≡ reference_value (constants_in (denoted env.now))
        (reference target.now) }
{
    match &target.index {
        Some(_) => Ok(Ratio::whole(0)),
        None => match unrolled_constant_value(env.meaning_of(target.name.bytes())) {
            Some(value) => Ok(value),
            None => Ok(Ratio::whole(0)),
        },
    }
}

/// Returns the value of a name that denotes a constant.
pub fn unrolled_constant_value(meant: NameDenotation) -> Option<Ratio>
    ensures { result ≡ constant_of meant }
{
    match meant {
        NameDenotation::Constant(value) => Some(value),
        NameDenotation::Variable(_, _, _) | NameDenotation::Nothing => None,
    }
}

// Returns the value of a sum, term by term.
#[cycle(valuing)]
fn sum_value(env: &Environment, terms: &[Term]) -> Result<Ratio, UnrollErr>
    ensures { result
        ≡ sum_value (constants_in (denoted env.now)) zero_value
        (terms_of (map signed terms.now)) }
{
    let mut total = Ratio::whole(0);
    for term in terms {
        let value = constant_value(env, &term.value)?;
        total = locate_number_fault(combine_constant_terms(total, term.minus, value), term.at)?;
    }
    Ok(total)
}

// Returns the value of a product, factor by factor.
#[cycle(valuing)]
fn product_value(env: &Environment, factors: &[Factor]) -> Result<Ratio, UnrollErr>
    ensures { result
        ≡ product_value (constants_in (denoted env.now)) (whole (pos 1))
        (factors_of (map scaled factors.now)) }
{
    let mut total = Ratio::whole(1);
    for factor in factors {
        let value = constant_value(env, &factor.value)?;
        total = locate_number_fault(
            combine_constant_factors(total, factor.divide, value),
            factor.at,
        )?;
    }
    Ok(total)
}

/// Returns the value as an integer of absolute value at most 2^62. Errors: `NotWhole` at the
/// offset.
pub fn unrolled_whole_value(value: Ratio, at: u32) -> Result<i128, UnrollErr>
    ensures value { result ≡ whole_at at value }
    ensures size { IfOk result (λ number. unsigned_abs number ≤ 2 ^ 62) }
{
    if is_integer_value(value) {
        Ok(value.num())
    } else {
        Err(UnrollErr::NotWhole { at })
    }
}

// Returns whether a value is an integer.
fn is_integer_value(value: Ratio) -> bool
    ensures { result ≡ nat_eq value.den 1 }
{
    value.den() == 1
}
