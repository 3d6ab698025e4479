//! Evaluates constant expressions. A trait specifies what names denote in them, and the faults of
//! their parts are recorded.

ghost use Rattle.std.specs.Prelude.{◌≡◌, [], ◌∷◌, map, ℕ, List, Result, Option, pos};
ghost use Rattle.mu_names.specs.Prelude.{Fraction, whole, NumErr, expression, reference, signed, scaled, terms_of, factors_of};
ghost use Rattle.mu_names.specs.Constant.{value_of, faults_of, both, both_faults, joined, multiplied, one, one_faults, raised, constant_of, name_faults, indexed_faults, value, sum_value, product_value, reference_value, faults, sum_faults, product_faults, reference_faults, previous_faults};
ghost use Rattle.mu_names.specs.LeastFaults.{least_of};
ghost use Rattle.mu_names.specs.declared.constant_values.Meaning.{Meaning};

use crate::name_fault::{NameErr, keep_least_fault};
use mu_num::{NumErr, Ratio, decimal};
use mu_tree::{Expr, Factor, Ref, Term};

/// The denotation of names in constant expressions.
pub trait Meanings {
    ghost meaning: { Self → List ℕ → Meaning };

    /// Returns what a name denotes.
    fn meaning(&self, name: &[u8]) -> Meaning
        ensures { result ≡ meaning self.now name.now };
}

/// What a name denotes in a constant expression.
#[derive(Clone, Copy, Drop)]
pub enum Meaning {
    /// A constant, with its value if it has one.
    Constant(Option<Ratio>),
    /// A declared name that is not a constant.
    Variable,
    /// A name that is not declared, or declared only later.
    Undeclared,
}

/// Returns the sum with one more term, which is subtracted if `minus` is set. Errors: `Range`.
pub fn combine_constant_terms(total: Ratio, minus: bool, value: Ratio) -> Result<Ratio, NumErr>
    ensures { result ≡ joined minus total value }
{
    if minus {
        total.sub(value)
    } else {
        total.add(value)
    }
}

/// Returns the product with one more factor, or the quotient if `divide` is set. Errors: `Range`,
/// `ZeroDivisor`.
pub fn combine_constant_factors(total: Ratio, divide: bool, value: Ratio) -> Result<Ratio, NumErr>
    ensures { result ≡ multiplied divide total value }
{
    if divide {
        total.div(value)
    } else {
        total.mul(value)
    }
}

/// Returns the value of a constant expression, if it has one, and records the faults of its parts.
#[cycle(evaluate_constant)]
#[tactic(auto, using(crate::proofs::LeastLemmas::least_of_append))]
pub fn evaluate_constant<M: Meanings>(
    meanings: &M,
    e: &Expr,
    least: &mut Option<NameErr>,
) -> Option<Ratio>
    ensures value { result ≡ value (M.meaning meanings.now) (expression e.now) }
    ensures faults { least.new
        ≡ least_of least.old (faults (M.meaning meanings.now) (expression e.now)) }
{
    match e {
        Expr::Num { digits, at } => valued(decimal(digits.bytes()), *at, least),
        Expr::Var(target) => evaluate_constant_reference(meanings, target, least),
        Expr::Time { at } => {
            keep_least_fault(least, NameErr::Misused { at: *at });
            None
        }
        Expr::Pre(target) => {
            evaluate_constant_previous(meanings, target, least);
            None
        }
        Expr::Sum { terms } => evaluate_constant_sum(meanings, terms, least),
        Expr::Product { factors } => evaluate_constant_product(meanings, factors, least),
        Expr::Pow { base, exp, at } => {
            let base = evaluate_constant(meanings, base, least);
            raise_constant_power(base, *exp, *at, least)
        }
    }
}

// Returns the value, or records the error as a fault at the offset.
fn valued(answer: Result<Ratio, NumErr>, at: u32, least: &mut Option<NameErr>) -> Option<Ratio>
    ensures value { result ≡ value_of answer }
    ensures faults { least.new ≡ least_of least.old (faults_of at answer) }
{
    match answer {
        Ok(value) => Some(value),
        Err(fault) => {
            keep_least_fault(least, NameErr::ConstFault { at, fault });
            None
        }
    }
}

// Evaluates a name, with or without an index, in a constant expression.
#[cycle(evaluate_constant)]
#[tactic(auto, using(crate::proofs::LeastLemmas::least_of_append))]
fn evaluate_constant_reference<M: Meanings>(
    meanings: &M,
    target: &Ref,
    least: &mut Option<NameErr>,
) -> Option<Ratio>
    ensures value { result ≡ reference_value (M.meaning meanings.now) (reference target.now) }
    ensures faults { least.new
        ≡ least_of least.old (reference_faults (M.meaning meanings.now) (reference target.now)) }
{
    let meaning = meanings.meaning(target.name.bytes());
    match &target.index {
        None => look_up_constant(meaning, target.at, least),
        Some(index) => {
            let _ = evaluate_constant(meanings, index, least);
            note_constant_misuse(meaning, target.at, least);
            None
        }
    }
}

// Returns the value of a name without an index, and records its fault.
fn look_up_constant(meaning: Meaning, at: u32, least: &mut Option<NameErr>) -> Option<Ratio>
    ensures value { result ≡ constant_of meaning }
    ensures faults { least.new ≡ least_of least.old (name_faults at meaning) }
{
    match meaning {
        Meaning::Constant(value) => value,
        Meaning::Variable => {
            keep_least_fault(least, NameErr::Misused { at });
            None
        }
        Meaning::Undeclared => {
            keep_least_fault(least, NameErr::Unknown { at });
            None
        }
    }
}

// Records the fault of a name that is not allowed in a constant expression.
fn note_constant_misuse(meaning: Meaning, at: u32, least: &mut Option<NameErr>)
    ensures { least.new ≡ least_of least.old (indexed_faults at meaning) }
{
    match meaning {
        Meaning::Undeclared => keep_least_fault(least, NameErr::Unknown { at }),
        _ => keep_least_fault(least, NameErr::Misused { at }),
    }
}

// Records the faults of `pre` in a constant expression, where it is not allowed.
#[cycle(evaluate_constant)]
#[tactic(auto, using(crate::proofs::LeastLemmas::least_of_append))]
fn evaluate_constant_previous<M: Meanings>(meanings: &M, target: &Ref, least: &mut Option<NameErr>)
    ensures { least.new
        ≡ least_of least.old (previous_faults (M.meaning meanings.now) (reference target.now)) }
{
    let meaning = meanings.meaning(target.name.bytes());
    match &target.index {
        None => note_constant_misuse(meaning, target.at, least),
        Some(index) => {
            let _ = evaluate_constant(meanings, index, least);
            note_constant_misuse(meaning, target.at, least);
        }
    }
}

// Evaluates a sum, term by term.
#[cycle(evaluate_constant)]
#[tactic(auto, using(crate::proofs::LeastLemmas::least_of_append))]
fn evaluate_constant_sum<M: Meanings>(
    meanings: &M,
    terms: &[Term],
    least: &mut Option<NameErr>,
) -> Option<Ratio>
    ensures value { result
        ≡ sum_value (M.meaning meanings.now) (Some (whole (pos 0)))
        (terms_of (map signed terms.now)) }
    ensures faults { least.new
        ≡ least_of least.old
        (sum_faults (M.meaning meanings.now) (Some (whole (pos 0)))
        (terms_of (map signed terms.now))) }
{
    let mut total = Some(Ratio::whole(0));
    for term in terms {
        let value = evaluate_constant(meanings, &term.value, least);
        total = join_constant_term(total, term.minus, value, term.at, least);
    }
    total
}

// Adds one more term to a sum, if both have a value. Records an error as a fault.
fn join_constant_term(
    total: Option<Ratio>,
    minus: bool,
    value: Option<Ratio>,
    at: u32,
    least: &mut Option<NameErr>,
) -> Option<Ratio>
    ensures value { result ≡ both (joined minus) total value }
    ensures faults { least.new ≡ least_of least.old (both_faults at (joined minus) total value) }
{
    match (total, value) {
        (Some(total), Some(value)) => valued(
            combine_constant_terms(total, minus, value),
            at,
            least,
        ),
        _ => None,
    }
}

// Evaluates a product, factor by factor.
#[cycle(evaluate_constant)]
#[tactic(auto, using(crate::proofs::LeastLemmas::least_of_append))]
fn evaluate_constant_product<M: Meanings>(
    meanings: &M,
    factors: &[Factor],
    least: &mut Option<NameErr>,
) -> Option<Ratio>
    ensures value { result
        ≡ product_value (M.meaning meanings.now) (Some (whole (pos 1)))
        (factors_of (map scaled factors.now)) }
    ensures faults { least.new
        ≡ least_of least.old
        (product_faults (M.meaning meanings.now) (Some (whole (pos 1)))
        (factors_of (map scaled factors.now))) }
{
    let mut total = Some(Ratio::whole(1));
    for factor in factors {
        let value = evaluate_constant(meanings, &factor.value, least);
        total = multiply_constant_factor(total, factor.divide, value, factor.at, least);
    }
    total
}

// Multiplies a product by one more factor, if both have a value. Records an error as a fault.
fn multiply_constant_factor(
    total: Option<Ratio>,
    divide: bool,
    value: Option<Ratio>,
    at: u32,
    least: &mut Option<NameErr>,
) -> Option<Ratio>
    ensures value { result ≡ both (multiplied divide) total value }
    ensures faults { least.new
        ≡ least_of least.old (both_faults at (multiplied divide) total value) }
{
    match (total, value) {
        (Some(total), Some(value)) => valued(
            combine_constant_factors(total, divide, value),
            at,
            least,
        ),
        _ => None,
    }
}

// Returns a power, if the base has a value. Records an error as a fault.
fn raise_constant_power(
    base: Option<Ratio>,
    exp: u8,
    at: u32,
    least: &mut Option<NameErr>,
) -> Option<Ratio>
    ensures value { result ≡ one (raised exp) base }
    ensures faults { least.new ≡ least_of least.old (one_faults at (raised exp) base) }
{
    match base {
        Some(base) => valued(base.pow(exp), at, least),
        None => None,
    }
}
