//! Writes the canonical text of expressions, with the brackets that the grammar requires.

ghost use Rattle.std.specs.Prelude.{◌≡◌, ◌++◌, [], ◌∷◌, map, OnOk, true};
ghost use Rattle.mu_tree.specs.Canonical.{bracketed_if, factor_sign, is_compound, is_sum, is_sum_or_product, joined, sign, written, written_factors, written_reference, written_terms};
ghost use Rattle.mu_tree.specs.Expression.{expression, factors_of, reference, scaled, signed, terms_of};

use itoa::Buffer;
use mu_tree::{Expr, Factor, Ref, Term};
use std::alloc::AllocError;

// Appends a token and its separator: a line feed after a semicolon, else a space.
pub(crate) fn write_token_text(out: &mut Vec<u8>, text: &[u8]) -> Result<(), AllocError>
    ensures { OnOk result (out.new.items ≡ out.old.items ++ joined (text.now ∷ [])) }
{
    out.extend_from_slice(text)?;
    out.push(if text == b";".as_slice() { b'\n' } else { b' ' })?;
    Ok(())
}

// Appends the canonical text of an expression.
#[cycle(writing)]
pub(crate) fn write_expression(out: &mut Vec<u8>, value: &Expr) -> Result<(), AllocError>
    ensures { OnOk result
        (out.new.items ≡ out.old.items ++ joined (written (expression value.now))) }
{
    match value {
        Expr::Num { digits, at: _ } => write_token_text(out, digits.bytes()),
        Expr::Var(target) => write_reference(out, target),
        Expr::Time { at: _ } => write_token_text(out, b"time"),
        Expr::Pre(target) => {
            write_token_text(out, b"pre")?;
            write_token_text(out, b"(")?;
            write_reference(out, target)?;
            write_token_text(out, b")")
        }
        Expr::Sum { terms } => write_terms(out, terms),
        Expr::Product { factors } => write_factors(out, factors),
        Expr::Pow { base, exp, at: _ } => {
            write_expression_part(out, base, has_brackets_in_power(base))?;
            write_token_text(out, b"^")?;
            write_token_text(out, Buffer::new().format(*exp).as_bytes())
        }
    }
}

// Appends the canonical text of a reference.
#[cycle(writing)]
pub(crate) fn write_reference(out: &mut Vec<u8>, target: &Ref) -> Result<(), AllocError>
    ensures { OnOk result
        (out.new.items ≡ out.old.items ++ joined (written_reference (reference target.now))) }
{
    write_token_text(out, target.name.bytes())?;
    match &target.index {
        None => Ok(()),
        Some(index) => {
            write_token_text(out, b"[")?;
            write_expression(out, index)?;
            write_token_text(out, b"]")
        }
    }
}

// Appends the canonical text of a sum.
#[cycle(writing)]
fn write_terms(out: &mut Vec<u8>, terms: &[Term]) -> Result<(), AllocError>
    ensures { OnOk result
        (out.new.items
        ≡ out.old.items ++ joined (written_terms (terms_of (map signed terms.now)) true)) }
{
    let mut first = true;
    for term in terms {
        write_term_sign(out, first, term.minus)?;
        write_expression_part(out, &term.value, has_brackets_in_sum(&term.value))?;
        first = false;
    }
    Ok(())
}

// Appends the sign of a term, without a plus before the first term.
fn write_term_sign(out: &mut Vec<u8>, first: bool, minus: bool) -> Result<(), AllocError>
    ensures { OnOk result (out.new.items ≡ out.old.items ++ joined (sign first minus)) }
{
    if minus {
        write_token_text(out, b"-")
    } else if first {
        Ok(())
    } else {
        write_token_text(out, b"+")
    }
}

// Appends the canonical text of an expression, with or without brackets.
#[cycle(writing)]
fn write_expression_part(out: &mut Vec<u8>, value: &Expr, brackets: bool) -> Result<(), AllocError>
    ensures { OnOk result
        (out.new.items
        ≡ out.old.items ++ joined (bracketed_if brackets (written (expression value.now)))) }
{
    if brackets {
        write_token_text(out, b"(")?;
        write_expression(out, value)?;
        write_token_text(out, b")")
    } else {
        write_expression(out, value)
    }
}

// Returns whether an expression needs brackets as a term of a sum.
fn has_brackets_in_sum(value: &Expr) -> bool
    ensures { result ≡ is_sum (expression value.now) }
{
    matches!(value, Expr::Sum { .. })
}

// Appends the canonical text of a product.
#[cycle(writing)]
fn write_factors(out: &mut Vec<u8>, factors: &[Factor]) -> Result<(), AllocError>
    ensures { OnOk result
        (out.new.items
        ≡ out.old.items
        ++ joined (written_factors (factors_of (map scaled factors.now)) true)) }
{
    let mut first = true;
    for factor in factors {
        write_factor_sign(out, first, factor.divide)?;
        write_expression_part(out, &factor.value, has_brackets_in_product(&factor.value))?;
        first = false;
    }
    Ok(())
}

// Appends the operator before a factor, and none before the first one.
fn write_factor_sign(out: &mut Vec<u8>, first: bool, divide: bool) -> Result<(), AllocError>
    ensures { OnOk result (out.new.items ≡ out.old.items ++ joined (factor_sign first divide)) }
{
    if first {
        Ok(())
    } else if divide {
        write_token_text(out, b"/")
    } else {
        write_token_text(out, b"*")
    }
}

// Returns whether an expression needs brackets as a factor of a product.
fn has_brackets_in_product(value: &Expr) -> bool
    ensures { result ≡ is_sum_or_product (expression value.now) }
{
    matches!(value, Expr::Sum { .. } | Expr::Product { .. })
}

// Returns whether an expression needs brackets as the base of a power.
fn has_brackets_in_power(value: &Expr) -> bool
    ensures { result ≡ is_compound (expression value.now) }
{
    matches!(
        value,
        Expr::Sum { .. } | Expr::Product { .. } | Expr::Pow { .. }
    )
}
