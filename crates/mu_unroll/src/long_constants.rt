//! Tests for long constant expressions in loops and in `when` clauses. Short ones are not folded,
//! because a copy of the list costs more than their evaluation.

use crate::item_unrolling::Unroll;
use mu_tree::{Cond, Expr, Factor, Nested, RangeRef, Ref, Term};

/// The maximum number of nodes of a short constant expression.
const SHORT: u32 = 16;

/// The maximum number of digits of a short literal.
const DIGITS: usize = 64;

/// Returns whether an item has a long constant expression that is evaluated more than once.
/// `in_loop` states whether the items are in a loop.
pub fn has_long_items<F, T: Unroll<F>>(in_loop: bool, items: &[T]) -> bool {
    for one in items {
        let is_long = match one.nested() {
            Nested::One(one) => one.is_long(in_loop),
            Nested::Each { range, body } => {
                in_loop && has_long_range(range) || has_long_items(true, body)
            }
        };
        if is_long {
            return true;
        }
    }
    false
}

// Returns whether the index of a reference is long.
#[cycle(counting_nodes)]
fn has_long_index(target: &Ref) -> bool {
    match &target.index {
        Some(index) => has_many_nodes(index),
        None => false,
    }
}

// Returns whether a constant expression is long.
#[cycle(counting_nodes)]
fn has_many_nodes(e: &Expr) -> bool {
    count_long_nodes(0, true, e) > SHORT
}

// Returns whether an expression of an equation or of a clause has a long index.
fn has_long_operand(e: &Expr) -> bool {
    count_long_nodes(0, false, e) > SHORT
}

// Returns the number of nodes before an expression plus those of the expression, counted until it
// exceeds the maximum of short expressions. A literal with more than 64 digits counts as a long
// expression. Of an expression that is not constant, only a long index counts.
#[cycle(counting_nodes)]
fn count_long_nodes(before: u32, is_constant: bool, e: &Expr) -> u32 {
    let nodes = before.saturating_add(is_constant as u32);
    let is_long = match e {
        Expr::Num { digits, .. } => is_constant && digits.bytes().len() > DIGITS,
        Expr::Var(target) | Expr::Pre(target) => !is_constant && has_long_index(target),
        Expr::Time { .. } => false,
        Expr::Sum { terms } => return count_long_terms(nodes, is_constant, terms),
        Expr::Product { factors } => return count_long_factors(nodes, is_constant, factors),
        Expr::Pow { base, .. } => return count_long_nodes(nodes, is_constant, base),
    };
    if is_long { SHORT + 1 } else { nodes }
}

// Returns the number of nodes before the terms plus those of the terms, counted until it exceeds
// the maximum of short expressions.
#[cycle(counting_nodes)]
fn count_long_terms(before: u32, is_constant: bool, terms: &[Term]) -> u32 {
    let mut nodes = before;
    for term in terms {
        if nodes > SHORT {
            return nodes;
        }
        nodes = count_long_nodes(nodes, is_constant, &term.value);
    }
    nodes
}

// Returns the number of nodes before the factors plus those of the factors, counted until it
// exceeds the maximum of short expressions.
#[cycle(counting_nodes)]
fn count_long_factors(before: u32, is_constant: bool, factors: &[Factor]) -> u32 {
    let mut nodes = before;
    for factor in factors {
        if nodes > SHORT {
            return nodes;
        }
        nodes = count_long_nodes(nodes, is_constant, &factor.value);
    }
    nodes
}

/// Returns whether an equation or a statement of a clause has a long constant expression.
pub fn has_long_side(target: &Ref, value: &Expr) -> bool {
    has_long_index(target) || has_long_operand(value)
}

/// Returns whether a start assignment has a long constant expression. Its right side is one.
pub fn has_long_start(target: &Ref, value: &Expr) -> bool {
    has_long_side(target, value) || has_many_nodes(value)
}

// Returns whether the first or the last value of a loop variable is a long constant expression.
fn has_long_range(range: RangeRef) -> bool {
    has_many_nodes(range.from) || has_many_nodes(range.to)
}

/// Returns whether a condition has a long constant expression.
pub fn has_long_condition(cond: &Cond) -> bool {
    has_long_operand(&cond.left) || has_long_operand(&cond.right)
}
