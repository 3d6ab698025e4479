//! Counts of items, loop rounds and nodes during unrolling, and their limits.

ghost use Rattle.std.specs.Prelude.{◌≡◌, ◌+◌, ◌^◌, map, min};
ghost use Rattle.mu_unroll.specs.Prelude.{expression, signed, scaled, terms_of, factors_of};
ghost use Rattle.mu_unroll.specs.Counting.{no_counts, node_count, term_nodes, factor_nodes, with_item, with_total, with_round};

use crate::unroll_fault::UnrollErr;
use mu_tree::{Expr, Factor, Term};

/// The maximum number of items.
const ITEMS: u32 = 1 << 14;

/// The maximum number of loop rounds.
const ROUNDS: u32 = 1 << 16;

/// The maximum number of nodes.
const NODES: u32 = 1 << 20;

/// The limit of nodes plus one, at which node counts saturate.
const MANY: u32 = NODES + 1;

/// The numbers of items, of loop rounds and of flat expression nodes so far. An item is an
/// equation, a statement, a condition or a start assignment.
#[derive(Clone, Copy, Drop)]
pub struct Counts {
    pub items: u32,
    pub rounds: u32,
    pub nodes: u32,
}

/// Counts one more item with the nodes of an expression. Errors: `TooMany`.
#[tactic(auto, using(crate::proofs::Totals::with_total_min))]
pub fn count_expression(counts: Counts, e: &Expr) -> Result<Counts, UnrollErr>
    ensures { result ≡ with_item counts (node_count (expression e.now)) }
{
    count(counts, count_unrolled_nodes(counts.nodes, e))
}

/// Counts one more item with the nodes of two expressions. Errors: `TooMany`.
#[tactic(auto, using(crate::proofs::Totals::with_total_min))]
pub fn count_sides(counts: Counts, left: &Expr, right: &Expr) -> Result<Counts, UnrollErr>
    ensures { result
        ≡ with_item counts (node_count (expression left.now) + node_count (expression right.now)) }
{
    count(
        counts,
        count_unrolled_nodes(count_unrolled_nodes(counts.nodes, left), right),
    )
}

/// Returns counts of 0.
pub fn zero_counts() -> Counts
    ensures { result ≡ no_counts }
{
    Counts {
        items: 0,
        rounds: 0,
        nodes: 0,
    }
}

/// Counts one more item without nodes. Errors: `TooMany`.
#[tactic(auto, using(crate::proofs::Totals::with_total_min))]
pub fn count_start(counts: Counts) -> Result<Counts, UnrollErr>
    ensures { result ≡ with_item counts 0 }
{
    count(counts, counts.nodes.min(MANY))
}

/// Counts one more loop round. Errors: `TooMany`.
pub fn count_round(counts: Counts) -> Result<Counts, UnrollErr>
    ensures { result ≡ with_round counts }
{
    if counts.rounds >= ROUNDS {
        return Err(UnrollErr::TooMany { count: ROUNDS + 1 });
    }
    Ok(Counts {
        items: counts.items,
        rounds: counts.rounds + 1,
        nodes: counts.nodes,
    })
}

// Counts one more item; `nodes` is the new node count. Errors: `TooMany`.
fn count(counts: Counts, nodes: u32) -> Result<Counts, UnrollErr>
    ensures { result ≡ with_total counts nodes }
{
    if counts.items >= ITEMS {
        return Err(UnrollErr::TooMany { count: ITEMS + 1 });
    }
    if nodes > NODES {
        return Err(UnrollErr::TooMany { count: MANY });
    }
    Ok(Counts {
        items: counts.items + 1,
        rounds: counts.rounds,
        nodes,
    })
}

// Returns the node count with the nodes of an expression, saturated.
#[cycle(counting)]
fn count_unrolled_nodes(before: u32, e: &Expr) -> u32
    ensures { result ≡ min (before + node_count (expression e.now)) (2 ^ 20 + 1) }
{
    match e {
        Expr::Num { .. } | Expr::Var(_) | Expr::Time { .. } | Expr::Pre(_) => count_unrolled_node(
            before,
        ),
        Expr::Sum { terms } => count_unrolled_term_nodes(count_unrolled_node(before), terms),
        Expr::Product { factors } => count_unrolled_factor_nodes(
            count_unrolled_node(before),
            factors,
        ),
        Expr::Pow { base, .. } => count_unrolled_nodes(count_unrolled_node(before), base),
    }
}

// Returns the node count plus one, saturated.
fn count_unrolled_node(before: u32) -> u32
    ensures { result ≡ min (before + 1) (2 ^ 20 + 1) }
{
    if before < MANY { before + 1 } else { MANY }
}

// Returns the node count with the nodes of the terms, saturated.
#[cycle(counting)]
fn count_unrolled_term_nodes(before: u32, terms: &[Term]) -> u32
    ensures { result ≡ min (before + term_nodes (terms_of (map signed terms.now))) (2 ^ 20 + 1) }
{
    let mut nodes = before.min(MANY);
    for term in terms {
        nodes = count_unrolled_nodes(nodes, &term.value);
    }
    nodes
}

// Returns the node count with the nodes of the factors, saturated.
#[cycle(counting)]
fn count_unrolled_factor_nodes(before: u32, factors: &[Factor]) -> u32
    ensures { result
        ≡ min (before + factor_nodes (factors_of (map scaled factors.now))) (2 ^ 20 + 1) }
{
    let mut nodes = before.min(MANY);
    for factor in factors {
        nodes = count_unrolled_nodes(nodes, &factor.value);
    }
    nodes
}
