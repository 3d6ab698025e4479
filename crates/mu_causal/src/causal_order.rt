//! Computes the causal order of the algebraic variables of a flat model. Theorems state that a
//! model with an order has no algebraic loop, and that the order is unique.

ghost use Rattle.std.specs.Prelude.{◌≡◌, ℕ, List, IfOk, IfErr};
ghost use Rattle.mu_causal.specs.Prelude.{flat_model, FlatModelTree};
ghost use Rattle.mu_causal.specs.Causality.{Chain, IsOrder, IsCycle};
ghost use Rattle.mu_causal.specs.Dependencies.{IsNumbered, EachHasOneEquation, IsAlgebraic, DependsOn};
ghost use Rattle.mu_causal.specs.OrderResults.{IsCausalFault};

use crate::causal_outcome::{CausalErr, Order};
use crate::dependency_graph::{
    Causality, causality_of_graph, known_dependencies, list_dependencies,
};
use crate::equation_counts::check_one_equation_each;
use mu_io::Items;
use mu_tree::FlatModel;
use std::alloc::Global;

/// Returns the causal order of the algebraic variables. Each next one is the least-numbered
/// variable whose equation reads only algebraic variables before it. Errors: a variable without
/// exactly one equation, an algebraic loop, or out of memory.
pub fn order(alloc: Global, m: &FlatModel) -> Result<Order, CausalErr>
    requires { IsNumbered (flat_model m.now) }
    ensures counted { IfOk result (λ _. EachHasOneEquation (flat_model m.now)) }
    ensures order { IfOk result
        (λ o. IsOrder (IsAlgebraic (flat_model m.now)) (DependsOn (flat_model m.now)) o.vars) }
    ensures refused { IfErr result (IsCausalFault (flat_model m.now)) }
{
    if let Err(fault) = check_one_equation_each(alloc, m) {
        return Err(fault);
    }
    let Ok(graph) = list_dependencies(alloc, m) else {
        return Err(CausalErr::Memory);
    };
    let Ok(known) = known_dependencies(alloc, &m.vars) else {
        return Err(CausalErr::Memory);
    };
    match causality_of_graph(alloc, &graph, &known) {
        Ok(Causality::Order(vars)) => Ok(Order {
            vars: Items::new(vars),
        }),
        Ok(Causality::Loop(vars)) => Err(CausalErr::Loop {
            vars: Items::new(vars),
        }),
        Err(_) => Err(CausalErr::Memory),
    }
}

/// A flat model with a causal order has no algebraic loop. So a loop is reported if and only if
/// there is one.
pub fn order_excludes_cycle()
    ensures { (m : FlatModelTree) (vars round : List ℕ)
        → IsOrder (IsAlgebraic m) (DependsOn m) vars
        → IsCycle (DependsOn m) round
        → ⊥ }
{}

/// A flat model with a causal order has no closed chain of dependencies, even if the chain repeats
/// variables or does not begin with the least one.
pub fn order_excludes_chains()
    ensures { (m : FlatModelTree) (vars : List ℕ) (v : ℕ) (vs : List ℕ)
        → IsOrder (IsAlgebraic m) (DependsOn m) vars
        → Chain (DependsOn m) v vs v
        → ⊥ }
{}

/// A flat model has at most one causal order.
pub fn order_is_unique()
    ensures { (m : FlatModelTree) (a b : List ℕ) → IsOrder (IsAlgebraic m) (DependsOn m) a
        → IsOrder (IsAlgebraic m) (DependsOn m) b
        → a ≡ b }
{}
