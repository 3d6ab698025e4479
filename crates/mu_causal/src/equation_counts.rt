//! Counts the equations of each variable, and checks that each state and each algebraic variable
//! has exactly one.

ghost use Rattle.std.specs.Prelude.{◌≡◌, ◌<◌, ◌^◌, [], ◌∷◌, ◌++◌, ℕ, List, length, map, slice_index_or, OnOk, IfOk, IfErr};
ghost use Rattle.mu_causal.specs.Prelude.{flat_equation, flat_model};
ghost use Rattle.mu_causal.specs.Dependencies.{numbers_from, EachHasOneEquation, IsNumbered, wants_equation};
ghost use Rattle.mu_causal.specs.OrderResults.{IsGiven, IsCausalFault};
ghost use Rattle.mu_causal.specs.declared.equation_counts.Given.TheVariants.{Never};

use crate::causal_outcome::CausalErr;
use mu_tree::{FlatEquation, FlatModel, FlatRole};
use std::alloc::{AllocError, Global};

/// The equations of a variable, by their numbers from 1 on.
#[derive(Clone, Copy)]
pub enum Given {
    /// No equation.
    Never,
    /// Exactly one equation.
    Once(u32),
    /// Two or more equations: the first two.
    Often(u32, u32),
}

impl Given {
    // Returns the equations of the variable with one more.
    fn with_equation_count(self, number: u32) -> Self
        ensures { (numbers : List ℕ) → IsGiven numbers self
            → IsGiven (numbers ++ number ∷ []) result }
    {
        match self {
            Given::Never => Given::Once(number),
            Given::Once(first) => Given::Often(first, number),
            Given::Often(first, second) => Given::Often(first, second),
        }
    }
}

/// Checks that each state and each algebraic variable has exactly one equation. Errors: the least
/// variable that does not, or out of memory.
pub fn check_one_equation_each(alloc: Global, m: &FlatModel) -> Result<(), CausalErr>
    requires { IsNumbered (flat_model m.now) }
    ensures ok { OnOk result (EachHasOneEquation (flat_model m.now)) }
    ensures err { IfErr result (IsCausalFault (flat_model m.now)) }
{
    let Ok(given) = count_equations_by_target(alloc, &m.equations, m.vars.len()) else {
        return Err(CausalErr::Memory);
    };
    for (place, variable) in m.vars.iter().enumerate() {
        if needs_equation(variable.role) {
            let var = place as u32;
            match given[place] {
                Given::Never => return Err(CausalErr::NoEquation { var }),
                Given::Once(_) => {}
                Given::Often(first, second) => {
                    return Err(CausalErr::TwoEquations { var, first, second });
                }
            }
        }
    }
    Ok(())
}

// Returns the equations of each variable, by one pass over all equations.
fn count_equations_by_target(
    alloc: Global,
    equations: &[FlatEquation],
    count: usize,
) -> Result<Vec<Given>, AllocError>
    requires { length equations.now < 2 ^ 32 }
    ensures count { IfOk result (λ given. length given.items ≡ count) }
    ensures each { IfOk result
        (λ given. (v : ℕ)
        → v < count
        → IsGiven (numbers_from 1 (map flat_equation equations.now) v)
        (slice_index_or given.items v Never)) }
{
    let mut given = vec![in alloc; Given::Never; count]?;
    for (place, equation) in equations.iter().enumerate() {
        let target = equation.target as usize;
        if target < count {
            given[target] = given[target].with_equation_count(place as u32 + 1);
        }
    }
    Ok(given)
}

// Returns whether a variable with this role needs an equation: a state or an algebraic variable.
fn needs_equation(role: FlatRole) -> bool
    ensures { result ≡ wants_equation role }
{
    match role {
        FlatRole::State | FlatRole::Algebraic => true,
        FlatRole::Discrete => false,
    }
}
