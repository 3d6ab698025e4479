//! Copies flat models and their parts. The only error is allocation failure.

ghost use Rattle.std.specs.Prelude.{◌≡◌, IfOk, List, map};
ghost use Rattle.mu_tree.specs.FlatExpression.{FlatAction, FlatBranchTree, FlatEquationTree, FlatExpression, FlatModelTree, FlatVariable, flat_action, flat_branch, flat_clause, flat_equation, flat_expression, flat_model, flat_scaled, flat_signed, flat_variable};

use crate::copied::{Copied, copy_list};
use mu_tree::{
    FlatBranch, FlatClause, FlatEquation, FlatExpr, FlatFactor, FlatModel, FlatStatement, FlatTerm,
    FlatVar,
};
use std::alloc::{AllocError, Global};

impl Copied for FlatModel {
    ghost Value = { FlatModelTree };

    ghost value = { flat_model };

    fn copy(&self, alloc: Global) -> Result<FlatModel, AllocError>
        ensures { IfOk result (λ copy. flat_model copy ≡ flat_model self.now) }
    {
        let vars = copy_list(alloc, &self.vars)?;
        let equations = copy_list(alloc, &self.equations)?;
        let clauses = copy_list(alloc, &self.clauses)?;
        Ok(FlatModel {
            vars,
            equations,
            clauses,
        })
    }
}

impl Copied for FlatVar {
    ghost Value = { FlatVariable };

    ghost value = { flat_variable };

    fn copy(&self, alloc: Global) -> Result<FlatVar, AllocError>
        ensures { IfOk result (λ copy. flat_variable copy ≡ flat_variable self.now) }
    {
        let name = self.name.copy(alloc)?;
        Ok(FlatVar {
            name,
            role: self.role,
            start: self.start,
            quantum: self.quantum,
        })
    }
}

impl Copied for FlatEquation {
    ghost Value = { FlatEquationTree };

    ghost value = { flat_equation };

    fn copy(&self, alloc: Global) -> Result<FlatEquation, AllocError>
        ensures { IfOk result (λ copy. flat_equation copy ≡ flat_equation self.now) }
    {
        let value = duplicate_expression(alloc, &self.value)?;
        Ok(FlatEquation {
            der: self.der,
            target: self.target,
            value,
        })
    }
}

impl Copied for FlatClause {
    ghost Value = { List FlatBranchTree };

    ghost value = { flat_clause };

    fn copy(&self, alloc: Global) -> Result<FlatClause, AllocError>
        ensures { IfOk result (λ copy. flat_clause copy ≡ flat_clause self.now) }
    {
        let branches = copy_list(alloc, &self.branches)?;
        Ok(FlatClause { branches })
    }
}

impl Copied for FlatBranch {
    ghost Value = { FlatBranchTree };

    ghost value = { flat_branch };

    fn copy(&self, alloc: Global) -> Result<FlatBranch, AllocError>
        ensures { IfOk result (λ copy. flat_branch copy ≡ flat_branch self.now) }
    {
        let left = duplicate_expression(alloc, &self.left)?;
        let right = duplicate_expression(alloc, &self.right)?;
        let body = copy_list(alloc, &self.body)?;
        Ok(FlatBranch {
            left,
            rel: self.rel,
            right,
            at: self.at,
            body,
        })
    }
}

impl Copied for FlatStatement {
    ghost Value = { FlatAction };

    ghost value = { flat_action };

    fn copy(&self, alloc: Global) -> Result<FlatStatement, AllocError>
        ensures { IfOk result (λ copy. flat_action copy ≡ flat_action self.now) }
    {
        match self {
            FlatStatement::FlatSet { var, value } => {
                let value = duplicate_expression(alloc, value)?;
                Ok(FlatStatement::FlatSet { var: *var, value })
            }
            FlatStatement::FlatReinit { var, value } => {
                let value = duplicate_expression(alloc, value)?;
                Ok(FlatStatement::FlatReinit { var: *var, value })
            }
        }
    }
}

impl Copied for FlatExpr {
    ghost Value = { FlatExpression };

    ghost value = { flat_expression };

    fn copy(&self, alloc: Global) -> Result<FlatExpr, AllocError>
        ensures { IfOk result (λ copy. flat_expression copy ≡ flat_expression self.now) }
    {
        duplicate_expression(alloc, self)
    }
}

// Returns a copy of an expression.
#[cycle(copying_flat)]
fn duplicate_expression(alloc: Global, value: &FlatExpr) -> Result<FlatExpr, AllocError>
    ensures { IfOk result (λ copy. flat_expression copy ≡ flat_expression value.now) }
{
    match value {
        FlatExpr::Const { value, at } => Ok(FlatExpr::Const {
            value: *value,
            at: *at,
        }),
        FlatExpr::Var { var, at } => Ok(FlatExpr::Var { var: *var, at: *at }),
        FlatExpr::Pre { var, at } => Ok(FlatExpr::Pre { var: *var, at: *at }),
        FlatExpr::Time { at } => Ok(FlatExpr::Time { at: *at }),
        FlatExpr::Sum { terms } => {
            let terms = duplicate_terms(alloc, terms)?;
            Ok(FlatExpr::Sum { terms })
        }
        FlatExpr::Product { factors } => {
            let factors = duplicate_factors(alloc, factors)?;
            Ok(FlatExpr::Product { factors })
        }
        FlatExpr::Pow { base, exp, at } => {
            let base = duplicate_expression(alloc, base)?;
            let base = Box::new(alloc, base)?;
            Ok(FlatExpr::Pow {
                base,
                exp: *exp,
                at: *at,
            })
        }
    }
}

// Returns a copy of the terms.
#[cycle(copying_flat)]
fn duplicate_terms(alloc: Global, terms: &[FlatTerm]) -> Result<Vec<FlatTerm>, AllocError>
    ensures { IfOk result (λ copy. map flat_signed copy.items ≡ map flat_signed terms.now) }
{
    let mut all = Vec::new(alloc);
    for term in terms {
        let value = duplicate_expression(alloc, &term.value)?;
        all.push(FlatTerm {
            minus: term.minus,
            at: term.at,
            value,
        })?;
    }
    Ok(all)
}

// Returns a copy of the factors.
#[cycle(copying_flat)]
fn duplicate_factors(alloc: Global, factors: &[FlatFactor]) -> Result<Vec<FlatFactor>, AllocError>
    ensures { IfOk result (λ copy. map flat_scaled copy.items ≡ map flat_scaled factors.now) }
{
    let mut all = Vec::new(alloc);
    for factor in factors {
        let value = duplicate_expression(alloc, &factor.value)?;
        all.push(FlatFactor {
            divide: factor.divide,
            at: factor.at,
            value,
        })?;
    }
    Ok(all)
}
