//! Copies models, their parts and their expressions. The only error is allocation failure.

ghost use Rattle.std.specs.Prelude.{◌≡◌, IfOk, map};
ghost use Rattle.std.specs.Option.{option_map};
ghost use Rattle.mu_tree.specs.Expression.{Expression, expression, reference, signed, scaled};
ghost use Rattle.mu_tree.specs.ModelTree.{BranchTree, ClauseTree, Declaration, EquationTree, ModelTree, Setting, StatementTree, branch, clause, condition, declaration, equation, model, setting, statement};
ghost use Rattle.mu_tree.specs.Nests.{One, owned_range, range_of};

use crate::copied::{Copied, copy_list};
use mu_tree::{
    Branch, Clause, Cond, Decl, Equation, Expr, Factor, Model, Nest, Nested, Range, RangeRef, Ref,
    SettingItem, Statement, Term,
};
use std::alloc::{AllocError, Global};

/// Items that occur in loops and can be copied.
trait CopiedItem: Nest {
    /// Returns a copy of an item that is no loop. Errors: allocation failure.
    fn copy_one(&self, alloc: Global) -> Result<Self, AllocError>
        requires { (l : Self.Leaf) × (Self.item (Self.tree self.now) ≡ One l) }
        ensures { IfOk result (λ copy. Self.tree copy ≡ Self.tree self.now) };
}

impl CopiedItem for Equation {
    fn copy_one(&self, alloc: Global) -> Result<Equation, AllocError> {
        match self {
            Equation::Der { target, value } => {
                let target = copy_reference(alloc, target)?;
                let value = copy_expression(alloc, value)?;
                Ok(Equation::Der { target, value })
            }
            Equation::Plain { target, value } => {
                let target = copy_reference(alloc, target)?;
                let value = copy_expression(alloc, value)?;
                Ok(Equation::Plain { target, value })
            }
            Equation::For { .. } => unreachable!(),
        }
    }
}

impl CopiedItem for Statement {
    fn copy_one(&self, alloc: Global) -> Result<Statement, AllocError> {
        match self {
            Statement::Set { target, value } => {
                let target = copy_reference(alloc, target)?;
                let value = copy_expression(alloc, value)?;
                Ok(Statement::Set { target, value })
            }
            Statement::Reinit { target, value } => {
                let target = copy_reference(alloc, target)?;
                let value = copy_expression(alloc, value)?;
                Ok(Statement::Reinit { target, value })
            }
            Statement::For { .. } => unreachable!(),
        }
    }
}

impl CopiedItem for Clause {
    fn copy_one(&self, alloc: Global) -> Result<Clause, AllocError> {
        match self {
            Clause::When { branches } => {
                let branches = copy_list(alloc, branches)?;
                Ok(Clause::When { branches })
            }
            Clause::For { .. } => unreachable!(),
        }
    }
}

impl Copied for Equation {
    ghost Value = { EquationTree };

    ghost value = { equation };

    fn copy(&self, alloc: Global) -> Result<Equation, AllocError>
        ensures { IfOk result (λ copy. equation copy ≡ equation self.now) }
    {
        copy_item(alloc, self)
    }
}

impl Copied for Statement {
    ghost Value = { StatementTree };

    ghost value = { statement };

    fn copy(&self, alloc: Global) -> Result<Statement, AllocError>
        ensures { IfOk result (λ copy. statement copy ≡ statement self.now) }
    {
        copy_item(alloc, self)
    }
}

impl Copied for Clause {
    ghost Value = { ClauseTree };

    ghost value = { clause };

    fn copy(&self, alloc: Global) -> Result<Clause, AllocError>
        ensures { IfOk result (λ copy. clause copy ≡ clause self.now) }
    {
        copy_item(alloc, self)
    }
}

impl Copied for Branch {
    ghost Value = { BranchTree };

    ghost value = { branch };

    fn copy(&self, alloc: Global) -> Result<Branch, AllocError>
        ensures { IfOk result (λ copy. branch copy ≡ branch self.now) }
    {
        let cond = copy_condition(alloc, &self.cond)?;
        let body = copy_items(alloc, &self.body)?;
        Ok(Branch { cond, body })
    }
}

impl Copied for Decl {
    ghost Value = { Declaration };

    ghost value = { declaration };

    fn copy(&self, alloc: Global) -> Result<Decl, AllocError>
        ensures { IfOk result (λ copy. declaration copy ≡ declaration self.now) }
    {
        let name = self.name.copy(alloc)?;
        let size = copy_optional_expression(alloc, &self.size)?;
        let start = copy_optional_expression(alloc, &self.start)?;
        let value = copy_optional_expression(alloc, &self.value)?;
        let quantum = copy_optional_expression(alloc, &self.quantum)?;
        Ok(Decl {
            prefix: self.prefix,
            whole: self.whole,
            name,
            size,
            start,
            value,
            quantum,
            at: self.at,
        })
    }
}

impl Copied for SettingItem {
    ghost Value = { Setting };

    ghost value = { setting };

    fn copy(&self, alloc: Global) -> Result<SettingItem, AllocError>
        ensures { IfOk result (λ copy. setting copy ≡ setting self.now) }
    {
        let value = copy_expression(alloc, &self.value)?;
        Ok(SettingItem {
            which: self.which,
            value,
            at: self.at,
        })
    }
}

impl Copied for Model {
    ghost Value = { ModelTree };

    ghost value = { model };

    fn copy(&self, alloc: Global) -> Result<Model, AllocError>
        ensures { IfOk result (λ copy. model copy ≡ model self.now) }
    {
        let name = self.name.copy(alloc)?;
        let end_name = self.end_name.copy(alloc)?;
        let decls = copy_list(alloc, &self.decls)?;
        let starts = copy_items(alloc, &self.starts)?;
        let equations = copy_items(alloc, &self.equations)?;
        let clauses = copy_items(alloc, &self.clauses)?;
        let settings = copy_list(alloc, &self.settings)?;
        Ok(Model {
            name,
            end_name,
            end_at: self.end_at,
            decls,
            starts,
            equations,
            clauses,
            settings,
        })
    }
}

impl Copied for Expr {
    ghost Value = { Expression };

    ghost value = { expression };

    fn copy(&self, alloc: Global) -> Result<Expr, AllocError>
        ensures { IfOk result (λ copy. expression copy ≡ expression self.now) }
    {
        copy_expression(alloc, self)
    }
}

// Returns a copy of an item that occurs in loops.
fn copy_item<T: CopiedItem>(alloc: Global, one: &T) -> Result<T, AllocError>
    ensures { IfOk result (λ copy. T.tree copy ≡ T.tree one.now) }
{
    match one.nested() {
        Nested::One(one) => one.copy_one(alloc),
        Nested::Each { range, body } => {
            let range = copy_range(alloc, range)?;
            let body = copy_items(alloc, body)?;
            Ok(T::from_loop(range, body))
        }
    }
}

// Returns a copy of items and of the loops over items.
fn copy_items<T: CopiedItem>(alloc: Global, items: &[T]) -> Result<Vec<T>, AllocError>
    ensures { IfOk result (λ copy. map T.tree copy.items ≡ map T.tree items.now) }
{
    let mut all = Vec::new(alloc);
    for one in items {
        match one.nested() {
            Nested::One(one) => {
                let copy = one.copy_one(alloc)?;
                all.push(copy)?;
            }
            Nested::Each { range, body } => {
                let range = copy_range(alloc, range)?;
                let body = copy_items(alloc, body)?;
                all.push(T::from_loop(range, body))?;
            }
        }
    }
    Ok(all)
}

// Returns a copy of the head of a loop.
fn copy_range(alloc: Global, range: RangeRef) -> Result<Range, AllocError>
    ensures { IfOk result (λ copy. owned_range copy ≡ range_of range.entry) }
{
    let var = range.var.copy(alloc)?;
    let from = copy_expression(alloc, range.from)?;
    let to = copy_expression(alloc, range.to)?;
    Ok(Range {
        var,
        at: range.at,
        from,
        to,
    })
}

// Returns a copy of a condition.
fn copy_condition(alloc: Global, cond: &Cond) -> Result<Cond, AllocError>
    ensures { IfOk result (λ copy. condition copy ≡ condition cond.now) }
{
    let left = copy_expression(alloc, &cond.left)?;
    let right = copy_expression(alloc, &cond.right)?;
    Ok(Cond {
        left,
        rel: cond.rel,
        right,
        at: cond.at,
    })
}

// Returns a copy of an optional expression.
fn copy_optional_expression(alloc: Global, value: &Option<Expr>) -> Result<Option<Expr>, AllocError>
    ensures { IfOk result (λ copy. option_map expression copy ≡ option_map expression value.now) }
{
    match value {
        None => Ok(None),
        Some(value) => {
            let copy = copy_expression(alloc, value)?;
            Ok(Some(copy))
        }
    }
}

/// Returns a copy of a reference. Errors: allocation failure.
#[cycle(copying)]
pub fn copy_reference(alloc: Global, target: &Ref) -> Result<Ref, AllocError>
    ensures { IfOk result (λ copy. reference copy ≡ reference target.now) }
{
    let name = target.name.copy(alloc)?;
    match &target.index {
        None => Ok(Ref {
            name,
            index: None,
            at: target.at,
        }),
        Some(index) => {
            let index = copy_expression(alloc, index)?;
            let index = Box::new(alloc, index)?;
            Ok(Ref {
                name,
                index: Some(index),
                at: target.at,
            })
        }
    }
}

// Returns a copy of an expression. Errors: allocation failure.
#[cycle(copying)]
pub(crate) fn copy_expression(alloc: Global, value: &Expr) -> Result<Expr, AllocError>
    ensures { IfOk result (λ copy. expression copy ≡ expression value.now) }
{
    match value {
        Expr::Num { digits, at } => {
            let digits = digits.copy(alloc)?;
            Ok(Expr::Num { digits, at: *at })
        }
        Expr::Var(target) => {
            let target = copy_reference(alloc, target)?;
            Ok(Expr::Var(target))
        }
        Expr::Time { at } => Ok(Expr::Time { at: *at }),
        Expr::Pre(target) => {
            let target = copy_reference(alloc, target)?;
            Ok(Expr::Pre(target))
        }
        Expr::Sum { terms } => {
            let terms = copy_terms(alloc, terms)?;
            Ok(Expr::Sum { terms })
        }
        Expr::Product { factors } => {
            let factors = copy_factors(alloc, factors)?;
            Ok(Expr::Product { factors })
        }
        Expr::Pow { base, exp, at } => {
            let base = copy_expression(alloc, base)?;
            let base = Box::new(alloc, base)?;
            Ok(Expr::Pow {
                base,
                exp: *exp,
                at: *at,
            })
        }
    }
}

// Returns a copy of the terms.
#[cycle(copying)]
fn copy_terms(alloc: Global, terms: &[Term]) -> Result<Vec<Term>, AllocError>
    ensures { IfOk result (λ copy. map signed copy.items ≡ map signed terms.now) }
{
    let mut all = Vec::new(alloc);
    for term in terms {
        let value = copy_expression(alloc, &term.value)?;
        all.push(Term {
            minus: term.minus,
            at: term.at,
            value,
        })?;
    }
    Ok(all)
}

// Returns a copy of the factors.
#[cycle(copying)]
fn copy_factors(alloc: Global, factors: &[Factor]) -> Result<Vec<Factor>, AllocError>
    ensures { IfOk result (λ copy. map scaled copy.items ≡ map scaled factors.now) }
{
    let mut all = Vec::new(alloc);
    for factor in factors {
        let value = copy_expression(alloc, &factor.value)?;
        all.push(Factor {
            divide: factor.divide,
            at: factor.at,
            value,
        })?;
    }
    Ok(all)
}
