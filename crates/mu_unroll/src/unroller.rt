//! Builds the flat model of a model: lists the scalar variables, and unrolls the loops over
//! equations, clauses and statements.

ghost use Rattle.std.specs.Prelude.{◌≡◌, List, map, Ok, IfOk, IfErr, OnOk};
ghost use Rattle.std.proofs.Common.{ap};
ghost use Rattle.mu_unroll.specs.Prelude.{FlatAction, FlatBranchTree, FlatEquationTree, EachClause, EachEquation, EachStatement, clauses_of, equations_of, Each, clause_item, clause_items_of, equation_item, equation_items_of, statement_item, statement_items_of, variable_limit, expression, reference, flat_action, flat_branch, flat_clause, flat_equation, flat_model, flat_variable, IsFlatModel, target_role, branch, clause, equation, model, statement, statements_of, IsNumbered};
ghost use Rattle.mu_unroll.specs.Words.{loop_in_rounds, clause_once, equation_once, statement_once, HasSameNames, progress_of, IsFault, ArePlaced, denoted, meant_at, one_equation, one_statement, one_clause, unrolled, unrolled_branch, unrolled_branches, unrolled_clause, unrolled_equation, unrolled_statement, unrolled_with, listed, IsWellFormed};

use crate::constant_folding::{fold_expression, fold_reference};
use crate::environment::{Environment, NameDenotation};
use crate::flat_variables::{are_too_many_variables, list_denotations, list_scalar_variables};
use crate::flatten::{flatten, flattened_number_of_kind, found};
use crate::item_unrolling::{Output, Unroll, unroll_all, unroll_items};
use crate::long_constants::{has_long_condition, has_long_items, has_long_side};
use crate::loop_folding::fold_branches;
use crate::unroll_counts::{count_expression, count_sides, zero_counts};
use crate::unroll_fault::UnrollErr;
use mu_copies::Copied;
use mu_names::Scope;
use mu_tree::{
    Branch, Clause, Equation, Expr, FlatBranch, FlatClause, FlatEquation, FlatModel, FlatRole,
    FlatStatement, FlatVar, Model, Ref, Statement,
};
use std::alloc::{AllocError, Global};
use std::collections::BTreeMap;

/// Returns the flat model of a model with this scope. It lists the scalar variables, and the
/// equations, clauses and statements in source order, once for each value of their loop variables.
/// Constants are replaced by their values. Errors: the first fault in the order of unrolling, or
/// out of memory.
pub fn unroll(alloc: Global, m: &Model, s: &Scope) -> Result<FlatModel, UnrollErr>
    ensures ok { IfOk result (λ flat. unrolled (model m.now) s.now.known ≡ Ok (flat_model flat)) }
    ensures lists { IfOk result (λ flat. listed (model m.now) s.now.known ≡ Ok (flat_model flat)) }
    ensures flat { IfOk result
        (λ flat. IsWellFormed (model m.now) → IsFlatModel (flat_model flat)) }
    ensures numbered { IfOk result (λ flat. IsNumbered (flat_model flat)) }
    ensures err { IfErr result (IsFault (unrolled (model m.now) s.now.known)) }
{
    let known = s.known.as_slice();
    if are_too_many_variables(known) {
        return Err(UnrollErr::TooMany { count: 4097 });
    }
    let declared = list_denotations(alloc, known)?;
    let vars = list_scalar_variables(alloc, known)?;
    unroll_with(alloc, declared, m, vars)
}

// Returns the flat model of a model with these variables.
fn unroll_with(
    alloc: Global,
    declared: BTreeMap<&[u8], NameDenotation>,
    m: &Model,
    vars: Vec<FlatVar>,
) -> Result<FlatModel, UnrollErr>
    requires { ArePlaced variable_limit (meant_at declared) }
    ensures ok { IfOk result
        (λ flat. unrolled_with (meant_at declared.entry) (model m.now)
        (map flat_variable vars.items) ≡ Ok (flat_model flat)) }
    ensures err { IfErr result
        (IsFault
        (unrolled_with (meant_at declared.entry) (model m.now) (map flat_variable vars.items))) }
{
    let mut env = Environment {
        declared,
        loops: Vec::new(alloc),
    };
    let mut vars = Output {
        done: vars,
        counts: zero_counts(),
    };
    unroll_all::<FlatVar, Statement>(alloc, &mut env, &m.starts, &mut vars)?;
    let mut equations = Output {
        done: Vec::new(alloc),
        counts: vars.counts,
    };
    unroll_all::<FlatEquation, Equation>(alloc, &mut env, &m.equations, &mut equations)?;
    let mut clauses = Output {
        done: Vec::new(alloc),
        counts: equations.counts,
    };
    unroll_all::<FlatClause, Clause>(alloc, &mut env, &m.clauses, &mut clauses)?;
    Ok(FlatModel {
        vars: vars.done,
        equations: equations.done,
        clauses: clauses.done,
    })
}

impl Unroll<FlatEquation> for Equation {
    ghost Made = { FlatEquationTree };

    ghost made = { flat_equation };

    ghost unrolled = { λ x declared loops p. unrolled_equation declared loops (equation x) p };

    fn unroll_one(
        &self,
        alloc: Global,
        env: &mut Environment,
        output: &mut Output<FlatEquation>,
    ) -> Result<(), UnrollErr> {
        match self {
            Equation::Der { target, value } => {
                unroll_one_equation(alloc, env, true, target, value, output)
            }
            Equation::Plain { target, value } => {
                unroll_one_equation(alloc, env, false, target, value, output)
            }
            Equation::For { .. } => Ok(()),
        }
    }

    fn fold_one(
        &self,
        alloc: Global,
        declared: &BTreeMap<&[u8], NameDenotation>,
    ) -> Result<Equation, AllocError> {
        match self {
            Equation::Der { target, value } => {
                let target = fold_reference(alloc, declared, target)?;
                let value = fold_expression(alloc, declared, value)?;
                Ok(Equation::Der { target, value })
            }
            Equation::Plain { target, value } => {
                let target = fold_reference(alloc, declared, target)?;
                let value = fold_expression(alloc, declared, value)?;
                Ok(Equation::Plain { target, value })
            }
            Equation::For { .. } => self.copy(alloc),
        }
    }

    fn is_long(&self, in_loop: bool) -> bool {
        match self {
            Equation::Der { target, value } | Equation::Plain { target, value } => {
                in_loop && has_long_side(target, value)
            }
            Equation::For { .. } => false,
        }
    }

    ghost unrolls_loop = { loop_in_rounds equation_once equation
        (λ r ts. EachEquation r (equations_of ts)) equation_item
        (λ r ts. ap (Each r) (equation_items_of ts)) };
}

// Appends one flat equation.
fn unroll_one_equation(
    alloc: Global,
    env: &Environment,
    der: bool,
    target: &Ref,
    value: &Expr,
    output: &mut Output<FlatEquation>,
) -> Result<(), UnrollErr>
    requires { ArePlaced variable_limit (meant_at env.now.declared) }
    ensures ok { IfOk result
        (λ _. one_equation der (denoted env.now) (reference target.now) (expression value.now)
        (progress_of flat_equation output.old)
        ≡ Ok (progress_of flat_equation output.new)) }
    ensures err { IfErr result
        (IsFault
        (one_equation der (denoted env.now) (reference target.now) (expression value.now)
        (progress_of flat_equation output.old))) }
{
    let counted = count_expression(output.counts, value)?;
    let target = found(env, target)?;
    let value = flatten(alloc, env, false, value)?;
    if let Some(target) = flattened_number_of_kind(unrolled_target_role(der), target) {
        output.done.push(FlatEquation { der, target, value })?;
    }
    output.counts = counted;
    Ok(())
}

// Returns the role of an equation's target.
fn unrolled_target_role(der: bool) -> FlatRole
    ensures { result ≡ target_role der }
{
    if der {
        FlatRole::State
    } else {
        FlatRole::Algebraic
    }
}

impl Unroll<FlatClause> for Clause {
    ghost Made = { List FlatBranchTree };

    ghost made = { flat_clause };

    ghost unrolled = { λ x declared loops p. unrolled_clause declared loops (clause x) p };

    fn unroll_one(
        &self,
        alloc: Global,
        env: &mut Environment,
        output: &mut Output<FlatClause>,
    ) -> Result<(), UnrollErr> {
        match self {
            Clause::When { branches } => unroll_one_clause(alloc, env, branches, output),
            Clause::For { .. } => Ok(()),
        }
    }

    fn fold_one(
        &self,
        alloc: Global,
        declared: &BTreeMap<&[u8], NameDenotation>,
    ) -> Result<Clause, AllocError> {
        match self {
            Clause::When { branches } => {
                let branches = fold_branches(alloc, declared, branches)?;
                Ok(Clause::When { branches })
            }
            Clause::For { .. } => self.copy(alloc),
        }
    }

    fn is_long(&self, _in_loop: bool) -> bool {
        match self {
            Clause::When { branches } => branches.iter().any(|branch| has_long_branch(branch)),
            Clause::For { .. } => false,
        }
    }

    ghost unrolls_loop = { loop_in_rounds clause_once clause
        (λ r ts. EachClause r (clauses_of ts)) clause_item
        (λ r ts. ap (Each r) (clause_items_of ts)) };
}

// Appends one flat clause.
fn unroll_one_clause(
    alloc: Global,
    env: &mut Environment,
    branches: &[Branch],
    output: &mut Output<FlatClause>,
) -> Result<(), UnrollErr>
    requires placed { ArePlaced variable_limit (meant_at env.old.declared) }
    ensures ok { IfOk result
        (λ _. one_clause (meant_at env.old.declared) env.old.loops.items (map branch branches.now)
        (progress_of flat_clause output.old)
        ≡ Ok (progress_of flat_clause output.new)) }
    ensures err { IfErr result
        (IsFault
        (one_clause (meant_at env.old.declared) env.old.loops.items (map branch branches.now)
        (progress_of flat_clause output.old))) }
    ensures env { OnOk result (HasSameNames env.old env.new) }
{
    let mut all = Output {
        done: Vec::new(alloc),
        counts: output.counts,
    };
    unroll_branches(alloc, env, branches, &mut all)?;
    output.counts = all.counts;
    output.done.push(FlatClause { branches: all.done })?;
    Ok(())
}

// Appends flat branches.
fn unroll_branches(
    alloc: Global,
    env: &mut Environment,
    branches: &[Branch],
    output: &mut Output<FlatBranch>,
) -> Result<(), UnrollErr>
    requires placed { ArePlaced variable_limit (meant_at env.old.declared) }
    ensures ok { IfOk result
        (λ _. unrolled_branches (meant_at env.old.declared) env.old.loops.items
        (map branch branches.now) (progress_of flat_branch output.old)
        ≡ Ok (progress_of flat_branch output.new)) }
    ensures err { IfErr result
        (IsFault
        (unrolled_branches (meant_at env.old.declared) env.old.loops.items (map branch branches.now)
        (progress_of flat_branch output.old))) }
    ensures env { OnOk result (HasSameNames env.old env.new) }
{
    for one in branches {
        unroll_branch(alloc, env, one, output)?;
    }
    Ok(())
}

// Appends one flat branch.
fn unroll_branch(
    alloc: Global,
    env: &mut Environment,
    one: &Branch,
    output: &mut Output<FlatBranch>,
) -> Result<(), UnrollErr>
    requires placed { ArePlaced variable_limit (meant_at env.old.declared) }
    ensures ok { IfOk result
        (λ _. unrolled_branch (meant_at env.old.declared) env.old.loops.items (branch one.now)
        (progress_of flat_branch output.old)
        ≡ Ok (progress_of flat_branch output.new)) }
    ensures err { IfErr result
        (IsFault
        (unrolled_branch (meant_at env.old.declared) env.old.loops.items (branch one.now)
        (progress_of flat_branch output.old))) }
    ensures env { OnOk result (HasSameNames env.old env.new) }
{
    output.counts = count_sides(output.counts, &one.cond.left, &one.cond.right)?;
    let left = flatten(alloc, env, true, &one.cond.left)?;
    let right = flatten(alloc, env, true, &one.cond.right)?;
    let mut body = Output {
        done: Vec::new(alloc),
        counts: output.counts,
    };
    unroll_items::<FlatStatement, Statement>(alloc, env, &one.body, &mut body)?;
    output.counts = body.counts;
    output.done.push(FlatBranch {
        left,
        rel: one.cond.rel,
        right,
        at: one.cond.at,
        body: body.done,
    })?;
    Ok(())
}

// Returns whether a branch has a long constant expression.
fn has_long_branch(one: &Branch) -> bool {
    has_long_condition(&one.cond) || has_long_items::<FlatStatement, Statement>(true, &one.body)
}

impl Unroll<FlatStatement> for Statement {
    ghost Made = { FlatAction };

    ghost made = { flat_action };

    ghost unrolled = { λ x declared loops p. unrolled_statement declared loops (statement x) p };

    fn unroll_one(
        &self,
        alloc: Global,
        env: &mut Environment,
        output: &mut Output<FlatStatement>,
    ) -> Result<(), UnrollErr> {
        match self {
            Statement::Set { target, value } => unroll_one_statement(
                alloc, env, false, target, value, output,
            ),
            Statement::Reinit { target, value } => unroll_one_statement(
                alloc, env, true, target, value, output,
            ),
            Statement::For { .. } => Ok(()),
        }
    }

    fn fold_one(
        &self,
        alloc: Global,
        declared: &BTreeMap<&[u8], NameDenotation>,
    ) -> Result<Statement, AllocError> {
        match self {
            Statement::Set { target, value } => {
                let target = fold_reference(alloc, declared, target)?;
                let value = fold_expression(alloc, declared, value)?;
                Ok(Statement::Set { target, value })
            }
            Statement::Reinit { target, value } => {
                let target = fold_reference(alloc, declared, target)?;
                let value = fold_expression(alloc, declared, value)?;
                Ok(Statement::Reinit { target, value })
            }
            Statement::For { .. } => self.copy(alloc),
        }
    }

    fn is_long(&self, in_loop: bool) -> bool {
        match self {
            Statement::Set { target, value } | Statement::Reinit { target, value } => {
                in_loop && has_long_side(target, value)
            }
            Statement::For { .. } => false,
        }
    }

    ghost unrolls_loop = { loop_in_rounds statement_once statement
        (λ r ts. EachStatement r (statements_of ts)) statement_item
        (λ r ts. ap (Each r) (statement_items_of ts)) };
}

// Appends one flat `reinit` or assignment.
fn unroll_one_statement(
    alloc: Global,
    env: &Environment,
    restart: bool,
    target: &Ref,
    value: &Expr,
    output: &mut Output<FlatStatement>,
) -> Result<(), UnrollErr>
    requires { ArePlaced variable_limit (meant_at env.now.declared) }
    ensures ok { IfOk result
        (λ _. one_statement restart (denoted env.now) (reference target.now) (expression value.now)
        (progress_of flat_action output.old)
        ≡ Ok (progress_of flat_action output.new)) }
    ensures err { IfErr result
        (IsFault
        (one_statement restart (denoted env.now) (reference target.now) (expression value.now)
        (progress_of flat_action output.old))) }
{
    let counted = count_expression(output.counts, value)?;
    let target = found(env, target)?;
    let value = flatten(alloc, env, true, value)?;
    if restart {
        if let Some(var) = flattened_number_of_kind(FlatRole::State, target) {
            output.done.push(FlatStatement::FlatReinit { var, value })?;
        }
    } else if let Some(var) = flattened_number_of_kind(FlatRole::Discrete, target) {
        output.done.push(FlatStatement::FlatSet { var, value })?;
    }
    output.counts = counted;
    Ok(())
}
