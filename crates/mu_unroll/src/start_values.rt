//! Executes the start assignments of the initial algorithm, which set the start values of flat
//! variables.

ghost use Rattle.std.specs.Prelude.{◌≡◌, map, Ok, IfOk, IfErr};
ghost use Rattle.std.proofs.Common.{ap};
ghost use Rattle.mu_unroll.specs.Prelude.{FlatVariable, EachStatement, Each, statement_item, statement_items_of, variable_limit, expression, reference, flat_variable, statement, statements_of};
ghost use Rattle.mu_unroll.specs.Words.{progress_of, loop_in_rounds, IsFault, one_start, start_at, start_once, unrolled_start, with_start, ArePlaced, denoted, meant_at};

use crate::constant_folding::{fold_constant, fold_reference};
use crate::environment::{Environment, NameDenotation, ResolvedReference};
use crate::flatten::found;
use crate::item_unrolling::{Output, Unroll};
use crate::long_constants::has_long_start;
use crate::unroll_counts::count_start;
use crate::unroll_fault::UnrollErr;
use crate::unrolled_values::constant_value;
use mu_copies::Copied;
use mu_num::Ratio;
use mu_tree::{Expr, FlatRole, FlatVar, Ref, Statement};
use std::alloc::{AllocError, Global};
use std::collections::BTreeMap;

impl Unroll<FlatVar> for Statement {
    ghost Made = { FlatVariable };

    ghost made = { flat_variable };

    ghost unrolled = { λ x declared loops p. unrolled_start declared loops (statement x) p };

    fn unroll_one(
        &self,
        alloc: Global,
        env: &mut Environment,
        output: &mut Output<FlatVar>,
    ) -> Result<(), UnrollErr> {
        match self {
            Statement::Set { target, value } => unroll_one_start(env, target, value, output),
            Statement::Reinit { .. } => Ok(()),
            Statement::For { .. } => Ok(()),
        }
    }

    fn fold_one(
        &self,
        alloc: Global,
        declared: &BTreeMap<&[u8], NameDenotation>,
    ) -> Result<Statement, AllocError> {
        match self {
            Statement::Set { target, value } => {
                let target = fold_reference(alloc, declared, target)?;
                let value = fold_constant(alloc, declared, value)?;
                Ok(Statement::Set { target, value })
            }
            Statement::Reinit { .. } | Statement::For { .. } => self.copy(alloc),
        }
    }

    fn is_long(&self, in_loop: bool) -> bool {
        match self {
            Statement::Set { target, value } => in_loop && has_long_start(target, value),
            Statement::Reinit { target, value } => in_loop && has_long_start(target, value),
            Statement::For { .. } => false,
        }
    }

    ghost unrolls_loop = { loop_in_rounds start_once statement
        (λ r ts. EachStatement r (statements_of ts)) statement_item
        (λ r ts. ap (Each r) (statement_items_of ts)) };
}

// Executes one start assignment.
fn unroll_one_start(
    env: &Environment,
    target: &Ref,
    value: &Expr,
    output: &mut Output<FlatVar>,
) -> Result<(), UnrollErr>
    requires { ArePlaced variable_limit (meant_at env.now.declared) }
    ensures ok { IfOk result
        (λ _. one_start (denoted env.now) (reference target.now) (expression value.now)
        (progress_of flat_variable output.old)
        ≡ Ok (progress_of flat_variable output.new)) }
    ensures err { IfErr result
        (IsFault
        (one_start (denoted env.now) (reference target.now) (expression value.now)
        (progress_of flat_variable output.old))) }
{
    let counted = count_start(output.counts)?;
    let target = found(env, target)?;
    let value = constant_value(env, value)?;
    set_unrolled_start(&mut output.done, target, value);
    output.counts = counted;
    Ok(())
}

// Replaces the start value of a state or a discrete variable.
fn set_unrolled_start(vars: &mut Vec<FlatVar>, target: ResolvedReference, value: Ratio)
    ensures { map flat_variable vars.new.items
        ≡ with_start (map flat_variable vars.old.items) target value }
{
    match target {
        ResolvedReference::Numbered(kind, number) => match kind {
            FlatRole::State | FlatRole::Discrete => set_unrolled_start_at(vars, number, value),
            FlatRole::Algebraic => {}
        },
        ResolvedReference::Value(_) | ResolvedReference::Unfound => {}
    }
}

// Replaces the start value of the variable with this number, if there is one.
fn set_unrolled_start_at(vars: &mut Vec<FlatVar>, number: u32, value: Ratio)
    ensures { map flat_variable vars.new.items
        ≡ start_at (map flat_variable vars.old.items) number value }
{
    let place = number as usize;
    if place < vars.len() {
        vars[place].start = value;
    }
}
