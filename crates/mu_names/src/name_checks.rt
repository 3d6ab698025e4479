//! Checks the use of names in equations, clauses and start assignments. The result is the scope of
//! the model, or the fault with the least offset in the source.

ghost use Rattle.std.specs.Prelude.{◌≡◌, [], ◌∷◌, ◌++◌, if◌then◌else◌, ◌-◌, ℕ, List, length, map, take, OnOk, IfOk, bytes_eq, IfErr};
ghost use Rattle.std.proofs.Common.{ap};
ghost use Rattle.mu_names.specs.Prelude.{branch, clause, clauses_of, equation, equations_of, expression, factors_of, flat_map, model, range_of, reference, scaled, signed, statement, statements_of, terms_of, EachClause, EachEquation, EachStatement, Range, Each, clause_item, clause_items_of, equation_item, equation_items_of, statement_item, statement_items_of};
ghost use Rattle.mu_names.specs.Words.{name_kind_in, is_among, least_of, name_kind_at, branch_faults, branches_faults, clause_faults, equation_faults, expression_faults, factors_faults, loop_faults, named_faults, one_equation_faults, one_start_faults, one_statement_faults, range_faults, reference_faults, sides_faults, start_faults, statement_faults, taken_faults, terms_faults, time_faults, unless_loop, model_faults, scope_of, IsRefusal};
ghost use Rattle.mu_names.specs.declared.name_fault.NameErr.{NameErr};
ghost use Rattle.mu_names.specs.declared.name_fault.NameErr.TheVariants.{EndName};
ghost use Rattle.mu_names.specs.declared.name_kind.NameKind.{NameKind};

use crate::declared_scope::{
    Scope, declared_names, derived_names, evaluate_declarations, known_declared_names,
    model_settings,
};
use crate::name_fault::{NameErr, keep_least_fault};
use crate::name_kind::{NameContext, NameKind, NameRequirement};
use crate::name_table::find;
use mu_io::{Items, Name};
use mu_tree::{
    Branch, Clause, Equation, Expr, Factor, Model, Nest, Nested, RangeRef, Ref, Statement, Term,
};
use std::alloc::{AllocError, Global};
use std::collections::BTreeMap;

/// The initial algorithm, as a part of a model in which names are checked.
pub struct Initial;

/// The equations and the clauses, as the other part.
pub struct Main;

/// Items of a part whose names are checked. `faults` are the faults of an item inside loops.
pub trait CheckNames<P>: Nest {
    ghost faults: { (List ℕ → NameKind) → List (List ℕ) → Self → List NameErr };

    /// Records the faults of an item that is no loop. Errors: allocation failure.
    fn check_one(
        &self,
        alloc: Global,
        declared: &BTreeMap<&[u8], NameKind>,
        loops: &mut Vec<Name>,
        least: &mut Option<NameErr>,
    ) -> Result<(), AllocError>
        ensures faults { OnOk result
            (least.new
            ≡ least_of least.old
            (unless_loop (Self.item (Self.tree self.now))
            (faults (name_kind_at declared.now) loops.old.items self.now))) }
        ensures loops { OnOk result (loops.new.items ≡ loops.old.items) };

    ghost loop_faults: { (declared : List ℕ → NameKind) (loops : List (List ℕ)) (x : Self)
        (r : Range) (body : List Self)
        → Self.Nest.tree x ≡ Self.Nest.each r (map Self.Nest.tree body)
        → faults declared loops x
        ≡ range_faults (name_kind_in loops declared) r
        ++ flat_map (faults declared (loops ++ r.var ∷ [])) body };
}

/// Returns the role, array size and values of each declared name, and the settings. Errors: the
/// fault with the least offset (at one offset, the least number), or out of memory.
pub fn roles(alloc: Global, m: &Model) -> Result<Scope, NameErr>
    ensures right { IfOk result (λ _. model_faults (model m.now) ≡ []) }
    ensures scope { IfOk result (λ scope. scope ≡ scope_of (model m.now)) }
    ensures refused { IfErr result (IsRefusal (model m.now)) }
{
    let mut least = None;
    let Ok(scope) = check_scope(alloc, m, &mut least) else {
        return Err(NameErr::Memory);
    };
    match least {
        None => Ok(scope),
        Some(fault) => Err(fault),
    }
}

// Returns the scope of a model, and records the least of its faults.
#[tactic(auto, using(crate::proofs::LeastLemmas::least_of_append))]
fn check_scope(alloc: Global, m: &Model, least: &mut Option<NameErr>) -> Result<Scope, AllocError>
    ensures scope { IfOk result (λ scope. scope ≡ scope_of (model m.now)) }
    ensures faults { OnOk result (least.new ≡ least_of least.old (model_faults (model m.now))) }
{
    check_end_name(m, least);
    let derived = derived_names(alloc, &m.equations)?;
    let declared = declared_names(alloc, &derived, m, least)?;
    let mut constants = BTreeMap::new(alloc);
    let values = evaluate_declarations(alloc, &declared, &mut constants, &m.decls, least)?;
    let settings = model_settings(&declared, &constants, &m.settings, least);
    let mut loops = Vec::new(alloc);
    check_items::<Initial, Statement>(alloc, &declared, &mut loops, &m.starts, least)?;
    check_items::<Main, Equation>(alloc, &declared, &mut loops, &m.equations, least)?;
    check_items::<Main, Clause>(alloc, &declared, &mut loops, &m.clauses, least)?;
    let known = known_declared_names(alloc, &derived, settings.quantum, m, &values)?;
    Ok(Scope {
        known: Items::new(known),
        settings,
    })
}

// Records a fault if the name after the last `end` is not the model's name.
fn check_end_name(m: &Model, least: &mut Option<NameErr>)
    ensures { least.new
        ≡ least_of least.old
        (if bytes_eq (model m.now).name (model m.now).end_name
        then []
        else EndName (model m.now).end_at
        ∷ []) }
{
    if m.name.bytes() != m.end_name.bytes() {
        keep_least_fault(least, NameErr::EndName { at: m.end_at });
    }
}

// Records the faults of items inside loops. Errors: allocation failure.
fn check_items<P, T: CheckNames<P>>(
    alloc: Global,
    declared: &BTreeMap<&[u8], NameKind>,
    loops: &mut Vec<Name>,
    items: &[T],
    least: &mut Option<NameErr>,
) -> Result<(), AllocError>
    ensures faults { OnOk result
        (least.new
        ≡ least_of least.old
        (flat_map (T.faults (name_kind_at declared.now) loops.old.items) items.now)) }
    ensures loops { OnOk result (loops.new.items ≡ loops.old.items) }
{
    for one in items {
        match one.nested() {
            Nested::One(one) => one.check_one(alloc, declared, loops, least)?,
            Nested::Each { range, body } => {
                check_range(declared, loops, range, least);
                enter_loop(alloc, loops, range.var)?;
                check_items(alloc, declared, loops, body, least)?;
                leave_loop(loops);
            }
        }
    }
    Ok(())
}

impl CheckNames<Initial> for Statement {
    ghost faults = { λ declared loops x. start_faults declared loops (statement x) };

    fn check_one(
        &self,
        alloc: Global,
        declared: &BTreeMap<&[u8], NameKind>,
        loops: &mut Vec<Name>,
        least: &mut Option<NameErr>,
    ) -> Result<(), AllocError> {
        match self {
            Statement::Set { target, value } => {
                check_sides(
                    declared,
                    loops,
                    NameRequirement::Started,
                    NameContext::Constant,
                    target,
                    value,
                    least,
                );
                Ok(())
            }
            Statement::Reinit { .. } | Statement::For { .. } => Ok(()),
        }
    }

    ghost loop_faults = { loop_faults one_start_faults statement
        (λ r ts. EachStatement r (statements_of ts)) statement_item
        (λ r ts. ap (Each r) (statement_items_of ts)) };
}

impl CheckNames<Main> for Statement {
    ghost faults = { λ declared loops x. statement_faults declared loops (statement x) };

    fn check_one(
        &self,
        alloc: Global,
        declared: &BTreeMap<&[u8], NameKind>,
        loops: &mut Vec<Name>,
        least: &mut Option<NameErr>,
    ) -> Result<(), AllocError> {
        match self {
            Statement::Set { target, value } => {
                check_sides(
                    declared,
                    loops,
                    NameRequirement::Discrete,
                    NameContext::Clause,
                    target,
                    value,
                    least,
                );
                Ok(())
            }
            Statement::Reinit { target, value } => {
                check_sides(
                    declared,
                    loops,
                    NameRequirement::State,
                    NameContext::Clause,
                    target,
                    value,
                    least,
                );
                Ok(())
            }
            Statement::For { .. } => Ok(()),
        }
    }

    ghost loop_faults = { loop_faults one_statement_faults statement
        (λ r ts. EachStatement r (statements_of ts)) statement_item
        (λ r ts. ap (Each r) (statement_items_of ts)) };
}

impl CheckNames<Main> for Equation {
    ghost faults = { λ declared loops x. equation_faults declared loops (equation x) };

    fn check_one(
        &self,
        alloc: Global,
        declared: &BTreeMap<&[u8], NameKind>,
        loops: &mut Vec<Name>,
        least: &mut Option<NameErr>,
    ) -> Result<(), AllocError> {
        match self {
            Equation::Der { target, value } => {
                check_sides(
                    declared,
                    loops,
                    NameRequirement::State,
                    NameContext::Equation,
                    target,
                    value,
                    least,
                );
                Ok(())
            }
            Equation::Plain { target, value } => {
                check_sides(
                    declared,
                    loops,
                    NameRequirement::Algebraic,
                    NameContext::Equation,
                    target,
                    value,
                    least,
                );
                Ok(())
            }
            Equation::For { .. } => Ok(()),
        }
    }

    ghost loop_faults = { loop_faults one_equation_faults equation
        (λ r ts. EachEquation r (equations_of ts)) equation_item
        (λ r ts. ap (Each r) (equation_items_of ts)) };
}

impl CheckNames<Main> for Clause {
    ghost faults = { λ declared loops x. clause_faults declared loops (clause x) };

    fn check_one(
        &self,
        alloc: Global,
        declared: &BTreeMap<&[u8], NameKind>,
        loops: &mut Vec<Name>,
        least: &mut Option<NameErr>,
    ) -> Result<(), AllocError> {
        match self {
            Clause::When { branches } => check_branches(alloc, declared, loops, branches, least),
            Clause::For { .. } => Ok(()),
        }
    }

    ghost loop_faults = { loop_faults branches_faults clause
        (λ r ts. EachClause r (clauses_of ts)) clause_item
        (λ r ts. ap (Each r) (clause_items_of ts)) };
}

// Adds the variable of one more loop. Errors: allocation failure.
fn enter_loop(alloc: Global, loops: &mut Vec<Name>, var: &Name) -> Result<(), AllocError>
    ensures { OnOk result (loops.new.items ≡ loops.old.items ++ var.now ∷ []) }
{
    let name = var.copy(alloc)?;
    loops.push(name)?;
    Ok(())
}

// Removes the variable of the innermost loop.
fn leave_loop(loops: &mut Vec<Name>)
    ensures { loops.new.items ≡ take (length loops.old.items - 1) loops.old.items }
{
    loops.pop();
}

// Records the faults of a left side and a right side.
#[tactic(auto, using(crate::proofs::LeastLemmas::least_of_append))]
fn check_sides(
    declared: &BTreeMap<&[u8], NameKind>,
    loops: &[Name],
    want: NameRequirement,
    reading: NameContext,
    target: &Ref,
    value: &Expr,
    least: &mut Option<NameErr>,
)
    ensures { least.new
        ≡ least_of least.old
        (sides_faults want reading (name_kind_in loops.now (name_kind_at declared.now))
        (reference target.now) (expression value.now)) }
{
    check_reference(declared, loops, want, target, least);
    check_expression(declared, loops, reading, value, least);
}

// Records the faults of a reference.
#[cycle(naming)]
#[tactic(auto, using(crate::proofs::LeastLemmas::least_of_append))]
fn check_reference(
    declared: &BTreeMap<&[u8], NameKind>,
    loops: &[Name],
    want: NameRequirement,
    target: &Ref,
    least: &mut Option<NameErr>,
)
    ensures { least.new
        ≡ least_of least.old
        (reference_faults want (name_kind_in loops.now (name_kind_at declared.now))
        (reference target.now)) }
{
    let standing = standing(declared, loops, target.name.bytes());
    match &target.index {
        None => check_name_use(want, false, target.at, standing, least),
        Some(index) => {
            check_name_use(want, true, target.at, standing, least);
            check_expression(declared, loops, NameContext::Constant, index, least);
        }
    }
}

// Returns what a name is inside loops: a loop variable hides a declaration.
fn standing(declared: &BTreeMap<&[u8], NameKind>, loops: &[Name], name: &[u8]) -> NameKind
    ensures { result ≡ name_kind_in loops.now (name_kind_at declared.now) name.now }
{
    if is_among_loop_names(loops, name) {
        NameKind::Loop
    } else {
        check_declared_standing(declared, name)
    }
}

/// Returns whether a name is in the list.
pub fn is_among_loop_names(names: &[Name], name: &[u8]) -> bool
    ensures { result ≡ is_among names.now name.now }
{
    for other in names {
        if other.bytes() == name {
            return true;
        }
    }
    false
}

/// Returns what a name is by its declaration.
pub fn check_declared_standing(declared: &BTreeMap<&[u8], NameKind>, name: &[u8]) -> NameKind
    ensures { result ≡ name_kind_at declared.now name.now }
{
    match find(declared, name) {
        Some(standing) => standing,
        None => NameKind::Missing,
    }
}

// Records the fault of a name that is used with or without an index.
fn check_name_use(
    want: NameRequirement,
    indexed: bool,
    at: u32,
    standing: NameKind,
    least: &mut Option<NameErr>,
)
    ensures { least.new ≡ least_of least.old (named_faults want indexed at standing) }
{
    match standing {
        NameKind::Missing => keep_least_fault(least, NameErr::Unknown { at }),
        NameKind::Loop => {
            if !(want.allows_loop_name_kind() && !indexed) {
                keep_least_fault(least, NameErr::Misused { at });
            }
        }
        NameKind::Declared(role, array) => {
            if !(want.fits_name_kind(role) && array == indexed) {
                keep_least_fault(least, NameErr::Misused { at });
            }
        }
    }
}

// Records the faults of names in an expression.
#[cycle(naming)]
#[tactic(auto, using(crate::proofs::LeastLemmas::least_of_append))]
fn check_expression(
    declared: &BTreeMap<&[u8], NameKind>,
    loops: &[Name],
    reading: NameContext,
    e: &Expr,
    least: &mut Option<NameErr>,
)
    ensures { least.new
        ≡ least_of least.old
        (expression_faults reading (name_kind_in loops.now (name_kind_at declared.now))
        (expression e.now)) }
{
    match e {
        Expr::Num { .. } => {}
        Expr::Var(target) => check_reference(
            declared,
            loops,
            reading.wanted_name_kind(),
            target,
            least,
        ),
        Expr::Time { at } => check_time_use(reading, *at, least),
        Expr::Pre(target) => {
            check_reference(
                declared,
                loops,
                reading.wanted_previous_name_kind(),
                target,
                least,
            )
        }
        Expr::Sum { terms } => check_terms(declared, loops, reading, terms, least),
        Expr::Product { factors } => check_factors(declared, loops, reading, factors, least),
        Expr::Pow { base, .. } => check_expression(declared, loops, reading, base, least),
    }
}

// Records a fault if `time` occurs in a constant expression.
fn check_time_use(reading: NameContext, at: u32, least: &mut Option<NameErr>)
    ensures { least.new ≡ least_of least.old (time_faults reading at) }
{
    match reading {
        NameContext::Equation | NameContext::Clause => {}
        NameContext::Constant => keep_least_fault(least, NameErr::Misused { at }),
    }
}

// Records the faults of names in terms.
#[cycle(naming)]
#[tactic(auto, using(crate::proofs::LeastLemmas::least_of_append))]
fn check_terms(
    declared: &BTreeMap<&[u8], NameKind>,
    loops: &[Name],
    reading: NameContext,
    terms: &[Term],
    least: &mut Option<NameErr>,
)
    ensures { least.new
        ≡ least_of least.old
        (terms_faults reading (name_kind_in loops.now (name_kind_at declared.now))
        (terms_of (map signed terms.now))) }
{
    for term in terms {
        check_expression(declared, loops, reading, &term.value, least);
    }
}

// Records the faults of names in factors.
#[cycle(naming)]
#[tactic(auto, using(crate::proofs::LeastLemmas::least_of_append))]
fn check_factors(
    declared: &BTreeMap<&[u8], NameKind>,
    loops: &[Name],
    reading: NameContext,
    factors: &[Factor],
    least: &mut Option<NameErr>,
)
    ensures { least.new
        ≡ least_of least.old
        (factors_faults reading (name_kind_in loops.now (name_kind_at declared.now))
        (factors_of (map scaled factors.now))) }
{
    for factor in factors {
        check_expression(declared, loops, reading, &factor.value, least);
    }
}

// Records the faults of a loop's variable and bounds.
#[tactic(auto, using(crate::proofs::LeastLemmas::least_of_append))]
fn check_range(
    declared: &BTreeMap<&[u8], NameKind>,
    loops: &[Name],
    range: RangeRef,
    least: &mut Option<NameErr>,
)
    ensures { least.new
        ≡ least_of least.old
        (range_faults (name_kind_in loops.now (name_kind_at declared.now)) (range_of range.entry)) }
{
    check_name_taken(
        range.at,
        standing(declared, loops, range.var.bytes()),
        least,
    );
    check_expression(declared, loops, NameContext::Constant, range.from, least);
    check_expression(declared, loops, NameContext::Constant, range.to, least);
}

/// Records a fault if the name is already in use.
pub fn check_name_taken(at: u32, standing: NameKind, least: &mut Option<NameErr>)
    ensures { least.new ≡ least_of least.old (taken_faults at standing) }
{
    match standing {
        NameKind::Missing => {}
        NameKind::Loop | NameKind::Declared(_, _) => keep_least_fault(
            least,
            NameErr::Duplicate { at },
        ),
    }
}

// Records the faults of branches. Errors: allocation failure.
fn check_branches(
    alloc: Global,
    declared: &BTreeMap<&[u8], NameKind>,
    loops: &mut Vec<Name>,
    branches: &[Branch],
    least: &mut Option<NameErr>,
) -> Result<(), AllocError>
    ensures faults { OnOk result
        (least.new
        ≡ least_of least.old
        (branches_faults (name_kind_at declared.now) loops.old.items (map branch branches.now))) }
    ensures loops { OnOk result (loops.new.items ≡ loops.old.items) }
{
    for one in branches {
        check_branch(alloc, declared, loops, one, least)?;
    }
    Ok(())
}

// Records the faults of a branch. Errors: allocation failure.
fn check_branch(
    alloc: Global,
    declared: &BTreeMap<&[u8], NameKind>,
    loops: &mut Vec<Name>,
    one: &Branch,
    least: &mut Option<NameErr>,
) -> Result<(), AllocError>
    ensures faults { OnOk result
        (least.new
        ≡ least_of least.old
        (branch_faults (name_kind_at declared.now) loops.old.items (branch one.now))) }
    ensures loops { OnOk result (loops.new.items ≡ loops.old.items) }
{
    check_expression(declared, loops, NameContext::Clause, &one.cond.left, least);
    check_expression(declared, loops, NameContext::Clause, &one.cond.right, least);
    check_items::<Main, Statement>(alloc, declared, loops, &one.body, least)
}
