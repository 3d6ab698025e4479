//! Computes the affine forms of a flat model: those of the states, and then those of the clauses.
//! Algebraic variables are eliminated along the causal order. The number of nonzero coefficients of
//! all forms is limited.

ghost use Rattle.std.specs.Prelude.{◌≡◌, ◌≤◌, ◌^◌, ◌<◌, ◌+◌, [], IfOk, IfErr, length, map, All};
ghost use Rattle.mu_affine.specs.Prelude.{flat_model, flat_equation, flat_action, flat_branch, flat_clause, flat_variable, IsFlatModel, IsOrder, IsAlgebraic, DependsOn, State, Discrete};
ghost use Rattle.mu_affine.specs.Words.{Place, is_nonzero, form_meaning, IsFinished, counted, keep_states, keep_actions, keep_branches, keep_clauses, right_side, solve, solve_all, nothing_taken, with_more, Keeps, of_equations, of_clauses, AreFirsts, kept_so_far, IsKept, KeepsAll, IsNumberedBranch, AreZeros, solved_so_far, IsSolved, Solves, SolvesAll, AreForms, IsAffineFault, sizes_of, count_of_role, equation_context, AreSolved, IsNumbered, IsNumberedAction, forms_in, IsAnswer, form_of};

use crate::affine_fault::AffineErr;
use crate::exact_form::{ExactForm, Forms, Place, Sizes};
use crate::expression_form::{expression_form, form_of_action, form_of_condition};
use mu_causal::Order;
use mu_io::Items;
use mu_num::Ratio;
use mu_tree::{FlatBranch, FlatClause, FlatEquation, FlatModel, FlatRole, FlatStatement, FlatVar};
use std::alloc::{AllocError, Global};

/// The greatest allowed number of nonzero coefficients of all forms of a flat model.
pub const MAX_COEFFICIENTS: u32 = 65_536;

/// Forms, and the number of nonzero coefficients of these forms and all forms before them.
#[derive(Drop)]
pub(crate) struct CountedForms {
    pub forms: Vec<ExactForm>,
    pub count: u32,
}

/// Returns the forms of a flat model: those of the states by number, and then, clause by clause,
/// those of each branch's condition and statements. Algebraic variables are eliminated along
/// `order`: each is replaced by its form. The error is the first one in this sequence: algebraic
/// variables in their order, states, conditions and statements.
pub fn normal(alloc: Global, m: &FlatModel, order: &Order) -> Result<Forms, AffineErr>
    requires flat { IsFlatModel (flat_model m.now) }
    requires order { IsOrder (IsAlgebraic (flat_model m.now)) (DependsOn (flat_model m.now))
        order.now.vars }
    ensures ok { IfOk result (AreForms (flat_model m.now) order.now.vars) }
    ensures err { IfErr result (IsAffineFault (flat_model m.now) order.now.vars) }
{
    let sizes = count_states_and_discretes(&m.vars);
    let firsts = first_normal_equations(alloc, m.vars.len(), &m.equations)?;
    let solved = solve_algebraic_variables(alloc, sizes, m, &firsts, order.vars.as_slice())?;
    let mut kept = CountedForms {
        forms: Vec::new(alloc),
        count: solved.count,
    };
    keep_normal_state_forms(alloc, sizes, m, &firsts, &solved.forms, &mut kept)?;
    keep_normal_clause_forms(alloc, sizes, &solved.forms, &m.clauses, &mut kept)?;
    Ok(Forms {
        forms: Items::new(kept.forms),
    })
}

/// Counts the states and the discrete variables.
pub(crate) fn count_states_and_discretes(vars: &[FlatVar]) -> Sizes
    requires { length vars.now < 2 ^ 32 }
    ensures states { result.states ≡ count_of_role State (map flat_variable vars.now) }
    ensures discretes { result.discretes ≡ count_of_role Discrete (map flat_variable vars.now) }
{
    let mut sizes = Sizes {
        states: 0,
        discretes: 0,
    };
    for var in vars {
        match var.role {
            FlatRole::State => sizes.states += 1,
            FlatRole::Discrete => sizes.discretes += 1,
            FlatRole::Algebraic => {}
        }
    }
    sizes
}

/// Returns the index of each variable's first equation. It is the number of equations if the
/// variable has none.
pub(crate) fn first_normal_equations(
    alloc: Global,
    variables: usize,
    equations: &[FlatEquation],
) -> Result<Vec<usize>, AllocError>
    requires { All (λ e. e.target < variables) (map flat_equation equations.now) }
    ensures firsts { IfOk result
        (λ firsts. AreFirsts (map flat_equation equations.now) firsts.items) }
    ensures one_each { IfOk result (λ firsts. length firsts.items ≡ variables) }
{
    let mut firsts = vec![in alloc; equations.len(); variables]?;
    for place in (0..equations.len()).rev() {
        firsts[equations[place].target as usize] = place;
    }
    Ok(firsts)
}

/// Returns the forms of the algebraic variables by number, solved in this order. All other forms
/// are 0.
pub(crate) fn solve_algebraic_variables(
    alloc: Global,
    sizes: Sizes,
    m: &FlatModel,
    firsts: &[usize],
    order: &[u32],
) -> Result<CountedForms, AffineErr>
    requires sizes { sizes ≡ sizes_of (flat_model m.now) }
    requires fit { sizes.states + sizes.discretes + sizes.discretes < 2 ^ 32 }
    requires equations { All (λ e. IsNumbered (of_equations sizes) (length firsts.now) e.value)
        (map flat_equation m.now.equations.items) }
    requires firsts { AreFirsts (map flat_equation m.now.equations.items) firsts.now }
    requires within { All (λ v. v < length firsts.now) order.now }
    ensures { SolvesAll sizes (length firsts.now)
        (solve_all (flat_model m.now) order.now nothing_taken) result }
{
    let forms = zero_forms(alloc, firsts.len())?;
    let mut solved = CountedForms { forms, count: 0 };
    for var in order {
        solve_next_variable(alloc, sizes, m, firsts, &mut solved, *var)?;
    }
    Ok(solved)
}

// Returns `count` zero forms.
fn zero_forms(alloc: Global, count: usize) -> Result<Vec<ExactForm>, AllocError>
    ensures zeros { IfOk result (λ forms. AreZeros forms.items) }
    ensures one_each { IfOk result (λ forms. length forms.items ≡ count) }
{
    let mut forms = Vec::new(alloc);
    for _made in 0..count {
        forms.push(ExactForm::constant(alloc, Ratio::whole(0)))?;
    }
    Ok(forms)
}

// Computes the form of the next algebraic variable.
fn solve_next_variable(
    alloc: Global,
    sizes: Sizes,
    m: &FlatModel,
    firsts: &[usize],
    solved: &mut CountedForms,
    var: u32,
) -> Result<(), AffineErr>
    requires sizes { sizes ≡ sizes_of (flat_model m.now) }
    requires fit { sizes.states + sizes.discretes + sizes.discretes < 2 ^ 32 }
    requires equations { All (λ e. IsNumbered (of_equations sizes) (length firsts.now) e.value)
        (map flat_equation m.now.equations.items) }
    requires firsts { AreFirsts (map flat_equation m.now.equations.items) firsts.now }
    requires solved { IsSolved sizes (length firsts.now) solved.old }
    requires within { var < length firsts.now }
    ensures { Solves sizes (length firsts.now)
        (solve (flat_model m.now) var (solved_so_far solved.old)) solved.new result }
{
    let form = right_side_form(alloc, sizes, &m.equations, firsts, &solved.forms, var)?;
    solved.count = count_coefficients(solved.count, &form)?;
    solved.forms[var as usize] = form;
    Ok(())
}

/// Returns the form of the right-hand side of a variable's equation.
pub(crate) fn right_side_form(
    alloc: Global,
    sizes: Sizes,
    equations: &[FlatEquation],
    firsts: &[usize],
    solved: &[ExactForm],
    var: u32,
) -> Result<ExactForm, AffineErr>
    requires equations { All (λ e. IsNumbered (of_equations sizes) (length solved.now) e.value)
        (map flat_equation equations.now) }
    requires sizes { sizes.states + sizes.discretes + sizes.discretes < 2 ^ 32 }
    requires firsts { AreFirsts (map flat_equation equations.now) firsts.now }
    requires solved { AreSolved (of_equations sizes) solved.now }
    requires within { var < length firsts.now }
    ensures { IsAnswer (of_equations sizes)
        (form_of (equation_context sizes (forms_in solved.now))
        (right_side (map flat_equation equations.now) var))
        result }
{
    let place = Place {
        sizes,
        in_equation: true,
    };
    match equations.get(firsts[var as usize]) {
        Some(equation) => expression_form(alloc, place, solved, &equation.value),
        None => Ok(ExactForm::constant(alloc, Ratio::whole(0))),
    }
}

/// Adds the number of a form's nonzero coefficients to the count.
pub(crate) fn count_coefficients(count: u32, form: &ExactForm) -> Result<u32, AffineErr>
    requires { count ≤ 2 ^ 16 }
    ensures { (p : Place) → IsFinished p form.now
        → result ≡ counted p.sizes count (form_meaning form.now) }
{
    let with_names = add_to_normal_count(count, form.entries.as_slice().len())?;
    let with_pairs = add_to_normal_count(with_names, form.products.as_slice().len())?;
    if has_time_coefficient(form) {
        add_to_normal_count(with_pairs, 1)
    } else {
        Ok(with_pairs)
    }
}

// Adds to a count of coefficients. The sum must not exceed 65,536.
fn add_to_normal_count(count: u32, more: usize) -> Result<u32, AffineErr>
    requires { count ≤ 2 ^ 16 }
    ensures { result ≡ with_more count more }
{
    if more > (MAX_COEFFICIENTS - count) as usize {
        return Err(AffineErr::TooDense {
            count: MAX_COEFFICIENTS + 1,
        });
    }
    Ok(count + more as u32)
}

// Returns whether a form has a coefficient of time.
fn has_time_coefficient(form: &ExactForm) -> bool
    ensures { result ≡ is_nonzero form.now.time }
{
    form.time.num() != 0
}

/// Appends the forms of the states.
pub(crate) fn keep_normal_state_forms(
    alloc: Global,
    sizes: Sizes,
    m: &FlatModel,
    firsts: &[usize],
    solved: &[ExactForm],
    kept: &mut CountedForms,
) -> Result<(), AffineErr>
    requires sizes { sizes ≡ sizes_of (flat_model m.now) }
    requires fit { sizes.states + sizes.discretes + sizes.discretes < 2 ^ 32 }
    requires equations { All (λ e. IsNumbered (of_equations sizes) (length solved.now) e.value)
        (map flat_equation m.now.equations.items) }
    requires firsts { AreFirsts (map flat_equation m.now.equations.items) firsts.now }
    requires states { sizes.states ≤ length firsts.now }
    requires solved { AreSolved (of_equations sizes) solved.now }
    requires none { kept.old.forms.items ≡ [] }
    requires count_limit { kept.old.count ≤ 2 ^ 16 }
    ensures { KeepsAll sizes solved.now
        (keep_states (flat_model m.now) 0 sizes.states (kept_so_far solved.now kept.old)) kept.new
        result }
{
    for var in 0..sizes.states {
        let form = right_side_form(alloc, sizes, &m.equations, firsts, solved, var)?;
        push_counted_form(kept, form)?;
    }
    Ok(())
}

/// Appends a form and counts its coefficients.
pub(crate) fn push_counted_form(kept: &mut CountedForms, form: ExactForm) -> Result<(), AffineErr>
    requires { kept.old.count ≤ 2 ^ 16 }
    ensures { (p : Place) → IsFinished p form → Keeps p.sizes form kept.old kept.new result }
{
    let count = count_coefficients(kept.count, &form)?;
    kept.forms.push(form)?;
    kept.count = count;
    Ok(())
}

/// Appends the forms of clauses.
pub(crate) fn keep_normal_clause_forms(
    alloc: Global,
    sizes: Sizes,
    solved: &[ExactForm],
    clauses: &[FlatClause],
    kept: &mut CountedForms,
) -> Result<(), AffineErr>
    requires fit { sizes.states + sizes.discretes + sizes.discretes < 2 ^ 32 }
    requires solved { AreSolved (of_clauses sizes) solved.now }
    requires numbered { All (All (IsNumberedBranch (of_clauses sizes) (length solved.now)))
        (map flat_clause clauses.now) }
    requires kept { IsKept sizes kept.old }
    ensures { KeepsAll sizes solved.now
        (keep_clauses sizes (map flat_clause clauses.now) (kept_so_far solved.now kept.old))
        kept.new result }
{
    for clause in clauses {
        keep_normal_branch_forms(alloc, sizes, solved, &clause.branches, kept)?;
    }
    Ok(())
}

// Appends the forms of branches: for each branch its condition and then its statements.
fn keep_normal_branch_forms(
    alloc: Global,
    sizes: Sizes,
    solved: &[ExactForm],
    branches: &[FlatBranch],
    kept: &mut CountedForms,
) -> Result<(), AffineErr>
    requires fit { sizes.states + sizes.discretes + sizes.discretes < 2 ^ 32 }
    requires solved { AreSolved (of_clauses sizes) solved.now }
    requires numbered { All (IsNumberedBranch (of_clauses sizes) (length solved.now))
        (map flat_branch branches.now) }
    requires kept { IsKept sizes kept.old }
    ensures { KeepsAll sizes solved.now
        (keep_branches sizes (map flat_branch branches.now) (kept_so_far solved.now kept.old))
        kept.new result }
{
    let place = Place {
        sizes,
        in_equation: false,
    };
    for branch in branches {
        let form = form_of_condition(alloc, place, solved, branch)?;
        push_counted_form(kept, form)?;
        keep_normal_action_forms(alloc, sizes, solved, &branch.body, kept)?;
    }
    Ok(())
}

// Appends the forms of statements.
fn keep_normal_action_forms(
    alloc: Global,
    sizes: Sizes,
    solved: &[ExactForm],
    actions: &[FlatStatement],
    kept: &mut CountedForms,
) -> Result<(), AffineErr>
    requires fit { sizes.states + sizes.discretes + sizes.discretes < 2 ^ 32 }
    requires solved { AreSolved (of_clauses sizes) solved.now }
    requires numbered { All (IsNumberedAction (of_clauses sizes) (length solved.now))
        (map flat_action actions.now) }
    requires kept { IsKept sizes kept.old }
    ensures { KeepsAll sizes solved.now
        (keep_actions sizes (map flat_action actions.now) (kept_so_far solved.now kept.old))
        kept.new result }
{
    let place = Place {
        sizes,
        in_equation: false,
    };
    for action in actions {
        let form = form_of_action(alloc, place, solved, action)?;
        push_counted_form(kept, form)?;
    }
    Ok(())
}
