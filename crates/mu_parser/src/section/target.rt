//! Transitions in references outside expressions, and after the right-hand sides that belong to
//! them.

ghost use Rattle.std.specs.Prelude.{◌≡◌, ◌<◌, ◌^◌, List, ℕ, IfOk};
ghost use Rattle.mu_parser.specs.Prelude.{expression, reference, Algebraic, Assign, Derivative, Restart, equation, statement, close_assignment, close_equation, close_index, close_restart, close_side, follow_target, follow_target_name, put_equation, put_start, put_statement, target_token, advances, aim_level, begin, for_side, symbol_view};
ghost use Rattle.mu_parser.specs.SectionViews.{aim_of, body_of, branch_of, draft_of, effect_of, loops_of};

use crate::expression::machine::{Position, whole};
use crate::parser::parse_with_kept;
use crate::section::equation::put_equation;
use crate::section::loops::{Loop, loop_level};
use crate::section::state::{Aim, Body, Draft, Effect, OpenBranch, State, Then, Waiting};
use crate::section::statement::{put_start_statement, put_statement, statement_level};
use mu_grammar::{Fixed, Symbol};
use mu_io::Name;
use mu_lexer::Mark;
use mu_tree::{Equation, Expr, Ref, Statement};
use std::alloc::{AllocError, Global};

/// Parses the token after the right-hand side that belongs to a reference. `Err` is an allocation
/// failure.
pub fn close_target_value(
    aim: Aim,
    target: Ref,
    value: Expr,
    symbol: Symbol,
) -> Result<Effect, AllocError>
    ensures { IfOk result
        (λ e. effect_of e
        ≡ close_side (aim_of aim) (reference target) (expression value)
        (symbol_view symbol.entry)) }
{
    match aim {
        Aim::Plain(draft, loops) => {
            let item = algebraic_target_equation(target, value);
            add_target_equation(draft, loops, item, symbol)
        }
        Aim::Derivative(draft, loops) => {
            let item = derivative_target_equation(target, value);
            add_target_equation(draft, loops, item, symbol)
        }
        Aim::Initial(draft, loops) => {
            let item = assign_target(target, value);
            add_target_start(draft, loops, item, symbol)
        }
        Aim::Assigned(branch, loops) => {
            let item = assign_target(target, value);
            add_target_assignment(branch, loops, item, symbol)
        }
        Aim::Restarted(branch, loops) => {
            let item = restart_target(target, value);
            add_target_restart(branch, loops, item, symbol)
        }
    }
}

/// Parses a reference outside expressions. `Err` is an allocation failure.
pub fn target_token(alloc: Global, aim: Aim, symbol: Symbol) -> Result<Effect, AllocError>
    ensures { IfOk result
        (λ e. effect_of e ≡ target_token (aim_of aim) (symbol_view symbol.entry)) }
{
    match symbol {
        Symbol::Name(text, at) => {
            let (name, aim) = parse_with_kept(Name::new(alloc, text), aim)?;
            Ok(Effect::Advances(State::BehindTargetName(name, at, aim)))
        }
        _ => {
            drop(aim);
            Ok(Effect::Refuses)
        }
    }
}

/// Parses the token after the name of a reference outside expressions.
pub fn follow_target_name(alloc: Global, name: Name, place: u32, aim: Aim, symbol: Symbol) -> Effect
    ensures { effect_of result
        ≡ follow_target_name name place (aim_of aim) (symbol_view symbol.entry) }
{
    match symbol {
        Symbol::Mark(Mark::OpenSquare, _) => {
            let level = target_aim_level(&aim);
            let index = Waiting::Index(name, place, aim);
            Effect::Descends(level, State::Sum(index, Position::Sum, Vec::new(alloc)))
        }
        _ => {
            let target = whole(name, place);
            follow_target(alloc, target, aim, symbol)
        }
    }
}

/// Parses the token after the index of a reference outside expressions.
pub fn close_target_index(target: Ref, aim: Aim, symbol: Symbol) -> Effect
    ensures { effect_of result
        ≡ close_index (reference target) (aim_of aim) (symbol_view symbol.entry) }
{
    match symbol {
        Symbol::Mark(Mark::CloseSquare, _) => Effect::Advances(State::BehindTarget(target, aim)),
        _ => {
            drop(aim);
            Effect::Refuses
        }
    }
}

// Creates an equation for an algebraic variable.
fn algebraic_target_equation(target: Ref, value: Expr) -> Equation
    ensures { equation result ≡ Algebraic (reference target) (expression value) }
{
    Equation::Plain { target, value }
}

// Adds this equation and parses the token after it.
fn add_target_equation(
    draft: Box<Draft>,
    loops: Vec<Loop<Equation>>,
    item: Equation,
    symbol: Symbol,
) -> Result<Effect, AllocError>
    ensures { IfOk result
        (λ e. effect_of e
        ≡ close_equation
        (put_equation (draft_of draft.value) (loops_of equation loops.items) (equation item))
        (symbol_view symbol.entry)) }
{
    let body = put_equation(draft, loops, item)?;
    Ok(close_equation_target(body, symbol))
}

// Parses the token after the right-hand side of an equation. `body` is the body after the equation.
fn close_equation_target(body: Body, symbol: Symbol) -> Effect
    ensures { effect_of result ≡ close_equation (body_of body) (symbol_view symbol.entry) }
{
    match symbol {
        Symbol::Quoted(_) => Effect::Advances(State::Expects(Fixed::Semicolon, Then::Body(body))),
        Symbol::Mark(Mark::Semicolon, _) => Effect::Advances(State::Body(body)),
        _ => {
            drop(body);
            Effect::Refuses
        }
    }
}

// Creates an equation for a derivative.
fn derivative_target_equation(target: Ref, value: Expr) -> Equation
    ensures { equation result ≡ Derivative (reference target) (expression value) }
{
    Equation::Der { target, value }
}

// Creates an assignment.
fn assign_target(target: Ref, value: Expr) -> Statement
    ensures { statement result ≡ Assign (reference target) (expression value) }
{
    Statement::Set { target, value }
}

// Adds this initial equation and parses the token after it.
fn add_target_start(
    draft: Box<Draft>,
    loops: Vec<Loop<Statement>>,
    item: Statement,
    symbol: Symbol,
) -> Result<Effect, AllocError>
    ensures { IfOk result
        (λ e. effect_of e
        ≡ close_assignment
        (put_start (draft_of draft.value) (loops_of statement loops.items) (statement item))
        (symbol_view symbol.entry)) }
{
    let body = put_start_statement(draft, loops, item)?;
    Ok(close_assignment_target(body, symbol))
}

// Parses the token after the right-hand side of an assignment.
fn close_assignment_target(body: Body, symbol: Symbol) -> Effect
    ensures { effect_of result ≡ close_assignment (body_of body) (symbol_view symbol.entry) }
{
    match symbol {
        Symbol::Mark(Mark::Semicolon, _) => Effect::Advances(State::Body(body)),
        _ => {
            drop(body);
            Effect::Refuses
        }
    }
}

// Adds this assignment and parses the token after it.
fn add_target_assignment(
    branch: OpenBranch,
    loops: Vec<Loop<Statement>>,
    item: Statement,
    symbol: Symbol,
) -> Result<Effect, AllocError>
    ensures { IfOk result
        (λ e. effect_of e
        ≡ close_assignment
        (put_statement (branch_of branch) (loops_of statement loops.items) (statement item))
        (symbol_view symbol.entry)) }
{
    let body = put_statement(branch, loops, item)?;
    Ok(close_assignment_target(body, symbol))
}

// Creates a `reinit` statement.
fn restart_target(target: Ref, value: Expr) -> Statement
    ensures { statement result ≡ Restart (reference target) (expression value) }
{
    Statement::Reinit { target, value }
}

// Adds this `reinit` statement and parses the token after its value.
fn add_target_restart(
    branch: OpenBranch,
    loops: Vec<Loop<Statement>>,
    item: Statement,
    symbol: Symbol,
) -> Result<Effect, AllocError>
    ensures { IfOk result
        (λ e. effect_of e
        ≡ close_restart
        (put_statement (branch_of branch) (loops_of statement loops.items) (statement item))
        (symbol_view symbol.entry)) }
{
    let body = put_statement(branch, loops, item)?;
    Ok(close_restart_target(body, symbol))
}

// Parses the token after the value of a `reinit`.
fn close_restart_target(body: Body, symbol: Symbol) -> Effect
    ensures { effect_of result ≡ close_restart (body_of body) (symbol_view symbol.entry) }
{
    match symbol {
        Symbol::Mark(Mark::CloseRound, _) => {
            Effect::Advances(State::Expects(Fixed::Semicolon, Then::Body(body)))
        }
        _ => {
            drop(body);
            Effect::Refuses
        }
    }
}

/// Returns the nesting depth of a reference outside expressions.
pub fn target_aim_level(aim: &Aim) -> u128
    ensures value { result ≡ aim_level (aim_of aim.now) }
    ensures count_limit { result < 2 ^ 66 }
{
    match aim {
        Aim::Plain(_, loops) => loop_level(loops),
        Aim::Derivative(_, loops) => loop_level(loops) + 1,
        Aim::Initial(_, loops) => loop_level(loops),
        Aim::Assigned(branch, loops) => statement_level(branch, loops),
        Aim::Restarted(branch, loops) => statement_level(branch, loops) + 1,
    }
}

/// Parses the token after a reference outside expressions.
pub fn follow_target(alloc: Global, target: Ref, aim: Aim, symbol: Symbol) -> Effect
    ensures { effect_of result
        ≡ follow_target (reference target) (aim_of aim) (symbol_view symbol.entry) }
{
    match (&aim, symbol) {
        (Aim::Plain(_, _), Symbol::Mark(Mark::Equal, _)) => begin_target_value(alloc, aim, target),
        (Aim::Derivative(_, _), Symbol::Mark(Mark::CloseRound, _)) => {
            let side = Then::Sum(Waiting::Side(aim, target));
            Effect::Advances(State::Expects(Fixed::EqualSign, side))
        }
        (Aim::Initial(_, _), Symbol::Mark(Mark::Assign, _)) => begin_target_value(
            alloc, aim, target,
        ),
        (Aim::Assigned(_, _), Symbol::Mark(Mark::Assign, _)) => begin_target_value(
            alloc, aim, target,
        ),
        (Aim::Restarted(_, _), Symbol::Mark(Mark::Comma, _)) => begin_target_value(
            alloc, aim, target,
        ),
        _ => {
            drop(aim);
            Effect::Refuses
        }
    }
}

// Begins the right-hand side that belongs to the reference.
fn begin_target_value(alloc: Global, aim: Aim, target: Ref) -> Effect
    ensures { effect_of result ≡ advances (begin (for_side (aim_of aim) (reference target))) }
{
    let side = Waiting::Side(aim, target);
    Effect::Advances(State::Sum(side, Position::Sum, Vec::new(alloc)))
}
