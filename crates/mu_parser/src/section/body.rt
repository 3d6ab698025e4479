//! Transitions in a section, a branch or a loop: the first token of an item, and the heads of the
//! loops that begin there.

ghost use Rattle.std.specs.Prelude.{◌≡◌, ◌<◌, ◌^◌, List, ℕ, IfOk, IsOkAnd};
ghost use Rattle.mu_parser.specs.Prelude.{expression, begin_bare, body_token, close_first, close_last, end_loop, enter, leave, owned_range, variable_token, body_level, symbol_view};
ghost use Rattle.mu_parser.specs.SectionViews.{body_of, effect_of};

use crate::expression::machine::Position;
use crate::parser::parse_with_kept;
use crate::section::clause::{begin_clause, end_clause_branch, put_clause};
use crate::section::equation::{begin_equation, put_equation};
use crate::section::follow_section::follow_section;
use crate::section::loops::{close_loop, enter_loop, loop_level};
use crate::section::state::{Body, Effect, State, Then, Waiting};
use crate::section::statement::{
    begin_start_statement, begin_statement, put_start_statement, put_statement, statement_level,
};
use mu_grammar::{Fixed, Symbol};
use mu_io::Name;
use mu_lexer::{Mark, Word};
use mu_tree::{Expr, Range};
use std::alloc::{AllocError, Global};

/// Parses the first token of an item, or the token after the last item. `Err` is an allocation
/// failure.
pub fn body_token(alloc: Global, body: Body, symbol: Symbol) -> Result<Effect, AllocError>
    ensures { IfOk result
        (λ e. effect_of e ≡ body_token (body_of body) (symbol_view symbol.entry)) }
{
    match symbol {
        Symbol::Word(Word::For, _) => {
            let level = body_level(&body);
            Ok(Effect::Descends(level, State::Variable(body)))
        }
        _ => begin_bare_body(alloc, body, symbol),
    }
}

/// Parses the variable of a loop. `Err` is an allocation failure.
pub fn body_variable_token(alloc: Global, body: Body, symbol: Symbol) -> Result<Effect, AllocError>
    ensures { IfOk result
        (λ e. effect_of e ≡ variable_token (body_of body) (symbol_view symbol.entry)) }
{
    match symbol {
        Symbol::Name(text, at) => {
            let (name, body) = parse_with_kept(Name::new(alloc, text), body)?;
            let first = Waiting::First(body, name, at);
            Ok(Effect::Advances(State::Expects(Fixed::InWord, Then::Sum(first))))
        }
        _ => {
            drop(body);
            Ok(Effect::Refuses)
        }
    }
}

/// Parses the token after the first value of a loop's range.
pub fn close_body_loop_first(
    alloc: Global,
    body: Body,
    name: Name,
    place: u32,
    from: Expr,
    symbol: Symbol,
) -> Effect
    ensures { effect_of result
        ≡ close_first (body_of body) name place (expression from) (symbol_view symbol.entry) }
{
    match symbol {
        Symbol::Mark(Mark::Colon, _) => {
            let last = Waiting::Last(body, name, place, from);
            Effect::Advances(State::Sum(last, Position::Sum, Vec::new(alloc)))
        }
        _ => {
            drop(body);
            drop(from);
            Effect::Refuses
        }
    }
}

/// Parses the token after the last value of a loop's range. `Err` is an allocation failure.
pub fn close_body_loop_last(
    alloc: Global,
    body: Body,
    range: Range,
    symbol: Symbol,
) -> Result<Effect, AllocError>
    ensures { IfOk result
        (λ e. effect_of e
        ≡ close_last (body_of body) (owned_range range) (symbol_view symbol.entry)) }
{
    match symbol {
        Symbol::Word(Word::Loop, _) => {
            let body = enter_body_loop(alloc, body, range)?;
            Ok(Effect::Advances(State::Body(body)))
        }
        _ => {
            drop(body);
            drop(range);
            Ok(Effect::Refuses)
        }
    }
}

/// Returns the nesting depth of a body's items.
pub fn body_level(body: &Body) -> u128
    ensures value { result ≡ body_level (body_of body.now) }
    ensures count_limit { result < 2 ^ 66 }
{
    match body {
        Body::Equations(_, loops) => loop_level(loops),
        Body::Starts(_, loops) => loop_level(loops),
        Body::Clauses(_, loops) => loop_level(loops),
        Body::Branch(branch, loops) => statement_level(branch, loops),
    }
}

// Parses the first token of an item that is not a loop, or the token after the last item.
fn begin_bare_body(alloc: Global, body: Body, symbol: Symbol) -> Result<Effect, AllocError>
    ensures { IfOk result
        (λ e. effect_of e ≡ begin_bare (body_of body) (symbol_view symbol.entry)) }
{
    match body {
        Body::Equations(draft, loops) => begin_equation(alloc, draft, loops, symbol),
        Body::Starts(draft, loops) => begin_start_statement(alloc, draft, loops, symbol),
        Body::Clauses(draft, loops) => begin_clause(alloc, draft, loops, symbol),
        Body::Branch(branch, loops) => begin_statement(alloc, branch, loops, symbol),
    }
}

// Opens a loop with this range.
fn enter_body_loop(alloc: Global, body: Body, range: Range) -> Result<Body, AllocError>
    ensures { IfOk result (λ b. body_of b ≡ enter (body_of body) (owned_range range)) }
{
    match body {
        Body::Equations(draft, loops) => {
            let (loops, draft) = parse_with_kept(enter_loop(alloc, loops, range), draft)?;
            Ok(Body::Equations(draft, loops))
        }
        Body::Starts(draft, loops) => {
            let (loops, draft) = parse_with_kept(enter_loop(alloc, loops, range), draft)?;
            Ok(Body::Starts(draft, loops))
        }
        Body::Clauses(draft, loops) => {
            let (loops, draft) = parse_with_kept(enter_loop(alloc, loops, range), draft)?;
            Ok(Body::Clauses(draft, loops))
        }
        Body::Branch(branch, loops) => {
            let (loops, branch) = parse_with_kept(enter_loop(alloc, loops, range), branch)?;
            Ok(Body::Branch(branch, loops))
        }
    }
}

/// Parses the token after the last item of a body. `Err` is an allocation failure.
pub fn leave_body(alloc: Global, body: Body, symbol: Symbol) -> Result<Effect, AllocError>
    ensures { IfOk result
        (λ e. effect_of e ≡ leave (body_of body) (symbol_view symbol.entry)) }
{
    match body {
        Body::Equations(draft, loops) => {
            let (loops, ended) = close_loop(loops);
            match ended {
                None => Ok(follow_section(alloc, draft, symbol)),
                Some(item) => end_loop(put_equation(draft, loops, item), symbol),
            }
        }
        Body::Starts(draft, loops) => {
            let (loops, ended) = close_loop(loops);
            match ended {
                None => Ok(follow_section(alloc, draft, symbol)),
                Some(item) => end_loop(put_start_statement(draft, loops, item), symbol),
            }
        }
        Body::Clauses(draft, loops) => {
            let (loops, ended) = close_loop(loops);
            match ended {
                None => Ok(follow_section(alloc, draft, symbol)),
                Some(item) => end_loop(put_clause(draft, loops, item), symbol),
            }
        }
        Body::Branch(branch, loops) => {
            let (loops, ended) = close_loop(loops);
            match ended {
                None => end_clause_branch(alloc, branch, symbol),
                Some(item) => end_loop(put_statement(branch, loops, item), symbol),
            }
        }
    }
}

// Parses the token after the last item of a loop. `body` is the body after the loop, or an
// allocation failure.
fn end_loop(body: Result<Body, AllocError>, symbol: Symbol) -> Result<Effect, AllocError>
    ensures { IfOk result (λ e. IsOkAnd body
        (λ b. effect_of e ≡ end_loop (body_of b) (symbol_view symbol.entry))) }
{
    let body = body?;
    match symbol {
        Symbol::Word(Word::End, _) => {
            let next = State::Expects(Fixed::ForWord, Then::Semicolon(body));
            Ok(Effect::Advances(next))
        }
        _ => {
            drop(body);
            Ok(Effect::Refuses)
        }
    }
}
