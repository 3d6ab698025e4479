//! The state machine for conditions. An opening bracket may begin an expression or a condition, so
//! the machine stores the offsets of the open brackets.

ghost use Rattle.std.specs.Prelude.{◌≡◌, [], List, ℕ, IfOk, Option, reverse};
ghost use Rattle.mu_parser.specs.Prelude.{expression, condition, compared, relation_of, after_left, begin_condition, compares, complete, depth_of, left_move, right_move, turn, begin_sum, symbol_view};
ghost use Rattle.mu_parser.specs.ConditionViews.{turn_of};
ghost use Rattle.mu_parser.specs.ExpressionViews.{move_of, stage_of};

use crate::expression::machine::{
    Frame, Move, Position, begin_expression_sum, expression_depth_at, first_expression_part,
    step_expression,
};
use mu_grammar::Symbol;
use mu_lexer::{Mark, Word};
use mu_tree::{Cond, Expr, Rel};
use std::alloc::{AllocError, Global};

/// The position in a condition: before it or in its left expression, with the offsets of the open
/// brackets; in its right expression or after it, with the number of open brackets.
#[derive(Drop)]
pub enum Stage {
    Before(Vec<u32>),
    Left(Vec<u32>, Position, Vec<Frame>),
    Right(Expr, Rel, u32, usize, Position, Vec<Frame>),
    Behind(Cond, usize),
}

/// The effect of a token in a condition: continue, continue one level deeper, end the condition
/// before this token, or reject the token.
#[derive(Drop)]
pub enum Turn {
    Goes(Stage),
    Nests(Stage),
    Holds(Cond),
    Fails,
}

/// The transition for one token at a stage of a condition. `Err` is an allocation failure.
pub fn read_condition_token(alloc: Global, stage: Stage, symbol: Symbol) -> Result<Turn, AllocError>
    ensures { IfOk result (λ t. turn_of t ≡ turn (stage_of stage) (symbol_view symbol.entry)) }
{
    match stage {
        Stage::Before(places) => begin_condition(alloc, places, symbol),
        Stage::Left(places, position, frames) => {
            let mut frames = frames;
            let next = step_expression(alloc, position, &mut frames, symbol)?;
            Ok(move_condition_left(alloc, places, next, frames, symbol))
        }
        Stage::Right(left, rel, place, brackets, position, frames) => {
            let mut frames = frames;
            let next = step_expression(alloc, position, &mut frames, symbol)?;
            Ok(move_condition_right(left, rel, place, brackets, next, frames, symbol))
        }
        Stage::Behind(cond, brackets) => Ok(complete_condition(cond, brackets, symbol)),
    }
}

/// Returns the nesting depth at a stage, where `outside` is the depth outside the condition.
pub fn condition_depth(outside: usize, stage: &Stage) -> u128
    ensures { result ≡ depth_of outside (stage_of stage.now) }
{
    let outside = outside as u128;
    match stage {
        Stage::Before(places) => outside + places.len() as u128,
        Stage::Left(places, position, frames) => {
            outside + places.len() as u128 + expression_depth_at(position, frames) as u128
        }
        Stage::Right(_, _, _, brackets, position, frames) => {
            outside + *brackets as u128 + expression_depth_at(position, frames) as u128
        }
        Stage::Behind(_, brackets) => outside + *brackets as u128,
    }
}

// Parses the first token of a condition.
fn begin_condition(alloc: Global, places: Vec<u32>, symbol: Symbol) -> Result<Turn, AllocError>
    ensures { IfOk result
        (λ t. turn_of t ≡ begin_condition (reverse places.items) (symbol_view symbol.entry)) }
{
    match symbol {
        Symbol::Mark(Mark::OpenRound, at) => {
            let mut places = places;
            places.push(at)?;
            Ok(Turn::Nests(Stage::Before(places)))
        }
        _ => begin_condition_left(alloc, places, symbol),
    }
}

// Parses the first token of a condition that does not begin with a bracket.
fn begin_condition_left(alloc: Global, places: Vec<u32>, symbol: Symbol) -> Result<Turn, AllocError>
    ensures { IfOk result
        (λ t. let x = symbol_view symbol.entry in turn_of t
        ≡ left_move (reverse places.items) (begin_sum [] x) x) }
{
    let mut frames = Vec::new(alloc);
    let next = begin_expression_sum(alloc, &mut frames, symbol)?;
    Ok(move_condition_left(alloc, places, next, frames, symbol))
}

// Applies a move of the left expression.
fn move_condition_left(
    alloc: Global,
    places: Vec<u32>,
    next: Move,
    frames: Vec<Frame>,
    symbol: Symbol,
) -> Turn
    ensures { turn_of result
        ≡ left_move (reverse places.items) (move_of next frames.items) (symbol_view symbol.entry) }
{
    match next {
        Move::Moves(position) => Turn::Goes(Stage::Left(places, position, frames)),
        Move::Opens(position) => Turn::Nests(Stage::Left(places, position, frames)),
        Move::Ends(left) => follow_condition_left(alloc, left, places, symbol),
        Move::Wrong => Turn::Fails,
    }
}

// The left expression, or a bracketed expression at its start, is complete, and this token follows.
fn follow_condition_left(alloc: Global, left: Expr, places: Vec<u32>, symbol: Symbol) -> Turn
    ensures { turn_of result
        ≡ after_left (expression left) (reverse places.items) (symbol_view symbol.entry) }
{
    let mut places = places;
    match symbol {
        Symbol::Mark(Mark::CloseRound, _) => match places.pop() {
            None => {
                drop(left);
                Turn::Fails
            }
            Some(i) => {
                let part = first_expression_part(alloc, Vec::new(alloc), false, i, i);
                let position = Position::AfterPrimary(left, part);
                Turn::Goes(Stage::Left(places, position, Vec::new(alloc)))
            }
        },
        Symbol::Mark(mark, at) => begin_condition_right(
            alloc,
            condition_relation(mark),
            left,
            &places,
            at,
        ),
        _ => {
            drop(left);
            Turn::Fails
        }
    }
}

// Parses the relation after the left expression.
fn begin_condition_right(
    alloc: Global,
    relation: Option<Rel>,
    left: Expr,
    places: &[u32],
    at: u32,
) -> Turn
    ensures { turn_of result ≡ compares relation (expression left) (reverse places.now) at }
{
    match relation {
        None => Turn::Fails,
        Some(rel) => Turn::Goes(Stage::Right(
            left,
            rel,
            at,
            places.len(),
            Position::Sum,
            Vec::new(alloc),
        )),
    }
}

// Returns the relation that a mark denotes.
fn condition_relation(mark: Mark) -> Option<Rel>
    ensures { result ≡ relation_of mark }
{
    match mark {
        Mark::Less => Some(Rel::Less),
        Mark::LessEqual => Some(Rel::LessEq),
        Mark::Greater => Some(Rel::Greater),
        Mark::GreaterEqual => Some(Rel::GreaterEq),
        _ => None,
    }
}

// Applies a move of the right expression.
fn move_condition_right(
    left: Expr,
    rel: Rel,
    place: u32,
    brackets: usize,
    next: Move,
    frames: Vec<Frame>,
    symbol: Symbol,
) -> Turn
    ensures { turn_of result
        ≡ right_move (expression left) rel place brackets (move_of next frames.items)
        (symbol_view symbol.entry) }
{
    match next {
        Move::Moves(position) => {
            Turn::Goes(Stage::Right(left, rel, place, brackets, position, frames))
        }
        Move::Opens(position) => {
            Turn::Nests(Stage::Right(left, rel, place, brackets, position, frames))
        }
        Move::Ends(right) => {
            let cond = Cond {
                left,
                rel,
                right,
                at: place,
            };
            complete_condition(cond, brackets, symbol)
        }
        Move::Wrong => Turn::Fails,
    }
}

// The condition is complete inside this many brackets, and this token follows.
fn complete_condition(cond: Cond, brackets: usize, symbol: Symbol) -> Turn
    ensures { turn_of result ≡ complete (condition cond) brackets (symbol_view symbol.entry) }
{
    match symbol {
        Symbol::Mark(Mark::CloseRound, _) => {
            if brackets == 0 {
                drop(cond);
                Turn::Fails
            } else {
                Turn::Goes(Stage::Behind(cond, brackets - 1))
            }
        }
        Symbol::Word(Word::Then, _) => {
            if brackets == 0 {
                Turn::Holds(cond)
            } else {
                drop(cond);
                Turn::Fails
            }
        }
        _ => {
            drop(cond);
            Turn::Fails
        }
    }
}
