//! Transitions of the parser in an expression and after it. The state of the parser specifies the
//! part of the model that takes the complete expression.

ghost use Rattle.std.specs.Prelude.{◌≡◌, ◌<◌, ◌^◌, IfOk, List, ℕ};
ghost use Rattle.mu_parser.specs.Prelude.{Element, expression, reference, close_size, with_quantum, with_size, with_start, with_value, with_setting, receive, sum_move, outside, side_level, depth_at, step, symbol_view};
ghost use Rattle.mu_parser.specs.ExpressionViews.{frames_of, move_of, position_of};
ghost use Rattle.mu_parser.specs.ItemViews.{settings_of};
ghost use Rattle.mu_parser.specs.SectionViews.{aim_of, component_of, effect_of, waiting_of};

use crate::annotation_item::follow_item;
use crate::declaration::follow_declaration_value;
use crate::expression::machine::{Frame, Move, Position, expression_depth_at, step_expression};
use crate::parser::parse_with_kept;
use crate::section::body::{body_level, close_body_loop_first, close_body_loop_last};
use crate::section::loops::loop_level;
use crate::section::state::{Aim, Component, Effect, Place, State, Waiting};
use crate::section::target::{close_target_index, close_target_value, target_aim_level};
use mu_grammar::Symbol;
use mu_io::Name;
use mu_lexer::Mark;
use mu_tree::{Expr, Range, Ref, SettingItem, SettingName};
use std::alloc::{AllocError, Global};

/// Parses a token of an expression.
pub fn expression_token(
    alloc: Global,
    waiting: Waiting,
    position: Position,
    frames: Vec<Frame>,
    symbol: Symbol,
) -> Result<Effect, AllocError>
    ensures { IfOk result
        (λ e. effect_of e
        ≡ sum_move (waiting_of waiting)
        (depth_at (outside (waiting_of waiting)) (position_of position)
        (frames_of frames.items))
        (step (position_of position) (frames_of frames.items) (symbol_view symbol.entry))
        (symbol_view symbol.entry)) }
{
    let level = awaited_level_in(&waiting, &position, &frames);
    let mut frames = frames;
    let next = match step_expression(alloc, position, &mut frames, symbol) {
        Ok(next) => next,
        Err(error) => {
            drop(waiting);
            return Err(error);
        }
    };
    apply_expression_move(alloc, waiting, level, next, frames, symbol)
}

// Returns the nesting depth in an expression.
fn awaited_level_in(waiting: &Waiting, position: &Position, frames: &[Frame]) -> u128
    ensures { result
        ≡ depth_at (outside (waiting_of waiting.now)) (position_of position.now)
        (frames_of frames.now) }
{
    outside(waiting) + expression_depth_at(position, frames) as u128
}

// Returns the nesting depth outside an expression.
fn outside(waiting: &Waiting) -> u128
    ensures level { result ≡ outside (waiting_of waiting.now) }
    ensures count_limit { result < 2 ^ 67 }
{
    match waiting {
        Waiting::Size(_) => 1,
        Waiting::Start(_) => 1,
        Waiting::Value(_) => 0,
        Waiting::Quantum(_) => 1,
        Waiting::Setting(_, _, _, _) => 2,
        Waiting::Index(_, _, aim) => target_aim_level(aim) + 1,
        Waiting::Side(aim, _) => awaited_side_level(aim),
        Waiting::First(body, _, _) => body_level(body) + 1,
        Waiting::Last(body, _, _, _) => body_level(body) + 1,
    }
}

// Returns the nesting depth of the right-hand side that belongs to a reference.
fn awaited_side_level(aim: &Aim) -> u128
    ensures level { result ≡ side_level (aim_of aim.now) }
    ensures count_limit { result < 2 ^ 66 }
{
    match aim {
        Aim::Derivative(_, loops) => loop_level(loops),
        _ => target_aim_level(aim),
    }
}

// Returns the effect of a move in an expression. `d` is the nesting depth.
fn apply_expression_move(
    alloc: Global,
    waiting: Waiting,
    level: u128,
    next: Move,
    frames: Vec<Frame>,
    symbol: Symbol,
) -> Result<Effect, AllocError>
    ensures { IfOk result (λ e. effect_of e ≡ sum_move (waiting_of waiting) level
        (move_of next frames.items) (symbol_view symbol.entry)) }
{
    match next {
        Move::Moves(next) => Ok(Effect::Advances(State::Sum(waiting, next, frames))),
        Move::Opens(next) => Ok(Effect::Descends(level, State::Sum(waiting, next, frames))),
        Move::Ends(value) => follow_complete_expression(alloc, waiting, value, symbol),
        Move::Wrong => {
            drop(waiting);
            Ok(Effect::Refuses)
        }
    }
}

// Parses the token after a complete expression.
fn follow_complete_expression(
    alloc: Global,
    waiting: Waiting,
    value: Expr,
    symbol: Symbol,
) -> Result<Effect, AllocError>
    ensures { IfOk result
        (λ e. effect_of e
        ≡ receive (waiting_of waiting) (expression value) (symbol_view symbol.entry)) }
{
    match waiting {
        Waiting::Size(component) => Ok(close_awaited_size(
            put_awaited_size(component, value),
            symbol,
        )),
        Waiting::Start(component) => {
            let component = put_awaited_start(component, value);
            Ok(follow_item(Place::Modifications(component), symbol))
        }
        Waiting::Value(component) => follow_declaration_value(
            put_awaited_value(component, value),
            symbol,
        ),
        Waiting::Quantum(component) => {
            let component = put_awaited_quantum(component, value);
            Ok(follow_item(Place::OwnArguments(component), symbol))
        }
        Waiting::Setting(owner, settings, which, place) => {
            let settings = put_awaited_setting(settings, which, value, place)?;
            Ok(follow_item(Place::Settings(owner, settings), symbol))
        }
        Waiting::Index(name, place, aim) => {
            let (target, aim) = parse_with_kept(element(alloc, name, value, place), aim)?;
            Ok(close_target_index(target, aim, symbol))
        }
        Waiting::Side(aim, target) => close_target_value(aim, target, value, symbol),
        Waiting::First(body, name, place) => Ok(close_body_loop_first(
            alloc, body, name, place, value, symbol,
        )),
        Waiting::Last(body, name, place, from) => {
            let range = Range {
                var: name,
                at: place,
                from,
                to: value,
            };
            close_body_loop_last(alloc, body, range, symbol)
        }
    }
}

// Parses the token after a size.
fn close_awaited_size(component: Component, symbol: Symbol) -> Effect
    ensures { effect_of result ≡ close_size (component_of component) (symbol_view symbol.entry) }
{
    match symbol {
        Symbol::Mark(Mark::CloseSquare, _) => Effect::Advances(State::BehindSize(component)),
        _ => Effect::Refuses,
    }
}

// Sets the component's size.
fn put_awaited_size(component: Component, value: Expr) -> Component
    ensures { component_of result ≡ with_size (component_of component) (expression value) }
{
    let mut component = component;
    component.declared.size = Some(value);
    component
}

// Sets the component's start value.
fn put_awaited_start(component: Component, value: Expr) -> Component
    ensures { component_of result ≡ with_start (component_of component) (expression value) }
{
    let mut component = component;
    component.declared.start = Some(value);
    component
}

// Sets the component's value.
fn put_awaited_value(component: Component, value: Expr) -> Component
    ensures { component_of result ≡ with_value (component_of component) (expression value) }
{
    let mut component = component;
    component.declared.value = Some(value);
    component
}

// Sets the component's quantum.
fn put_awaited_quantum(component: Component, value: Expr) -> Component
    ensures { component_of result ≡ with_quantum (component_of component) (expression value) }
{
    let mut component = component;
    component.declared.quantum = Some(value);
    component
}

// Appends a setting.
fn put_awaited_setting(
    settings: Vec<SettingItem>,
    which: SettingName,
    value: Expr,
    at: u32,
) -> Result<Vec<SettingItem>, AllocError>
    ensures { IfOk result
        (λ all. settings_of all.items
        ≡ with_setting (settings_of settings.items) which (expression value) at) }
{
    let mut settings = settings;
    settings.push(SettingItem { which, value, at })?;
    Ok(settings)
}

// Creates a name with an index.
fn element(alloc: Global, name: Name, index: Expr, at: u32) -> Result<Ref, AllocError>
    ensures { IfOk result (λ r. reference r ≡ Element name (expression index) at) }
{
    let index = Box::new(alloc, index)?;
    Ok(Ref {
        name,
        index: Some(index),
        at,
    })
}
