//! Parses the tokens of a source as a model. The transition function of the parser is applied to
//! one token after the other. Nesting is limited to 64 levels.

ghost use Rattle.std.specs.Prelude.{◌≡◌, ◌<◌, ◌≤◌, ◌^◌, IfOk, List, ℕ, All, IfErr, Ok, Err, length};
ghost use Rattle.mu_parser.specs.Prelude.{model, ModelTree, new_draft, allow, go, step_on, end_name_token, last_token, meets, model_machine, model_turn, title_token, is_fixed, symbol_view, IsWithin, ParseErr, Gives, IsFault, SpellsModel, symbols};
ghost use Rattle.mu_parser.specs.ItemViews.{settings_of};
ghost use Rattle.mu_parser.specs.ModelViews.{next_of};
ghost use Rattle.mu_parser.specs.SectionViews.{draft_of, effect_of, state_of, then_of};

use crate::annotation_item::{
    begin_bare_item, begin_first_item, begin_item, follow_item, skip_item_token,
};
use crate::awaited_expression::expression_token;
use crate::declaration::{
    begin_declaration, begin_declaration_value, declaration_component_token,
    declaration_import_token, declaration_type_token, follow_declaration_component,
    follow_declaration_modifications, follow_declaration_size, follow_declaration_string,
    follow_declaration_title, follow_name,
};
use crate::section::body::{body_token, body_variable_token};
use crate::section::clause::clause_condition_token;
use crate::section::state::{Draft, Effect};
pub use crate::section::state::{State, Then};
use crate::section::target::{follow_target, follow_target_name, target_token};
pub use mu_grammar::ParseErr;
use mu_grammar::{Fixed, Symbol};
use mu_io::Name;
use mu_lexer::{Mark, Token};
use mu_tree::{Model, Prefix, SettingItem};
use std::alloc::{AllocError, Global};

// The greatest allowed nesting depth.
const LIMIT: u128 = 64;

/// The configuration of the parser after a token.
#[derive(Drop)]
pub enum Next {
    Going(State),
    Done(Model),
    Wrong,
    TooDeep,
}

/// Parses the tokens of this source as a model. Brackets of all three kinds, `for` and `when` nest
/// at most 64 levels deep. The offsets in the model are byte offsets of the source.
///
/// Errors: `Syntax` has the first token after which the input is not a prefix of any model, or the
/// number of tokens if the input ends too early. `Deep` has the first token after which the input
/// is only a prefix of more deeply nested models. `Memory` is an allocation failure.
pub fn parse(alloc: Global, source: &[u8], tokens: &[Token]) -> Result<Model, ParseErr>
    requires count_limit { length tokens.now < 2 ^ 32 }
    requires spans { All (IsWithin source.now) tokens.now }
    ensures spelled { IfOk result (λ m. SpellsModel 64 (symbols source.now tokens.now) (model m)) }
    ensures only { (m : ModelTree) → SpellsModel 64 (symbols source.now tokens.now) m
        → Gives model m result }
    ensures fault { IfErr result (IsFault SpellsModel 64 (symbols source.now tokens.now)) }
{
    let mut state = State::Expects(Fixed::ModelWord, Then::ModelName);
    for (i, token) in tokens.iter().enumerate() {
        let text = &source[token.start as usize..token.end as usize];
        let symbol = Symbol::new(token.kind, text, token.start);
        match advance_parse(alloc, state, symbol)? {
            Next::Going(next) => state = next,
            Next::Done(whole) => return finish_parse(whole, i + 1, tokens.len()),
            Next::Wrong => return Err(ParseErr::Syntax { token: i as u32 }),
            Next::TooDeep => return Err(ParseErr::Deep { token: i as u32 }),
        }
    }
    Err(ParseErr::Syntax {
        token: tokens.len() as u32,
    })
}

/// Pairs the result of a computation with a value that the caller needs later. On an error the
/// value is dropped.
///
/// A value that is live at a `?` is dropped there field by field, and the proof follows each field.
/// Here the drop is one call.
pub fn parse_with_kept<T, E, K: Drop>(made: Result<T, E>, kept: K) -> Result<(T, K), E>
    ensures made { IfOk result (λ both. made ≡ Ok both.0) }
    ensures kept { IfOk result (λ both. both.1 ≡ kept) }
{
    match made {
        Ok(value) => Ok((value, kept)),
        Err(error) => Err(error),
    }
}

/// The transition for one token, with at most 64 nesting levels. `Err` is an allocation failure.
pub fn advance_parse(alloc: Global, state: State, symbol: Symbol) -> Result<Next, AllocError>
    ensures { IfOk result
        (λ n. next_of n
        ≡ step_on model_machine 64 (go (state_of state)) (symbol_view symbol.entry)) }
{
    let effect = turn(alloc, state, symbol)?;
    Ok(limit_parse_depth(effect))
}

// The transition for one token.
fn turn(alloc: Global, state: State, symbol: Symbol) -> Result<Effect, AllocError>
    ensures { IfOk result
        (λ e. effect_of e ≡ model_turn (state_of state) (symbol_view symbol.entry)) }
{
    match state {
        State::Expects(expected, then) => Ok(parse_fixed_token(alloc, expected, then, symbol)),
        State::Sum(waiting, position, frames) => {
            expression_token(alloc, waiting, position, frames, symbol)
        }
        State::Condition(clause, stage) => clause_condition_token(alloc, clause, stage, symbol),
        State::ModelName => parse_title_token(alloc, symbol),
        State::BehindTitle(draft) => Ok(follow_declaration_title(alloc, draft, symbol)),
        State::Heads(draft) => Ok(begin_declaration(alloc, draft, symbol)),
        State::Importing(draft) => Ok(declaration_import_token(draft, symbol)),
        State::Type(draft, prefix) => Ok(declaration_type_token(draft, prefix, symbol)),
        State::Component(draft, prefix, whole) => {
            declaration_component_token(alloc, draft, prefix, whole, symbol)
        }
        State::BehindName(component) => follow_name(alloc, component, symbol),
        State::BehindSize(component) => follow_declaration_size(alloc, component, symbol),
        State::BehindModifications(component) => follow_declaration_modifications(
            alloc, component, symbol,
        ),
        State::BehindString(component) => follow_declaration_string(component, symbol),
        State::BehindAnnotation(component) => follow_declaration_component(component, symbol),
        State::FirstItem(place) => begin_first_item(alloc, place, symbol),
        State::Item(place) => begin_item(alloc, place, symbol),
        State::Each(component) => begin_bare_item(alloc, component, symbol),
        State::BehindItem(place) => Ok(follow_item(place, symbol)),
        State::Skipping(place, brackets) => skip_item_token(place, brackets, symbol),
        State::Body(body) => body_token(alloc, body, symbol),
        State::Variable(body) => body_variable_token(alloc, body, symbol),
        State::Target(aim) => target_token(alloc, aim, symbol),
        State::BehindTargetName(name, place, aim) => {
            Ok(follow_target_name(alloc, name, place, aim, symbol))
        }
        State::BehindTarget(target, aim) => Ok(follow_target(alloc, target, aim, symbol)),
        State::EndName(draft, settings) => parse_end_name(alloc, draft, settings, symbol),
        State::Last(whole) => Ok(parse_last_token(whole, symbol)),
    }
}

// Parses a required word or mark.
fn parse_fixed_token(alloc: Global, expected: Fixed, then: Then, symbol: Symbol) -> Effect
    ensures { effect_of result
        ≡ meets (is_fixed expected (symbol_view symbol.entry)) (then_of then) }
{
    let comes = expected.is(symbol);
    if comes {
        return Effect::Advances(resume_parse(alloc, then));
    }
    drop(then);
    Effect::Refuses
}

// Returns the state after a required word or mark.
fn resume_parse(alloc: Global, then: Then) -> State
    ensures { state_of result ≡ then_of then }
{
    match then {
        Then::ModelName => State::ModelName,
        Then::Component(draft) => State::Component(draft, Prefix::Discrete, false),
        Then::Items(place) => State::FirstItem(place),
        Then::Sum(waiting) => begin_declaration_value(alloc, waiting),
        Then::End(draft, settings) => {
            State::Expects(Fixed::EndWord, Then::EndName(draft, settings))
        }
        Then::EndName(draft, settings) => State::EndName(draft, settings),
        Then::Semicolon(body) => State::Expects(Fixed::Semicolon, Then::Body(body)),
        Then::Body(body) => State::Body(body),
        Then::Target(aim) => State::Target(aim),
    }
}

// Parses the name of the model.
fn parse_title_token(alloc: Global, symbol: Symbol) -> Result<Effect, AllocError>
    ensures { IfOk result (λ e. effect_of e ≡ title_token (symbol_view symbol.entry)) }
{
    match symbol {
        Symbol::Name(text, _) => {
            let name = Name::new(alloc, text)?;
            let draft = Box::new(alloc, new_parse_draft(alloc, name))?;
            Ok(Effect::Advances(State::BehindTitle(draft)))
        }
        _ => Ok(Effect::Refuses),
    }
}

// Creates a model with only its name.
fn new_parse_draft(alloc: Global, name: Name) -> Draft
    ensures { draft_of result ≡ new_draft name }
{
    Draft {
        name,
        decls: Vec::new(alloc),
        starts: Vec::new(alloc),
        equations: Vec::new(alloc),
        clauses: Vec::new(alloc),
    }
}

// Parses the name after the last `end`.
fn parse_end_name(
    alloc: Global,
    draft: Box<Draft>,
    settings: Vec<SettingItem>,
    symbol: Symbol,
) -> Result<Effect, AllocError>
    ensures { IfOk result
        (λ e. effect_of e
        ≡ end_name_token (draft_of draft.value) (settings_of settings.items)
        (symbol_view symbol.entry)) }
{
    match symbol {
        Symbol::Name(text, at) => {
            let end_name = Name::new(alloc, text)?;
            let draft = Box::into_inner(draft);
            Ok(Effect::Advances(State::Last(Model {
                name: draft.name,
                end_name,
                end_at: at,
                decls: draft.decls,
                starts: draft.starts,
                equations: draft.equations,
                clauses: draft.clauses,
                settings,
            })))
        }
        _ => Ok(Effect::Refuses),
    }
}

// Parses the last semicolon of the model.
fn parse_last_token(whole: Model, symbol: Symbol) -> Effect
    ensures { effect_of result ≡ last_token (model whole) (symbol_view symbol.entry) }
{
    match symbol {
        Symbol::Mark(Mark::Semicolon, _) => Effect::Finishes(whole),
        _ => Effect::Refuses,
    }
}

// Returns the configuration after an effect. It applies the limit on the nesting depth.
fn limit_parse_depth(effect: Effect) -> Next
    ensures { next_of result ≡ allow 64 (effect_of effect) }
{
    match effect {
        Effect::Advances(next) => Next::Going(next),
        Effect::Descends(level, next) => {
            if level < LIMIT {
                Next::Going(next)
            } else {
                Next::TooDeep
            }
        }
        Effect::Finishes(whole) => Next::Done(whole),
        Effect::Refuses => Next::Wrong,
    }
}

// Returns the model, if no tokens are left.
fn finish_parse(whole: Model, read: usize, all: usize) -> Result<Model, ParseErr>
    requires { all < 2 ^ 32 }
    ensures more { read < all → result ≡ Err (ParseErr.Syntax read) }
    ensures end { all ≤ read → result ≡ Ok whole }
{
    if read < all {
        return Err(ParseErr::Syntax { token: read as u32 });
    }
    Ok(whole)
}
