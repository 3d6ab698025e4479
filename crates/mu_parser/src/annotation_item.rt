//! Transitions of the parser in bracketed lists of items: modifications and arguments of
//! annotations.

ghost use Rattle.std.specs.Prelude.{◌≡◌, ◌≤◌, IfOk, List, ℕ, bytes_eq, reverse};
ghost use Rattle.mu_parser.specs.Prelude.{setting_of, is_close, begin_argument, begin_bare_mod, begin_first_item, begin_item, begin_mod, begin_own, begin_setting, begin_skipped, closed, follow_item, open_experiment, skip_first, skip_shape, shape_of, level, place_level, settings, symbol_view};
ghost use Rattle.mu_parser.specs.ItemViews.{settings_of};
ghost use Rattle.mu_parser.specs.SectionViews.{component_of, draft_of, effect_of, owner_of, place_of, settled_of, state_of};
ghost use Rattle.mu_grammar.specs.declared.symbol.Shape.TheVariants as shapes;

use crate::parser::parse_with_kept;
use crate::section::state::{Component, Draft, Effect, Owner, Place, State, Then, Waiting};
use mu_grammar::{Bracket, Fixed, Symbol, is_named_symbol};
use mu_lexer::{Mark, Word};
use mu_tree::{SettingItem, SettingName};
use std::alloc::{AllocError, Global};

/// Parses the first token of the first item, or the bracket that closes an empty list.
pub fn begin_first_item(alloc: Global, place: Place, symbol: Symbol) -> Result<Effect, AllocError>
    ensures { IfOk result
        (λ e. effect_of e ≡ begin_first_item (place_of place) (symbol_view symbol.entry)) }
{
    let closes = closes_item_list(symbol);
    if closes {
        return Ok(Effect::Advances(close_item_list(place)));
    }
    begin_item(alloc, place, symbol)
}

/// Parses the token after an item.
pub fn follow_item(place: Place, symbol: Symbol) -> Effect
    ensures { effect_of result ≡ follow_item (place_of place) (symbol_view symbol.entry) }
{
    match symbol {
        Symbol::Mark(Mark::Comma, _) => Effect::Advances(State::Item(place)),
        Symbol::Mark(Mark::CloseRound, _) => Effect::Advances(close_item_list(place)),
        _ => {
            drop(place);
            Effect::Refuses
        }
    }
}

/// Parses a token of a skipped item. `brackets` are the item's open brackets.
pub fn skip_item_token(
    place: Place,
    brackets: Vec<Bracket>,
    symbol: Symbol,
) -> Result<Effect, AllocError>
    ensures { IfOk result
        (λ e. effect_of e
        ≡ skip_shape (place_of place) (reverse brackets.items)
        (shape_of (symbol_view symbol.entry))) }
{
    match symbol {
        Symbol::Mark(Mark::OpenRound, _) => open_item_bracket(place, brackets, Bracket::Round),
        Symbol::Mark(Mark::OpenSquare, _) => open_item_bracket(place, brackets, Bracket::Square),
        Symbol::Mark(Mark::OpenCurly, _) => open_item_bracket(place, brackets, Bracket::Curly),
        Symbol::Mark(Mark::CloseRound, _) => Ok(close_item_bracket(
            place,
            brackets,
            Bracket::Round,
        )),
        Symbol::Mark(Mark::CloseSquare, _) => Ok(close_item_bracket(
            place,
            brackets,
            Bracket::Square,
        )),
        Symbol::Mark(Mark::CloseCurly, _) => Ok(close_item_bracket(
            place,
            brackets,
            Bracket::Curly,
        )),
        Symbol::Mark(Mark::Comma, _) => Ok(skip_item_comma(place, brackets)),
        _ => Ok(Effect::Advances(State::Skipping(place, brackets))),
    }
}

// Returns whether the token closes a list of items.
fn closes_item_list(symbol: Symbol) -> bool
    ensures { result ≡ is_close (symbol_view symbol.entry) }
{
    match symbol {
        Symbol::Mark(Mark::CloseRound, _) => true,
        _ => false,
    }
}

// Returns the state after the bracket that closes a list of items.
fn close_item_list(place: Place) -> State
    ensures { state_of result ≡ closed (place_of place) }
{
    match place {
        Place::Modifications(component) => State::BehindModifications(component),
        Place::OwnArguments(component) => State::BehindAnnotation(component),
        Place::Arguments(draft, _seen, settings) => {
            State::Expects(Fixed::Semicolon, Then::End(draft, settings))
        }
        Place::Settings(owner, settings) => close_experiment_item(owner, settings),
    }
}

// Returns the state after the bracket that closes an experiment.
fn close_experiment_item(owner: Owner, chosen: Vec<SettingItem>) -> State
    ensures { state_of result ≡ closed (settings (owner_of owner) (settings_of chosen.items)) }
{
    match owner {
        Owner::OfComponent(component) => State::BehindItem(Place::OwnArguments(component)),
        Owner::OfModel(draft) => State::BehindItem(Place::Arguments(draft, true, chosen)),
    }
}

/// Parses the first token of an item.
pub fn begin_item(alloc: Global, place: Place, symbol: Symbol) -> Result<Effect, AllocError>
    ensures { IfOk result
        (λ e. effect_of e ≡ begin_item (place_of place) (symbol_view symbol.entry)) }
{
    match place {
        Place::Modifications(component) => begin_component_item(alloc, component, symbol),
        Place::OwnArguments(component) => begin_own_item(alloc, component, symbol),
        Place::Arguments(draft, seen, settings) => {
            begin_argument_item(alloc, draft, seen, settings, symbol)
        }
        Place::Settings(owner, settings) => { begin_setting_item(alloc, owner, settings, symbol) }
    }
}

// Parses the first token of a modification.
fn begin_component_item(
    alloc: Global,
    component: Component,
    symbol: Symbol,
) -> Result<Effect, AllocError>
    ensures { IfOk result
        (λ e. effect_of e ≡ begin_mod (component_of component) (symbol_view symbol.entry)) }
{
    match symbol {
        Symbol::Word(Word::Each, _) => Ok(Effect::Advances(State::Each(component))),
        _ => begin_bare_item(alloc, component, symbol),
    }
}

/// Parses the first token of a modification, after the optional word `each`.
pub fn begin_bare_item(
    alloc: Global,
    component: Component,
    symbol: Symbol,
) -> Result<Effect, AllocError>
    ensures { IfOk result
        (λ e. effect_of e ≡ begin_bare_mod (component_of component) (symbol_view symbol.entry)) }
{
    if is_named_symbol(b"start", symbol) {
        return Ok(Effect::Advances(State::Expects(
            Fixed::EqualSign,
            Then::Sum(Waiting::Start(component)),
        )));
    }
    begin_skipped_item(alloc, Place::Modifications(component), symbol)
}

// Parses the first token of a skipped item.
fn begin_skipped_item(alloc: Global, place: Place, symbol: Symbol) -> Result<Effect, AllocError>
    ensures { IfOk result
        (λ e. effect_of e ≡ begin_skipped (place_of place) (symbol_view symbol.entry)) }
{
    match symbol {
        Symbol::Mark(Mark::OpenRound, _) => open_first_item(alloc, place, Bracket::Round),
        Symbol::Mark(Mark::OpenSquare, _) => open_first_item(alloc, place, Bracket::Square),
        Symbol::Mark(Mark::OpenCurly, _) => open_first_item(alloc, place, Bracket::Curly),
        Symbol::Mark(Mark::CloseRound, _) => {
            drop(place);
            Ok(Effect::Refuses)
        }
        Symbol::Mark(Mark::CloseSquare, _) => {
            drop(place);
            Ok(Effect::Refuses)
        }
        Symbol::Mark(Mark::CloseCurly, _) => {
            drop(place);
            Ok(Effect::Refuses)
        }
        Symbol::Mark(Mark::Comma, _) => {
            drop(place);
            Ok(Effect::Refuses)
        }
        _ => Ok(Effect::Advances(State::Skipping(place, Vec::new(alloc)))),
    }
}

// Begins a skipped item with an opening bracket.
fn open_first_item(alloc: Global, place: Place, bracket: Bracket) -> Result<Effect, AllocError>
    ensures { IfOk result
        (λ e. effect_of e ≡ skip_first (place_of place) (shapes.Opening bracket)) }
{
    let level = item_level(&place);
    let mut brackets = Vec::new(alloc);
    let (_, place) = parse_with_kept(brackets.push(bracket), place)?;
    Ok(Effect::Descends(level, State::Skipping(place, brackets)))
}

// Returns the nesting depth in a list of items.
fn item_level(place: &Place) -> u128
    ensures level { result ≡ place_level (place_of place.now) }
    ensures count_limit { result ≤ 2 }
{
    match place {
        Place::Settings(_, _) => 2,
        _ => 1,
    }
}

// Parses the first token of an argument of a component's annotation.
fn begin_own_item(alloc: Global, component: Component, symbol: Symbol) -> Result<Effect, AllocError>
    ensures { IfOk result
        (λ e. effect_of e ≡ begin_own (component_of component) (symbol_view symbol.entry)) }
{
    if is_named_symbol(b"experiment", symbol) {
        return Ok(open_experiment_item(alloc, Owner::OfComponent(component)));
    }
    if is_named_symbol(b"QSS_Quantum", symbol) {
        return Ok(Effect::Advances(State::Expects(
            Fixed::EqualSign,
            Then::Sum(Waiting::Quantum(component)),
        )));
    }
    begin_skipped_item(alloc, Place::OwnArguments(component), symbol)
}

// Returns the effect of the name `experiment`.
fn open_experiment_item(alloc: Global, owner: Owner) -> Effect
    ensures { effect_of result ≡ open_experiment (owner_of owner) }
{
    Effect::Descends(
        1,
        State::Expects(
            Fixed::OpenBracket,
            Then::Items(Place::Settings(owner, Vec::new(alloc))),
        ),
    )
}

// Parses the first token of an argument of the model's annotation.
fn begin_argument_item(
    alloc: Global,
    draft: Box<Draft>,
    seen: bool,
    settings: Vec<SettingItem>,
    symbol: Symbol,
) -> Result<Effect, AllocError>
    ensures { IfOk result
        (λ e. effect_of e
        ≡ begin_argument (draft_of draft.value) (settled_of seen settings.items)
        (symbol_view symbol.entry)) }
{
    if is_named_symbol(b"experiment", symbol) && !seen {
        return Ok(open_experiment_item(alloc, Owner::OfModel(draft)));
    }
    begin_skipped_item(alloc, Place::Arguments(draft, seen, settings), symbol)
}

// Parses the first token of an item of an experiment.
fn begin_setting_item(
    alloc: Global,
    owner: Owner,
    settings: Vec<SettingItem>,
    symbol: Symbol,
) -> Result<Effect, AllocError>
    ensures { IfOk result
        (λ e. effect_of e
        ≡ begin_setting (owner_of owner) (settings_of settings.items)
        (symbol_view symbol.entry)) }
{
    match symbol {
        Symbol::Name(text, at) => match item_setting(text) {
            Some(which) => Ok(Effect::Advances(State::Expects(
                Fixed::EqualSign,
                Then::Sum(Waiting::Setting(owner, settings, which, at)),
            ))),
            None => Ok(Effect::Advances(State::Skipping(
                Place::Settings(owner, settings),
                Vec::new(alloc),
            ))),
        },
        _ => begin_skipped_item(alloc, Place::Settings(owner, settings), symbol),
    }
}

// Returns the experiment setting of this name, if there is one.
fn item_setting(name: &[u8]) -> Option<SettingName>
    ensures { result ≡ setting_of name.now }
{
    if is_item_name(name, b"StartTime") {
        return Some(SettingName::StartTime);
    }
    if is_item_name(name, b"StopTime") {
        return Some(SettingName::StopTime);
    }
    if is_item_name(name, b"QSS_CoefBits") {
        return Some(SettingName::CoefBits);
    }
    if is_item_name(name, b"QSS_TickBits") {
        return Some(SettingName::TickBits);
    }
    if is_item_name(name, b"QSS_LevelBits") {
        return Some(SettingName::LevelBits);
    }
    if is_item_name(name, b"QSS_Quantum") {
        return Some(SettingName::Quantum);
    }
    None
}

// Returns whether both texts are equal.
fn is_item_name(name: &[u8], spelling: &[u8]) -> bool
    ensures { result ≡ bytes_eq name.now spelling.now }
{
    name == spelling
}

// Opens a bracket in a skipped item.
fn open_item_bracket(
    place: Place,
    brackets: Vec<Bracket>,
    bracket: Bracket,
) -> Result<Effect, AllocError>
    ensures { IfOk result
        (λ e. effect_of e
        ≡ skip_shape (place_of place) (reverse brackets.items) (shapes.Opening bracket)) }
{
    let level = skipped_item_level(&place, &brackets);
    let mut brackets = brackets;
    let (_, place) = parse_with_kept(brackets.push(bracket), place)?;
    Ok(Effect::Descends(level, State::Skipping(place, brackets)))
}

// Returns the nesting depth in a skipped item.
fn skipped_item_level(place: &Place, brackets: &Vec<Bracket>) -> u128
    ensures { result ≡ level (place_level (place_of place.now)) (reverse brackets.now.items) }
{
    item_level(place) + brackets.len() as u128
}

// Closes a bracket in a skipped item, or ends the item and its list.
fn close_item_bracket(place: Place, brackets: Vec<Bracket>, bracket: Bracket) -> Effect
    ensures { effect_of result
        ≡ skip_shape (place_of place) (reverse brackets.items) (shapes.Closing bracket) }
{
    let mut brackets = brackets;
    match brackets.pop() {
        None => match bracket {
            Bracket::Round => Effect::Advances(close_item_list(place)),
            _ => {
                drop(place);
                Effect::Refuses
            }
        },
        Some(last) => {
            if last.is_same(bracket) {
                Effect::Advances(State::Skipping(place, brackets))
            } else {
                drop(place);
                Effect::Refuses
            }
        }
    }
}

// Parses a comma in a skipped item.
fn skip_item_comma(place: Place, brackets: Vec<Bracket>) -> Effect
    ensures { effect_of result ≡ skip_shape (place_of place) (reverse brackets.items) shapes.Comma }
{
    if brackets.is_empty() {
        return Effect::Advances(State::Item(place));
    }
    Effect::Advances(State::Skipping(place, brackets))
}
