//! Transitions of the parser in the head of a model, in import lines and in declarations.

ghost use Rattle.std.specs.Prelude.{◌≡◌, IfOk, List, ℕ};
ghost use Rattle.mu_parser.specs.Prelude.{is_open_square, component_token, follow_component, follow_modifications, follow_name, follow_size, follow_string, follow_title, follow_value, head, import_token, new_component, type_token, with_component, begin, symbol_view};
ghost use Rattle.mu_parser.specs.SectionViews.{component_of, draft_of, effect_of, state_of, waiting_of};

use crate::expression::machine::Position;
use crate::section::follow_section::follow_section;
use crate::section::state::{Component, Draft, Effect, Place, State, Then, Waiting};
use mu_grammar::{Fixed, Symbol};
use mu_io::Name;
use mu_lexer::{Mark, Word};
use mu_tree::{Decl, Prefix};
use std::alloc::{AllocError, Global};

/// Parses the token after a component's name.
pub fn follow_name(
    alloc: Global,
    component: Component,
    symbol: Symbol,
) -> Result<Effect, AllocError>
    ensures { IfOk result
        (λ e. effect_of e ≡ follow_name (component_of component) (symbol_view symbol.entry)) }
{
    let opens = opens_declaration_size(symbol);
    if opens {
        return Ok(Effect::Descends(0, begin_declaration_value(alloc, Waiting::Size(component))));
    }
    follow_declaration_size(alloc, component, symbol)
}

/// Parses the token after the model's name.
pub fn follow_declaration_title(alloc: Global, draft: Box<Draft>, symbol: Symbol) -> Effect
    ensures { effect_of result ≡ follow_title (draft_of draft.value) (symbol_view symbol.entry) }
{
    match symbol {
        Symbol::Quoted(_) => Effect::Advances(State::Heads(draft)),
        _ => begin_declaration(alloc, draft, symbol),
    }
}

/// Parses a token of an import line.
pub fn declaration_import_token(draft: Box<Draft>, symbol: Symbol) -> Effect
    ensures { effect_of result ≡ import_token (draft_of draft.value) (symbol_view symbol.entry) }
{
    match symbol {
        Symbol::Mark(Mark::Semicolon, _) => Effect::Advances(State::Heads(draft)),
        _ => Effect::Advances(State::Importing(draft)),
    }
}

/// Parses the token after `parameter` or `constant`.
pub fn declaration_type_token(draft: Box<Draft>, prefix: Prefix, symbol: Symbol) -> Effect
    ensures { effect_of result
        ≡ type_token (draft_of draft.value) prefix (symbol_view symbol.entry) }
{
    match symbol {
        Symbol::Word(Word::RealType, _) => Effect::Advances(State::Component(draft, prefix, false)),
        Symbol::Word(Word::IntegerType, _) => Effect::Advances(State::Component(
            draft, prefix, true,
        )),
        _ => Effect::Refuses,
    }
}

/// Parses the name of a component.
pub fn declaration_component_token(
    alloc: Global,
    draft: Box<Draft>,
    prefix: Prefix,
    whole: bool,
    symbol: Symbol,
) -> Result<Effect, AllocError>
    ensures { IfOk result
        (λ e. effect_of e
        ≡ component_token (draft_of draft.value) prefix whole (symbol_view symbol.entry)) }
{
    match symbol {
        Symbol::Name(text, at) => {
            let name = Name::new(alloc, text)?;
            let component = new_declaration_component(alloc, draft, prefix, whole, name, at)?;
            Ok(Effect::Advances(State::BehindName(component)))
        }
        _ => Ok(Effect::Refuses),
    }
}

// Returns whether the token opens a size.
fn opens_declaration_size(symbol: Symbol) -> bool
    ensures { result ≡ is_open_square (symbol_view symbol.entry) }
{
    match symbol {
        Symbol::Mark(Mark::OpenSquare, _) => true,
        _ => false,
    }
}

/// Returns the state at the start of an expression.
pub fn begin_declaration_value(alloc: Global, waiting: Waiting) -> State
    ensures { state_of result ≡ begin (waiting_of waiting) }
{
    State::Sum(waiting, Position::Sum, Vec::new(alloc))
}

/// Parses the token after a component's size.
pub fn follow_declaration_size(
    alloc: Global,
    component: Component,
    symbol: Symbol,
) -> Result<Effect, AllocError>
    ensures { IfOk result
        (λ e. effect_of e ≡ follow_size (component_of component) (symbol_view symbol.entry)) }
{
    match symbol {
        Symbol::Mark(Mark::OpenRound, _) => Ok(Effect::Descends(
            0,
            State::Item(Place::Modifications(component)),
        )),
        _ => follow_declaration_modifications(alloc, component, symbol),
    }
}

/// Parses the token after a component's modifications.
pub fn follow_declaration_modifications(
    alloc: Global,
    component: Component,
    symbol: Symbol,
) -> Result<Effect, AllocError>
    ensures { IfOk result
        (λ e. effect_of e
        ≡ follow_modifications (component_of component) (symbol_view symbol.entry)) }
{
    match symbol {
        Symbol::Mark(Mark::Equal, _) => {
            Ok(Effect::Advances(begin_declaration_value(alloc, Waiting::Value(component))))
        }
        _ => follow_declaration_value(component, symbol),
    }
}

/// Parses the token after a component's value.
pub fn follow_declaration_value(component: Component, symbol: Symbol) -> Result<Effect, AllocError>
    ensures { IfOk result
        (λ e. effect_of e ≡ follow_value (component_of component) (symbol_view symbol.entry)) }
{
    match symbol {
        Symbol::Quoted(_) => Ok(Effect::Advances(State::BehindString(component))),
        _ => follow_declaration_string(component, symbol),
    }
}

/// Parses the token after a component's string.
pub fn follow_declaration_string(component: Component, symbol: Symbol) -> Result<Effect, AllocError>
    ensures { IfOk result
        (λ e. effect_of e ≡ follow_string (component_of component) (symbol_view symbol.entry)) }
{
    match symbol {
        Symbol::Word(Word::Annotation, _) => Ok(Effect::Descends(
            0,
            State::Expects(
                Fixed::OpenBracket,
                Then::Items(Place::OwnArguments(component)),
            ),
        )),
        _ => follow_declaration_component(component, symbol),
    }
}

/// Parses the token after a component's annotation.
pub fn follow_declaration_component(
    component: Component,
    symbol: Symbol,
) -> Result<Effect, AllocError>
    ensures { IfOk result
        (λ e. effect_of e ≡ follow_component (component_of component) (symbol_view symbol.entry)) }
{
    let prefix = component.declared.prefix;
    let whole = component.declared.whole;
    match symbol {
        Symbol::Mark(Mark::Comma, _) => {
            let draft = put_declaration_component(component)?;
            Ok(Effect::Advances(State::Component(draft, prefix, whole)))
        }
        Symbol::Mark(Mark::Semicolon, _) => {
            let draft = put_declaration_component(component)?;
            Ok(Effect::Advances(State::Heads(draft)))
        }
        _ => Ok(Effect::Refuses),
    }
}

// Appends the component to the model.
fn put_declaration_component(component: Component) -> Result<Box<Draft>, AllocError>
    ensures { IfOk result (λ d. draft_of d.value ≡ with_component (component_of component)) }
{
    let mut draft = component.draft;
    draft.decls.push(Box::into_inner(component.declared))?;
    Ok(draft)
}

/// Parses the first token of an import line or a declaration, or a token that follows them.
pub fn begin_declaration(alloc: Global, draft: Box<Draft>, symbol: Symbol) -> Effect
    ensures { effect_of result ≡ head (draft_of draft.value) (symbol_view symbol.entry) }
{
    match symbol {
        Symbol::Word(Word::Import, _) => Effect::Advances(State::Importing(draft)),
        Symbol::Word(Word::Parameter, _) => Effect::Advances(State::Type(draft, Prefix::Parameter)),
        Symbol::Word(Word::Constant, _) => Effect::Advances(State::Type(draft, Prefix::Constant)),
        Symbol::Word(Word::Discrete, _) => {
            Effect::Advances(State::Expects(Fixed::RealWord, Then::Component(draft)))
        }
        Symbol::Word(Word::RealType, _) => {
            Effect::Advances(State::Component(draft, Prefix::Plain, false))
        }
        Symbol::Word(Word::Equation, _) => follow_section(alloc, draft, symbol),
        Symbol::Word(Word::Algorithm, _) => follow_section(alloc, draft, symbol),
        Symbol::Word(Word::Initial, _) => follow_section(alloc, draft, symbol),
        Symbol::Word(Word::Annotation, _) => follow_section(alloc, draft, symbol),
        Symbol::Word(Word::End, _) => follow_section(alloc, draft, symbol),
        _ => Effect::Refuses,
    }
}

// Creates a component with only its name.
fn new_declaration_component(
    alloc: Global,
    draft: Box<Draft>,
    prefix: Prefix,
    whole: bool,
    name: Name,
    at: u32,
) -> Result<Component, AllocError>
    ensures { IfOk result
        (λ c. component_of c ≡ new_component (draft_of draft.value) prefix whole name at) }
{
    let declared = Decl {
        prefix,
        whole,
        name,
        size: None,
        start: None,
        value: None,
        quantum: None,
        at,
    };
    let declared = Box::new(alloc, declared)?;
    Ok(Component { draft, declared })
}
