//! Transitions after a section of a model.

ghost use Rattle.std.specs.Prelude.{◌≡◌, List, ℕ};
ghost use Rattle.mu_parser.specs.Prelude.{between, symbol_view};
ghost use Rattle.mu_parser.specs.SectionViews.{draft_of, effect_of};

use crate::section::state::{Body, Draft, Effect, Place, State, Then};
use mu_grammar::{Fixed, Symbol};
use mu_lexer::Word;
use std::alloc::Global;

/// Parses a token after the head of a model, after a section header or after the last item of a
/// section.
pub fn follow_section(alloc: Global, draft: Box<Draft>, symbol: Symbol) -> Effect
    ensures { effect_of result ≡ between (draft_of draft.value) (symbol_view symbol.entry) }
{
    match symbol {
        Symbol::Word(Word::Equation, _) => Effect::Advances(State::Body(Body::Equations(
            draft,
            Vec::new(alloc),
        ))),
        Symbol::Word(Word::Algorithm, _) => {
            Effect::Advances(State::Body(Body::Clauses(draft, Vec::new(alloc))))
        }
        Symbol::Word(Word::Initial, _) => {
            let body = Body::Starts(draft, Vec::new(alloc));
            Effect::Advances(State::Expects(Fixed::AlgorithmWord, Then::Body(body)))
        }
        Symbol::Word(Word::Annotation, _) => {
            let place = Place::Arguments(draft, false, Vec::new(alloc));
            Effect::Descends(0, State::Expects(Fixed::OpenBracket, Then::Items(place)))
        }
        Symbol::Word(Word::End, _) => Effect::Advances(State::EndName(draft, Vec::new(alloc))),
        _ => Effect::Refuses,
    }
}
