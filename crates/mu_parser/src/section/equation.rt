//! Transitions in equations and loops over equations.

ghost use Rattle.std.specs.Prelude.{◌≡◌, List, ℕ, IfOk};
ghost use Rattle.mu_parser.specs.Prelude.{equation, begin_equation, put_equation, symbol_view};
ghost use Rattle.mu_parser.specs.SectionViews.{body_of, draft_of, effect_of, loops_of};

use crate::section::body::leave_body;
use crate::section::loops::{Loop, loop_level, put_item};
use crate::section::state::{Aim, Body, Draft, Effect, State, Then};
use mu_grammar::{Fixed, Symbol};
use mu_io::Name;
use mu_lexer::Word;
use mu_tree::Equation;
use std::alloc::{AllocError, Global};

/// Parses the first token of an equation, or the token after the last equation. `Err` is an
/// allocation failure.
pub fn begin_equation(
    alloc: Global,
    draft: Box<Draft>,
    loops: Vec<Loop<Equation>>,
    symbol: Symbol,
) -> Result<Effect, AllocError>
    ensures { IfOk result
        (λ e. effect_of e
        ≡ begin_equation (draft_of draft.value) (loops_of equation loops.items)
        (symbol_view symbol.entry)) }
{
    match symbol {
        Symbol::Word(Word::Der, _) => {
            let level = loop_level(&loops);
            let next = Then::Target(Aim::Derivative(draft, loops));
            Ok(Effect::Descends(level, State::Expects(Fixed::OpenBracket, next)))
        }
        Symbol::Name(text, at) => {
            let name = Name::new(alloc, text)?;
            Ok(Effect::Advances(State::BehindTargetName(name, at, Aim::Plain(draft, loops))))
        }
        _ => leave_body(alloc, Body::Equations(draft, loops), symbol),
    }
}

/// Adds an equation to the innermost loop, or to the model if no loop is open. `Err` is an
/// allocation failure.
pub fn put_equation(
    mut draft: Box<Draft>,
    mut loops: Vec<Loop<Equation>>,
    item: Equation,
) -> Result<Body, AllocError>
    ensures { IfOk result
        (λ b. body_of b
        ≡ put_equation (draft_of draft.value) (loops_of equation loops.items) (equation item)) }
{
    put_item(&mut draft.equations, &mut loops, item)?;
    Ok(Body::Equations(draft, loops))
}
