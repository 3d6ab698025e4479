//! Transitions in statements and initial equations, and in loops over them.

ghost use Rattle.std.specs.Prelude.{◌≡◌, ◌≤◌, ◌<◌, ◌^◌, List, ℕ, IfOk};
ghost use Rattle.mu_parser.specs.Prelude.{statement, begin_start, begin_statement, put_start, put_statement, branch_level, level, symbol_view};
ghost use Rattle.mu_parser.specs.SectionViews.{body_of, branch_of, draft_of, effect_of, loops_of};

use crate::section::body::leave_body;
use crate::section::loops::{Loop, loop_level, put_item};
use crate::section::state::{Aim, Body, Draft, Effect, OpenBranch, State, Then};
use mu_grammar::{Fixed, Symbol};
use mu_io::Name;
use mu_lexer::Word;
use mu_tree::Statement;
use std::alloc::{AllocError, Global};

/// Parses the first token of a statement, or the token after the last one. `Err` is an allocation
/// failure.
pub fn begin_statement(
    alloc: Global,
    branch: OpenBranch,
    loops: Vec<Loop<Statement>>,
    symbol: Symbol,
) -> Result<Effect, AllocError>
    ensures { IfOk result
        (λ e. effect_of e
        ≡ begin_statement (branch_of branch) (loops_of statement loops.items)
        (symbol_view symbol.entry)) }
{
    match symbol {
        Symbol::Name(text, at) => {
            let name = Name::new(alloc, text)?;
            Ok(Effect::Advances(State::BehindTargetName(name, at, Aim::Assigned(branch, loops))))
        }
        Symbol::Word(Word::Reinit, _) => {
            let level = statement_level(&branch, &loops);
            let next = Then::Target(Aim::Restarted(branch, loops));
            Ok(Effect::Descends(level, State::Expects(Fixed::OpenBracket, next)))
        }
        _ => leave_body(alloc, Body::Branch(branch, loops), symbol),
    }
}

/// Parses the first token of an initial equation, or the token after the last one. `Err` is an
/// allocation failure.
pub fn begin_start_statement(
    alloc: Global,
    draft: Box<Draft>,
    loops: Vec<Loop<Statement>>,
    symbol: Symbol,
) -> Result<Effect, AllocError>
    ensures { IfOk result
        (λ e. effect_of e
        ≡ begin_start (draft_of draft.value) (loops_of statement loops.items)
        (symbol_view symbol.entry)) }
{
    match symbol {
        Symbol::Name(text, at) => {
            let name = Name::new(alloc, text)?;
            Ok(Effect::Advances(State::BehindTargetName(name, at, Aim::Initial(draft, loops))))
        }
        _ => leave_body(alloc, Body::Starts(draft, loops), symbol),
    }
}

/// Returns the nesting depth in these loops of a branch.
pub fn statement_level(branch: &OpenBranch, loops: &Vec<Loop<Statement>>) -> u128
    ensures value { result
        ≡ level (branch_level (branch_of branch.now)) (loops_of statement loops.now.items) }
    ensures count_limit { result < 2 ^ 65 }
{
    branch_statement_level(branch) + loops.len() as u128
}

// Returns the nesting depth in a branch.
fn branch_statement_level(branch: &OpenBranch) -> u128
    ensures value { result ≡ branch_level (branch_of branch.now) }
    ensures count_limit { result ≤ 2 ^ 64 }
{
    loop_level(&branch.clause.loops) + 1
}

/// Adds a statement to the innermost loop, or to the branch if no loop is open. `Err` is an
/// allocation failure.
pub fn put_statement(
    mut branch: OpenBranch,
    mut loops: Vec<Loop<Statement>>,
    item: Statement,
) -> Result<Body, AllocError>
    ensures { IfOk result
        (λ b. body_of b
        ≡ put_statement (branch_of branch) (loops_of statement loops.items) (statement item)) }
{
    put_item(&mut branch.branch.body, &mut loops, item)?;
    Ok(Body::Branch(branch, loops))
}

/// Adds an initial equation to the innermost loop, or to the model if no loop is open. `Err` is an
/// allocation failure.
pub fn put_start_statement(
    mut draft: Box<Draft>,
    mut loops: Vec<Loop<Statement>>,
    item: Statement,
) -> Result<Body, AllocError>
    ensures { IfOk result
        (λ b. body_of b
        ≡ put_start (draft_of draft.value) (loops_of statement loops.items) (statement item)) }
{
    put_item(&mut draft.starts, &mut loops, item)?;
    Ok(Body::Starts(draft, loops))
}
