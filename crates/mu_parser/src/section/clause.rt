//! Transitions in clauses, their branches, and loops over clauses.

ghost use Rattle.std.specs.Prelude.{◌≡◌, [], List, ℕ, suc, IfOk};
ghost use Rattle.mu_parser.specs.Prelude.{Branches, clause, condition, begin_clause, branches_of, condition_turn, end_branch, new_branch, next_branch, put_clause, depth_of, turn, in_branch, level, symbol_view};
ghost use Rattle.mu_parser.specs.ConditionViews.{turn_of};
ghost use Rattle.mu_parser.specs.ExpressionViews.{stage_of};
ghost use Rattle.mu_parser.specs.SectionViews.{body_of, branch_of, draft_of, effect_of, loops_of, when_of};

use crate::expression::condition::{Stage, Turn, condition_depth, read_condition_token};
use crate::section::body::leave_body;
use crate::section::loops::{Loop, loop_level, put_item};
use crate::section::state::{Body, Draft, Effect, OpenBranch, OpenWhen, State, Then};
use mu_grammar::{Fixed, Symbol};
use mu_lexer::Word;
use mu_tree::{Branch, Clause, Cond};
use std::alloc::{AllocError, Global};

/// Parses the first token of a clause, or the token after the last clause. `Err` is an allocation
/// failure.
pub fn begin_clause(
    alloc: Global,
    draft: Box<Draft>,
    loops: Vec<Loop<Clause>>,
    symbol: Symbol,
) -> Result<Effect, AllocError>
    ensures { IfOk result
        (λ e. effect_of e
        ≡ begin_clause (draft_of draft.value) (loops_of clause loops.items)
        (symbol_view symbol.entry)) }
{
    match symbol {
        Symbol::Word(Word::When, _) => {
            let level = loop_level(&loops);
            let clause = OpenWhen {
                draft,
                loops,
                branches: Vec::new(alloc),
            };
            Ok(Effect::Descends(
                level,
                State::Condition(clause, Stage::Before(Vec::new(alloc))),
            ))
        }
        _ => leave_body(alloc, Body::Clauses(draft, loops), symbol),
    }
}

/// Parses the token after the last statement of a branch. `Err` is an allocation failure.
pub fn end_clause_branch(
    alloc: Global,
    branch: OpenBranch,
    symbol: Symbol,
) -> Result<Effect, AllocError>
    ensures { IfOk result
        (λ e. effect_of e ≡ end_branch (branch_of branch) (symbol_view symbol.entry)) }
{
    match symbol {
        Symbol::Word(Word::Elsewhen, _) => {
            let clause = next_clause_branch(branch)?;
            Ok(Effect::Advances(State::Condition(clause, Stage::Before(Vec::new(alloc)))))
        }
        Symbol::Word(Word::End, _) => {
            let body = close_clause_when(branch)?;
            Ok(Effect::Advances(State::Expects(Fixed::WhenWord, Then::Semicolon(body))))
        }
        _ => Ok(Effect::Refuses),
    }
}

/// Parses a token of the condition of a clause. `Err` is an allocation failure.
pub fn clause_condition_token(
    alloc: Global,
    clause: OpenWhen,
    stage: Stage,
    symbol: Symbol,
) -> Result<Effect, AllocError>
    ensures { IfOk result
        (λ e. let w = when_of clause in let s = stage_of stage in effect_of e
        ≡ condition_turn w (depth_of (suc (level 0 w.loops)) s)
        (turn s (symbol_view symbol.entry))) }
{
    let level = clause_condition_level(&clause, &stage);
    let turn = read_condition_token(alloc, stage, symbol)?;
    clause_condition_turn(alloc, clause, level, turn)
}

/// Adds a clause to the innermost loop, or to the model if no loop is open. `Err` is an allocation
/// failure.
pub fn put_clause(
    mut draft: Box<Draft>,
    mut loops: Vec<Loop<Clause>>,
    item: Clause,
) -> Result<Body, AllocError>
    ensures { IfOk result
        (λ b. body_of b
        ≡ put_clause (draft_of draft.value) (loops_of clause loops.items) (clause item)) }
{
    put_item(&mut draft.clauses, &mut loops, item)?;
    Ok(Body::Clauses(draft, loops))
}

// Appends the complete branch to its clause.
fn next_clause_branch(branch: OpenBranch) -> Result<OpenWhen, AllocError>
    ensures { IfOk result (λ w. when_of w ≡ next_branch (branch_of branch)) }
{
    let OpenBranch { clause, branch } = branch;
    let mut clause = clause;
    clause.branches.push(Box::into_inner(branch))?;
    Ok(clause)
}

// Completes the clause with its last branch.
fn close_clause_when(branch: OpenBranch) -> Result<Body, AllocError>
    ensures { IfOk result
        (λ b. let o = branch_of branch in body_of b
        ≡ put_clause o.clause.draft o.clause.loops (Branches (branches_of o))) }
{
    let whole = next_clause_branch(branch)?;
    let OpenWhen {
        draft,
        loops,
        branches,
    } = whole;
    put_clause(draft, loops, Clause::When { branches })
}

// Returns the nesting depth in the condition of a clause.
fn clause_condition_level(clause: &OpenWhen, stage: &Stage) -> u128
    ensures { let w = when_of clause.now in
        result ≡ depth_of (suc (level 0 w.loops)) (stage_of stage.now) }
{
    condition_depth(clause.loops.len() + 1, stage)
}

// Returns the effect of a condition's transition. `d` is the nesting depth.
fn clause_condition_turn(
    alloc: Global,
    clause: OpenWhen,
    level: u128,
    turn: Turn,
) -> Result<Effect, AllocError>
    ensures { IfOk result
        (λ e. effect_of e ≡ condition_turn (when_of clause) level (turn_of turn)) }
{
    match turn {
        Turn::Goes(stage) => Ok(Effect::Advances(State::Condition(clause, stage))),
        Turn::Nests(stage) => Ok(Effect::Descends(level, State::Condition(clause, stage))),
        Turn::Holds(cond) => {
            let body = new_clause_branch(alloc, clause, cond)?;
            Ok(Effect::Advances(State::Body(body)))
        }
        Turn::Fails => Ok(Effect::Refuses),
    }
}

// Begins a branch with this condition.
fn new_clause_branch(alloc: Global, clause: OpenWhen, cond: Cond) -> Result<Body, AllocError>
    ensures { IfOk result
        (λ b. body_of b ≡ in_branch (new_branch (when_of clause) (condition cond)) []) }
{
    let branch = Branch {
        cond,
        body: Vec::new(alloc),
    };
    let branch = Box::new(alloc, branch)?;
    Ok(Body::Branch(OpenBranch { clause, branch }, Vec::new(alloc)))
}
