//! The pushdown machine for expressions. Its frames are the brackets and indices that enclose the
//! sum.

ghost use Rattle.std.specs.Prelude.{◌≡◌, ◌<◌, ◌≤◌, ◌^◌, ◌-◌, ◌*◌, ℕ, Bool, List, IfOk, length, map, nat_lt};
ghost use Rattle.mu_parser.specs.Prelude.{expression, reference, signed, scaled, Whole, sum_of, product_of, exponent_of, after_sum, begin_bracket, begin_name, begin_sum, behind, deeper, depth, depth_at, first_part, follow_caret, follow_factor, follow_primary, follow_reference, follow_term, next_factor, operand, power, step, with_term, symbol_view};
ghost use Rattle.mu_grammar.specs.SumMachine.{follow_name};
ghost use Rattle.mu_parser.specs.ExpressionViews.{frame_of, frames_of, move_of, part_of, position_of, use_of};
ghost use Rattle.mu_parser.specs.declared.expression.machine.Frame.{Frame};

use crate::parser::parse_with_kept;
use mu_grammar::Symbol;
use mu_io::Name;
use mu_lexer::{Mark, Word};
use mu_tree::{Expr, Factor, Ref, Term};
use std::alloc::{AllocError, Global};

/// An incomplete sum: its complete terms, and the factors of its last term. `minus` and `at` are
/// the sign of the last term and its offset, `divide` and `place` those of its last factor. Offsets
/// are byte offsets in the source.
#[derive(Drop)]
pub struct Part {
    pub terms: Vec<Term>,
    pub minus: bool,
    pub at: u32,
    pub factors: Vec<Factor>,
    pub divide: bool,
    pub place: u32,
}

/// The role of a reference: an operand of this sum, or the argument of `pre` in it.
#[derive(Drop)]
pub enum Use {
    Variable(Part),
    Previous(Part),
}

impl Use {
    // Returns the nesting depth inside this use of a reference, where `d` is the depth outside.
    fn expression_depth_behind(&self, d: usize) -> usize
        requires { d < 2 ^ 64 - 1 }
        ensures { result ≡ behind (use_of self.now) d }
    {
        match self {
            Use::Variable(_) => d,
            Use::Previous(_) => d + 1,
        }
    }
}

/// An enclosing construct that is complete after this sum: a bracket, or the index of a name at
/// this offset.
#[derive(Drop)]
pub enum Frame {
    Bracket(Part),
    Index(Name, u32, Use),
}

/// The position in a sum: before a sum, a term, an operand, the bracket of `pre` or a name; or
/// after a name, a reference, a primary, a caret or a factor. Each variant holds the sum parsed so
/// far.
#[derive(Drop)]
pub enum Position {
    Sum,
    Term(Vec<Term>, bool, u32),
    Operand(Part),
    Bracket(Part),
    Name(Use),
    AfterName(Name, u32, Use),
    AfterReference(Ref, Use),
    AfterPrimary(Expr, Part),
    Exponent(Expr, u32, Part),
    AfterFactor(Expr, Part),
}

/// The effect of a token: continue, continue one level deeper, end the sum before this token, or
/// reject the token.
#[derive(Drop)]
pub enum Move {
    Moves(Position),
    Opens(Position),
    Ends(Expr),
    Wrong,
}

/// The transition for one token at a position. The last of `frames` is the innermost one. `Err` is
/// an allocation failure.
pub fn step_expression(
    alloc: Global,
    position: Position,
    frames: &mut Vec<Frame>,
    symbol: Symbol,
) -> Result<Move, AllocError>
    ensures { IfOk result
        (λ m. move_of m frames.new.items
        ≡ step (position_of position) (frames_of frames.old.items) (symbol_view symbol.entry)) }
{
    match position {
        Position::Sum => begin_expression_sum(alloc, frames, symbol),
        Position::Term(terms, minus, place) => {
            let part = first_expression_part(alloc, terms, minus, place, symbol.at());
            begin_expression_operand(alloc, part, frames, symbol)
        }
        Position::Operand(part) => begin_expression_operand(alloc, part, frames, symbol),
        Position::Bracket(part) => Ok(begin_expression_bracket(part, symbol)),
        Position::Name(purpose) => begin_expression_name(alloc, purpose, symbol),
        Position::AfterName(name, place, purpose) => follow_name(
            alloc, name, place, purpose, frames, symbol,
        ),
        Position::AfterReference(target, purpose) => follow_expression_reference(
            alloc, target, purpose, frames, symbol,
        ),
        Position::AfterPrimary(primary, part) => follow_expression_primary(
            alloc, primary, part, frames, symbol,
        ),
        Position::Exponent(base, place, part) => follow_expression_caret(
            alloc, base, place, part, symbol,
        ),
        Position::AfterFactor(factor, part) => follow_expression_factor(
            alloc, factor, part, frames, symbol,
        ),
    }
}

/// Returns the nesting depth at a position inside these frames.
pub fn expression_depth_at(position: &Position, frames: &[Frame]) -> usize
    ensures { result ≡ depth_at 0 (position_of position.now) (frames_of frames.now) }
{
    let d = expression_depth(frames);
    match position {
        Position::Bracket(_) => d + 1,
        Position::Name(target) => target.expression_depth_behind(d),
        Position::AfterName(_, _, target) => target.expression_depth_behind(d),
        Position::AfterReference(_, target) => target.expression_depth_behind(d),
        _ => d,
    }
}

/// Parses the first token of a sum. `Err` is an allocation failure.
pub fn begin_expression_sum(
    alloc: Global,
    frames: &mut Vec<Frame>,
    symbol: Symbol,
) -> Result<Move, AllocError>
    ensures { IfOk result
        (λ m. move_of m frames.new.items
        ≡ begin_sum (frames_of frames.old.items) (symbol_view symbol.entry)) }
{
    match symbol {
        Symbol::Mark(Mark::Plus, at) => Ok(Move::Moves(Position::Term(Vec::new(alloc), false, at))),
        Symbol::Mark(Mark::Minus, at) => Ok(Move::Moves(Position::Term(Vec::new(alloc), true, at))),
        _ => {
            let at = symbol.at();
            let part = first_expression_part(alloc, Vec::new(alloc), false, at, at);
            begin_expression_operand(alloc, part, frames, symbol)
        }
    }
}

/// Returns the first part of a term, after the terms before it.
pub fn first_expression_part(
    alloc: Global,
    terms: Vec<Term>,
    minus: bool,
    at: u32,
    place: u32,
) -> Part
    ensures { part_of result ≡ first_part (map signed terms.items) minus at place }
{
    Part {
        terms,
        minus,
        at,
        factors: Vec::new(alloc),
        divide: false,
        place,
    }
}

// Parses the first token of an operand.
fn begin_expression_operand(
    alloc: Global,
    part: Part,
    frames: &mut Vec<Frame>,
    symbol: Symbol,
) -> Result<Move, AllocError>
    ensures { IfOk result
        (λ m. move_of m frames.new.items
        ≡ operand (part_of part) (frames_of frames.old.items) (symbol_view symbol.entry)) }
{
    match symbol {
        Symbol::Number(text, at) => {
            let digits = Name::new(alloc, text)?;
            Ok(Move::Moves(Position::AfterPrimary(Expr::Num { digits, at }, part)))
        }
        Symbol::Name(text, at) => {
            let name = Name::new(alloc, text)?;
            Ok(Move::Moves(Position::AfterName(name, at, Use::Variable(part))))
        }
        Symbol::Word(Word::Time, at) => Ok(Move::Moves(Position::AfterPrimary(
            Expr::Time { at },
            part,
        ))),
        Symbol::Word(Word::Pre, _) => Ok(Move::Opens(Position::Bracket(part))),
        Symbol::Mark(Mark::OpenRound, _) => {
            frames.push(Frame::Bracket(part))?;
            Ok(Move::Opens(Position::Sum))
        }
        _ => Ok(Move::Wrong),
    }
}

// Parses the bracket after `pre`.
fn begin_expression_bracket(part: Part, symbol: Symbol) -> Move
    ensures { (fs : List Frame)
        → move_of result fs
        ≡ begin_bracket (part_of part) (frames_of fs) (symbol_view symbol.entry) }
{
    match symbol {
        Symbol::Mark(Mark::OpenRound, _) => Move::Moves(Position::Name(Use::Previous(part))),
        _ => Move::Wrong,
    }
}

// Parses the first token of a reference.
fn begin_expression_name(alloc: Global, purpose: Use, symbol: Symbol) -> Result<Move, AllocError>
    ensures { IfOk result
        (λ m. (fs : List Frame)
        → move_of m fs
        ≡ begin_name (use_of purpose) (frames_of fs) (symbol_view symbol.entry)) }
{
    match symbol {
        Symbol::Name(text, at) => {
            let name = Name::new(alloc, text)?;
            Ok(Move::Moves(Position::AfterName(name, at, purpose)))
        }
        _ => Ok(Move::Wrong),
    }
}

// A name was read, and this token follows.
fn follow_name(
    alloc: Global,
    name: Name,
    place: u32,
    purpose: Use,
    frames: &mut Vec<Frame>,
    symbol: Symbol,
) -> Result<Move, AllocError>
    ensures { IfOk result
        (λ m. move_of m frames.new.items
        ≡ follow_name name place (use_of purpose) (frames_of frames.old.items)
        (symbol_view symbol.entry)) }
{
    match symbol {
        Symbol::Mark(Mark::OpenSquare, _) => {
            frames.push(Frame::Index(name, place, purpose))?;
            Ok(Move::Opens(Position::Sum))
        }
        _ => {
            let target = whole(name, place);
            follow_expression_reference(alloc, target, purpose, frames, symbol)
        }
    }
}

/// Creates a name without an index. `at` is its byte offset.
pub fn whole(name: Name, at: u32) -> Ref
    ensures { reference result ≡ Whole name at }
{
    Ref {
        name,
        index: None,
        at,
    }
}

// A reference is complete, and this token follows.
fn follow_expression_reference(
    alloc: Global,
    target: Ref,
    purpose: Use,
    frames: &mut Vec<Frame>,
    symbol: Symbol,
) -> Result<Move, AllocError>
    ensures { IfOk result
        (λ m. move_of m frames.new.items
        ≡ follow_reference (reference target) (use_of purpose) (frames_of frames.old.items)
        (symbol_view symbol.entry)) }
{
    match purpose {
        Use::Variable(part) => follow_expression_primary(
            alloc,
            Expr::Var(target),
            part,
            frames,
            symbol,
        ),
        Use::Previous(part) => match symbol {
            Symbol::Mark(Mark::CloseRound, _) => Ok(Move::Moves(Position::AfterPrimary(
                Expr::Pre(target),
                part,
            ))),
            _ => Ok(Move::Wrong),
        },
    }
}

// A primary is complete, and this token follows.
fn follow_expression_primary(
    alloc: Global,
    primary: Expr,
    part: Part,
    frames: &mut Vec<Frame>,
    symbol: Symbol,
) -> Result<Move, AllocError>
    ensures { IfOk result
        (λ m. move_of m frames.new.items
        ≡ follow_primary (expression primary) (part_of part) (frames_of frames.old.items)
        (symbol_view symbol.entry)) }
{
    match symbol {
        Symbol::Mark(Mark::Caret, at) => Ok(Move::Moves(Position::Exponent(primary, at, part))),
        _ => follow_expression_factor(alloc, primary, part, frames, symbol),
    }
}

// A factor is complete, and this token follows.
fn follow_expression_factor(
    alloc: Global,
    factor: Expr,
    part: Part,
    frames: &mut Vec<Frame>,
    symbol: Symbol,
) -> Result<Move, AllocError>
    ensures { IfOk result
        (λ m. move_of m frames.new.items
        ≡ follow_factor (expression factor) (part_of part) (frames_of frames.old.items)
        (symbol_view symbol.entry)) }
{
    match symbol {
        Symbol::Mark(Mark::Times, at) => {
            let part = next_expression_factor(part, factor, false, at)?;
            Ok(Move::Moves(Position::Operand(part)))
        }
        Symbol::Mark(Mark::Divide, at) => {
            let part = next_expression_factor(part, factor, true, at)?;
            Ok(Move::Moves(Position::Operand(part)))
        }
        _ => {
            let terms = close_expression_term(part, factor)?;
            follow_expression_term(alloc, terms, frames, symbol)
        }
    }
}

// Returns the part after an operand and an operator * or /.
fn next_expression_factor(
    part: Part,
    factor: Expr,
    divide: bool,
    at: u32,
) -> Result<Part, AllocError>
    ensures { IfOk result
        (λ next. part_of next ≡ next_factor (part_of part) (expression factor) divide at) }
{
    let mut factors = part.factors;
    factors.push(Factor {
        divide: part.divide,
        at: part.place,
        value: factor,
    })?;
    Ok(Part {
        terms: part.terms,
        minus: part.minus,
        at: part.at,
        factors,
        divide,
        place: at,
    })
}

// Completes the last term with this operand. Returns all terms.
fn close_expression_term(part: Part, factor: Expr) -> Result<Vec<Term>, AllocError>
    ensures { IfOk result
        (λ terms. map signed terms.items ≡ with_term (part_of part) (expression factor)) }
{
    let mut factors = part.factors;
    factors.push(Factor {
        divide: part.divide,
        at: part.place,
        value: factor,
    })?;
    let value = expression_of_factors(factors);
    let mut terms = part.terms;
    terms.push(Term {
        minus: part.minus,
        at: part.at,
        value,
    })?;
    Ok(terms)
}

// Returns the product of these factors.
fn expression_of_factors(factors: Vec<Factor>) -> Expr
    ensures { expression result ≡ product_of (map scaled factors.items) }
{
    let mut factors = factors;
    if factors.len() == 1 {
        let factor = factors.remove(0);
        return factor.value;
    }
    Expr::Product { factors }
}

// A term is complete, and this token follows.
fn follow_expression_term(
    alloc: Global,
    terms: Vec<Term>,
    frames: &mut Vec<Frame>,
    symbol: Symbol,
) -> Result<Move, AllocError>
    ensures { IfOk result
        (λ m. move_of m frames.new.items
        ≡ follow_term (map signed terms.items) (frames_of frames.old.items)
        (symbol_view symbol.entry)) }
{
    match symbol {
        Symbol::Mark(Mark::Plus, at) => Ok(Move::Moves(Position::Term(terms, false, at))),
        Symbol::Mark(Mark::Minus, at) => Ok(Move::Moves(Position::Term(terms, true, at))),
        _ => follow_expression_sum(alloc, expression_of_terms(terms), frames, symbol),
    }
}

// A sum is complete, and this token follows.
fn follow_expression_sum(
    alloc: Global,
    sum: Expr,
    frames: &mut Vec<Frame>,
    symbol: Symbol,
) -> Result<Move, AllocError>
    ensures { IfOk result
        (λ m. move_of m frames.new.items
        ≡ after_sum (expression sum) (frames_of frames.old.items) (symbol_view symbol.entry)) }
{
    match frames.pop() {
        None => Ok(Move::Ends(sum)),
        Some(Frame::Bracket(part)) => match symbol {
            Symbol::Mark(Mark::CloseRound, _) => Ok(Move::Moves(Position::AfterPrimary(sum, part))),
            _ => {
                drop(sum);
                drop(part);
                Ok(Move::Wrong)
            }
        },
        Some(Frame::Index(name, place, target)) => match symbol {
            Symbol::Mark(Mark::CloseSquare, at) => {
                let (index, target) = parse_with_kept(Box::new(alloc, sum), target)?;
                let element = Ref {
                    name,
                    index: Some(index),
                    at: place,
                };
                Ok(Move::Moves(Position::AfterReference(element, target)))
            }
            _ => {
                drop(sum);
                drop(target);
                Ok(Move::Wrong)
            }
        },
    }
}

// Returns the sum of these terms.
fn expression_of_terms(terms: Vec<Term>) -> Expr
    ensures { expression result ≡ sum_of (map signed terms.items) }
{
    let mut terms = terms;
    if terms.len() == 1 && !terms[0].minus {
        let term = terms.remove(0);
        return term.value;
    }
    Expr::Sum { terms }
}

// Parses an exponent.
fn follow_expression_caret(
    alloc: Global,
    base: Expr,
    place: u32,
    part: Part,
    symbol: Symbol,
) -> Result<Move, AllocError>
    ensures { IfOk result
        (λ m. (fs : List Frame)
        → move_of m fs
        ≡ follow_caret (expression base) place (part_of part) (frames_of fs)
        (symbol_view symbol.entry)) }
{
    match symbol {
        Symbol::Number(text, _) => power(alloc, expression_exponent(text), base, place, part),
        _ => Ok(Move::Wrong),
    }
}

// Returns the power, if the exponent is valid.
fn power(
    alloc: Global,
    exponent: Option<u8>,
    base: Expr,
    place: u32,
    part: Part,
) -> Result<Move, AllocError>
    ensures { IfOk result
        (λ m. (fs : List Frame)
        → move_of m fs ≡ power exponent (expression base) place (part_of part) (frames_of fs)) }
{
    match exponent {
        None => Ok(Move::Wrong),
        Some(exp) => {
            let base = Box::new(alloc, base)?;
            let power = Expr::Pow {
                base,
                exp,
                at: place,
            };
            Ok(Move::Moves(Position::AfterFactor(power, part)))
        }
    }
}

// Returns the exponent that one digit from 0 to 8 denotes.
fn expression_exponent(digits: &[u8]) -> Option<u8>
    ensures { result ≡ exponent_of digits.now }
{
    match digits {
        [c] => {
            if *c >= b'0' && *c <= b'8' {
                Some(*c - b'0')
            } else {
                None
            }
        }
        _ => None,
    }
}

// Returns the nesting depth inside these frames.
fn expression_depth(frames: &[Frame]) -> usize
    ensures value { result ≡ depth 0 (frames_of frames.now) }
    ensures bound { result ≤ 2 * length frames.now }
{
    let mut d = 0;
    for frame in frames {
        d = expression_frame_depth(frame, d);
    }
    d
}

// Returns the nesting depth inside one more frame.
fn expression_frame_depth(frame: &Frame, d: usize) -> usize
    requires { d < 2 ^ 64 - 2 }
    ensures { result ≡ deeper (frame_of frame.now) d }
{
    match frame {
        Frame::Bracket(_) => d + 1,
        Frame::Index(_, _, target) => target.expression_depth_behind(d) + 1,
    }
}
