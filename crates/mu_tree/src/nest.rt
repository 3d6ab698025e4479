//! Items that occur in loops: what equations, statements and clauses have in common.

ghost use Rattle.std.specs.Prelude.{◌≡◌, List, map};
ghost use Rattle.std.proofs.Common.{ap};
ghost use Rattle.mu_tree.specs.ModelTree.{BranchTree, ClauseTree, EachClause, EachEquation, EachStatement, EquationTree, Range as RangeTree, StatementTree, clause, clauses_of, equation, equations_of, statement, statements_of};
ghost use Rattle.mu_tree.specs.Nests.{Each, IsView, NestTree, OneEquation, OneStatement, clause_item, clause_items_of, equation_item, equation_items_of, items_of, owned_range, statement_item, statement_items_of};

use crate::expr::Expr;
use crate::tree::{Clause, Equation, Statement};
use mu_io::Name;

/// The head of a loop: its variable with the offset in the source, and its first and last value.
#[derive(Drop)]
pub struct Range {
    pub var: Name,
    pub at: u32,
    pub from: Expr,
    pub to: Expr,
}

/// The head of a loop that is part of a tree.
#[derive(Clone, Copy)]
pub struct RangeRef<'a> {
    pub var: &'a Name,
    pub at: u32,
    pub from: &'a Expr,
    pub to: &'a Expr,
}

/// The view of an item: the item itself if it is no loop, or the head and the body of the loop.
#[derive(Drop)]
pub enum Nested<'a, T> {
    One(&'a T),
    Each { range: RangeRef<'a>, body: &'a [T] },
}

/// Items that occur in loops. `tree` is the logical value of an item, `each` is that of a loop, and
/// `item` is a tree without the differences between the kinds of loops.
pub trait Nest: Drop {
    ghost Tree: { Type 0 };

    ghost Leaf: { Type 0 };

    ghost tree: { Self → Tree };

    ghost each: { RangeTree → List Tree → Tree };

    ghost item: { Tree → NestTree Leaf };

    /// Returns the view of the item.
    fn nested(&self) -> Nested<'_, Self>
        ensures { IsView tree each item self.now result };

    /// Returns the loop with this head and this body.
    fn from_loop(range: Range, body: Vec<Self>) -> Self
        ensures { tree result ≡ each (owned_range range) (map tree body.items) };

    ghost each_item: { (r : RangeTree) (ts : List Tree)
        → item (each r ts) ≡ Each r (items_of (map item ts)) };
}

impl Nest for Equation {
    ghost Tree = { EquationTree };

    ghost Leaf = { OneEquation };

    ghost tree = { equation };

    ghost each = { λ r ts. EachEquation r (equations_of ts) };

    ghost item = { equation_item };

    fn nested(&self) -> Nested<'_, Equation> {
        match self {
            Equation::Der { .. } | Equation::Plain { .. } => Nested::One(self),
            Equation::For {
                var,
                at,
                from,
                to,
                body,
            } => {
                let range = RangeRef {
                    var,
                    at: *at,
                    from,
                    to,
                };
                Nested::Each { range, body }
            }
        }
    }

    fn from_loop(range: Range, body: Vec<Equation>) -> Equation
        ensures { equation result
            ≡ EachEquation (owned_range range) (equations_of (map equation body.items)) }
    {
        let Range { var, at, from, to } = range;
        Equation::For {
            var,
            at,
            from,
            to,
            body,
        }
    }

    ghost each_item = { λ r ts. ap (Each r) (equation_items_of ts) };
}

impl Nest for Statement {
    ghost Tree = { StatementTree };

    ghost Leaf = { OneStatement };

    ghost tree = { statement };

    ghost each = { λ r ts. EachStatement r (statements_of ts) };

    ghost item = { statement_item };

    fn nested(&self) -> Nested<'_, Statement> {
        match self {
            Statement::Set { .. } | Statement::Reinit { .. } => Nested::One(self),
            Statement::For {
                var,
                at,
                from,
                to,
                body,
            } => {
                let range = RangeRef {
                    var,
                    at: *at,
                    from,
                    to,
                };
                Nested::Each { range, body }
            }
        }
    }

    fn from_loop(range: Range, body: Vec<Statement>) -> Statement
        ensures { statement result
            ≡ EachStatement (owned_range range) (statements_of (map statement body.items)) }
    {
        let Range { var, at, from, to } = range;
        Statement::For {
            var,
            at,
            from,
            to,
            body,
        }
    }

    ghost each_item = { λ r ts. ap (Each r) (statement_items_of ts) };
}

impl Nest for Clause {
    ghost Tree = { ClauseTree };

    ghost Leaf = { List BranchTree };

    ghost tree = { clause };

    ghost each = { λ r ts. EachClause r (clauses_of ts) };

    ghost item = { clause_item };

    fn nested(&self) -> Nested<'_, Clause> {
        match self {
            Clause::When { .. } => Nested::One(self),
            Clause::For {
                var,
                at,
                from,
                to,
                body,
            } => {
                let range = RangeRef {
                    var,
                    at: *at,
                    from,
                    to,
                };
                Nested::Each { range, body }
            }
        }
    }

    fn from_loop(range: Range, body: Vec<Clause>) -> Clause
        ensures { clause result
            ≡ EachClause (owned_range range) (clauses_of (map clause body.items)) }
    {
        let Range { var, at, from, to } = range;
        Clause::For {
            var,
            at,
            from,
            to,
            body,
        }
    }

    ghost each_item = { λ r ts. ap (Each r) (clause_items_of ts) };
}
