//! Syntax trees of models: declarations, equations, clauses and settings.

use crate::expr::{Expr, Ref};
use mu_io::Name;

/// A comparison operator.
#[derive(Clone, Copy, Debug, PartialEq, Eq)]
pub enum Rel {
    Less,
    LessEq,
    Greater,
    GreaterEq,
}

/// A condition: a comparison of two expressions.
#[derive(Drop)]
pub struct Cond {
    pub left: Expr,
    pub rel: Rel,
    pub right: Expr,
    pub at: u32,
}

/// An equation: for a derivative, for an algebraic variable, or a loop of equations.
#[derive(Drop)]
pub enum Equation {
    Der {
        target: Ref,
        value: Expr,
    },
    Plain {
        target: Ref,
        value: Expr,
    },
    For {
        var: Name,
        at: u32,
        from: Expr,
        to: Expr,
        body: Vec<Equation>,
    },
}

/// A statement: an assignment, a `reinit`, or a loop of statements.
#[derive(Drop)]
pub enum Statement {
    Set {
        target: Ref,
        value: Expr,
    },
    Reinit {
        target: Ref,
        value: Expr,
    },
    For {
        var: Name,
        at: u32,
        from: Expr,
        to: Expr,
        body: Vec<Statement>,
    },
}

/// A branch of a clause: a condition and its statements.
#[derive(Drop)]
pub struct Branch {
    pub cond: Cond,
    pub body: Vec<Statement>,
}

/// A `when` clause with its branches, or a loop of clauses.
#[derive(Drop)]
pub enum Clause {
    When {
        branches: Vec<Branch>,
    },
    For {
        var: Name,
        at: u32,
        from: Expr,
        to: Expr,
        body: Vec<Clause>,
    },
}

/// The prefix of a declaration.
#[derive(Clone, Copy, Debug, PartialEq, Eq)]
pub enum Prefix {
    Plain,
    Discrete,
    Parameter,
    Constant,
}

/// A declared component.
#[derive(Drop)]
pub struct Decl {
    pub prefix: Prefix,
    pub whole: bool,
    pub name: Name,
    pub size: Option<Expr>,
    pub start: Option<Expr>,
    pub value: Option<Expr>,
    pub quantum: Option<Expr>,
    pub at: u32,
}

/// The name of an experiment setting.
#[derive(Clone, Copy, Debug, PartialEq, Eq)]
pub enum SettingName {
    StartTime,
    StopTime,
    CoefBits,
    TickBits,
    LevelBits,
    Quantum,
}

/// A setting with its value.
#[derive(Drop)]
pub struct SettingItem {
    pub which: SettingName,
    pub value: Expr,
    pub at: u32,
}

/// The syntax tree of a model.
#[derive(Drop)]
pub struct Model {
    pub name: Name,
    pub end_name: Name,
    pub end_at: u32,
    pub decls: Vec<Decl>,
    pub starts: Vec<Statement>,
    pub equations: Vec<Equation>,
    pub clauses: Vec<Clause>,
    pub settings: Vec<SettingItem>,
}
