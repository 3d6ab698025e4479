//! The states of the parser: the parts parsed so far and the tokens that may follow.

use crate::expression::condition::Stage;
use crate::expression::machine::{Frame, Position};
use crate::section::loops::Loop;
use mu_grammar::{Bracket, Fixed};
use mu_io::Name;
use mu_tree::{
    Branch, Clause, Decl, Equation, Expr, Model, Prefix, Ref, SettingItem, SettingName, Statement,
};

/// A model whose name, components and sections so far are parsed.
#[derive(Drop)]
pub struct Draft {
    pub name: Name,
    pub decls: Vec<Decl>,
    pub starts: Vec<Statement>,
    pub equations: Vec<Equation>,
    pub clauses: Vec<Clause>,
}

/// A component whose declaration is being parsed.
#[derive(Drop)]
pub struct Component {
    pub draft: Box<Draft>,
    pub declared: Box<Decl>,
}

/// An open clause in these loops.
#[derive(Drop)]
pub struct OpenWhen {
    pub draft: Box<Draft>,
    pub loops: Vec<Loop<Clause>>,
    pub branches: Vec<Branch>,
}

/// An open branch.
#[derive(Drop)]
pub struct OpenBranch {
    pub clause: OpenWhen,
    pub branch: Box<Branch>,
}

/// The place of equations, clauses or statements: a section or a branch, and the open loops.
#[derive(Drop)]
pub enum Body {
    Equations(Box<Draft>, Vec<Loop<Equation>>),
    Starts(Box<Draft>, Vec<Loop<Statement>>),
    Clauses(Box<Draft>, Vec<Loop<Clause>>),
    Branch(OpenBranch, Vec<Loop<Statement>>),
}

/// The role and place of a reference outside expressions.
#[derive(Drop)]
pub enum Aim {
    Plain(Box<Draft>, Vec<Loop<Equation>>),
    Derivative(Box<Draft>, Vec<Loop<Equation>>),
    Initial(Box<Draft>, Vec<Loop<Statement>>),
    Assigned(OpenBranch, Vec<Loop<Statement>>),
    Restarted(OpenBranch, Vec<Loop<Statement>>),
}

/// The owner of the annotation that contains an experiment.
#[derive(Drop)]
pub enum Owner {
    OfComponent(Component),
    OfModel(Box<Draft>),
}

/// A list of items in round brackets. For arguments of the model's annotation, the flag is whether
/// an experiment was read.
#[derive(Drop)]
pub enum Place {
    Modifications(Component),
    OwnArguments(Component),
    Arguments(Box<Draft>, bool, Vec<SettingItem>),
    Settings(Owner, Vec<SettingItem>),
}

/// The role of an expression.
#[derive(Drop)]
pub enum Waiting {
    Size(Component),
    Start(Component),
    Value(Component),
    Quantum(Component),
    Setting(Owner, Vec<SettingItem>, SettingName, u32),
    Index(Name, u32, Aim),
    Side(Aim, Ref),
    First(Body, Name, u32),
    Last(Body, Name, u32, Expr),
}

/// The state after a required word or mark.
#[derive(Drop)]
pub enum Then {
    ModelName,
    Component(Box<Draft>),
    Items(Place),
    Sum(Waiting),
    End(Box<Draft>, Vec<SettingItem>),
    EndName(Box<Draft>, Vec<SettingItem>),
    Semicolon(Body),
    Body(Body),
    Target(Aim),
}

/// The states, named by the tokens that may follow.
#[derive(Drop)]
pub enum State {
    Expects(Fixed, Then),
    Sum(Waiting, Position, Vec<Frame>),
    Condition(OpenWhen, Stage),
    ModelName,
    BehindTitle(Box<Draft>),
    Heads(Box<Draft>),
    Importing(Box<Draft>),
    Type(Box<Draft>, Prefix),
    Component(Box<Draft>, Prefix, bool),
    BehindName(Component),
    BehindSize(Component),
    BehindModifications(Component),
    BehindString(Component),
    BehindAnnotation(Component),
    FirstItem(Place),
    Item(Place),
    Each(Component),
    BehindItem(Place),
    Skipping(Place, Vec<Bracket>),
    Body(Body),
    Variable(Body),
    Target(Aim),
    BehindTargetName(Name, u32, Aim),
    BehindTarget(Ref, Aim),
    EndName(Box<Draft>, Vec<SettingItem>),
    Last(Model),
}

/// The effect of a token: continue, continue one level deeper than this depth, finish with the
/// model, or reject the token.
#[derive(Drop)]
pub enum Effect {
    Advances(State),
    Descends(u128, State),
    Finishes(Model),
    Refuses,
}
