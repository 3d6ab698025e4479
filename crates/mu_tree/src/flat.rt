//! Flat models: models without arrays, loops and named constants, and the experiment settings.

ghost use Rattle.std.specs.Prelude.{◌≡◌};

use crate::tree::Rel;
use mu_io::Name;
use mu_num::Ratio;

/// The role of a flat variable.
#[derive(Clone, Copy, Debug, PartialEq, Eq)]
pub enum FlatRole {
    State,
    Discrete,
    Algebraic,
}

/// A scalar variable with its start value and its quantum.
#[derive(Drop)]
pub struct FlatVar {
    pub name: Name,
    pub role: FlatRole,
    pub start: Ratio,
    pub quantum: Ratio,
}

/// An expression over numbered variables.
#[cycle(flat_expression)]
#[derive(Drop)]
pub enum FlatExpr {
    Const {
        value: Ratio,
        at: u32,
    },
    Var {
        var: u32,
        at: u32,
    },
    Pre {
        var: u32,
        at: u32,
    },
    Time {
        at: u32,
    },
    Sum {
        terms: Vec<FlatTerm>,
    },
    Product {
        factors: Vec<FlatFactor>,
    },
    Pow {
        base: Box<FlatExpr>,
        exp: u8,
        at: u32,
    },
}

/// A term of a sum, with its sign.
#[cycle(flat_expression)]
#[derive(Drop)]
pub struct FlatTerm {
    pub minus: bool,
    pub at: u32,
    pub value: FlatExpr,
}

/// A factor or a divisor of a product.
#[cycle(flat_expression)]
#[derive(Drop)]
pub struct FlatFactor {
    pub divide: bool,
    pub at: u32,
    pub value: FlatExpr,
}

/// An equation for the derivative of a state or for an algebraic variable.
#[derive(Drop)]
pub struct FlatEquation {
    pub der: bool,
    pub target: u32,
    pub value: FlatExpr,
}

/// A statement of a clause.
#[derive(Drop)]
pub enum FlatStatement {
    FlatSet { var: u32, value: FlatExpr },
    FlatReinit { var: u32, value: FlatExpr },
}

/// A branch of a clause: a condition and its statements.
#[derive(Drop)]
pub struct FlatBranch {
    pub left: FlatExpr,
    pub rel: Rel,
    pub right: FlatExpr,
    pub at: u32,
    pub body: Vec<FlatStatement>,
}

/// A `when` clause. At a tick its first due branch fires.
#[derive(Drop)]
pub struct FlatClause {
    pub branches: Vec<FlatBranch>,
}

/// A model without arrays, loops and named constants.
#[derive(Drop)]
pub struct FlatModel {
    pub vars: Vec<FlatVar>,
    pub equations: Vec<FlatEquation>,
    pub clauses: Vec<FlatClause>,
}

/// The experiment settings of a model. `start` and `stop` are in seconds. The unit of coefficients
/// is 2^-coef_bits, of levels 2^-level_bits, and of ticks 2^-tick_bits seconds. `quantum` is the
/// default quantum of states.
#[derive(Clone, Copy, Drop)]
pub struct Settings {
    pub start: Ratio,
    pub stop: Ratio,
    pub coef_bits: Ratio,
    pub tick_bits: Ratio,
    pub level_bits: Ratio,
    pub quantum: Ratio,
}

impl Settings {
    /// Returns a copy of the settings.
    pub fn copy(&self) -> Settings
        ensures { result ≡ self.now }
    {
        Settings {
            start: self.start,
            stop: self.stop,
            coef_bits: self.coef_bits,
            tick_bits: self.tick_bits,
            level_bits: self.level_bits,
            quantum: self.quantum,
        }
    }
}
