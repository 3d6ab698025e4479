//! The plain data of a machine, and the output rows of a run.

use mu_io::{Items, Name};

/// A continuous state.
#[derive(Drop)]
pub struct StateInfo {
    pub name: Name,
    /// The initial value in units of 2^-(f+p+k), at most 2^88 in size.
    pub x0: i128,
    /// The quantum in units of 2^-f, from 1 to 2^32.
    pub quantum: i64,
}

/// A discrete variable.
#[derive(Drop)]
pub struct DiscreteInfo {
    pub name: Name,
    /// The initial value in units of 2^-f, at most 2^43 in size.
    pub d0: i64,
}

/// A nonzero coefficient of a variable.
#[derive(Clone, Copy)]
pub struct Entry {
    /// The variable's number. States come first, then discrete variables, then the values of
    /// discrete variables before the tick.
    pub var: u32,
    /// The coefficient in units of 2^-p.
    pub coef: i64,
}

/// A nonzero coefficient of the product of a discrete variable and a state.
#[derive(Clone, Copy)]
pub struct Product {
    /// The state's number.
    pub state: u32,
    /// The discrete variable's number. As in an entry, it is counted after the states.
    pub discrete: u32,
    /// The coefficient in units of 2^-p.
    pub coef: i64,
}

/// The right-hand side of a state's equation.
#[derive(Drop)]
pub struct SlopeRow {
    /// The linear part, sorted by variable. Each coefficient is at most 2^44 in size.
    pub entries: Items<Entry>,
    /// The bilinear part, sorted by state and then by discrete variable. Each coefficient is at
    /// most 2^44 in size.
    pub products: Items<Product>,
    /// The constant in units of 2^-(f+p), at most 2^78 in size.
    pub beta: i128,
}

/// An affine form over states, discrete variables, their values before the tick, and time.
#[derive(Drop)]
pub struct Form {
    /// The linear part, sorted by variable. The sizes of its coefficients and of `time` sum to at
    /// most 2^38.
    pub entries: Items<Entry>,
    /// The coefficient of time in units of 2^-p.
    pub time: i64,
    /// The constant in units of 2^-(f+p), at most 2^78 in size.
    pub gamma: i128,
}

/// A comparison with 0.
#[derive(Clone, Copy)]
pub enum Rel {
    Less,
    LessEq,
    Greater,
    GreaterEq,
}

/// A form compared with 0.
#[derive(Drop)]
pub struct Condition {
    pub form: Form,
    pub rel: Rel,
}

/// A statement of a branch: the value of a form is assigned to a discrete variable or a state.
#[derive(Drop)]
pub enum Action {
    Set { var: u32, form: Form },
    Reinit { var: u32, form: Form },
}

/// A branch of a clause. Its statements run when its condition becomes true.
#[derive(Drop)]
pub struct BranchInfo {
    pub condition: Condition,
    pub actions: Items<Action>,
}

/// A `when` clause. At most one of its branches fires at a tick.
#[derive(Drop)]
pub struct ClauseInfo {
    pub branches: Items<BranchInfo>,
}

/// The kind of a row.
#[derive(Clone, Copy)]
pub enum RowKind {
    /// The value of a variable at tick 0.
    Start,
    /// A branch of a clause fired. Both are numbered from 0.
    When { clause: u32, branch: u32 },
    /// A discrete variable was assigned.
    Set,
    /// A state was reinitialized.
    Reinit,
    /// The level of a state changed.
    Level,
    /// The value of a variable at the last tick.
    End,
    /// A variable exceeded its limit. The run ends.
    Overflow,
}

/// An output row of a run: one change at a tick. Fields that are not printed for its kind are 0.
#[derive(Clone, Copy)]
pub struct Row {
    pub tick: u64,
    pub kind: RowKind,
    /// The variable's number. States come before discrete variables.
    pub var: u32,
    /// A state's level or a discrete value, in units of 2^-f.
    pub level: i64,
    /// A state in units of 2^-(f+p+k).
    pub state: i128,
}
