//! The result of causalization: the causal order of a flat model, or the reason why it has none.

use mu_io::Items;

/// The algebraic variables in causal order, by their numbers in the flat model.
#[derive(Drop)]
pub struct Order {
    pub vars: Items<u32>,
}

/// Why a flat model has no causal order. Variables have their numbers in the flat model. Equations
/// are numbered from 1.
#[derive(Drop)]
pub enum CausalErr {
    /// The least variable without exactly one equation has none.
    NoEquation { var: u32 },
    /// The least variable without exactly one equation has several. These are the first two.
    TwoEquations { var: u32, first: u32, second: u32 },
    /// An algebraic loop: the equation of each variable reads the next one, and the last reads the
    /// first. The first has the least number. Each variable occurs once.
    Loop { vars: Items<u32> },
    /// Out of memory.
    Memory,
}
