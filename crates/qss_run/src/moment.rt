//! What is due and what changes at one tick: lists that an event step fills and uses.

use std::alloc::{AllocError, Global};

/// The lists of one tick. `moved`: the due and the reinitialized states, increasing. `changed`: the
/// conditions to be evaluated, increasing. `fired`: those of them whose branches are due.
/// `assigned`: the assigned discrete variables, counted after the states, in the order of the
/// assignments.
#[derive(Drop)]
pub struct Moment {
    pub moved: Vec<u32>,
    pub changed: Vec<u32>,
    pub fired: Vec<u32>,
    pub assigned: Vec<u32>,
}

impl Moment {
    ghost use Rattle.std.specs.Prelude.{◌≡◌, IfOk, vec_capacity};

    /// Empty lists with capacity for these numbers of states, of conditions and of assignments.
    pub fn with_room(
        alloc: Global,
        states: usize,
        conditions: usize,
        assignments: usize,
    ) -> Result<Moment, AllocError>
        ensures { IfOk result
            (λ moment. (vec_capacity moment.moved ≡ states)
            × (vec_capacity moment.changed ≡ conditions)
            × (vec_capacity moment.fired ≡ conditions)
            × (vec_capacity moment.assigned ≡ assignments)) }
    {
        Ok(Moment {
            moved: Vec::with_capacity(alloc, states)?,
            changed: Vec::with_capacity(alloc, conditions)?,
            fired: Vec::with_capacity(alloc, conditions)?,
            assigned: Vec::with_capacity(alloc, assignments)?,
        })
    }
}
