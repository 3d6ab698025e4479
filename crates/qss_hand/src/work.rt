//! The values that handlers read and write, with capacity for all rows that handlers can append at
//! one tick.

ghost use Rattle.std.specs.Prelude.{◌≡◌, ◌<◌, ◌+◌, ◌≤◌, ◌++◌, ◌∷◌, [], All, IfOk, length, sum_by, slice_set};
ghost use Rattle.qss_hand.specs.Prelude.{condition_limit, start_states, start_discretes};
ghost use Rattle.qss_hand.specs.Assigned.{AreSameBut};
ghost use Rattle.qss_hand.specs.Works.{row_room};

use qss_machine::{BranchInfo, ClauseInfo, Machine, Row};
use std::alloc::{AllocError, Global};
use std::marker::Model;

/// The values that handlers read and write. `x`: the states, in units of 2^-(f+p+k). `d` and `pre`:
/// the discrete values and those before the tick, in units of 2^-f. `log`: the rows of this tick.
/// `assigned`: the only indices at which `d` and `pre` may differ. In contracts, `room` is the
/// capacity of `log`.
#[derive(Drop)]
pub struct Work {
    pub x: Vec<i128>,
    pub d: Vec<i64>,
    pub pre: Vec<i64>,
    pub tick: u64,
    pub log: Vec<Row>,
    pub assigned: Vec<u32>,
}

impl Model for Work {
    ghost use Rattle.std.specs.Prelude.{vec_len, vec_capacity};
    ghost use Rattle.qss_hand.specs.Assigned.{KnowsAssigned};
    ghost use Rattle.qss_hand.specs.Values.{Values};

    ghost Value = { Values };

    ghost view = { λ w. record { x = w.x.items; d = w.d.items; pre = w.pre.items; tick = w.tick; log = w.log.items; room = vec_capacity w.log } };

    ghost invariant = { λ w. KnowsAssigned w.d.items w.pre.items w.assigned.items
        (vec_len w.assigned) (vec_len w.log) (vec_capacity w.assigned) (vec_capacity w.log) };
}

impl Work {
    /// The values of a machine at tick 0, with capacity for all rows that one tick can have.
    pub fn new(alloc: Global, m: &Machine) -> Result<Work, AllocError>
        ensures { IfOk result
            (λ w. w
            ≡ record {
              x = start_states m.now;
              d = start_discretes m.now;
              pre = start_discretes m.now;
              tick = 0;
              log = [];
              room = row_room m.now.clauses;
            }) }
    {
        let x = start_work_states(alloc, m)?;
        let d = start_work_discretes(alloc, m)?;
        let pre = start_work_discretes(alloc, m)?;
        let log = Vec::with_capacity(alloc, work_row_room(m.clauses.as_slice()))?;
        let assigned = Vec::with_capacity(alloc, log.capacity())?;
        Ok(Work {
            x,
            d,
            pre,
            tick: 0,
            log,
            assigned,
        })
    }

    /// Begins a tick: the discrete values become those before the tick, and the list of rows
    /// becomes empty. It allocates no memory. Its time is proportional to the number of assignments
    /// of the last tick.
    pub fn begin(&mut self, tick: u64)
        ensures { self.new ≡ record self.old { tick = tick; pre = self.old.d; log = [] } }
    {
        self.tick = tick;
        let before = self.pre.as_mut_slice();
        copy_work_discretes(self.assigned.as_slice(), self.d.as_slice(), before);
        self.assigned.clear();
        self.log.clear();
    }

    // Assigns a level to the discrete variable at this index, and appends its row.
    pub(crate) fn assign(&mut self, place: u32, level: i64, row: Row)
        requires place { place < length self.old.d }
        requires room { length self.old.log < self.old.room }
        ensures { self.new ≡ record self.old {
          d = slice_set self.old.d place level;
          log = self.old.log ++ row ∷ [];
        } }
    {
        let d = self.d.as_mut_slice();
        d[place as usize] = level;
        self.assigned.push_reserved(place);
        self.log.push_reserved(row);
    }

    // Appends a row of this tick.
    pub(crate) fn note(&mut self, row: Row)
        requires { length self.old.log < self.old.room }
        ensures { self.new ≡ record self.old { log = self.old.log ++ row ∷ [] } }
    {
        self.log.push_reserved(row);
    }
}

// The initial states of a machine.
fn start_work_states(alloc: Global, m: &Machine) -> Result<Vec<i128>, AllocError>
    ensures { IfOk result (λ x. x.items ≡ start_states m.now) }
{
    m.states
        .as_slice()
        .iter()
        .map(|state| state.x0)
        .collect(alloc)
}

// The initial discrete values of a machine.
fn start_work_discretes(alloc: Global, m: &Machine) -> Result<Vec<i64>, AllocError>
    ensures { IfOk result (λ d. d.items ≡ start_discretes m.now) }
{
    m.discretes
        .as_slice()
        .iter()
        .map(|discrete| discrete.d0)
        .collect(alloc)
}

/// The maximum number of rows that these clauses append at one tick.
pub(crate) fn work_row_room(clauses: &[ClauseInfo]) -> usize
    requires { row_room clauses.now ≤ condition_limit }
    ensures { result ≡ row_room clauses.now }
{
    let mut room = 0;
    for clause in clauses {
        room += 1 + count_work_statements(clause.branches.as_slice());
    }
    room
}

// The number of statements in these branches.
fn count_work_statements(branches: &[BranchInfo]) -> usize
    requires { sum_by (λ branch. length branch.actions) branches.now ≤ condition_limit }
    ensures { result ≡ sum_by (λ branch. length branch.actions) branches.now }
{
    branches
        .iter()
        .map(|branch| branch.actions.as_slice().len())
        .sum()
}

// Copies the values at these indices to `before`. The two lists are equal at all other indices.
fn copy_work_discretes(places: &[u32], values: &[i64], before: &mut [i64])
    requires same_length { length before.old ≡ length values.now }
    requires below { All (λ place. place < length values.now) places.now }
    requires same { AreSameBut places.now values.now before.old }
    ensures { before.new ≡ values.now }
{
    for assigned in places {
        let place = *assigned as usize;
        before[place] = values[place];
    }
}
