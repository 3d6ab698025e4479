//! The conditions of a machine, by index in source order, and the contexts in which conditions and
//! handlers are evaluated.

ghost use Rattle.std.specs.Prelude.{◌≡◌, ◌<◌, ◌≤◌, ◌++◌, length, IfOk, false, pos, replicate};
ghost use Rattle.qss_run.specs.Prelude.{IsBounded, conditions, clause_at, branch_at, condition_at, Less, tabulate, condition_limit};
ghost use Rattle.qss_run.specs.ConditionPlaces.{AreConditionsOf, AreBranches};

use qss_cross::Detector;
use qss_machine::{Condition, Machine, Rel, Uses};
use qss_quant::Integrator;
use qss_sched::{PlaceSet, repeat_value};
use qss_states::States;
use std::alloc::{AllocError, Global};

/// A branch of a clause. Both are indices from 0.
#[derive(Clone, Copy)]
pub struct BranchPlace {
    pub clause: u32,
    pub branch: u32,
}

/// All conditions in source order: for each its branch, its zero-crossing detector, and its truth
/// on the last arrival and after the last handlers. `flipped` has the indices of all conditions whose
/// truth the handlers changed.
#[derive(Drop)]
pub struct Conditions {
    pub branches: Vec<BranchPlace>,
    pub detectors: Vec<Detector>,
    pub at_arrival: Vec<bool>,
    pub after_handlers: Vec<bool>,
    pub flipped: PlaceSet,
}

impl Conditions {
    /// The condition at an index.
    pub(crate) fn condition<'a>(&self, m: &'a Machine, place: u32) -> &'a Condition
        requires fits { AreConditionsOf m.now self.now }
        requires place { place < length (conditions m.now) }
        ensures value { result.now ≡ condition_at m.now place }
        ensures bounded { IsBounded result.now.form }
    {
        condition_at_branch(m, self.branches.as_slice()[place as usize])
    }
}

/// A machine at a tick. `uses`: the rows and conditions that read each variable. `lines` and
/// `slopes`: those of the states, with slopes in units of 2^-(f+p+k) per tick and at most 2^88 in
/// absolute value.
#[derive(Clone, Copy)]
pub struct ConditionContext<'a> {
    pub machine: &'a Machine,
    pub uses: &'a Uses,
    pub tick: u64,
    pub lines: &'a [Integrator],
    pub slopes: &'a [i128],
}

/// The values that conditions read at a tick below 2^32. `states`: in units of 2^-(f+p+k) and at
/// most 2^88 in absolute value. `discretes`: in units of 2^-f and at most 2^43. `slopes`: in units
/// of 2^-(f+p+k) per tick and at most 2^88.
#[derive(Clone, Copy)]
pub struct ConditionValues<'a> {
    pub tick: u64,
    pub states: &'a [i128],
    pub discretes: &'a [i64],
    pub slopes: &'a [i128],
}

/// A machine at a tick, and its states, on their lines before the tick.
#[derive(Clone, Copy)]
pub struct StatesAt<'a> {
    pub machine: &'a Machine,
    pub tick: u64,
    pub states: &'a States,
}

/// The conditions of a machine in source order, with unspecified detectors and truths. It fails if
/// allocation fails.
pub fn blank_conditions(alloc: Global, m: &Machine) -> Result<Conditions, AllocError>
    ensures { IfOk result (λ all. AreConditionsOf m.now all) }
{
    let branches = condition_branch_places(alloc, m)?;
    let count = branches.len();
    let (at_arrival, after_handlers) = condition_flag_lists(alloc, count)?;
    Ok(Conditions {
        branches,
        detectors: repeat_value(alloc, resting_detector(), count)?,
        at_arrival,
        after_handlers,
        flipped: PlaceSet::empty(alloc, count)?,
    })
}

/// The condition of a branch.
pub(crate) fn condition_at_branch(m: &Machine, place: BranchPlace) -> &Condition
    requires clause { place.clause < length m.now.clauses }
    requires branch { place.branch < length (clause_at m.now place.clause).branches }
    ensures value { result.now ≡ (branch_at m.now place.clause place.branch).condition }
    ensures bounded { IsBounded result.now.form }
{
    let branches = m.clauses.as_slice()[place.clause as usize]
        .branches
        .as_slice();
    &branches[place.branch as usize].condition
}

// The branches of all conditions in source order.
fn condition_branch_places(alloc: Global, m: &Machine) -> Result<Vec<BranchPlace>, AllocError>
    ensures { IfOk result (λ branches. AreBranches m.now branches.items) }
{
    let clauses = m.clauses.as_slice();
    let mut found: Vec<BranchPlace> = Vec::new(alloc);
    for clause in 0..clauses.len() {
        let count = clauses[clause].branches.as_slice().len();
        add_condition_branches(&mut found, clause as u32, count)?;
    }
    Ok(found)
}

// Appends the branches of a clause.
fn add_condition_branches(
    found: &mut Vec<BranchPlace>,
    clause: u32,
    count: usize,
) -> Result<(), AllocError>
    requires { count ≤ condition_limit }
    ensures { IfOk result
        (λ done. found.new.items
        ≡ found.old.items
        ++ tabulate count (λ branch. record { clause = clause; branch = branch })) }
{
    for branch in 0..count {
        found.push(BranchPlace {
            clause,
            branch: branch as u32,
        })?;
    }
    Ok(())
}

// Two lists of flags, one for each condition.
fn condition_flag_lists(alloc: Global, count: usize) -> Result<(Vec<bool>, Vec<bool>), AllocError>
    ensures { IfOk result
        (λ lists. let flags = replicate count false in (lists.0.items ≡ flags)
        × (lists.1.items ≡ flags)) }
{
    let first = repeat_value(alloc, false, count)?;
    let second = repeat_value(alloc, false, count)?;
    Ok((first, second))
}

// A placeholder detector: the constant 0.
fn resting_detector() -> Detector
    ensures { result ≡ record { rel = Less; tick = 0; value = pos 0; speed = pos 0 } }
{
    Detector {
        rel: Rel::Less,
        tick: 0,
        value: 0,
        speed: 0,
    }
}
