//! Runs the handlers of a tick: in each clause the first due branch fires.

ghost use Rattle.std.specs.Prelude.{◌≡◌, ◌+◌, ◌<◌, ◌≤◌, [], length, All, position};
ghost use Rattle.qss_devs.specs.Prelude.{flag_at, condition_limit, conditions, run_first_due, run_clauses, clause_room, AreValuesOf, handling_of, values_after, overflow_of, clause_at, row_room, branch_at, IsForm, state_count, discrete_count};
ghost use Rattle.qss_devs.specs.CoupledSteps.{IsMessageOfRow};
ghost use Rattle.qss_devs.specs.Flags.{HaveFlags, due_flags, flags_from};

use crate::coupled_start::Truths;
use qss_hand::{Over, Work, fire};
use qss_machine::{Condition, Machine};

/// Runs all clauses in order. The first due branch of each fires.
pub(crate) fn fire_clauses_on_arrival(
    m: &Machine,
    truths: &Truths,
    work: &mut Work,
) -> Result<(), Over>
    requires flags { HaveFlags (length (conditions m.now)) truths.now }
    requires fits { AreValuesOf m.now work.old }
    requires fresh { work.old.log ≡ [] }
    requires room { row_room m.now.clauses ≤ work.old.room }
    ensures values { work.new ≡ values_after work.old
        (run_clauses m.now work.old.tick work.old.pre 0 (handling_of work.old) m.now.clauses
        (due_flags truths.now)) }
    ensures overflow { overflow_of result
        ≡ (run_clauses m.now work.old.tick work.old.pre 0 (handling_of work.old) m.now.clauses
        (due_flags truths.now)).overflow }
    ensures fits { AreValuesOf m.now work.new }
    ensures messages { All (IsMessageOfRow m.now) work.new.log }
    ensures count { length work.new.log ≤ row_room m.now.clauses }
{
    let mut first = 0;
    for clause in 0..m.clauses.as_slice().len() {
        let count = branch_count(m, clause);
        fire_clause(m, clause as u32, first, truths, work)?;
        first += count;
    }
    Ok(())
}

/// The condition of a branch.
pub(crate) fn branch_condition(m: &Machine, clause: usize, branch: usize) -> &Condition
    requires clause { clause < length m.now.clauses }
    requires branch { branch < length (clause_at m.now clause).branches }
    ensures value { result.now ≡ (branch_at m.now clause branch).condition }
    ensures form { IsForm (state_count m.now) (discrete_count m.now) result.now.form }
{
    let branches = m.clauses.as_slice()[clause].branches.as_slice();
    &branches[branch].condition
}

/// The number of branches of a clause.
pub(crate) fn branch_count(m: &Machine, clause: usize) -> usize
    requires { clause < length m.now.clauses }
    ensures { result ≡ length (clause_at m.now clause).branches }
{
    m.clauses.as_slice()[clause].branches.as_slice().len()
}

// Runs a clause: its first due branch fires, if there is one. Its conditions begin at `first`.
fn fire_clause(
    m: &Machine,
    clause: u32,
    first: usize,
    truths: &Truths,
    w: &mut Work,
) -> Result<(), Over>
    requires clause { clause < length m.now.clauses }
    requires inside { first + length (clause_at m.now clause).branches
        ≤ length (conditions m.now) }
    requires flags { HaveFlags (length (conditions m.now)) truths.now }
    requires fits { AreValuesOf m.now w.old }
    requires room { length w.old.log + clause_room (clause_at m.now clause) ≤ w.old.room }
    ensures values { w.new ≡ values_after w.old (run_first_due m.now w.old.tick w.old.pre clause 0
        (handling_of w.old) (clause_at m.now clause).branches
        (flags_from first (length (clause_at m.now clause).branches) (due_flags truths.now))) }
    ensures overflow { overflow_of result ≡ (run_first_due m.now w.old.tick w.old.pre clause 0
        (handling_of w.old) (clause_at m.now clause).branches
        (flags_from first (length (clause_at m.now clause).branches)
        (due_flags truths.now))).overflow }
    ensures fits { AreValuesOf m.now w.new }
{
    let count = branch_count(m, clause as usize);
    match first_due_branch(truths, first, count) {
        Some(branch) => fire(m, clause, branch, w),
        None => Ok(()),
    }
}

// The first due branch of a clause. Its conditions are the `count` ones from `first` on.
fn first_due_branch(truths: &Truths, first: usize, count: usize) -> Option<u32>
    requires inside { first + count ≤ length truths.now.current.items }
    requires count_limit { length truths.now.current.items ≤ condition_limit }
    requires flags { HaveFlags (length truths.now.current.items) truths.now }
    ensures { result ≡ position (λ flag. flag) (flags_from first count (due_flags truths.now)) }
{
    for branch in 0..count {
        if is_branch_due(truths, first + branch) {
            return Some(branch as u32);
        }
    }
    None
}

// Whether a branch is due: its condition holds on arrival, and was false on the last arrival or
// after the last handlers.
fn is_branch_due(truths: &Truths, place: usize) -> bool
    requires place { place < length truths.now.current.items }
    requires flags { HaveFlags (length truths.now.current.items) truths.now }
    ensures { result ≡ flag_at (due_flags truths.now) place }
{
    truths.current[place] && !(truths.at_arrival[place] && truths.after_handlers[place])
}
