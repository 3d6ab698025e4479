//! Fires a branch of a clause: appends its row, and runs its assignments and reinitializations in
//! order. A value that exceeds its limit ends the branch.

ghost use Rattle.std.specs.Prelude.{◌≡◌, ◌+◌, ◌<◌, ◌≤◌, ◌^◌, ◌++◌, ◌∷◌, [], if◌then◌else◌, length, pos, Some, None, All, fold, slice_set};
ghost use Rattle.qss_hand.specs.Prelude.{nearest_of, exceeds, bits_of_level, bits_of_state, IsBounded, IsAction, state_count, discrete_count, value_of, run_action, fire_row, run_branch};
ghost use Rattle.qss_hand.specs.Works.{AreValuesOf, handling_of, values_after, overflow_of, clause_at, branch_at};
ghost use Rattle.qss_machine.specs.declared.machine_parts.RowKind.TheVariants as kind;

use crate::work::Work;
use mu_num::{LEVEL_BITS, STATE_BITS, exceeds_power_of_two, near_div, unit};
use qss_machine::{Action, Form, Machine, Row, RowKind};

/// The error of a number that exceeds its limit. In absolute value, the limit is 2^43 for a level
/// and for a discrete variable, 2^88 for a state and for an absolute row sum, and 2^44 for a mode
/// coefficient. `var` is the index of the variable. For a number of a row, this variable is the
/// state of the row.
#[derive(Clone, Copy, PartialEq, Eq, Debug, Drop)]
pub struct Over {
    pub var: u32,
}

/// Fires a branch of a clause. Both are indices from 0. It appends the row of the branch, and runs
/// the statements in order, with a row each. It stops at the first statement whose value exceeds
/// its limit. That value is not assigned. It allocates no memory.
pub fn fire(m: &Machine, clause: u32, branch: u32, w: &mut Work) -> Result<(), Over>
    requires clause { clause < length m.now.clauses }
    requires branch { branch < length (clause_at m.now clause).branches }
    requires fits { AreValuesOf m.now w.old }
    requires room { length w.old.log + 1 + length (branch_at m.now clause branch).actions
        ≤ w.old.room }
    ensures values { w.new
        ≡ values_after w.old
        (run_branch m.now w.old.tick w.old.pre clause branch (handling_of w.old)
        (branch_at m.now clause branch).actions) }
    ensures overflow { overflow_of result
        ≡ (run_branch m.now w.old.tick w.old.pre clause branch (handling_of w.old)
        (branch_at m.now clause branch).actions).overflow }
    ensures fits { AreValuesOf m.now w.new }
{
    let branches = m.clauses.as_slice()[clause as usize].branches.as_slice();
    let actions = branches[branch as usize].actions.as_slice();
    note(w, clause, branch);
    run_statements(m, actions, w)
}

// Appends the row of a branch that fires.
fn note(w: &mut Work, clause: u32, branch: u32)
    requires { length w.old.log < w.old.room }
    ensures { w.new ≡ record w.old { log = w.old.log ++ fire_row w.old.tick clause branch ∷ [] } }
{
    let row = Row {
        tick: w.tick,
        kind: RowKind::When { clause, branch },
        var: 0,
        level: 0,
        state: 0,
    };
    w.note(row);
}

/// Runs statements in order, up to the first whose value exceeds its limit.
pub(crate) fn run_statements(m: &Machine, actions: &[Action], w: &mut Work) -> Result<(), Over>
    requires each { All (IsAction (state_count m.now) (discrete_count m.now)) actions.now }
    requires fits { AreValuesOf m.now w.old }
    requires room { length w.old.log + length actions.now ≤ w.old.room }
    ensures values { w.new
        ≡ values_after w.old
        (fold (run_action m.now w.old.tick w.old.pre) (handling_of w.old) actions.now) }
    ensures overflow { overflow_of result
        ≡ (fold (run_action m.now w.old.tick w.old.pre) (handling_of w.old) actions.now).overflow }
    ensures fits { AreValuesOf m.now w.new }
{
    for action in actions {
        run_statement(m, action, w)?;
    }
    Ok(())
}

// Runs a statement. A value that exceeds its limit is not assigned.
fn run_statement(m: &Machine, action: &Action, w: &mut Work) -> Result<(), Over>
    requires action { IsAction (state_count m.now) (discrete_count m.now) action.now }
    requires fits { AreValuesOf m.now w.old }
    requires room { length w.old.log < w.old.room }
    ensures values { w.new
        ≡ values_after w.old
        (run_action m.now w.old.tick w.old.pre (handling_of w.old) action.now) }
    ensures overflow { overflow_of result
        ≡ (run_action m.now w.old.tick w.old.pre (handling_of w.old) action.now).overflow }
{
    match action {
        Action::Set { var, form } => {
            let value = assigned(m, form, 2 * m.p + m.k, w);
            let states = m.states.as_slice().len() as u32;
            let place = *var - states;
            run_set_statement(w, *var, place, value)
        }
        Action::Reinit { var, form } => {
            let value = assigned(m, form, m.p, w);
            run_reinit_statement(w, *var, value)
        }
    }
}

// The value of a form, divided by 2^bits and rounded to nearest, ties to even.
fn assigned(m: &Machine, form: &Form, bits: u8, w: &Work) -> i128
    requires form { IsBounded form.now }
    requires fits { AreValuesOf m.now w.now }
    requires bits { bits ≤ 84 }
    ensures { result
        ≡ nearest_of (value_of m.now form.now w.now.x w.now.d w.now.pre w.now.tick)
        (pos (2 ^ bits)) }
{
    let value = m.form_value(
        form,
        w.x.as_slice(),
        w.d.as_slice(),
        w.pre.as_slice(),
        w.tick,
    );
    near_div(value, unit(bits))
}

// Assigns a value to a discrete variable. `place` is its index among the discrete variables.
fn run_set_statement(w: &mut Work, var: u32, place: u32, value: i128) -> Result<(), Over>
    requires place { place < length w.old.d }
    requires room { length w.old.log < w.old.room }
    ensures values { w.new
        ≡ (if exceeds bits_of_level value
        then w.old
        else
        record w.old {
          d = slice_set w.old.d place value;
          log = w.old.log
              ++ record {
                tick = w.old.tick;
                kind = kind.Set;
                var = var;
                level = value;
                state = pos 0;
              }
              ∷ [];
        }) }
    ensures overflow { overflow_of result ≡ (if exceeds bits_of_level value then Some var else None) }
{
    if exceeds_power_of_two(value, LEVEL_BITS) {
        return Err(Over { var });
    }
    let level = value as i64;
    let row = Row {
        tick: w.tick,
        kind: RowKind::Set,
        var,
        level,
        state: 0,
    };
    w.assign(place, level, row);
    Ok(())
}

// Reinitializes a state with a value.
fn run_reinit_statement(w: &mut Work, var: u32, value: i128) -> Result<(), Over>
    requires var { var < length w.old.x }
    requires room { length w.old.log < w.old.room }
    ensures values { w.new
        ≡ (if exceeds bits_of_state value
        then w.old
        else
        record w.old {
          x = slice_set w.old.x var value;
          log = w.old.log
              ++ record {
                tick = w.old.tick;
                kind = kind.Reinit;
                var = var;
                level = pos 0;
                state = value;
              }
              ∷ [];
        }) }
    ensures overflow { overflow_of result ≡ (if exceeds bits_of_state value then Some var else None) }
{
    if exceeds_power_of_two(value, STATE_BITS) {
        return Err(Over { var });
    }
    w.x[var as usize] = value;
    let row = Row {
        tick: w.tick,
        kind: RowKind::Reinit,
        var,
        level: 0,
        state: value,
    };
    w.note(row);
    Ok(())
}
