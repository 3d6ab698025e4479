//! Changes of slopes and absolute row sums with changes of levels.

ghost use Rattle.std.specs.Prelude.{◌≡◌, ◌<◌, ◌-ℤ◌, ◌*ℤ◌, ℕ, pos, length};
ghost use Rattle.qss_states.specs.Prelude.{IsWithin, int_at, state_count, row_coefficient, mode_coefficient_at, reading_rows, uses_of, IsWritten, IsLevel, IsState};
ghost use Rattle.qss_states.specs.EventContexts.{IsMode, CanShift, CanFollow, AreSumsAfterChange, change_of_sum, new_sums, new_slopes};
ghost use Rattle.qss_states.specs.RowSums.{taken_by};
ghost use Rattle.qss_states.specs.declared.row_sum_changes.RowSum.TheVariants as sum;

use crate::event_contexts::{Mode, NewLevels};
use qss_machine::Uses;
use qss_quant::Integrator;

/// A sum of a row over levels, in units of 2^-(f+p+k): its slope, or its absolute row sum
/// (`Weight`), which is the sum of absolute values.
#[derive(Clone, Copy)]
pub enum RowSum {
    Slope,
    Weight,
}

/// The change of the level of a state, in units of 2^-f and at most 2^43 in absolute value.
#[derive(Clone, Copy)]
pub(crate) struct LevelChange {
    pub state: u32,
    pub old: i64,
    pub new: i64,
}

/// Updates the slopes of all rows, at these discrete values, for the new levels of the moved
/// states. The old levels are those of their lines.
pub(crate) fn update_sums_of_slopes(
    at: &NewLevels,
    d: &[i64],
    lines: &[Integrator],
    slopes: &mut [i128],
)
    requires { CanFollow sum.Slope at.now d.now slopes.old lines.now }
    ensures { slopes.new ≡ new_slopes at.now d.now }
{
    update_all_row_sums(RowSum::Slope, at, d, lines, slopes);
}

/// Updates the sums of all rows, at these discrete values, for the new levels of the moved states.
/// The old levels are those of their lines.
#[inline(always)]
pub(crate) fn update_all_row_sums(
    kind: RowSum,
    at: &NewLevels,
    d: &[i64],
    lines: &[Integrator],
    sums: &mut [i128],
)
    requires { CanFollow kind at.now d.now sums.old lines.now }
    ensures { sums.new ≡ new_sums kind at.now d.now }
{
    for state in at.moved {
        let j = *state as usize;
        let line = &lines[j];
        let old = row_sum_level(kind, line.level);
        let new = row_sum_level(kind, at.levels[j]);
        let change = LevelChange {
            state: *state,
            old,
            new,
        };
        let mode = Mode {
            machine: at.machine,
            discretes: d,
        };
        update_row_sums(kind, &mode, at.uses, &change, sums);
    }
}

// The level as a factor of a sum: itself, or its absolute value.
fn row_sum_level(kind: RowSum, level: i64) -> i64
    requires { IsLevel level }
    ensures value { result ≡ taken_by kind level }
    ensures bound { IsLevel result }
{
    match kind {
        RowSum::Slope => level,
        RowSum::Weight => level.abs(),
    }
}

// Updates the sums of the rows that read a state, for the change of its level.
#[inline(always)]
fn update_row_sums(kind: RowSum, at: &Mode, uses: &Uses, change: &LevelChange, sums: &mut [i128])
    requires allowed { CanShift at.now change.now }
    requires uses { uses.now ≡ uses_of at.now.machine.now }
    requires sums { length sums.old ≡ state_count at.now.machine.now }
    requires small_sums { (j : ℕ) → j < state_count at.now.machine.now
        → IsWithin 100 (int_at sums.old j) }
    ensures { AreSumsAfterChange kind at.now change.now sums.old sums.new }
{
    let rows = uses.rows_of(change.state);
    let coefficients = uses.coefficients_of(change.state);
    for place in 0..rows.len() {
        let row = rows[place];
        sums[row as usize] += sum_difference(kind, at, coefficients[place], row, change);
    }
}

// The change of a sum of a row if a state changes its level. `own` is the coefficient of the state
// in the row without products.
#[inline(always)]
fn sum_difference(kind: RowSum, at: &Mode, own: i64, row: u32, change: &LevelChange) -> i128
    requires allowed { CanShift at.now change.now }
    requires row { row < state_count at.now.machine.now }
    requires own { own ≡ row_coefficient at.now.machine.now row change.now.state }
    ensures value { result ≡ change_of_sum kind at.now row change.now }
    ensures bound { IsState result }
{
    let mode = mode_for_sum_change(at, own, row, change.state);
    slope_sum_change(row_sum_mode(kind, mode), change.old, change.new)
}

// The coefficient of a state in a row in the current mode. `own` is its coefficient without
// products.
#[inline(always)]
fn mode_for_sum_change(at: &Mode, own: i64, row: u32, state: u32) -> i64
    requires mode { IsMode at.now }
    requires row { row < state_count at.now.machine.now }
    requires state { state < state_count at.now.machine.now }
    requires own { own ≡ row_coefficient at.now.machine.now row state }
    ensures value { result
        ≡ mode_coefficient_at at.now.machine.now row state at.now.discretes.now }
    ensures bound { IsWithin 44 result }
{
    let right_side = &at.machine.rows.as_slice()[row as usize];
    if right_side.products.as_slice().is_empty() {
        return own;
    }
    at.machine.mode_coef_from(own, row, state, at.discretes) as i64
}

// The coefficient in the current mode times the change of a level.
fn slope_sum_change(coefficient: i64, old: i64, new: i64) -> i128
    requires coefficient { IsWithin 44 coefficient }
    requires old { IsLevel old }
    requires new { IsLevel new }
    ensures value { result ≡ coefficient *ℤ (new -ℤ old) }
    ensures bound { IsState result }
{
    let change = new - old;
    i128::from(coefficient) * i128::from(change)
}

// The coefficient in the current mode as a factor of a sum: itself, or its absolute value.
fn row_sum_mode(kind: RowSum, coefficient: i64) -> i64
    requires { IsWithin 44 coefficient }
    ensures value { result ≡ taken_by kind coefficient }
    ensures bound { IsWithin 44 result }
{
    match kind {
        RowSum::Slope => coefficient,
        RowSum::Weight => coefficient.abs(),
    }
}
