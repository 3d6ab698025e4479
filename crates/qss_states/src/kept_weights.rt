//! Absolute row sums of all rows, and their changes with levels and discrete values. They are
//! maintained only after a value exceeded the bound up to which no row exceeds its limits.

ghost use Rattle.std.specs.Prelude.{◌≡◌, ◌↔◌, ◌<◌, ◌∷◌, ◌++◌, [], ℕ, All, IsTrue, None, Some, true, false, length, position, List, flat_map, slice_index_or, pos};
ghost use Rattle.qss_states.specs.Prelude.{overflow_of, state_count, exceeds_row_limits, uses_of, weights_at, IsWritten};
ghost use Rattle.qss_states.specs.EventContexts.{AreAssignedOrMarked, AreAssignedSums, IsNewWeight};
ghost use Rattle.qss_states.specs.Words.{AreLevelsOf, AreDiscretes, AreWeights, StayKept, AreNewLevels, AreNewLevelsAt, IsHandlerResult, CanUpdateAfterHandlers, first_row_exceeding, new_sums, WereWeights, CanFollow, WereSums, IsUpTo, AreUpToAt, IsSafeBound, comes_before, IsLeastPast, IsWeighed, CanAddUp, HasSums, AreReaderSums, AreReadersMarkedOr, AreMarkedOr};
ghost use Rattle.qss_states.specs.declared.row_sum_changes.RowSum.TheVariants as sum;

use crate::event_contexts::{HandlerResult, NewLevels};
use crate::row_sum_changes::{RowSum, update_all_row_sums};
use crate::safe_bounds::{are_places_within, start_row_bound};
use crate::sum_marks::{is_sum_marked, mark_reader_sums};
use mu_num::{WEIGHT_BITS, exceeds_power_of_two};
use qss_hand::Over;
use qss_machine::{Machine, Uses};
use qss_quant::Integrator;

/// The absolute row sums of all rows. Up to a bound on levels and discrete values no row exceeds
/// its limits. The sums are maintained only after a value exceeded this bound.
#[derive(Drop)]
pub struct Weights {
    /// The bound, in units of 2^-f and at most 2^43. It is unspecified if the sums are maintained.
    pub bound: u64,
    /// Whether the sums are maintained.
    pub kept: bool,
    /// The absolute row sums by row, in units of 2^-(f+p+k) and at most 2^88, if they are
    /// maintained.
    pub of_rows: Vec<i128>,
}

impl Weights {
    /// Initializes the sums at levels and discrete values, in units of 2^-f, at which no row
    /// exceeds its limits. The bound is the greatest number that all rows allow, among the limit of
    /// levels and its successive halves. The sums are maintained only if one of these values is
    /// greater than the bound, or if there is no bound.
    pub fn start(&mut self, m: &Machine, levels: &[i64], d: &[i64])
        requires levels { AreLevelsOf m.now levels.now d.now }
        requires weights { length self.old.of_rows.items ≡ state_count m.now }
        requires light { position (exceeds_row_limits m.now levels.now d.now) m.now.rows ≡ None }
        ensures weights { AreWeights m.now levels.now d.now self.new }
        ensures bound { self.new.kept ≡ false → IsSafeBound m.now (Some self.new.bound) }
        ensures kept { self.new.kept ≡ true → (bound : ℕ) → IsSafeBound m.now (Some bound)
            → All (IsUpTo bound) levels.now → All (IsUpTo bound) d.now → ⊥ }
    {
        if let Some(bound) = start_row_bound(m, levels, d) {
            self.bound = bound;
            self.kept = false;
            return;
        }
        self.kept = true;
        weigh_all_kept_rows(m, levels, d, self.of_rows.as_mut_slice());
    }

    /// Updates the sums for the new levels of the moved states and the new values of the assigned
    /// discrete variables. The old levels are those of the lines. The error is the least row that
    /// exceeds its limits. After an error, the sums are unspecified. The sums are maintained from
    /// the first time that a moved level or an assigned value is greater than the bound.
    pub(crate) fn update_weights_after_handlers(
        &mut self,
        at: &NewLevels,
        handled: &HandlerResult,
        lines: &[Integrator],
    ) -> Result<(), Over>
        requires allowed { CanUpdateAfterHandlers at.now handled.now lines.now }
        requires before { WereWeights at.now handled.now.before.now self.old lines.now }
        ensures overflow { overflow_of result ≡ first_row_exceeding at.now handled.now.discretes.now }
        ensures weights { overflow_of result ≡ None
            → AreWeights at.now.machine.now
            at.now.levels.now handled.now.discretes.now self.new }
        ensures stay { StayKept self.old self.new }
        ensures off { self.old.kept ≡ false
            → AreUpToAt self.old.bound at.now.levels.now 0 at.now.moved.now
            → AreUpToAt self.old.bound handled.now.discretes.now
            (state_count at.now.machine.now) handled.now.assigned.now
            → self.new.kept ≡ false }
    {
        if self.kept {
            let of_rows = self.of_rows.as_mut_slice();
            return refresh_row_sums_after_handlers(at, handled, lines, of_rows);
        }
        if are_new_values_within(at, handled, self.bound) {
            return Ok(());
        }
        self.kept = true;
        let d = handled.discretes;
        let of_rows = self.of_rows.as_mut_slice();
        weigh_kept_within_limit(at.machine, at.levels, d, of_rows)
    }
}

/// Computes the absolute row sums of all rows, none of which exceeds its limits.
pub(crate) fn weigh_all_kept_rows(m: &Machine, levels: &[i64], d: &[i64], weights: &mut [i128])
    requires { CanAddUp m.now levels.now d.now weights.old }
    ensures { weights.new ≡ weights_at m.now levels.now d.now }
{
    for row in 0..weights.len() {
        weights[row] = m.weight(row as u32, levels, d);
    }
}

/// The error of the least row that reads one of these variables and whose absolute row sum exceeds
/// the limit, if it is before the row that was found. Otherwise what was found.
pub(crate) fn least_exceeding_reader(
    uses: &Uses,
    variables: &[u32],
    weights: &[i128],
    found: Result<(), Over>,
) -> Result<(), Over>
    requires variables { All (λ var. var < length uses.now.0) variables.now }
    requires rows { (var : ℕ) → var < length uses.now.0
        → All (λ row. row < length weights.now) (slice_index_or uses.now.0 var []) }
    ensures { (before : List ℕ) → IsLeastPast weights.now before (overflow_of found)
        → IsLeastPast weights.now
        (before ++ flat_map (λ var. slice_index_or uses.now.0 var []) variables.now)
        (overflow_of result) }
{
    let mut least = found;
    for var in variables {
        least = least_exceeding_row(weights, uses.rows_of(*var), least);
    }
    least
}

// The error of the least of these rows whose absolute row sum exceeds the limit, if it is before
// the row that was found. Otherwise what was found.
fn least_exceeding_row(weights: &[i128], rows: &[u32], found: Result<(), Over>) -> Result<(), Over>
    requires rows { All (λ row. row < length weights.now) rows.now }
    ensures { (before : List ℕ) → IsLeastPast weights.now before (overflow_of found)
        → IsLeastPast weights.now (before ++ rows.now) (overflow_of result) }
{
    let mut least = found;
    for row in rows {
        least = earlier_exceeding_row(weights, *row, least);
    }
    least
}

// The error of this row if its absolute row sum exceeds the limit and it is before the row that
// was found. Otherwise what was found.
fn earlier_exceeding_row(weights: &[i128], row: u32, found: Result<(), Over>) -> Result<(), Over>
    requires row { row < length weights.now }
    ensures { (rows : List ℕ) → IsLeastPast weights.now rows (overflow_of found)
        → IsLeastPast weights.now (rows ++ row ∷ []) (overflow_of result) }
{
    if !is_row_before(found, row) {
        return found;
    }
    if exceeds_power_of_two(weights[row as usize], WEIGHT_BITS) {
        return Err(Over { var: row });
    }
    found
}

// Whether a row is before the row that was found, if any.
fn is_row_before(found: Result<(), Over>, row: u32) -> bool
    ensures { result ≡ comes_before (overflow_of found) row }
{
    match found {
        Ok(()) => true,
        Err(over) => row < over.var,
    }
}

/// Computes the absolute row sums of all rows. The error is the least row that exceeds its limits.
/// After an error, the sums are unspecified.
pub(crate) fn weigh_kept_within_limit(
    m: &Machine,
    levels: &[i64],
    d: &[i64],
    weights: &mut [i128],
) -> Result<(), Over>
    requires { HasSums m.now levels.now d.now weights.old }
    ensures overflow { overflow_of result
        ≡ position (exceeds_row_limits m.now levels.now d.now) m.now.rows }
    ensures weights { overflow_of result ≡ None
        → weights.new ≡ weights_at m.now levels.now d.now }
{
    for row in 0..weights.len() {
        let weight = weigh_kept_row(m, row as u32, levels, d);
        if exceeds_power_of_two(weight, WEIGHT_BITS) {
            return Err(Over { var: row as u32 });
        }
        weights[row] = weight;
    }
    Ok(())
}

// The absolute row sum of a row, or a number above its limit if a coefficient in the current mode
// exceeds its limit.
fn weigh_kept_row(m: &Machine, row: u32, levels: &[i64], d: &[i64]) -> i128
    requires row { row < state_count m.now }
    requires levels { AreLevelsOf m.now levels.now d.now }
    ensures { IsWeighed m.now levels.now d.now row result }
{
    if m.mode_fits(row, d) {
        m.weight(row, levels, d)
    } else {
        i128::MAX
    }
}

/// Updates the absolute row sums of all rows for the new levels of the moved states and the new
/// values of the assigned discrete variables. The old levels are those of the lines. The error is
/// the least row that exceeds its limits. After an error, the sums are unspecified.
pub(crate) fn refresh_row_sums_after_handlers(
    at: &NewLevels,
    handled: &HandlerResult,
    lines: &[Integrator],
    weights: &mut [i128],
) -> Result<(), Over>
    requires allowed { CanUpdateAfterHandlers at.now handled.now lines.now }
    requires before { WereSums sum.Weight at.now handled.now.before.now weights.old lines.now }
    ensures overflow { overflow_of result ≡ first_row_exceeding at.now handled.now.discretes.now }
    ensures weights { overflow_of result ≡ None
        → weights.new ≡ new_sums sum.Weight at.now handled.now.discretes.now }
{
    update_all_row_sums(RowSum::Weight, at, handled.before, lines, weights);
    weigh_kept_readers(at, handled, weights);
    let least = least_exceeding_reader(at.uses, at.moved, weights, Ok(()));
    least_exceeding_reader(at.uses, handled.assigned, weights, least)
}

// Recomputes the absolute row sums of the rows that read one of the assigned discrete variables,
// each once.
fn weigh_kept_readers(at: &NewLevels, handled: &HandlerResult, weights: &mut [i128])
    requires uses { at.now.uses.now ≡ uses_of at.now.machine.now }
    requires assigned { AreDiscretes at.now.machine.now handled.now.assigned.now }
    requires allowed { HasSums at.now.machine.now at.now.levels.now handled.now.discretes.now
        weights.old }
    ensures { AreAssignedSums (IsNewWeight at.now handled.now) at.now handled.now weights.old
        weights.new }
{
    mark_reader_sums(at.uses, handled.assigned, weights);
    weigh_marked_readers(at, handled, weights);
}

// Computes the absolute row sums of the rows that read one of the assigned discrete variables and
// are marked.
fn weigh_marked_readers(at: &NewLevels, handled: &HandlerResult, weights: &mut [i128])
    requires uses { at.now.uses.now ≡ uses_of at.now.machine.now }
    requires assigned { AreDiscretes at.now.machine.now handled.now.assigned.now }
    requires allowed { HasSums at.now.machine.now at.now.levels.now handled.now.discretes.now
        weights.old }
    requires marked { AreAssignedOrMarked (IsNewWeight at.now handled.now) at.now handled.now
        weights.old }
    ensures { AreAssignedSums (IsNewWeight at.now handled.now) at.now handled.now weights.old
        weights.new }
{
    for var in handled.assigned {
        weigh_marked_rows(at, at.uses.rows_of(*var), handled, weights);
    }
}

// Computes the absolute row sums of these rows that are marked.
fn weigh_marked_rows(at: &NewLevels, rows: &[u32], handled: &HandlerResult, weights: &mut [i128])
    requires rows { All (λ row. row < state_count at.now.machine.now) rows.now }
    requires allowed { HasSums at.now.machine.now at.now.levels.now handled.now.discretes.now
        weights.old }
    requires marked { AreMarkedOr (IsNewWeight at.now handled.now) rows.now weights.old }
    ensures { IsWritten (pos 0) (IsNewWeight at.now handled.now) rows.now weights.old weights.new }
{
    for row in rows {
        if !is_sum_marked(weights[*row as usize]) {
            continue;
        }
        weights[*row as usize] = weigh_kept_row(at.machine, *row, at.levels, handled.discretes);
    }
}

// Whether the levels of the moved states and the values of the assigned discrete variables are at
// most a bound in absolute value.
fn are_new_values_within(at: &NewLevels, handled: &HandlerResult, bound: u64) -> bool
    requires ready { AreNewLevels at.now }
    requires handled { IsHandlerResult at.now.machine.now handled.now }
    ensures { IsTrue result ↔ (AreUpToAt bound at.now.levels.now 0 at.now.moved.now
        × AreUpToAt bound handled.now.discretes.now
        (state_count at.now.machine.now) handled.now.assigned.now) }
{
    if !are_places_within(at.levels, at.moved, 0, bound) {
        return false;
    }
    let states = at.levels.len() as u32;
    are_places_within(handled.discretes, handled.assigned, states, bound)
}
