//! Updates the slopes of the states whose rows read a changed variable, after requantizations and
//! after handlers. The lines of these states continue at the new slopes.

ghost use Rattle.std.specs.Prelude.{◌≡◌, ◌+◌, ◌<◌, ◌≤◌, ◌∷◌, [], ℕ, All, length, pos, true, false, vec_capacity, flat_map, List, ℤ, None};
ghost use Rattle.qss_states.specs.Prelude.{IsWithin, int_at, state_count, discrete_count, level_unit, slope_at, quantum_of, reading_rows, uses_of, state_at, IsLineWithinQuantum, due_at, is_listed, IsWritten, tick_limit, IsLevel, IsSlope};
ghost use Rattle.qss_states.specs.EventContexts.{AreAssignedOrMarked, AreAssignedSums, HaveContinuedAt, IsNewSlope};
ghost use Rattle.qss_states.specs.Variables.{AreVariablesOf};
ghost use Rattle.qss_states.specs.Words.{MaySchedule, line_at, MayMove, IsRestartedFrom, AreScheduled, MayUpdateSlope, IsOneScheduled, HaveSlopesUpdated, CanAddUp, CanSchedule, CanUpdateSlopes, CanScheduleOne, AreStatesOf, CanUpdateAfterHandlers, CanRestart, first_row_exceeding, new_slopes, states_left, WereSums, has_level_and_slope, IsCounted, goes_from, replaced_lines_from, IsCountedFrom, AreReaderSums, AreReadersMarkedOr, AreMarkedOr, IsSlopeAt};
ghost use Rattle.qss_states.specs.declared.row_sum_changes.RowSum.TheVariants as sum;

use crate::event_contexts::{HandlerResult, NewLevels, NewSlopes};
use crate::row_sum_changes::update_sums_of_slopes;
use crate::sum_marks::{is_sum_marked, mark_reader_sums};
use qss_events::event_tick_leaving_level;
use qss_quant::{Integrator, Steps};
use qss_sched::Agenda;
use std::sync::ledger::Ledger;

/// Restarts the moved states at a tick after handlers, from the states after the handlers. It also
/// continues the states whose rows read a moved state or an assigned discrete variable. All get
/// their new slopes and due ticks. `steps` counts the lines that move.
pub(crate) fn continue_states<L: Ledger>(
    at: &NewSlopes,
    lines: &mut [Integrator],
    agenda: &mut Agenda,
    steps: &mut Steps<L>,
)
    requires before { (slopes : List ℤ)
        × CanRestart at.now.event at.now.handled slopes lines.old agenda.old }
    requires slopes { at.now.slopes.now ≡ new_slopes at.now.event at.now.handled.discretes.now }
    ensures continued { HaveContinuedAt at.now lines.old agenda.old lines.new agenda.new }
    ensures counted { steps.new
        ≡ steps.old
        + replaced_lines_from (state_count at.now.event.machine.now) at.now.event.tick
        (states_left at.now.event at.now.handled lines.old) at.now.event.levels.now
        at.now.slopes.now lines.old }
{
    restart_state_slopes(at, lines, agenda, steps);
    update_reader_slopes(at, at.event.moved, lines, agenda, steps);
    update_reader_slopes(at, at.handled.assigned, lines, agenda, steps);
}

/// Updates the slopes of all rows for the new levels of the moved states and the new values of the
/// assigned discrete variables.
pub(crate) fn update_slopes_from_handlers(
    at: &NewLevels,
    handled: &HandlerResult,
    lines: &[Integrator],
    slopes: &mut [i128],
)
    requires allowed { CanUpdateAfterHandlers at.now handled.now lines.now }
    requires light { first_row_exceeding at.now handled.now.discretes.now ≡ None }
    requires before { WereSums sum.Slope at.now handled.now.before.now slopes.old lines.now }
    ensures { slopes.new ≡ new_slopes at.now handled.now.discretes.now }
{
    update_sums_of_slopes(at, handled.before, lines, slopes);
    update_slopes_from_readers(at, handled, slopes);
}

// Recomputes the slopes of the rows that read one of the assigned discrete variables, each once.
// The list of rows of one variable has no row twice. So marks are needed only for several
// variables.
fn update_slopes_from_readers(at: &NewLevels, handled: &HandlerResult, slopes: &mut [i128])
    requires uses { at.now.uses.now ≡ uses_of at.now.machine.now }
    requires variables { AreVariablesOf at.now.machine.now handled.now.assigned.now }
    requires allowed { CanAddUp at.now.machine.now at.now.levels.now handled.now.discretes.now
        slopes.old }
    ensures { AreAssignedSums (IsNewSlope at.now handled.now) at.now handled.now slopes.old
        slopes.new }
{
    let variables = handled.assigned;
    if variables.len() == 1 {
        update_slopes_from_rows(at, at.uses.rows_of(variables[0]), handled, slopes);
        return;
    }
    mark_reader_sums(at.uses, variables, slopes);
    sum_marked_readers(at, handled, slopes);
}

// Recomputes the slopes of these rows from all of their terms.
fn update_slopes_from_rows(
    at: &NewLevels,
    rows: &[u32],
    handled: &HandlerResult,
    slopes: &mut [i128],
)
    requires rows { All (λ row. row < state_count at.now.machine.now) rows.now }
    requires allowed { CanAddUp at.now.machine.now at.now.levels.now handled.now.discretes.now
        slopes.old }
    ensures { IsWritten (pos 0) (IsNewSlope at.now handled.now) rows.now slopes.old slopes.new }
{
    for row in rows {
        slopes[*row as usize] = at.machine.slope(*row, at.levels, handled.discretes);
    }
}

// Computes the slopes of the rows that read one of the assigned discrete variables and are marked.
fn sum_marked_readers(at: &NewLevels, handled: &HandlerResult, slopes: &mut [i128])
    requires uses { at.now.uses.now ≡ uses_of at.now.machine.now }
    requires variables { AreVariablesOf at.now.machine.now handled.now.assigned.now }
    requires allowed { CanAddUp at.now.machine.now at.now.levels.now handled.now.discretes.now
        slopes.old }
    requires marked { AreAssignedOrMarked (IsNewSlope at.now handled.now) at.now handled.now
        slopes.old }
    ensures { AreAssignedSums (IsNewSlope at.now handled.now) at.now handled.now slopes.old
        slopes.new }
{
    for var in handled.assigned {
        sum_marked_rows(at, at.uses.rows_of(*var), handled, slopes);
    }
}

// Computes the slopes of these rows that are marked, from all of their terms.
fn sum_marked_rows(at: &NewLevels, rows: &[u32], handled: &HandlerResult, slopes: &mut [i128])
    requires rows { All (λ row. row < state_count at.now.machine.now) rows.now }
    requires allowed { CanAddUp at.now.machine.now at.now.levels.now handled.now.discretes.now
        slopes.old }
    requires marked { AreMarkedOr (IsNewSlope at.now handled.now) rows.now slopes.old }
    ensures { IsWritten (pos 0) (IsNewSlope at.now handled.now) rows.now slopes.old slopes.new }
{
    for row in rows {
        if !is_sum_marked(slopes[*row as usize]) {
            continue;
        }
        slopes[*row as usize] = at.machine.slope(*row, at.levels, handled.discretes);
    }
}

// Restarts the lines of the moved states at a tick.
fn restart_state_slopes<L: Ledger>(
    at: &NewSlopes,
    lines: &mut [Integrator],
    agenda: &mut Agenda,
    steps: &mut Steps<L>,
)
    requires on { CanSchedule at.now lines.old agenda.old }
    requires states { AreStatesOf at.now.event.machine.now at.now.handled.states.now }
    requires may_move { MayMove at.now.event.tick lines.old }
    requires near { (j : ℕ) → is_listed at.now.event.moved.now j ≡ true
        → IsLineWithinQuantum (level_unit at.now.event.machine.now)
        (int_at at.now.handled.states.now j) (int_at at.now.event.levels.now j)
        (quantum_of at.now.event.machine.now j (int_at at.now.event.levels.now j)) }
    ensures go_on { AreScheduled at.now.event.machine.now at.now.event.tick
        at.now.event.levels.now at.now.slopes.now at.now.event.moved.now
        (int_at at.now.handled.states.now)
        (record { lines = lines.old; dues = agenda.old })
        (record { lines = lines.new; dues = agenda.new }) }
    ensures kept { (j : ℕ)
        → goes_from at.now.event.tick (int_at at.now.handled.states.now j)
        (int_at at.now.event.levels.now j) (int_at at.now.slopes.now j)
        (line_at lines.old j) ≡ true
        → line_at lines.new j ≡ line_at lines.old j }
    ensures counted { (states : List ℤ)
        → ((j : ℕ) → is_listed at.now.event.moved.now j ≡ true
        → int_at states j ≡ int_at at.now.handled.states.now j)
        → IsCountedFrom (state_count at.now.event.machine.now) at.now.event.tick states
        at.now.event.levels.now at.now.slopes.now lines.old lines.new steps.old steps.new }
{
    for j in at.event.moved {
        restart_state_slope(at, *j, lines, agenda, steps);
    }
}

// Restarts the line of a moved state at a tick from its state, at its level and slope. It schedules
// the tick at which the state leaves its quantum. A line that already continues in this way is not
// changed.
#[inline(always)]
fn restart_state_slope<L: Ledger>(
    at: &NewSlopes,
    j: u32,
    lines: &mut [Integrator],
    agenda: &mut Agenda,
    steps: &mut Steps<L>,
)
    requires allowed { CanScheduleOne at.now j lines.old agenda.old }
    requires states { AreStatesOf at.now.event.machine.now at.now.handled.states.now }
    requires later { (line_at lines.old j).tick ≤ at.now.event.tick }
    requires size_limit { IsWithin 89 (state_at (line_at lines.old j) at.now.event.tick) }
    requires near { IsLineWithinQuantum (level_unit at.now.event.machine.now)
        (int_at at.now.handled.states.now j) (int_at at.now.event.levels.now j)
        (quantum_of at.now.event.machine.now j (int_at at.now.event.levels.now j)) }
    ensures goes_on { IsOneScheduled at.now.event.machine.now at.now.event.tick
        at.now.event.levels.now at.now.slopes.now j (int_at at.now.handled.states.now j)
        (record { lines = lines.old; dues = agenda.old })
        (record { lines = lines.new; dues = agenda.new }) }
    ensures kept { goes_from at.now.event.tick (int_at at.now.handled.states.now j)
        (int_at at.now.event.levels.now j) (int_at at.now.slopes.now j)
        (line_at lines.old j) ≡ true
        → line_at lines.new j ≡ line_at lines.old j }
    ensures counted { (states : List ℤ) → int_at states j ≡ int_at at.now.handled.states.now j
        → IsCountedFrom (state_count at.now.event.machine.now) at.now.event.tick states
        at.now.event.levels.now at.now.slopes.now lines.old lines.new steps.old steps.new }
{
    let here = Integrator {
        tick: at.event.tick,
        x: at.handled.states[j as usize],
        slope: at.slopes[j as usize],
        level: at.event.levels[j as usize],
    };
    replace_line(&mut lines[j as usize], &here, steps);
    agenda.set(j, event_tick_leaving_level(at.event.machine, j, &here));
}

// Replaces a line by `here`, from the tick of `here` on, unless it already continues in this way.
// It returns whether it was replaced.
#[inline(always)]
fn replace_line<L: Ledger>(line: &mut Integrator, here: &Integrator, steps: &mut Steps<L>) -> bool
    requires later { line.old.tick ≤ here.now.tick }
    requires size_limit { IsWithin 89 (state_at line.old here.now.tick) }
    ensures moved { result ≡ true → (line.new ≡ here.now) × (steps.new ≡ steps.old + 1) }
    ensures kept { state_at line.old here.now.tick ≡ here.now.x → line.old.slope ≡ here.now.slope
        → line.old.level ≡ here.now.level → result ≡ false }
    ensures left { result ≡ false
        → (line.new ≡ line.old) × (state_at line.old here.now.tick ≡ here.now.x)
        × (line.old.slope ≡ here.now.slope) × (line.old.level ≡ here.now.level)
        × (steps.new ≡ steps.old) }
{
    if line.slope == here.slope && line.level == here.level && line.value_at(here.tick) == here.x {
        return false;
    }
    line.move_to(here.tick, steps);
    *line = *here;
    true
}

// Continues the lines of the states whose rows read one of these variables from a tick at their
// new levels and slopes.
#[inline(always)]
fn update_reader_slopes<L: Ledger>(
    at: &NewSlopes,
    variables: &[u32],
    lines: &mut [Integrator],
    agenda: &mut Agenda,
    steps: &mut Steps<L>,
)
    requires variables { All
        (λ var. var < state_count at.now.event.machine.now
        + discrete_count at.now.event.machine.now) variables.now }
    requires allowed { CanUpdateSlopes at.now lines.old agenda.old }
    ensures resloped { HaveSlopesUpdated at.now.event.machine.now at.now.event.tick
        at.now.event.levels.now at.now.slopes.now
        (flat_map (reading_rows at.now.event.machine.now) variables.now)
        (record { lines = lines.old; dues = agenda.old })
        (record { lines = lines.new; dues = agenda.new }) }
    ensures counted { IsCounted (state_count at.now.event.machine.now) at.now.event.levels.now
        at.now.slopes.now lines.old lines.new steps.old steps.new }
{
    for var in variables {
        let readers = at.event.uses.rows_of(*var);
        update_slopes(at, readers, lines, agenda, steps);
    }
}

// Continues the lines of these states from a tick at their new levels and slopes.
#[inline(always)]
fn update_slopes<L: Ledger>(
    at: &NewSlopes,
    states: &[u32],
    lines: &mut [Integrator],
    agenda: &mut Agenda,
    steps: &mut Steps<L>,
)
    requires states { All (λ j. j < state_count at.now.event.machine.now) states.now }
    requires allowed { CanUpdateSlopes at.now lines.old agenda.old }
    ensures resloped { HaveSlopesUpdated at.now.event.machine.now at.now.event.tick
        at.now.event.levels.now at.now.slopes.now
        states.now
        (record { lines = lines.old; dues = agenda.old })
        (record { lines = lines.new; dues = agenda.new }) }
    ensures counted { IsCounted (state_count at.now.event.machine.now) at.now.event.levels.now
        at.now.slopes.now lines.old lines.new steps.old steps.new }
{
    for j in states {
        update_slope(at, *j, lines, agenda, steps);
    }
}

// Continues the line of a state from a tick at its new slope. A line that already has this slope is
// not changed. A line that is already at the tick has it.
#[inline(always)]
fn update_slope<L: Ledger>(
    at: &NewSlopes,
    j: u32,
    lines: &mut [Integrator],
    agenda: &mut Agenda,
    steps: &mut Steps<L>,
)
    requires allowed { CanScheduleOne at.now j lines.old agenda.old }
    requires ready { MayUpdateSlope at.now.event.machine.now at.now.event.tick
        (int_at at.now.event.levels.now j) (int_at at.now.slopes.now j)
        j (line_at lines.old j) (due_at agenda.old j) }
    ensures goes_on { IsOneScheduled at.now.event.machine.now at.now.event.tick
        at.now.event.levels.now at.now.slopes.now j
        (state_at (line_at lines.old j) at.now.event.tick)
        (record { lines = lines.old; dues = agenda.old })
        (record { lines = lines.new; dues = agenda.new }) }
    ensures kept { has_level_and_slope (int_at at.now.event.levels.now j)
        (int_at at.now.slopes.now j)
        (line_at lines.old j)
        ≡ true
        → line_at lines.new j ≡ line_at lines.old j }
    ensures counted { IsCounted (state_count at.now.event.machine.now) at.now.event.levels.now
        at.now.slopes.now lines.old lines.new steps.old steps.new }
{
    let line = &mut lines[j as usize];
    if line.tick == at.event.tick || line.slope == at.slopes[j as usize] {
        return;
    }
    line.move_to(at.event.tick, steps);
    schedule_new_slope(at, j, lines, agenda);
}

// Sets the slope and the level of a state whose line is at a tick, and schedules the tick at which
// it leaves its quantum.
#[inline(always)]
fn schedule_new_slope(at: &NewSlopes, j: u32, lines: &mut [Integrator], agenda: &mut Agenda)
    requires allowed { CanScheduleOne at.now j lines.old agenda.old }
    requires ready { MaySchedule at.now.event.machine.now at.now.event.tick j
        (int_at at.now.event.levels.now j) (line_at lines.old j) }
    ensures goes_on { IsOneScheduled at.now.event.machine.now at.now.event.tick
        at.now.event.levels.now at.now.slopes.now j
        (state_at (line_at lines.old j) at.now.event.tick)
        (record { lines = lines.old; dues = agenda.old })
        (record { lines = lines.new; dues = agenda.new }) }
{
    let slope = at.slopes[j as usize];
    let level = at.event.levels[j as usize];
    let line = &mut lines[j as usize];
    set_slope_and_level(line, slope, level);
    agenda.set(j, event_tick_leaving_level(at.event.machine, j, line));
}

// Sets the slope and the level of a line from its tick on.
fn set_slope_and_level(line: &mut Integrator, slope: i128, level: i64)
    requires slope { IsSlope slope }
    requires level { IsLevel level }
    ensures { line.new ≡ record line.old { slope = slope; level = level } }
{
    line.slope = slope;
    line.level = level;
}
