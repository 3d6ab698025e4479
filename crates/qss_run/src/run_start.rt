//! The data of a simulator, and its store at tick 0.

ghost use Rattle.std.specs.Prelude.{◌≡◌, ◌+◌, ◌<◌, ◌≤◌, ℕ, IfOk, None, false, pos, length, vec_capacity};
ghost use Rattle.qss_run.specs.Prelude.{IsLevel, IsState, IsSlope, state_count, level_unit, quantum_of, start_snapshot, conditions, truths, snapshot_rows, uses_of, IsLineWithinQuantum, due_at, HasNone, HasOneEach, IsDue};
ghost use Rattle.qss_run.specs.ConditionPlaces.{AreConditionsOf, AreDetectorsAt};
ghost use Rattle.qss_run.specs.Stores.{snapshot_of, AreLinesStarted, CanStart, IsStoreAt, IsBlank};
ghost use Rattle.qss_machine.specs.declared.machine_parts.RowKind.TheVariants as kind;

use crate::event_steps::set_all_rows;
use crate::moment::Moment;
use crate::run_conditions::{ConditionValues, Conditions, blank_conditions};
use qss_events::{event_start_levels, event_tick_leaving_level};
use qss_hand::Work;
use qss_machine::{Machine, Row, RowKind, Uses};
use qss_quant::Integrator;
use qss_sched::{Agenda, repeat_value};
use qss_states::{States, Weights};
use std::alloc::{AllocError, Global};

/// The data of a simulator. `uses`: the rows and conditions that read each variable. `agenda`: the
/// event queue, with an index for each state, then for each condition, then one for conditions that
/// became true during the handlers (`rising`: whether one did). `work`: the values of handlers. A
/// state there has its value at the last tick at which it was due, reinitialized or read. `rows`:
/// the rows of the last event or of an overflow, the start rows, or the end rows.
#[derive(Drop)]
pub(crate) struct Store {
    pub conditions: Conditions,
    pub uses: Uses,
    pub states: States,
    pub moment: Moment,
    pub rising: bool,
    pub agenda: Agenda,
    pub work: Work,
    pub rows: Vec<Row>,
}

/// A store at tick 0, with the start rows.
pub(crate) fn start_run_store(alloc: Global, m: &Machine) -> Result<Store, AllocError>
    ensures stands { IfOk result (λ s. IsStoreAt m.now 0 s) }
    ensures snapshot { IfOk result (λ s. snapshot_of 0 s ≡ start_snapshot m.now) }
    ensures rows { IfOk result (λ s. s.rows.items ≡ snapshot_rows kind.Start 0 (start_snapshot m.now)) }
{
    let mut store = blank_run_store(alloc, m)?;
    begin(m, &mut store);
    Ok(store)
}

// All memory of a store, with the initial states, levels and discrete values.
fn blank_run_store(alloc: Global, m: &Machine) -> Result<Store, AllocError>
    ensures { IfOk result (λ s. IsBlank m.now s) }
{
    let condition_set = blank_conditions(alloc, m)?;
    let work = Work::new(alloc, m)?;
    let levels = event_start_levels(alloc, m)?;
    let states = levels.len();
    let conditions = condition_set.branches.len();
    let moment = Moment::with_room(alloc, states, conditions, work.log.capacity())?;
    let (lines, slopes, of_rows) = start_state_lists(alloc, states)?;
    let room = work.log.capacity() + states + work.d.len() + 1;
    let (uses, agenda, rows) = start_event_lists(alloc, m, (states + conditions + 1) as u32, room)?;
    Ok(Store {
        conditions: condition_set,
        uses,
        states: States {
            lines,
            levels,
            slopes,
            weights: Weights {
                bound: 0,
                kept: false,
                of_rows,
            },
        },
        moment,
        rising: false,
        agenda,
        rows,
        work,
    })
}

// For each state: a placeholder line, the slope 0 and the absolute row sum 0.
fn start_state_lists(
    alloc: Global,
    states: usize,
) -> Result<(Vec<Integrator>, Vec<i128>, Vec<i128>), AllocError>
    ensures { IfOk result
        (λ lists. (length lists.0.items ≡ states)
        × (length lists.1.items ≡ states)
        × (length lists.2.items ≡ states)) }
{
    let lines = repeat_value(alloc, resting_line(), states)?;
    let slopes = repeat_value(alloc, 0, states)?;
    let of_rows = repeat_value(alloc, 0, states)?;
    Ok((lines, slopes, of_rows))
}

// A placeholder line: the constant 0.
fn resting_line() -> Integrator
    ensures { result ≡ record { tick = 0; x = pos 0; slope = pos 0; level = pos 0 } }
{
    Integrator {
        tick: 0,
        x: 0,
        slope: 0,
        level: 0,
    }
}

// The rows and conditions that read each variable, the empty event queue, and capacity for rows.
fn start_event_lists(
    alloc: Global,
    m: &Machine,
    places: u32,
    rows: usize,
) -> Result<(Uses, Agenda, Vec<Row>), AllocError>
    ensures { IfOk result
        (λ lists. (lists.0 ≡ uses_of m.now) × (length lists.1 ≡ places) × HasNone lists.1
        × (vec_capacity lists.2 ≡ rows)) }
{
    let uses = Uses::new(alloc, m)?;
    let agenda = Agenda::with_places(alloc, places)?;
    let rows = Vec::with_capacity(alloc, rows)?;
    Ok((uses, agenda, rows))
}

// Starts a store with the initial values at tick 0.
fn begin(m: &Machine, s: &mut Store)
    requires { IsBlank m.now s.old }
    ensures stands { IsStoreAt m.now 0 s.new }
    ensures snapshot { snapshot_of 0 s.new ≡ start_snapshot m.now }
    ensures rows { s.new.rows.items ≡ snapshot_rows kind.Start 0 (start_snapshot m.now) }
{
    start_lines_and_detectors(m, s);
    let work = &s.work;
    s.states.weights.start(m, &s.states.levels, &work.d);
    set_all_rows(RowKind::Start, 0, &s.work, &s.states.levels, &mut s.rows);
}

// Starts the lines of all states and the detectors of all conditions at tick 0.
fn start_lines_and_detectors(m: &Machine, s: &mut Store)
    requires { IsBlank m.now s.old }
    ensures set_out { AreLinesStarted m.now s.old s.new }
    ensures at_arrival { s.new.conditions.at_arrival.items ≡ s.new.conditions.after_handlers.items }
    ensures after_handlers { s.new.conditions.after_handlers.items
        ≡ truths m.now s.old.work.x s.old.work.d 0 }
    ensures detectors { AreDetectorsAt m.now 0 s.old.work.x s.old.work.d s.new.states.slopes.items
        s.new.conditions.detectors.items s.new.agenda }
    ensures rising { due_at s.new.agenda (state_count m.now + length (conditions m.now)) ≡ None }
    ensures fits { AreConditionsOf m.now s.new.conditions }
    ensures one_each { HasOneEach m.now s.new.states.slopes.items s.new.states.lines.items
        s.new.agenda }
    ensures places { length s.new.agenda ≡ length s.old.agenda }
    ensures rest { s.new
        ≡ record s.old {
          conditions = s.new.conditions;
          states = record s.old.states {
            lines = s.new.states.lines;
            slopes = s.new.states.slopes;
          };
          agenda = s.new.agenda;
        } }
{
    start_lines(m, s);
    let work = &s.work;
    let start = ConditionValues {
        tick: 0,
        states: &work.x,
        discretes: &work.d,
        slopes: &s.states.slopes,
    };
    s.conditions.set_all_detectors(m, &start, &mut s.agenda);
    s.conditions
        .at_arrival
        .as_mut_slice()
        .copy_from_slice(&s.conditions.after_handlers);
}

// Starts the lines of all states at tick 0, at the slopes of the levels and discrete values.
fn start_lines(m: &Machine, s: &mut Store)
    requires ready { CanStart m.now s.old.work.x s.old.states.levels.items s.old.work.d }
    requires one_each { HasOneEach m.now s.old.states.slopes.items s.old.states.lines.items
        s.old.agenda }
    ensures set_out { AreLinesStarted m.now s.old s.new }
    ensures one_each { HasOneEach m.now s.new.states.slopes.items s.new.states.lines.items
        s.new.agenda }
    ensures places { length s.new.agenda ≡ length s.old.agenda }
    ensures others { (place : ℕ) → state_count m.now ≤ place
        → due_at s.new.agenda place ≡ due_at s.old.agenda place }
    ensures rest { s.new
        ≡ record s.old {
          states = record s.old.states {
            lines = s.new.states.lines;
            slopes = s.new.states.slopes;
          };
          agenda = s.new.agenda;
        } }
{
    let work = &s.work;
    let x = work.x.as_slice();
    let d = work.d.as_slice();
    let levels = s.states.levels.as_slice();
    let slopes = s.states.slopes.as_mut_slice();
    let lines = s.states.lines.as_mut_slice();
    let agenda = &mut s.agenda;
    for j in 0..lines.len() {
        let slope = m.slope(j as u32, levels, d);
        slopes[j] = slope;
        let here = Integrator {
            tick: 0,
            x: x[j],
            slope,
            level: levels[j],
        };
        start_line(m, j as u32, here, &mut lines[j], agenda);
    }
}

// Starts the line of state j at tick 0 as this one, and schedules the tick at which it leaves its
// quantum.
fn start_line(m: &Machine, j: u32, here: Integrator, line: &mut Integrator, agenda: &mut Agenda)
    requires state { j < state_count m.now }
    requires place { j < length agenda.old }
    requires tick { here.tick ≡ 0 }
    requires small_state { IsState here.x }
    requires slope { IsSlope here.slope }
    requires level { IsLevel here.level }
    requires near { IsLineWithinQuantum (level_unit m.now) here.x here.level
        (quantum_of m.now j here.level) }
    ensures line { line.new ≡ here }
    ensures same_length { length agenda.new ≡ length agenda.old }
    ensures others { (place : ℕ) → (place ≡ j → ⊥)
        → due_at agenda.new place ≡ due_at agenda.old place }
    ensures due { IsDue m.now 0 j line.new (due_at agenda.new j) }
{
    *line = here;
    agenda.set(j, event_tick_leaving_level(m, j, line));
}
