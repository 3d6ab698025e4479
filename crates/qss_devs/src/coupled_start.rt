//! Builds the store of a coupled model at tick 0: the values of variables, the components with
//! their lines and inputs, and the start rows.

ghost use Rattle.std.specs.Prelude.{◌≡◌, ◌<◌, ◌+◌, ◌-◌, ◌*ℤ◌, if◌then◌else◌, map, length, IfOk, ℕ, All, None, nat_lt};
ghost use Rattle.qss_devs.specs.Prelude.{level_below, int_at, tabulate, state_count, level_unit, slope_at, start_states, start_discretes, discrete_count, compares, IsState, IsForm, first_place, conditions, input_at, form_at, speed_by, IsInput, AreParts, StaysIfDiscrete, function_state_of, crossing_of, EachAt, AreInputs, input_levels, input_discretes, uses_of, snapshot_rows, start_snapshot};
ghost use Rattle.qss_devs.specs.CoupledEvents.{snapshot_of, StoreRepresents};
ghost use Rattle.qss_devs.specs.Coupling.{AreComponents};
ghost use Rattle.qss_devs.specs.Starts.{values_in, start_values, first_line, first_input, entry_at, IsFirstIntegrator, IsFirstFunction, IsFirstCrossing};
ghost use Rattle.qss_machine.specs.declared.machine_parts.RowKind.TheVariants as kind;

use crate::coupled_arrivals::settle_all_arrival_truths;
use crate::coupled_branches::{branch_condition, branch_count};
use crate::coupled_events::set_snapshot_rows;
use crate::coupled_inputs::start_function_inputs;
use crate::coupled_messages::Components;
use qss_components::{
    CrossingModel, FunctionInput, FunctionModel, Input, IntegratorModel, crossing_detector_of,
};
use qss_cross::Detector;
use qss_events::event_start_levels;
use qss_hand::Work;
use qss_machine::{Condition, Entry, Machine, Row, RowKind, Uses, scale_discrete_value};
use qss_quant::{Integrator, Quantizer};
use std::alloc::{AllocError, Global};
use std::mem::replace;
use std::rc::Rc;

/// The values of the variables of a machine at the start.
#[derive(Drop)]
pub struct StartValues {
    /// The states, in units of 2^-(f+p+k).
    pub states: Vec<i128>,
    /// The slopes of the states: their increments per tick, in units of 2^-(f+p+k).
    pub slopes: Vec<i128>,
    /// The levels of states, in units of 2^-f.
    pub levels: Vec<i64>,
    /// The discrete values, in units of 2^-f.
    pub discretes: Vec<i64>,
}

impl StartValues {
    /// The state with index j.
    pub(crate) fn state(&self, j: usize) -> i128
        requires { j < length self.now.states.items }
        ensures { result ≡ int_at self.now.states.items j }
    {
        self.states[j]
    }

    /// The slope of the state with index j.
    pub(crate) fn slope(&self, j: usize) -> i128
        requires { j < length self.now.slopes.items }
        ensures { result ≡ int_at self.now.slopes.items j }
    {
        self.slopes[j]
    }

    /// The level of the state with index j.
    pub(crate) fn level(&self, j: usize) -> i64
        requires { j < length self.now.levels.items }
        ensures { result ≡ int_at self.now.levels.items j }
    {
        self.levels[j]
    }

    /// The value of the discrete variable with index g.
    pub(crate) fn discrete(&self, g: usize) -> i64
        requires { g < length self.now.discretes.items }
        ensures { result ≡ int_at self.now.discretes.items g }
    {
        self.discretes[g]
    }
}

/// The truth values of the conditions in source order: on arrival, on the last arrival, and after
/// the last handlers.
#[derive(Drop)]
pub struct Truths {
    pub current: Vec<bool>,
    pub at_arrival: Vec<bool>,
    pub after_handlers: Vec<bool>,
}

/// The data of a coupled model at a tick of its run: the components, the values that handlers read
/// and write, the truth values of the conditions, and the rows of the last event.
#[derive(Drop)]
pub struct Store {
    pub parts: Components,
    pub work: Work,
    pub truths: Truths,
    pub rows: Vec<Row>,
}

/// The store of a coupled model at tick 0, with the start rows. Allocates all memory that the run
/// needs.
pub(crate) fn start_coupled_store(
    alloc: Global,
    m: &Machine,
    shared: &Rc<Machine>,
    q: &Rc<Quantizer>,
) -> Result<Store, AllocError>
    requires { shared.now.value ≡ m.now }
    ensures represents_snapshot { IfOk result (λ s. StoreRepresents m.now q.now.value.name 0 s) }
    ensures snapshot { IfOk result (λ s. snapshot_of 0 s ≡ start_snapshot m.now) }
    ensures rows { IfOk result (λ s. s.rows.items ≡ snapshot_rows kind.Start 0 (start_snapshot m.now)) }
{
    let work = Work::new(alloc, m)?;
    let parts = start_coupled_parts(alloc, m, shared, q, &work)?;
    let current = start_flags(alloc, &parts.crossings)?;
    let at_arrival = start_flags(alloc, &parts.crossings)?;
    let after_handlers = start_flags(alloc, &parts.crossings)?;
    let count = work.log.capacity() + work.x.len() + work.d.len() + 1;
    let mut rows = Vec::with_capacity(alloc, count)?;
    set_snapshot_rows(RowKind::Start, 0, &parts.integrators, &work.d, &mut rows);
    Ok(Store {
        parts,
        work,
        truths: Truths {
            current,
            at_arrival,
            after_handlers,
        },
        rows,
    })
}

// The components at the start, with the states and discrete values on which the handlers work.
fn start_coupled_parts(
    alloc: Global,
    m: &Machine,
    shared: &Rc<Machine>,
    q: &Rc<Quantizer>,
    work: &Work,
) -> Result<Components, AllocError>
    requires same { shared.now.value ≡ m.now }
    requires states { work.now.x ≡ start_states m.now }
    requires discretes { work.now.d ≡ start_discretes m.now }
    ensures parts { IfOk result (AreComponents m.now) }
    ensures integrators { IfOk result (λ parts.
        EachAt (IsFirstIntegrator m.now q.now.value) parts.integrators.items) }
    ensures functions { IfOk result
        (λ parts. EachAt (IsFirstFunction m.now) parts.functions.items) }
    ensures crossings { IfOk result
        (λ parts. EachAt (IsFirstCrossing m.now) parts.crossings.items) }
{
    let v = start_values(alloc, m, &work.x, &work.d)?;
    let integrators = start_integrators(alloc, m, shared, q, &v)?;
    let uses = Uses::new(alloc, m)?;
    let functions = start_functions(alloc, m, shared, &v, &uses)?;
    let crossings = start_crossings(alloc, shared, &v)?;
    Ok(Components {
        integrators,
        functions,
        crossings,
        uses,
    })
}

/// The values at the start, with these states and discrete values.
pub(crate) fn start_values(
    alloc: Global,
    m: &Machine,
    x: &[i128],
    d: &[i64],
) -> Result<StartValues, AllocError>
    requires states { x.now ≡ start_states m.now }
    requires discretes { d.now ≡ start_discretes m.now }
    ensures { IfOk result (λ v. values_in v ≡ start_values m.now) }
{
    let levels = event_start_levels(alloc, m)?;
    let slopes = start_coupled_slopes(alloc, m, &levels, d)?;
    let states = Vec::from_slice(alloc, x)?;
    let discretes = Vec::from_slice(alloc, d)?;
    Ok(StartValues {
        states,
        slopes,
        levels,
        discretes,
    })
}

// The slopes at the start.
fn start_coupled_slopes(
    alloc: Global,
    m: &Machine,
    levels: &[i64],
    d: &[i64],
) -> Result<Vec<i128>, AllocError>
    requires levels { levels.now ≡ map (level_below (level_unit m.now)) (start_states m.now) }
    requires discretes { d.now ≡ start_discretes m.now }
    ensures { IfOk result (λ slopes. slopes.items
        ≡ tabulate (state_count m.now) (λ j. slope_at m.now j levels.now d.now)) }
{
    let mut slopes: Vec<i128> = Vec::with_capacity(alloc, levels.len())?;
    for j in 0..levels.len() {
        let row = j as u32;
        let slope = m.slope(row, levels, d);
        slopes.push_reserved(slope);
    }
    Ok(slopes)
}

/// Creates an integrator for each state, at the start.
pub(crate) fn start_integrators(
    alloc: Global,
    m: &Machine,
    shared: &Rc<Machine>,
    q: &Rc<Quantizer>,
    v: &StartValues,
) -> Result<Vec<IntegratorModel>, AllocError>
    requires same { shared.now.value ≡ m.now }
    requires values { values_in v.now ≡ start_values m.now }
    ensures count { IfOk result (λ list. length list.items ≡ state_count m.now) }
    ensures each { IfOk result (λ list. EachAt (IsFirstIntegrator m.now q.now.value) list.items) }
{
    let mut integrators: Vec<IntegratorModel> = Vec::with_capacity(alloc, v.levels.len())?;
    for j in 0..v.levels.len() {
        let var = j as u32;
        let line = start_coupled_line(m, v, var);
        let machine = shared.clone()?;
        let quantizer = q.clone()?;
        let integrator = IntegratorModel {
            machine,
            quantizer,
            var,
            line,
        };
        integrators.push_reserved(integrator);
    }
    Ok(integrators)
}

// The line of a state at the start.
fn start_coupled_line(m: &Machine, v: &StartValues, j: u32) -> Integrator
    requires values { values_in v.now ≡ start_values m.now }
    requires known { j < state_count m.now }
    ensures { result ≡ first_line (start_values m.now) j }
{
    let x = v.state(j as usize);
    let slope = v.slope(j as usize);
    let level = v.level(j as usize);
    Integrator {
        tick: 0,
        x,
        slope,
        level,
    }
}

/// Creates a function for each state, at the start.
pub(crate) fn start_functions(
    alloc: Global,
    m: &Machine,
    shared: &Rc<Machine>,
    v: &StartValues,
    uses: &Uses,
) -> Result<Vec<FunctionModel>, AllocError>
    requires same { shared.now.value ≡ m.now }
    requires values { values_in v.now ≡ start_values m.now }
    requires uses { uses.now ≡ uses_of m.now }
    ensures count { IfOk result (λ list. length list.items ≡ state_count m.now) }
    ensures each { IfOk result (λ list. EachAt (IsFirstFunction m.now) list.items) }
{
    let mut lists = start_function_inputs(alloc, m, v, uses)?;
    let mut functions: Vec<FunctionModel> = Vec::with_capacity(alloc, lists.len())?;
    for j in 0..lists.len() {
        let row = j as u32;
        let machine = shared.clone()?;
        let inputs = replace(&mut lists[j], Vec::new(alloc));
        let function = FunctionModel {
            machine,
            row,
            tick: 0,
            inputs,
            changed: None,
        };
        functions.push_reserved(function);
    }
    Ok(functions)
}

/// Creates a crossing for each condition, at the start.
pub(crate) fn start_crossings(
    alloc: Global,
    shared: &Rc<Machine>,
    v: &StartValues,
) -> Result<Vec<CrossingModel>, AllocError>
    requires { values_in v.now ≡ start_values shared.now.value }
    ensures count { IfOk result
        (λ list. length list.items ≡ length (conditions shared.now.value)) }
    ensures each { IfOk result (λ list. EachAt (IsFirstCrossing shared.now.value) list.items) }
{
    let mut crossings: Vec<CrossingModel> = Vec::new(alloc);
    for clause in 0..shared.clauses.as_slice().len() {
        add_start_crossings(alloc, shared, v, clause, &mut crossings)?;
    }
    Ok(crossings)
}

// Appends the crossings of a clause.
fn add_start_crossings(
    alloc: Global,
    shared: &Rc<Machine>,
    v: &StartValues,
    clause: usize,
    crossings: &mut Vec<CrossingModel>,
) -> Result<(), AllocError>
    requires values { values_in v.now ≡ start_values shared.now.value }
    requires known { clause < length shared.now.value.clauses }
    requires count { length crossings.old.items ≡ first_place shared.now.value.clauses clause }
    requires each { EachAt (IsFirstCrossing shared.now.value) crossings.old.items }
    ensures count { IfOk result (λ done.
        length crossings.new.items ≡ first_place shared.now.value.clauses (clause + 1)) }
    ensures each { IfOk result (λ done.
        EachAt (IsFirstCrossing shared.now.value) crossings.new.items) }
{
    let m: &Machine = shared;
    let count = branch_count(m, clause);
    for branch in 0..count {
        let machine = shared.clone()?;
        let condition = branch_condition(m, clause, branch);
        let inputs = start_inputs(alloc, m, v, condition)?;
        let detector = start_coupled_detector(m, condition, &inputs);
        let next = crossings.len();
        let place = next as u32;
        let crossing = start_coupled_crossing(machine, place, condition, inputs, detector);
        crossings.push(crossing)?;
    }
    Ok(())
}

// The inputs of a condition.
fn start_inputs(
    alloc: Global,
    m: &Machine,
    v: &StartValues,
    condition: &Condition,
) -> Result<Vec<Input>, AllocError>
    requires values { values_in v.now ≡ start_values m.now }
    requires form { IsForm (state_count m.now) (discrete_count m.now) condition.now.form }
    ensures { IfOk result (λ list. list.items
        ≡ map (first_input m.now (start_values m.now)) condition.now.form.entries) }
{
    let count = condition.form.entries.as_slice().len();
    let mut inputs: Vec<Input> = Vec::with_capacity(alloc, count)?;
    for k in 0..count {
        let entry = start_entry_at(condition, k);
        let input = start_input(m, v, entry);
        inputs.push_reserved(input);
    }
    Ok(inputs)
}

// An entry of a condition's form.
fn start_entry_at(condition: &Condition, k: usize) -> Entry
    requires { k < length condition.now.form.entries }
    ensures { result ≡ entry_at condition.now k }
{
    condition.form.entries.as_slice()[k]
}

// An entry with the line of its variable.
fn start_input(m: &Machine, v: &StartValues, entry: Entry) -> Input
    requires values { values_in v.now ≡ start_values m.now }
    requires known { entry.var < state_count m.now + discrete_count m.now + discrete_count m.now }
    ensures { result ≡ first_input m.now (start_values m.now) entry }
{
    let var = entry.var as usize;
    let states = m.states.as_slice().len();
    if var < states {
        let at = v.state(var);
        let speed = v.slope(var);
        begin_start_input(entry, at, speed)
    } else {
        let at = start_discrete(m, v, var - states);
        begin_start_input(entry, at, 0)
    }
}

// An entry with a line from tick 0.
fn begin_start_input(entry: Entry, at: i128, speed: i128) -> Input
    ensures { result ≡ record {
      var = entry.var;
      coef = entry.coef;
      tick = 0;
      at = at;
      speed = speed;
    } }
{
    Input {
        var: entry.var,
        coef: entry.coef,
        tick: 0,
        at,
        speed,
    }
}

// A discrete value, now or before the tick, in units of a state.
fn start_discrete(m: &Machine, v: &StartValues, place: usize) -> i128
    requires values { values_in v.now ≡ start_values m.now }
    requires known { place < discrete_count m.now + discrete_count m.now }
    ensures { result ≡ int_at (start_values m.now).discretes
        (if nat_lt place (discrete_count m.now) then place else place - discrete_count m.now)
        *ℤ level_unit m.now }
{
    let own = start_own_place(place, m.discretes.as_slice().len());
    let value = v.discrete(own);
    scale_discrete_value(value, m.p + m.k)
}

// The index of a discrete variable, from the index of its value or of its value before the tick.
fn start_own_place(place: usize, count: usize) -> usize
    requires { place < count + count }
    ensures inside { result < count }
    ensures own { result ≡ (if nat_lt place count then place else place - count) }
{
    if place < count { place } else { place - count }
}

// The detector of a condition with these inputs.
fn start_coupled_detector(m: &Machine, condition: &Condition, inputs: &[Input]) -> Detector
    requires parts { AreParts inputs.now condition.now.form.time condition.now.form.gamma }
    requires lines { All (IsInput 0) inputs.now }
    requires size_limit { All (λ i. IsState (input_at 0 i)) inputs.now }
    ensures { result ≡ record {
      rel = condition.now.rel;
      tick = 0;
      value = form_at m.now inputs.now condition.now.form.time condition.now.form.gamma 0;
      speed = speed_by m.now inputs.now condition.now.form.time;
    } }
{
    let resting = Detector {
        rel: condition.rel,
        tick: 0,
        value: 0,
        speed: 0,
    };
    crossing_detector_of(
        m,
        &resting,
        inputs,
        condition.form.time,
        condition.form.gamma,
        0,
    )
}

// A crossing of a condition with these inputs and this detector.
fn start_coupled_crossing(
    machine: Rc<Machine>,
    place: u32,
    condition: &Condition,
    inputs: Vec<Input>,
    detector: Detector,
) -> CrossingModel
    requires lines { All (IsInput detector.tick) inputs.items }
    requires stays { All (StaysIfDiscrete (state_count machine.value)) inputs.items }
    requires parts { AreParts inputs.items condition.now.form.time condition.now.form.gamma }
    ensures machine { result.machine.value ≡ machine.value }
    ensures crossing { crossing_of result ≡ record {
      place = place;
      detector = detector;
      inputs = inputs.items;
      time = condition.now.form.time;
      gamma = condition.now.form.gamma;
    } }
{
    CrossingModel {
        machine,
        place,
        detector,
        inputs,
        time: condition.form.time,
        gamma: condition.form.gamma,
    }
}

// The truth value of each condition at the tick of its crossing.
fn start_flags(alloc: Global, crossings: &[CrossingModel]) -> Result<Vec<bool>, AllocError>
    ensures { IfOk result (λ flags. flags.items
        ≡ map (λ c. compares c.detector.rel c.detector.value) crossings.now) }
{
    let mut flags = vec![in alloc; false; crossings.len()]?;
    settle_all_arrival_truths(crossings, &mut flags);
    Ok(flags)
}
