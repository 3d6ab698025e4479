//! The components of a machine, and the delivery of messages between them. Integrators, functions
//! and assignments of handlers send messages.

ghost use Rattle.std.specs.Prelude.{◌≡◌, ◌<◌, ◌+◌, ◌≢◌, ◌≤◌, ◌⊎◌, length, map, All, slice_index_or, Option, ℕ, ℤ, None, Some, vec_len, vec_capacity};
ghost use Rattle.qss_devs.specs.Prelude.{overflow_of, state_count, discrete_count, AreRisingBelow, IsMessage, IsTimely, Slope, State, Level, Discrete, Rule, Values, HasEach, values_after_row, values_after_rows, no_line, IsLineNext};
ghost use Rattle.qss_devs.specs.CoupledSteps.{IsMessageOfRow, Agrees, AreValues, IsLevelTaken, AreTaken, AreWithinQuanta, IsSlopeSent, AreSent};
ghost use Rattle.qss_devs.specs.Coupling.{line_at, function_state_at, AreGiven, AreReady, HaveReceived, AreRuled, AllLinesLater};
ghost use Rattle.qss_machine.specs.declared.machine_parts.RowKind.TheVariants as kind;

use qss_components::{
    Atomic, CrossingModel, FunctionModel, IntegratorModel, Message, Transition,
    make_integrator_transition, make_transition, send_to_integrator_model,
};
use qss_hand::{Over, Work};
use qss_machine::{Machine, Row, RowKind, Uses};

/// An integrator and a function for each state, a crossing for each condition in source order, and
/// the readers of each variable.
#[derive(Drop)]
pub struct Components {
    pub integrators: Vec<IntegratorModel>,
    pub functions: Vec<FunctionModel>,
    pub crossings: Vec<CrossingModel>,
    pub uses: Uses,
}

/// Sends the messages for all assignments of the handlers.
pub(crate) fn send_assigned_messages(m: &Machine, parts: &mut Components, tick: u64, work: &Work)
    requires ready { AreReady m.now tick parts.old }
    requires messages { All (IsMessageOfRow m.now) work.now.log }
    ensures ruled { (name : Option Rule) → AreRuled name parts.old → AreRuled name parts.new }
    ensures ready { AreReady m.now tick parts.new }
    ensures agree { (v : Values) → HasEach m.now v → Agrees m.now tick v parts.old
        → Agrees m.now tick (values_after_rows m.now v work.now.log) parts.new }
{
    for row in work.log.as_slice() {
        send_row_messages(m, parts, tick, row);
    }
}

/// Makes the transitions of all due integrators, in order of states, sends their levels and appends
/// their rows. Stops at the first level that exceeds its limit. The error is the state of this
/// level.
pub(crate) fn send_integrator_level_messages(
    m: &Machine,
    parts: &mut Components,
    tick: u64,
    rows: &mut Vec<Row>,
) -> Result<(), Over>
    requires ruled { (rule : Rule) × AreRuled (Some rule) parts.old }
    requires ready { AreReady m.now tick parts.old }
    requires room { vec_len rows.old + state_count m.now ≤ vec_capacity rows.old }
    ensures ruled { (name : Option Rule) → AreRuled name parts.old → AreRuled name parts.new }
    ensures ready { AreReady m.now tick parts.new }
    ensures taken { (rule : Rule) (v : Values) → AreRuled (Some rule) parts.old
        → AreValues m.now v → Agrees m.now tick v parts.old
        → AreTaken m.now (Some rule) tick v parts.new rows.old.items rows.new.items
        (overflow_of result) }
    ensures later { overflow_of result ≡ None → AllLinesLater m.now tick (line_at parts.new) }
    ensures room { vec_capacity rows.new ≡ vec_capacity rows.old }
{
    for j in 0..m.states.as_slice().len() {
        send_integrator_level_message(m, parts, tick, j as u32, rows)?;
    }
    Ok(())
}

/// Sends the sums of all due functions, in order of states. Stops at the first row that exceeds its
/// limits. The error is the state of this row.
pub(crate) fn send_slope_messages(
    m: &Machine,
    parts: &mut Components,
    tick: u64,
) -> Result<(), Over>
    requires ready { AreReady m.now tick parts.old }
    ensures ruled { (name : Option Rule) → AreRuled name parts.old → AreRuled name parts.new }
    ensures ready { AreReady m.now tick parts.new }
    ensures sent { (v : Values) → AreValues m.now v → Agrees m.now tick v parts.old
        → AreSent m.now tick v parts.new (overflow_of result) }
    ensures later { (v : Values) → AreValues m.now v → Agrees m.now tick v parts.old
        → AreWithinQuanta m.now v → AllLinesLater m.now tick (line_at parts.old)
        → overflow_of result ≡ None → AllLinesLater m.now tick (line_at parts.new) }
{
    for j in 0..m.states.as_slice().len() {
        send_slope_message(m, parts, tick, j as u32)?;
    }
    Ok(())
}

// Sends the message for a row of a handler.
fn send_row_messages(m: &Machine, parts: &mut Components, tick: u64, row: &Row)
    requires ready { AreReady m.now tick parts.old }
    requires messages { IsMessageOfRow m.now row.now }
    ensures ruled { (name : Option Rule) → AreRuled name parts.old → AreRuled name parts.new }
    ensures ready { AreReady m.now tick parts.new }
    ensures agree { (v : Values) → HasEach m.now v → Agrees m.now tick v parts.old
        → Agrees m.now tick (values_after_row m.now v row.now.kind row.now) parts.new }
{
    match row.kind {
        RowKind::Reinit => send_message(
            m,
            parts,
            tick,
            Message::State {
                var: row.var,
                state: row.state,
            },
        ),
        RowKind::Set => send_message(
            m,
            parts,
            tick,
            Message::Discrete {
                var: row.var,
                value: row.level,
            },
        ),
        _ => {}
    }
}

/// Sends a message to its receivers.
pub(crate) fn send_message(m: &Machine, parts: &mut Components, tick: u64, msg: Message)
    requires ready { AreReady m.now tick parts.old }
    requires message { IsMessage m.now msg }
    ensures { HaveReceived m.now tick msg parts.old parts.new }
{
    match msg {
        Message::Slope { var, .. } => send_line_message(m, parts, tick, var, msg),
        Message::State { var, .. } => send_line_message(m, parts, tick, var, msg),
        Message::Level { var, .. } => send_level_message(m, parts, tick, var, msg),
        Message::Discrete { var, .. } => send_discrete_message(m, parts, tick, var, msg),
        Message::Truth { .. } => {}
    }
}

// Sends a state or a slope to the state's integrator and to the crossings that read the state.
fn send_line_message(m: &Machine, parts: &mut Components, tick: u64, var: u32, msg: Message)
    requires ready { AreReady m.now tick parts.old }
    requires message { IsMessage m.now msg }
    requires own { ((slope : ℤ) × (msg ≡ Slope var slope))
        ⊎ ((state : ℤ) × (msg ≡ State var state)) }
    requires known { var < state_count m.now }
    ensures { HaveReceived m.now tick msg parts.old parts.new }
{
    send_to_integrator_model(m, &mut parts.integrators, var, tick, msg);
    let places = parts.uses.conditions_of(var);
    send_message_to_models(&mut parts.crossings, places, tick, msg);
}

// Sends a message to the models at some places.
fn send_message_to_models<A: Atomic>(models: &mut [A], places: &[u32], tick: u64, msg: Message)
    requires places { AreRisingBelow (length models.old) places.now }
    requires allowed { All (λ a. IsTimely (A.own_tick a) (A.is_next a) tick
        × IsMessage (A.part_of a) msg × A.has_small a tick) models.old }
    ensures { AreGiven (λ a b. A.given a tick msg b) places.now models.old models.new }
{
    for place in places {
        models[*place as usize].external(tick, msg);
    }
}

// Sends a level to the functions that read its state.
fn send_level_message(m: &Machine, parts: &mut Components, tick: u64, var: u32, msg: Message)
    requires ready { AreReady m.now tick parts.old }
    requires message { IsMessage m.now msg }
    requires own { (level : ℤ) × (msg ≡ Level var level) }
    requires known { var < state_count m.now }
    ensures { HaveReceived m.now tick msg parts.old parts.new }
{
    let places = parts.uses.rows_of(var);
    send_message_to_models(&mut parts.functions, places, tick, msg);
}

// Sends the value of a discrete variable to the functions that read it, and to the crossings that
// read it or its value before the tick.
fn send_discrete_message(m: &Machine, parts: &mut Components, tick: u64, var: u32, msg: Message)
    requires ready { AreReady m.now tick parts.old }
    requires message { IsMessage m.now msg }
    requires own { (value : ℤ) × (msg ≡ Discrete var value) }
    requires known { var < state_count m.now + discrete_count m.now }
    ensures { HaveReceived m.now tick msg parts.old parts.new }
{
    let before = m.discretes.as_slice().len() as u32;
    let rows = parts.uses.rows_of(var);
    send_message_to_models(&mut parts.functions, rows, tick, msg);
    let places = parts.uses.conditions_of(var);
    send_message_to_models(&mut parts.crossings, places, tick, msg);
    let others = parts.uses.conditions_of(var + before);
    send_message_to_models(&mut parts.crossings, others, tick, msg);
}

// Makes the transition of an integrator, if it is due, sends its level and appends its row. The
// error is the state if its level exceeds its limit.
fn send_integrator_level_message(
    m: &Machine,
    parts: &mut Components,
    tick: u64,
    j: u32,
    rows: &mut Vec<Row>,
) -> Result<(), Over>
    requires ruled { (rule : Rule) × AreRuled (Some rule) parts.old }
    requires known { j < state_count m.now }
    requires ready { AreReady m.now tick parts.old }
    requires room { vec_len rows.old < vec_capacity rows.old }
    ensures ruled { (name : Option Rule) → AreRuled name parts.old → AreRuled name parts.new }
    ensures ready { AreReady m.now tick parts.new }
    ensures taken { (rule : Rule) (v : Values) → AreRuled (Some rule) parts.old
        → AreValues m.now v → Agrees m.now tick v parts.old
        → IsLevelTaken m.now rule tick v j parts.new rows.old.items rows.new.items
        (overflow_of result) }
    ensures later { (next : ℕ) → overflow_of result ≡ None
        → IsLineNext m.now j (line_at parts.new j) (Some next) → tick < next }
    ensures others { (i : ℕ) → i < state_count m.now → i ≢ j
        → line_at parts.new i ≡ line_at parts.old i }
    ensures room { vec_capacity rows.new ≡ vec_capacity rows.old }
    ensures count { vec_len rows.new ≤ vec_len rows.old + 1 }
{
    match make_integrator_transition(&mut parts.integrators, j, tick) {
        Transition::Rests => Ok(()),
        Transition::ExceedsLimit => Err(Over { var: j }),
        Transition::Sends(msg) => {
            rows.push_reserved(level_message_row(tick, j, &parts.integrators));
            send_message(m, parts, tick, msg);
            Ok(())
        }
    }
}

// The row of a state whose integrator took a new level.
fn level_message_row(tick: u64, var: u32, integrators: &[IntegratorModel]) -> Row
    requires { var < length integrators.now }
    ensures { result ≡ record {
      tick = tick;
      kind = kind.Level;
      var = var;
      level = (slice_index_or (map (λ i. i.line) integrators.now) var no_line).level;
      state = (slice_index_or (map (λ i. i.line) integrators.now) var no_line).x;
    } }
{
    let integrator = &integrators[var as usize];
    let level = integrator.line.level;
    let state = integrator.line.x;
    Row {
        tick,
        kind: RowKind::Level,
        var,
        level,
        state,
    }
}

// Sends the sum of a function, if it changed. The error is the state if its row exceeds its limits.
fn send_slope_message(m: &Machine, parts: &mut Components, tick: u64, j: u32) -> Result<(), Over>
    requires known { j < state_count m.now }
    requires ready { AreReady m.now tick parts.old }
    ensures ruled { (name : Option Rule) → AreRuled name parts.old → AreRuled name parts.new }
    ensures ready { AreReady m.now tick parts.new }
    ensures sent { (v : Values) → AreValues m.now v → Agrees m.now tick v parts.old
        → IsSlopeSent m.now tick v j parts.new (overflow_of result) }
    ensures others { (i : ℕ) → i < state_count m.now → i ≢ j
        → function_state_at parts.new i ≡ function_state_at parts.old i }
    ensures later { (v : Values) → AreValues m.now v → Agrees m.now tick v parts.old
        → AreWithinQuanta m.now v → AllLinesLater m.now tick (line_at parts.old)
        → overflow_of result ≡ None → AllLinesLater m.now tick (line_at parts.new) }
{
    match make_transition(&mut parts.functions[j as usize], tick) {
        Transition::Rests => Ok(()),
        Transition::ExceedsLimit => Err(Over { var: j }),
        Transition::Sends(msg) => {
            send_message(m, parts, tick, msg);
            Ok(())
        }
    }
}
