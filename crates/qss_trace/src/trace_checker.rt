//! Checks that a trace is a legitimate run of a machine. Three facts must hold at each place: about
//! its start, its moves and its distance to levels. The verdict reports the first fact that fails.

ghost use Rattle.std.specs.Prelude.{◌≡◌, ◌+◌, ◌<◌, ◌≤◌, ◌↔◌, [], ℕ, Some, None, IfSome, Bool, IsTrue};
ghost use Rattle.qss_trace.specs.Prelude.{state_count};
ghost use Rattle.qss_trace.specs.LegitimateFacts.{number_of, IsTakenAt, left_of, right_of, IsTaken, IsMet};
ghost use Rattle.qss_trace.specs.Trace.{count_of, IsRunOf};
ghost use Rattle.qss_trace.specs.TraceChecks.{IsFoundAmong, IsFoundAt};
ghost use Rattle.qss_trace.specs.TraceSums.{MatchesMachine};
ghost use Rattle.qss_trace.specs.TraceVerdicts.{IsVerdict};

use crate::trace::{Trace, trace_place_number, trace_place_numbers};
use crate::trace_sums::{scale_trace_start, trace_distance, trace_rate, trace_reach, trace_rise};
use cert_check::{AffineSystem, affine_system};
use qss_machine::Machine;

/// A fact that fails at a place, with its two sides. `state` counts from 0.
#[derive(Clone, Copy)]
pub(crate) struct Broken {
    pub fact: Fact,
    pub state: u8,
    pub left: i128,
    pub right: i128,
}

/// A fact about a state at a place.
#[derive(Clone, Copy)]
pub(crate) enum Fact {
    /// The state equals the machine's start.
    Start,
    /// The state moves by the slope at the levels of the place before.
    Move,
    /// The state is at most its quantum away from its level.
    Near,
}

/// The two sides of a fact.
#[derive(Clone, Copy)]
pub(crate) struct Sides {
    pub left: i128,
    pub right: i128,
}

/// The result of the check of a trace: it is legitimate, or the first fact that fails.
/// `place` counts from 0, `state` from 1, and `fact` is the number of the fact.
#[derive(Clone, Copy, Debug, PartialEq, Eq)]
pub enum TraceVerdict {
    Legitimate,
    Broken {
        place: u32,
        fact: u32,
        state: u32,
        left: i128,
        right: i128,
    },
}

/// Checks a trace of a machine without clauses. The verdict reports the first fact that fails,
/// by place, then by number, then by state, or that all hold.
pub fn check_trace(m: &Machine, t: &Trace) -> TraceVerdict
    requires plain { m.now.clauses ≡ [] }
    requires size { t.now.n ≡ state_count m.now }
    ensures verdict { IsVerdict m.now t.now result }

    // The verdict is `Legitimate` if and only if the trace is a legitimate run from the machine's
    // start, with the scale, the refinement and the quanta that it states.
    ensures legitimate { (result ≡ TraceVerdict.Legitimate) ↔ IsRunOf m.now t.now }
{
    let a = affine_system(m);
    trace_verdict(m, &a, t)
}

// The verdict on a trace, for the affine system of its machine.
fn trace_verdict(m: &Machine, a: &AffineSystem, t: &Trace) -> TraceVerdict
    requires { MatchesMachine m.now a.now t.now }
    ensures { IsVerdict m.now t.now result }
{
    for place in 0..t.places() {
        if let Some(broken) = broken_trace_place(m, a, t, place) {
            return broken_trace_verdict(place, broken);
        }
    }
    TraceVerdict::Legitimate
}

// The first fact that fails at a place: start or move first, then the distance to the level.
fn broken_trace_place(m: &Machine, a: &AffineSystem, t: &Trace, place: u32) -> Option<Broken>
    requires fit { MatchesMachine m.now a.now t.now }
    requires place { place < count_of t.now }
    ensures { IsFoundAt m.now t.now place result }
{
    let first = if place == 0 { Fact::Start } else { Fact::Move };
    let broken = broken_trace_state(m, a, t, first, place);
    if broken.is_some() {
        return broken;
    }
    broken_trace_state(m, a, t, Fact::Near, place)
}

// The first state at which a fact fails at a place, or `None`.
fn broken_trace_state(
    m: &Machine,
    a: &AffineSystem,
    t: &Trace,
    fact: Fact,
    place: u32,
) -> Option<Broken>
    requires fit { MatchesMachine m.now a.now t.now }
    requires place { place < count_of t.now }
    requires there { IsTakenAt fact place }
    ensures { IsFoundAmong m.now t.now fact place result }
{
    for j in 0..t.n {
        let sides = trace_fact_sides(m, a, t, fact, place, j);
        if !is_trace_fact_met(fact, &sides) {
            return Some(Broken {
                fact,
                state: j,
                left: sides.left,
                right: sides.right,
            });
        }
    }
    None
}

/// The two sides of a fact about state `j` at a place.
pub(crate) fn trace_fact_sides(
    m: &Machine,
    a: &AffineSystem,
    t: &Trace,
    fact: Fact,
    place: u32,
    j: u8,
) -> Sides
    requires fit { MatchesMachine m.now a.now t.now }
    requires taken { IsTaken t.now fact place j }
    ensures left { result.left ≡ left_of m.now t.now fact place j }
    ensures right { result.right ≡ right_of m.now t.now fact place j }
{
    match fact {
        Fact::Start => trace_start_sides(m, a, t, place, j),
        Fact::Move => trace_move_sides(m, a, t, place, j),
        Fact::Near => trace_near_sides(m, a, t, place, j),
    }
}

// Sides: state `j` at place 0, and the machine's start in the trace's units.
fn trace_start_sides(m: &Machine, a: &AffineSystem, t: &Trace, place: u32, j: u8) -> Sides
    requires fit { MatchesMachine m.now a.now t.now }
    requires taken { IsTaken t.now Fact.Start place j }
    ensures left { result.left ≡ left_of m.now t.now Fact.Start place j }
    ensures right { result.right ≡ right_of m.now t.now Fact.Start place j }
{
    Sides {
        left: trace_place_number(t.states.as_slice(), t.n, place, j),
        right: scale_trace_start(t.scale, m.states.as_slice()[j as usize].x0),
    }
}

// Sides: the change of state `j` per tick between two places, and its slope at the levels.
fn trace_move_sides(m: &Machine, a: &AffineSystem, t: &Trace, place: u32, j: u8) -> Sides
    requires fit { MatchesMachine m.now a.now t.now }
    requires taken { IsTaken t.now Fact.Move place j }
    ensures left { result.left ≡ left_of m.now t.now Fact.Move place j }
    ensures right { result.right ≡ right_of m.now t.now Fact.Move place j }
{
    let states = t.states.as_slice();
    let from = trace_place_number(states, t.n, place - 1, j);
    let to = trace_place_number(states, t.n, place, j);
    let levels = trace_place_numbers(t.levels.as_slice(), t.n, place - 1);
    Sides {
        left: trace_rate(t.refine, from, to),
        right: trace_rise(a, t.scale, levels, j),
    }
}

// Sides: the distance of state `j` from its level, and its quantum, in the trace's units.
fn trace_near_sides(m: &Machine, a: &AffineSystem, t: &Trace, place: u32, j: u8) -> Sides
    requires fit { MatchesMachine m.now a.now t.now }
    requires taken { IsTaken t.now Fact.Near place j }
    ensures left { result.left ≡ left_of m.now t.now Fact.Near place j }
    ensures right { result.right ≡ right_of m.now t.now Fact.Near place j }
{
    let state = trace_place_number(t.states.as_slice(), t.n, place, j);
    let level = trace_place_number(t.levels.as_slice(), t.n, place, j);
    let quantum = t.q.as_slice()[j as usize];
    Sides {
        left: trace_distance(a.unit, state, level),
        right: trace_reach(t.scale, a.unit, quantum),
    }
}

/// Whether the two sides satisfy the fact.
pub(crate) fn is_trace_fact_met(fact: Fact, sides: &Sides) -> bool
    ensures { IsTrue result ↔ IsMet fact sides.now.left sides.now.right }
{
    match fact {
        Fact::Start | Fact::Move => sides.left == sides.right,
        Fact::Near => sides.left <= sides.right,
    }
}

// The verdict that reports this failure.
fn broken_trace_verdict(place: u32, broken: Broken) -> TraceVerdict
    ensures { result
        ≡ TraceVerdict.Broken place (number_of broken.fact) (broken.state + 1) broken.left
        broken.right }
{
    TraceVerdict::Broken {
        place,
        fact: number(broken.fact),
        state: u32::from(broken.state) + 1,
        left: broken.left,
        right: broken.right,
    }
}

/// The number of a fact, from 1 to 3.
pub(crate) fn number(fact: Fact) -> u32
    ensures { result ≡ number_of fact }
{
    match fact {
        Fact::Start => 1,
        Fact::Move => 2,
        Fact::Near => 3,
    }
}
