//! The tick at which a state leaves its quantum, its new level, and the initial levels.

ghost use Rattle.std.specs.Prelude.{◌≡◌, ◌<◌, ◌<ℤ◌, pos, map, IfOk};
ghost use Rattle.qss_events.specs.Prelude.{IsWithin, state_count, level_unit, quantum_of, start_states, IsNextLevel, IsLineWithinQuantum, IsAway, level_below, IsLevel};
ghost use Rattle.qss_events.specs.AllowedLevels.{IsAllowedLevel};
ghost use Rattle.qss_events.specs.Schedules.{IsDue};

use mu_num::floor_div;
use qss_machine::Machine;
use qss_quant::{Integrator, LevelRule, Quantizer};
use std::alloc::{AllocError, Global};

/// The first tick, after the tick of the line, at which the state is at least one quantum away from
/// its level.
#[inline(always)]
pub fn event_tick_leaving_level(m: &Machine, j: u32, line: &Integrator) -> Option<u64>
    requires state { j < state_count m.now }
    requires near { IsLineWithinQuantum (level_unit m.now) line.now.x line.now.level
        (quantum_of m.now j line.now.level) }
    ensures { IsDue m.now line.now.tick j line.now result }
{
    let quantum = m.quantum_at(j, line.level);
    line.due(quantum, m.level_unit())
}

/// The new level of a state: the old level if the state is less than one quantum away from it, else
/// the result of the rule. `unit` is the number of units of a state in a level.
pub fn requantize_level(m: &Machine, q: &Quantizer, j: u32, x: i128, level: i64, unit: i128) -> i128
    requires state { j < state_count m.now }
    requires small_state { IsWithin 89 x }
    requires small_level { IsLevel level }
    requires unit { unit ≡ level_unit m.now }
    ensures next { IsNextLevel (IsAllowedLevel q.now.name) m.now j x level result }
    ensures ruled { IsAway unit x level (quantum_of m.now j level)
        → LevelRule.post q.now.rule x level unit result }
{
    let quantum = m.quantum_at(j, level);
    q.level(x, level, quantum, unit)
}

/// The initial levels, in units of 2^-f: for each state the greatest level at most the state. It
/// fails if allocation fails.
pub fn event_start_levels(alloc: Global, m: &Machine) -> Result<Vec<i64>, AllocError>
    ensures { IfOk result (λ levels.
        levels.items ≡ map (level_below (level_unit m.now)) (start_states m.now)) }
{
    let unit = m.level_unit();
    let states = m.states.as_slice();
    let mut levels: Vec<i64> = Vec::with_capacity(alloc, states.len())?;
    for j in 0..states.len() {
        levels.push_reserved(event_start_level(states[j].x0, unit));
    }
    Ok(levels)
}

// The greatest level at most a state.
fn event_start_level(x0: i128, unit: i128) -> i64
    requires unit { pos 0 <ℤ unit }
    requires size_limit { IsLevel (level_below unit x0) }
    ensures { result ≡ level_below unit x0 }
{
    floor_div(x0, unit) as i64
}
