//! What traces of first and second order share: the start of a run, a tick of a state, the sizes of
//! numbers, and the draft of the states and levels. A run without a trace has one of the listed
//! reasons.

ghost use Rattle.std.specs.Prelude.{◌≡◌, ◌++◌, ◌<◌, ◌≤◌, ◌<ℤ◌, ◌+ℤ◌, ◌*ℤ◌, IfOk, IfSome, OnOk, length, pos, map};
ghost use Rattle.qss_own_traces.specs.Prelude.{IsSize, IsWithin, state_count, quanta, level_unit, start_states, IsFactor, ArePlaces, places, first_exceeding, floor_of, overflow_of, variable_limit};
ghost use Rattle.qss_own_traces.specs.Traces.{IsTraceOf};

use mu_io::Items;
use mu_num::{exceeds_power_of_two, floor_div};
use qss_hand::Over;
use qss_machine::Machine;
use qss_trace::{Trace, scale_trace_start};
use std::alloc::{AllocError, AllocFailed, Global};

/// The states and the levels of a run so far, tick by tick.
#[derive(Drop)]
pub(crate) struct Draft {
    pub states: Vec<i128>,
    pub levels: Vec<i128>,
}

impl Draft {
    /// The states and levels of tick 0.
    pub(crate) fn new(alloc: Global, states: &[i128], levels: &[i128]) -> Result<Draft, AllocError>
        ensures states { IfOk result (λ draft. draft.states.items ≡ states.now) }
        ensures levels { IfOk result (λ draft. draft.levels.items ≡ levels.now) }
    {
        let mut draft = Draft {
            states: Vec::new(alloc),
            levels: Vec::new(alloc),
        };
        draft.add(states, levels)?;
        Ok(draft)
    }

    /// Appends the states and levels of a tick.
    pub(crate) fn add(&mut self, states: &[i128], levels: &[i128]) -> Result<(), AllocError>
        ensures states { OnOk result (self.new.states.items ≡ self.old.states.items ++ states.now) }
        ensures levels { OnOk result (self.new.levels.items ≡ self.old.levels.items ++ levels.now) }
    {
        self.states.extend_from_slice(states)?;
        self.levels.extend_from_slice(levels)?;
        Ok(())
    }

    /// The trace with these states and levels, in units `scale` times finer than the machine's.
    pub(crate) fn finish(self, alloc: Global, m: &Machine, scale: u32) -> Result<Trace, AllocError>
        requires size { IsSize (state_count m.now) }
        requires scale { IsFactor scale }
        requires places { ArePlaces (state_count m.now) self.states.items self.levels.items }
        ensures { IfOk result
            (λ t. IsTraceOf m.now scale (places (state_count m.now) self.states.items)
            (places (state_count m.now) self.levels.items) t) }
    {
        let q = quanta_of(alloc, m)?;
        Ok(Trace {
            n: m.states.as_slice().len() as u8,
            scale,
            refine: 1,
            q: Items::new(q),
            states: Items::new(self.states),
            levels: Items::new(self.levels),
        })
    }
}

/// The reason why a run has no trace.
#[derive(Clone, Copy, PartialEq, Eq, Debug, Drop)]
pub enum TraceOver {
    /// The run overflows at the tick by the variable, or the state exceeds the range of traces.
    Over { tick: u64, var: u32 },
    /// An allocation failed.
    Memory,
}

impl From<AllocError> for TraceOver {
    ghost use Rattle.std.specs.Prelude.{◌≡◌};
    ghost use Rattle.qss_own_traces.specs.declared.own_trace_draft.TraceOver.TheVariants.{Memory};

    ghost from_gives = { λ _ why. why ≡ Memory };

    fn from(_: AllocError) -> TraceOver {
        TraceOver::Memory
    }
}

impl<T: Drop> From<AllocFailed<T>> for TraceOver {
    ghost use Rattle.std.specs.Prelude.{◌≡◌};
    ghost use Rattle.qss_own_traces.specs.declared.own_trace_draft.TraceOver.TheVariants.{Memory};

    ghost from_gives = { λ _ why. why ≡ Memory };

    fn from(_: AllocFailed<T>) -> TraceOver {
        TraceOver::Memory
    }
}

/// Checks the sizes of numbers. The error is the least index of a number greater than 2^bits in
/// absolute value.
pub(crate) fn check_sizes(numbers: &[i128], bits: u8) -> Result<(), Over>
    requires count_limit { length numbers.now ≤ variable_limit }
    requires bits { bits < 100 }
    ensures { overflow_of result ≡ first_exceeding bits numbers.now }
{
    check_none(first_large(numbers, bits))
}

// The least index of a number greater than 2^bits in absolute value.
fn first_large(numbers: &[i128], bits: u8) -> Option<usize>
    requires { bits < 100 }
    ensures value { result ≡ first_exceeding bits numbers.now }
    ensures bound { IfSome result (λ place. place < length numbers.now) }
{
    numbers
        .iter()
        .position(|number| exceeds_power_of_two(*number, bits))
}

/// Checks that no index was found. The error is the index.
pub(crate) fn check_none(found: Option<usize>) -> Result<(), Over>
    requires { IfSome found (λ var. var ≤ variable_limit) }
    ensures { overflow_of result ≡ found }
{
    match found {
        Some(var) => Err(Over { var: var as u32 }),
        None => Ok(()),
    }
}

/// A state after one tick.
pub(crate) fn risen(x: i128, slope: i128) -> i128
    requires state { IsWithin 108 x }
    requires slope { IsWithin 118 slope }
    ensures value { result ≡ x +ℤ slope }
    ensures bound { IsWithin 119 result }
{
    x + slope
}

/// The states at the start, in units `scale` times finer than the machine's.
pub(crate) fn states_at_start(
    alloc: Global,
    m: &Machine,
    scale: u32,
) -> Result<Vec<i128>, AllocError>
    requires { IsFactor scale }
    ensures { IfOk result (λ list. list.items ≡ map (λ x. pos scale *ℤ x) (start_states m.now)) }
{
    m.states
        .as_slice()
        .iter()
        .map(|state| state.x0)
        .map(|x| scale_trace_start(scale, x))
        .collect(alloc)
}

/// The levels of states: their floors.
pub(crate) fn levels_below(
    alloc: Global,
    m: &Machine,
    states: &[i128],
) -> Result<Vec<i128>, AllocError>
    ensures { IfOk result
        (λ list. list.items ≡ map (λ x. floor_of x (level_unit m.now)) states.now) }
{
    let unit = m.level_unit();
    states.iter().map(|x| floor_div(*x, unit)).collect(alloc)
}

// The quanta of the states, in levels.
fn quanta_of(alloc: Global, m: &Machine) -> Result<Vec<i128>, AllocError>
    ensures { IfOk result (λ list. list.items ≡ quanta m.now) }
{
    m.states
        .as_slice()
        .iter()
        .map(|state| i128::from(state.quantum))
        .collect(alloc)
}
