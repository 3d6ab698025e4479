//! Tests of traces of own runs, of runs without a trace, and of lines of second-order rows.

ghost use Rattle.std.specs.Prelude.{◌≡◌, ◌∷◌, [], ◌^◌, pos, negsuc, IfOk};
ghost use Rattle.qss_machine.specs.Machines.{state_count};

use crate::lists::{none, one};
use cert_check::scope;
use mu_io::{Items, Name};
use qss_machine::{Entry, Machine, SlopeRow, StateInfo};
use qss_own_traces::{TraceOver, first_trace, second_trace};
use qss_trace::Trace;
use std::alloc::{AllocError, Global};
use std::test::Fail;

#[test]
fn runs_without_a_trace_are_told(rt: HostRuntime) -> Result<(), Fail> {
    // A level exceeds 2^43, and in the second-order run 2^49 at a limit check.
    let m = growing(rt.alloc())?;
    assert!(rt; is_over(rt.alloc(), &m, false, 424));
    assert!(rt; is_over(rt.alloc(), &m, true, 424));
    // A level exceeds 2^43, and in the second-order run 2^64 at a tick without a limit check.
    let m = rising(rt.alloc())?;
    assert!(rt; is_over(rt.alloc(), &m, false, 1));
    assert!(rt; is_over(rt.alloc(), &m, true, 1));
    Ok(())
}

#[test]
fn runs_are_traced(rt: HostRuntime) -> Result<(), Fail> {
    let m = decay(rt.alloc())?;
    let first = traced(rt.alloc(), &m, false)?;
    assert!(rt;
        has(
            &first,
            1,
            &[
                262144, 245760, 230400, 215040, 201728, 188416, 176640, 164864, 154624, 144384,
                135424, 126464, 118784, 111104, 103424, 97024, 90624,
            ],
            &[
                64, 60, 60, 52, 52, 46, 46, 40, 40, 35, 35, 30, 30, 30, 25, 25, 25
            ],
        )
    );
    let second = traced(rt.alloc(), &m, true)?;
    assert!(rt;
        has(
            &second,
            64,
            &[
                16777216, 15728640, 14745600, 13828096, 12976128, 12189696, 11468800, 10813440,
                10137600, 9504000, 8912640, 8363520, 7856640, 7392000, 6969600, 6589440, 6177792,
            ],
            &[
                4096, 3840, 3584, 3328, 3072, 2816, 2560, 2640, 2475, 2310, 2145, 1980, 1815, 1650,
                1485, 1608, 1508,
            ],
        )
    );
    Ok(())
}

// Growth by 256/4096 of the level per tick.
fn growing(alloc: Global) -> Result<Machine, AllocError> {
    let states = decay_states(alloc)?;
    let rows = growth(alloc)?;
    Ok(Machine {
        p: 8,
        k: 4,
        f: 0,
        last: 1000,
        states,
        discretes: none(alloc),
        rows,
        clauses: none(alloc),
        relative: 0,
    })
}

// A state with start value 262144 and quantum 4.
fn decay_states(alloc: Global) -> Result<Items<StateInfo>, AllocError>
    ensures { IfOk result
        (λ states. states ≡ record { name = 120 ∷ []; x0 = pos 262144; quantum = pos 4 } ∷ []) }
{
    let name = Name::new(alloc, b"x")?;
    let state = StateInfo {
        name,
        x0: 262144,
        quantum: 4,
    };
    one(alloc, state)
}

// The right side 256 x.
fn growth(alloc: Global) -> Result<Items<SlopeRow>, AllocError>
    ensures { IfOk result
        (λ rows. rows
        ≡ record {
          entries = record { var = 0; coef = pos 256 } ∷ [];
          products = [];
          beta = pos 0;
        }
        ∷ []) }
{
    let row = SlopeRow {
        entries: one(alloc, Entry { var: 0, coef: 256 })?,
        products: none(alloc),
        beta: 0,
    };
    one(alloc, row)
}

// Whether a run has no trace, because of its only state at this tick.
fn is_over(alloc: Global, m: &Machine, second_order: bool, tick: u64) -> bool {
    match traced(alloc, m, second_order) {
        Ok(_) => false,
        Err(why) => why == TraceOver::Over { tick, var: 0 },
    }
}

// The trace of a run. The error is `Memory` if the machine is outside the scope of traces.
fn traced(alloc: Global, m: &Machine, second_order: bool) -> Result<Trace, TraceOver> {
    if scope(m).is_err() || m.last > 65535 {
        return Err(TraceOver::Memory);
    }
    if second_order {
        second_trace(alloc, m)
    } else {
        first_trace(alloc, m)
    }
}

// A machine whose state grows by 2^78 per tick. A level is one unit of a state.
fn rising(alloc: Global) -> Result<Machine, AllocError> {
    let states = resting(alloc)?;
    let rows = steep(alloc)?;
    Ok(Machine {
        p: 0,
        k: 0,
        f: 0,
        last: 3,
        states,
        discretes: none(alloc),
        rows,
        clauses: none(alloc),
        relative: 0,
    })
}

// A state with start value 0 and quantum 4.
fn resting(alloc: Global) -> Result<Items<StateInfo>, AllocError>
    ensures { IfOk result
        (λ states. states ≡ record { name = 120 ∷ []; x0 = pos 0; quantum = pos 4 } ∷ []) }
{
    let state = StateInfo {
        name: Name::new(alloc, b"x")?,
        x0: 0,
        quantum: 4,
    };
    one(alloc, state)
}

// The constant right side 2^78.
fn steep(alloc: Global) -> Result<Items<SlopeRow>, AllocError>
    ensures { IfOk result
        (λ rows. rows ≡ record { entries = []; products = []; beta = pos (2 ^ 78) } ∷ []) }
{
    let row = SlopeRow {
        entries: none(alloc),
        products: none(alloc),
        beta: 1 << 78,
    };
    one(alloc, row)
}

// Decay by 256/4096 of the level per tick, with quantum 4.
fn decay(alloc: Global) -> Result<Machine, AllocError>
    ensures { IfOk result (λ m. state_count m ≡ 1) }
{
    let states = decay_states(alloc)?;
    let rows = decay_rows(alloc)?;
    Ok(Machine {
        p: 8,
        k: 4,
        f: 0,
        last: 16,
        states,
        discretes: none(alloc),
        rows,
        clauses: none(alloc),
        relative: 0,
    })
}

// The right side -256 x.
fn decay_rows(alloc: Global) -> Result<Items<SlopeRow>, AllocError>
    ensures { IfOk result
        (λ rows. rows
        ≡ record {
          entries = record { var = 0; coef = negsuc 255 } ∷ [];
          products = [];
          beta = pos 0;
        }
        ∷ []) }
{
    let entries = one(alloc, Entry { var: 0, coef: -256 })?;
    let row = SlopeRow {
        entries,
        products: none(alloc),
        beta: 0,
    };
    one(alloc, row)
}

// Whether a trace has these units, states and levels, quantum 4, and one point per tick.
fn has(trace: &Trace, scale: u32, states: &[i128], levels: &[i128]) -> bool {
    trace.scale == scale
        && trace.refine == 1
        && trace.q.as_slice() == [4].as_slice()
        && trace.states.as_slice() == states
        && trace.levels.as_slice() == levels
}
