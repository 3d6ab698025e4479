//! The traces of the two runs of a comparison: the machine's own runs, or a trace in given bytes.

ghost use Rattle.std.specs.Prelude.{◌≡◌, ◌≤◌, ℕ, length, None, IfOk, IfErr, IfSome};
ghost use Rattle.qss_answers.specs.Comparisons.{first_order, second_order, traced, HasQuanta, IfMemory, IsFirstAbove, IsRunTrace, HasNoRunTrace, MayStop, TakesMemory};
ghost use Rattle.qss_answers.specs.TraceAnswers.{limit};

use crate::answer_result::AnswerErr;
use crate::comparison_basis::Basis;
use crate::comparison_ending::ComparisonStop;
use crate::refusal::Refusal;
use crate::trace_reading::{TraceText, read_run};
use cert_check::Certificate;
use qss_own_traces::{TraceOver, first_trace, second_trace};
use qss_trace::Trace;
use std::alloc::Global;

// The last tick up to which a machine's own runs are compared.
const LONGEST: u64 = 65535;

/// The trace of the machine's run with the rule `floor`, as run 1 or run 2 of a comparison.
/// Error: the reason why the runs cannot be compared.
pub fn first_side(alloc: Global, basis: Basis, run: u32) -> Result<Trace, ComparisonStop>
    ensures side { IfOk result (IsRunTrace basis.entry.m.now basis.entry.c.now first_order) }
    ensures stopped { IfErr result (MayStop (HasNoRunTrace basis.entry.m.now basis.entry.c.now run
        first_order)) }
    ensures memory { IfErr result (IfMemory (TakesMemory basis.entry.m.now first_order)) }
{
    let m = basis.m;
    if m.last > LONGEST {
        return Err(ComparisonStop::Refused(Refusal::Long { last: m.last }));
    }
    match first_trace(alloc, m) {
        Ok(t) => allowed_side_trace(basis.c, t, run),
        Err(over) => Err(stop_of(over)),
    }
}

/// The trace of the machine's second-order run, as run 1 or run 2 of a comparison.
/// Error: the reason why the runs cannot be compared.
pub fn second_side(alloc: Global, basis: Basis, run: u32) -> Result<Trace, ComparisonStop>
    ensures side { IfOk result (IsRunTrace basis.entry.m.now basis.entry.c.now second_order) }
    ensures stopped { IfErr result (MayStop (HasNoRunTrace basis.entry.m.now basis.entry.c.now run
        second_order)) }
    ensures memory { IfErr result (IfMemory (TakesMemory basis.entry.m.now second_order)) }
{
    let m = basis.m;
    if m.last > LONGEST {
        return Err(ComparisonStop::Refused(Refusal::Long { last: m.last }));
    }
    match second_trace(alloc, m) {
        Ok(t) => allowed_side_trace(basis.c, t, run),
        Err(over) => Err(stop_of(over)),
    }
}

/// The trace in these bytes, at most `TRACE_LIMIT`, as run 1 or run 2 of a comparison.
/// Error: the reason why the runs cannot be compared.
pub fn traced_side(
    alloc: Global,
    basis: Basis,
    run: u32,
    bytes: &[u8],
) -> Result<Trace, ComparisonStop>
    requires { length bytes.now ≤ limit }
    ensures side { IfOk result (IsRunTrace basis.entry.m.now basis.entry.c.now
        (traced bytes.now)) }
    ensures stopped { IfErr result (MayStop (HasNoRunTrace basis.entry.m.now basis.entry.c.now run
        (traced bytes.now))) }
{
    match read_run(alloc, TraceText { m: basis.m, bytes }) {
        Ok(t) => allowed_side_trace(basis.c, t, run),
        Err(AnswerErr::Refused(why)) => Err(ComparisonStop::Refused(why)),
        Err(AnswerErr::Memory) => Err(ComparisonStop::Memory),
    }
}

// Returns the trace if its quanta are at most the certificate's.
fn allowed_side_trace(c: &Certificate, t: Trace, run: u32) -> Result<Trace, ComparisonStop>
    requires { t.n ≡ c.now.n }
    ensures quanta { IfOk result (λ same. (same ≡ t) × HasQuanta c.now t) }
    ensures above { IfErr result
        (λ stop. (state : ℕ)
        × IsFirstAbove c.now t state
        × (stop ≡ ComparisonStop.Refused (Refusal.Quantum run state))) }
{
    match first_above(c, &t) {
        None => Ok(t),
        Some(state) => Err(ComparisonStop::Refused(Refusal::Quantum { run, state })),
    }
}

// The first state of a trace, counted from 1, whose quantum exceeds the certificate's.
fn first_above(c: &Certificate, t: &Trace) -> Option<u32>
    requires { t.now.n ≡ c.now.n }
    ensures none { result ≡ None → HasQuanta c.now t.now }
    ensures some { IfSome result (IsFirstAbove c.now t.now) }
{
    for j in 0..t.n {
        if t.q.as_slice()[j as usize] > c.q.as_slice()[j as usize] {
            return Some(u32::from(j) + 1);
        }
    }
    None
}

// The reason why runs cannot be compared if this run has no trace.
fn stop_of(over: TraceOver) -> ComparisonStop
    ensures overflow { (tick var : ℕ) → over ≡ TraceOver.Over tick var → result ≡
        ComparisonStop.Over tick var }
    ensures memory { over ≡ TraceOver.Memory → result ≡ ComparisonStop.Memory }
{
    match over {
        TraceOver::Over { tick, var } => ComparisonStop::Over { tick, var },
        TraceOver::Memory => ComparisonStop::Memory,
    }
}
