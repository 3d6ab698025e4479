//! Reads the trace of a machine from bytes, and checks that it is a legitimate run.

ghost use Rattle.std.specs.Prelude.{◌≡◌, ◌≤◌, [], length, IfOk, OnOk, IfErr};
ghost use Rattle.qss_answers.specs.Prelude.{state_count, IsInScope, Legitimate};
ghost use Rattle.qss_trace.specs.TraceVerdicts.{IsVerdict};
ghost use Rattle.qss_answers.specs.TraceAnswers.{limit, IsRead, IsAccepted, IsBrokenBy, RefusesBy};

use crate::answer_result::AnswerErr;
use crate::refusal::Refusal;
use cert_check::TextErr;
use qss_machine::Machine;
use qss_trace::{Trace, TraceVerdict, check_trace, read_trace};
use std::alloc::Global;

/// The greatest length of a trace, in bytes.
pub const TRACE_LIMIT: usize = 1 << 24;

/// A machine m without clauses and with 1 to 16 states, and the bytes of a trace of it, at most
/// `TRACE_LIMIT`.
#[derive(Clone, Copy)]
pub struct TraceText<'a> {
    pub m: &'a Machine,
    pub bytes: &'a [u8],
    pub ghost scope: { IsInScope m.now },
    pub ghost short: { length bytes.now ≤ limit },
}

/// Parses and checks a trace, which must be a legitimate run. Error: the reason why there is
/// none.
pub(crate) fn read_run(alloc: Global, text: TraceText) -> Result<Trace, AnswerErr>
    ensures read { IfOk result (IsAccepted text.entry.m.now text.entry.bytes.now) }
    ensures refused { IfErr result (RefusesBy text.entry.m.now text.entry.bytes.now) }
{
    let t = read_for(alloc, text)?;
    match judge(text.m, &t) {
        Ok(()) => Ok(t),
        Err(why) => Err(AnswerErr::Refused(why)),
    }
}

// Parses a trace with the machine's number of states. Error: the reason why there is none.
fn read_for(alloc: Global, text: TraceText) -> Result<Trace, AnswerErr>
    ensures read { IfOk result (IsRead text.entry.m.now text.entry.bytes.now) }
    ensures refused { IfErr result (RefusesBy text.entry.m.now text.entry.bytes.now) }
{
    match read_trace(alloc, text.bytes, text.m.states.as_slice().len() as u8) {
        Ok(t) => Ok(t),
        Err(TextErr::Memory) => Err(AnswerErr::Memory),
        Err(why) => Err(AnswerErr::Refused(Refusal::NotTrace(why))),
    }
}

// Checks a trace. Error: the first fact of a legitimate run that it breaks.
fn judge(m: &Machine, t: &Trace) -> Result<(), Refusal>
    requires plain { m.now.clauses ≡ [] }
    requires size { t.now.n ≡ state_count m.now }
    ensures legitimate { OnOk result (IsVerdict m.now t.now Legitimate) }
    ensures broken { IfErr result (IsBrokenBy m.now t.now) }
{
    match check_trace(m, t) {
        TraceVerdict::Legitimate => Ok(()),
        TraceVerdict::Broken {
            place,
            fact,
            state,
            left,
            right,
        } => Err(Refusal::Broken {
            place,
            fact,
            state,
            left,
            right,
        }),
    }
}
