//! Checks a trace from its bytes and writes the summary of a legitimate run.

ghost use Rattle.std.specs.Prelude.{◌≡◌, IfOk, IfErr};
ghost use Rattle.qss_answers.specs.Prelude.{Appends, state_count, IsTextOf, IsRunOf, Trace};
ghost use Rattle.qss_answers.specs.Answers.{written, HasNoText, Ends};
ghost use Rattle.qss_answers.specs.TraceAnswers.{IsRead, IsChecked};
ghost use Rattle.qss_answers.specs.TraceAnswers as Spec;

use crate::answer_result::{AnswerErr, AnswerResult};
use crate::answer_writing::write_answer;
use crate::refusal::Refusal;
use crate::trace_reading::{TraceText, read_run};
use mu_io::Sink;
use qss_trace::Trace;
use std::alloc::{AllocError, Global};

/// Parses and checks a trace of a machine. If it is a legitimate run, writes its summary: a header,
/// then the number of places, the scale and the refinement.
pub fn check_trace_text<O: Sink>(alloc: Global, text: TraceText, out: &mut O) -> AnswerResult
    ensures answered { Ends O.written O.faults O.failed
        (IsChecked text.entry.m.now text.entry.bytes.now) result out.old out.new }

    // If a summary is written, the bytes are a trace that is a legitimate run from the machine's
    // start.
    ensures accepted { result ≡ AnswerResult.Written
        → (t : Trace)
        × IsTextOf (state_count text.entry.m.now) text.entry.bytes.now t
        × IsRunOf text.entry.m.now t
        × Appends (O.written out.old) (O.written out.new) (Spec.summary t) }

    // If the trace is rejected, no such trace exists for these bytes.
    ensures rejected { (why : Refusal) → result ≡ AnswerResult.Refused why
        → (t : Trace) → IsRead text.entry.m.now text.entry.bytes.now t
        → IsRunOf text.entry.m.now t
        → ⊥ }
{
    write_answer(check_answer(alloc, text), out)
}

// The summary of the trace in these bytes if it is a legitimate run. Error: the reason why there
// is none.
fn check_answer(alloc: Global, text: TraceText) -> Result<Vec<u8>, AnswerErr>
    ensures text { IfOk result
        (λ line. IsChecked text.entry.m.now text.entry.bytes.now (written line.items)) }
    ensures no_text { IfErr result
        (HasNoText (IsChecked text.entry.m.now text.entry.bytes.now)) }
{
    let t = read_run(alloc, text)?;
    Ok(summary(alloc, &t)?)
}

// The summary of a trace.
fn summary(alloc: Global, t: &Trace) -> Result<Vec<u8>, AllocError>
    ensures { IfOk result (λ text. text.items ≡ Spec.summary t.now) }
{
    let places = t.places();
    let scale = t.scale;
    let refine = t.refine;
    let text = format!(in alloc; "places,scale,refine\n{places},{scale},{refine}\n")?;
    Ok(text.into_bytes())
}
