//! Compares two runs of a machine by a certificate. The runs are the machine's own, or traces that
//! are given or read from files.

ghost use Rattle.std.specs.Prelude.{◌≡◌, ◌≢◌, ◌⊎◌, ◌++◌, [], false, Ok, Err, IfOk, IfErr};
ghost use Rattle.qss_top.specs.Prelude.{state_count, IsRunTrace, HasNoRunTrace, MayStop, IfMemory, TakesMemory};
ghost use Rattle.qss_top.specs.Words.{ComparisonAnswers, FirstRunAnswers, IsCompareAnswer, IsStopOutcome, ObtainsTrace, SecondRunAnswers, PairAnswer, names_of, Outcome, text_answer, given_in, origin_in, AnswersFromFiles, WritesAnswer};
ghost use Rattle.qss_rows.specs.RowTexts as Rows;

use crate::command_outcome::Outcome;
use crate::file_reading::{FileKind, read_file};
use crate::run_origin::{Origin, Origins, RunSource, RunSources};
use mu_io::{MemShelf, Name, Shelf, Sink, WriteErr, write_all};
use qss_answers::{
    Basis, CertificateText, ComparisonStop, Refusal, TRACE_LIMIT, comparison_text, first_side,
    second_side, traced_side, usable_certificate,
};
use qss_machine::Machine;
use qss_rows::line_variable_name;
use qss_trace::Trace;
use std::alloc::Global;

/// Compares two given runs of a machine by the bytes of a certificate. No file is read.
pub(crate) fn compare_machine<O: Sink>(
    alloc: Global,
    text: CertificateText,
    runs: RunSources,
    out: &mut O,
) -> Outcome
    ensures { WritesAnswer O.written O.faults O.failed false
        (IsCompareAnswer (given_in runs.entry.one) (given_in runs.entry.two) text.entry.m.now
        text.entry.bytes.now) result out.old out.new }
{
    let origins = Origins {
        one: Origin::Given(runs.one),
        two: Origin::Given(runs.two),
    };
    let mut no_files = MemShelf::new(alloc, Vec::new(alloc), Vec::new(alloc));
    compare_runs(alloc, origins, text, &mut no_files, out)
}

/// Compares two runs of a machine by the bytes of a certificate.
#[inline(never)]
pub(crate) fn compare_runs<S: Shelf, O: Sink>(
    alloc: Global,
    origins: Origins,
    text: CertificateText,
    shelf: &mut S,
    out: &mut O,
) -> Outcome
    ensures { AnswersFromFiles S.files S.faults S.readings O.written O.faults O.failed false
        (names_of (origin_in origins.entry.one) ++ names_of (origin_in origins.entry.two))
        (ComparisonAnswers (origin_in origins.entry.one) (origin_in origins.entry.two)
        text.entry.m.now text.entry.bytes.now) result shelf.old shelf.new out.old out.new }
{
    match usable_certificate(alloc, text) {
        Ok(c) => {
            let basis = Basis { m: text.m, c: &c };
            with_first(alloc, origins, basis, shelf, out)
        }
        Err(stop) => stopped(alloc, text.m, stop),
    }
}

// Compares the runs after the certificate is read: obtains the first run.
fn with_first<S: Shelf, O: Sink>(
    alloc: Global,
    origins: Origins,
    basis: Basis,
    shelf: &mut S,
    out: &mut O,
) -> Outcome
    ensures { AnswersFromFiles S.files S.faults S.readings O.written O.faults O.failed false
        (names_of (origin_in origins.entry.one) ++ names_of (origin_in origins.entry.two))
        (FirstRunAnswers (origin_in origins.entry.one) (origin_in origins.entry.two)
        basis.entry.m.now basis.entry.c.now) result shelf.old shelf.new out.old out.new }
{
    match obtain_trace(alloc, basis, 1, origins.one, shelf) {
        Ok(t1) => with_second(alloc, origins.two, basis, &t1, shelf, out),
        Err(what) => what,
    }
}

// The trace of a run, or the outcome without it. A file is read only for its own run.
#[inline(never)]
fn obtain_trace<S: Shelf>(
    alloc: Global,
    basis: Basis,
    run: u32,
    origin: Origin,
    shelf: &mut S,
) -> Result<Trace, Outcome>
    ensures { ObtainsTrace S.files S.faults S.readings basis.entry.m.now basis.entry.c.now run
        (origin_in origin.entry) result shelf.old shelf.new }
{
    match origin {
        Origin::Given(source) => {
            trace_or_outcome(alloc, basis.m, given_trace(alloc, basis, run, source))
        }
        Origin::InFile(name) => match read_file(alloc, shelf, name, FileKind::Trace) {
            Ok(bytes) => {
                trace_or_outcome(alloc, basis.m, traced_side(alloc, basis, run, &bytes))
            }
            Err(what) => Err(what),
        },
    }
}

// The trace, or the outcome of a comparison that stops for this reason.
fn trace_or_outcome(
    alloc: Global,
    m: &Machine,
    found: Result<Trace, ComparisonStop>,
) -> Result<Trace, Outcome>
    ensures trace { IfOk found (λ t. result ≡ Ok t) }
    ensures stopped { IfErr found
        (λ stop. (what : Outcome) × (result ≡ Err what) × IsStopOutcome m.now stop what) }
{
    match found {
        Ok(t) => Ok(t),
        Err(stop) => Err(stopped(alloc, m, stop)),
    }
}

// The outcome of a comparison that stops for this reason.
fn stopped(alloc: Global, m: &Machine, stop: ComparisonStop) -> Outcome
    ensures { IsStopOutcome m.now stop result }
{
    match stop {
        ComparisonStop::Refused(why) => Outcome::Rejected(why),
        ComparisonStop::Over { tick, var } => overflow_of(alloc, m, var, tick),
        ComparisonStop::Memory => Outcome::Memory,
    }
}

// The outcome for the overflow of a variable at a tick.
fn overflow_of(alloc: Global, m: &Machine, var: u32, tick: u64) -> Outcome
    ensures { (result ≡ Outcome.Memory)
        ⊎ (result ≡ Outcome.Overflow (Rows.name_of m.now var) tick) }
{
    match Name::new(alloc, name_of(m, var)) {
        Ok(name) => Outcome::Overflow { name, tick },
        Err(_) => Outcome::Memory,
    }
}

// The name of the variable with this number, or the empty name.
fn name_of(m: &Machine, var: u32) -> &[u8]
    ensures { result.now ≡ Rows.name_of m.now var }
{
    let count = m.states.as_slice().len() + m.discretes.as_slice().len();
    if (var as usize) < count {
        line_variable_name(m, var)
    } else {
        &[]
    }
}

// The trace of a given run, or the reason why the runs cannot be compared.
fn given_trace(
    alloc: Global,
    basis: Basis,
    run: u32,
    source: RunSource,
) -> Result<Trace, ComparisonStop>
    ensures trace { IfOk result (IsRunTrace basis.entry.m.now basis.entry.c.now (given_in
        source.entry)) }
    ensures stopped { IfErr result (MayStop (HasNoRunTrace basis.entry.m.now basis.entry.c.now run
        (given_in source.entry))) }
    ensures memory { IfErr result
        (IfMemory (TakesMemory basis.entry.m.now (given_in source.entry))) }
{
    match source {
        RunSource::First => first_side(alloc, basis, run),
        RunSource::Second => second_side(alloc, basis, run),
        RunSource::Traced(bytes) if bytes.len() > TRACE_LIMIT => {
            Err(ComparisonStop::Refused(Refusal::TraceTooLong))
        }
        RunSource::Traced(bytes) => traced_side(alloc, basis, run, bytes),
    }
}

// Compares the runs after the first one: obtains the second run.
fn with_second<S: Shelf, O: Sink>(
    alloc: Global,
    origin: Origin,
    basis: Basis,
    t1: &Trace,
    shelf: &mut S,
    out: &mut O,
) -> Outcome
    requires { t1.now.n ≡ state_count basis.m.now }
    ensures { AnswersFromFiles S.files S.faults S.readings O.written O.faults O.failed false
        (names_of (origin_in origin.entry))
        (SecondRunAnswers (origin_in origin.entry) basis.entry.m.now basis.entry.c.now t1.now)
        result shelf.old shelf.new out.old out.new }
{
    match obtain_trace(alloc, basis, 2, origin, shelf) {
        Ok(t2) => with_both(alloc, basis, t1, &t2, out),
        Err(what) => what,
    }
}

// Writes the text of the comparison of two traces.
#[inline(never)]
fn with_both<O: Sink>(alloc: Global, basis: Basis, t1: &Trace, t2: &Trace, out: &mut O) -> Outcome
    requires first { t1.now.n ≡ state_count basis.m.now }
    requires second { t2.now.n ≡ state_count basis.m.now }
    ensures { WritesAnswer O.written O.faults O.failed false
        (PairAnswer basis.entry.m.now basis.entry.c.now t1.now t2.now) result out.old out.new }
{
    match comparison_text(alloc, basis, t1, t2) {
        Ok(text) => write_text(&text, out),
        Err(stop) => stopped(alloc, basis.m, stop),
    }
}

/// Writes a text that is not empty.
pub(crate) fn write_text<O: Sink>(text: &[u8], out: &mut O) -> Outcome
    requires { text.now ≢ [] }
    ensures { WritesAnswer O.written O.faults O.failed false
        (λ answer. answer ≡ text_answer text.now) result out.old out.new }
{
    match write_all(out, text) {
        Ok(()) => Outcome::Done,
        Err(WriteErr::Fault) => Outcome::WriteFault,
    }
}
