//! The commands as functions of the bytes of their files.

ghost use Rattle.std.specs.Prelude.{◌≡◌, ◌≤◌, false, List, ℕ, length, IfOk, OnOk, IfErr};
ghost use Rattle.qss_top.specs.Prelude.{Appends, relative_limit, IsInScope, Certificate, IsSoundCertification, state_count, Machine, IsTextOf, IsRunOf, Trace};
ghost use Rattle.qss_top.specs.Words.{IsCertifyAnswer, IsCheckAnswer, IsMachineAnswer, IsPrintAnswer, IsSourceMachine, IsUpgradeAnswer, IsRefusedBefore, IsTextUnparsed, IsScopedMachine, IsCompareAnswer, AreCertifiedBy, given_in, task_goes, IsSourceAnswer, WritesAnswer};
ghost use Rattle.qss_top.specs.FileReadings as Files;

use crate::command::print_source;
use crate::command_outcome::Outcome;
use crate::comparison::compare_machine;
use crate::file_reading::{FileKind, MODEL_LIMIT, limit_of, too_long};
use crate::machine_task::answer_task;
use crate::run_origin::RunSources;
use crate::source::compile_source;
use cert_check::scope;
use mu_io::Sink;
use qss_answers::{CertificateText, Refusal, TraceText, certify, check_trace_text, upgrade};
use qss_cli::Task;
use qss_machine::Machine;
use std::alloc::Global;

/// Executes a task on the machine of a model. The outcome and the text on `out` are specified.
pub fn answer_source<O: Sink>(alloc: Global, task: Task, source: &[u8], out: &mut O) -> Outcome
    ensures { WritesAnswer O.written O.faults O.failed (task_goes task.entry)
        (IsSourceAnswer task.entry source.now) result out.old out.new }
{
    if source.len() > MODEL_LIMIT {
        return Outcome::TooLong;
    }
    answer_task(alloc, task, source, out)
}

/// Writes the canonical text of a model. The outcome and the text on `out` are specified.
pub fn answer_print<O: Sink>(alloc: Global, source: &[u8], out: &mut O) -> Outcome
    ensures { WritesAnswer O.written O.faults O.failed false (IsPrintAnswer source.now) result
        out.old out.new }
{
    if source.len() > MODEL_LIMIT {
        return Outcome::TooLong;
    }
    print_source(alloc, source, out)
}

/// Checks the certificate of a model, with the relative quantum `share` in 4096ths, at most 2048.
/// The outcome and the text on `out` are specified.
pub fn answer_certificate<O: Sink>(
    alloc: Global,
    share: u16,
    source: &[u8],
    text: &[u8],
    out: &mut O,
) -> Outcome
    requires { share ≤ relative_limit }
    ensures answered { WritesAnswer O.written O.faults O.failed false
        (IsMachineAnswer share (λ m. IsCertifyAnswer m text.now) source.now) result out.old
        out.new }

    // If the certificate is accepted, any two legitimate runs of the machine that the source
    // denotes, from the certificate's starts, lie within the bounds that out gains, and each within
    // half of them of the solution from its own start.
    ensures certified { result ≡ Outcome.Done
        → (bounds : List ℕ)
        × (Appends (O.written out.old) (O.written out.new) bounds
        × AreCertifiedBy share source.now text.now bounds) }
{
    match machine_for_text(alloc, share, source, text, FileKind::Certificate) {
        Ok(m) => certify_machine(alloc, CertificateText { m: &m, bytes: text }, out),
        Err(what) => what,
    }
}

/// Writes the certificate of a model in form 3. The outcome and the text on `out` are specified.
pub fn answer_upgrade<O: Sink>(alloc: Global, source: &[u8], text: &[u8], out: &mut O) -> Outcome
    ensures { WritesAnswer O.written O.faults O.failed false
        (IsMachineAnswer 0 (λ m. IsUpgradeAnswer m text.now) source.now) result out.old out.new }
{
    match machine_for_text(alloc, 0, source, text, FileKind::Certificate) {
        Ok(m) => upgrade_machine(alloc, CertificateText { m: &m, bytes: text }, out),
        Err(what) => what,
    }
}

/// Checks whether a trace is a legitimate run of the model's machine.
/// The outcome and the text on `out` are specified.
pub fn answer_trace<O: Sink>(alloc: Global, source: &[u8], text: &[u8], out: &mut O) -> Outcome
    ensures answered { WritesAnswer O.written O.faults O.failed false
        (IsMachineAnswer 0 (λ m. IsCheckAnswer m text.now) source.now) result out.old out.new }

    // If the outcome is `Done`, the bytes are a trace that is a legitimate run from the machine's
    // start.
    ensures legitimate { result ≡ Outcome.Done
        → (m : Machine)
        × IsSourceMachine 0 source.now m
        × ((t : Trace) × IsTextOf (state_count m) text.now t × IsRunOf m t) }
{
    match machine_for_text(alloc, 0, source, text, FileKind::Trace) {
        Ok(m) => check_machine(alloc, TraceText { m: &m, bytes: text }, out),
        Err(what) => what,
    }
}

/// Compares two runs of the model's machine by a certificate.
/// The outcome and the text on `out` are specified.
pub fn answer_comparison<O: Sink>(
    alloc: Global,
    source: &[u8],
    text: &[u8],
    runs: RunSources,
    out: &mut O,
) -> Outcome
    ensures { WritesAnswer O.written O.faults O.failed false (IsMachineAnswer 0
        (λ m. IsCompareAnswer (given_in runs.entry.one) (given_in runs.entry.two) m text.now)
        source.now) result out.old out.new }
{
    match machine_for_text(alloc, 0, source, text, FileKind::Certificate) {
        Ok(m) => compare_machine(alloc, CertificateText { m: &m, bytes: text }, runs, out),
        Err(what) => what,
    }
}

// Compiles a source to a machine, with this relative quantum in 4096ths, for a certificate or a
// trace of it. Error: the outcome if the machine can have none or the text is too long.
fn machine_for_text(
    alloc: Global,
    share: u16,
    source: &[u8],
    text: &[u8],
    kind: FileKind,
) -> Result<Machine, Outcome>
    requires { share ≤ relative_limit }
    ensures machine { IfOk result (IsScopedMachine share source.now) }
    ensures short { IfOk result (λ m. length text.now ≤ Files.limit_of kind) }
    ensures refused { IfErr result (IsRefusedBefore share source.now kind text.now) }
{
    if source.len() > MODEL_LIMIT {
        return Err(Outcome::TooLong);
    }
    let m = compile_source(alloc, share, source)?;
    match test_text(&m, text, kind) {
        Ok(()) => Ok(m),
        Err(what) => Err(what),
    }
}

// Tests whether a machine can have certificates and traces, and whether the text is within its
// limit. Error: the outcome if not.
fn test_text(m: &Machine, text: &[u8], kind: FileKind) -> Result<(), Outcome>
    ensures scope { OnOk result (IsInScope m.now) }
    ensures short { OnOk result (length text.now ≤ Files.limit_of kind) }
    ensures refused { IfErr result (IsTextUnparsed kind m.now text.now) }
{
    match scope(m) {
        Ok(_states) if text.len() > limit_of(kind) => Err(too_long(kind)),
        Ok(_states) => Ok(()),
        Err(why) => Err(Outcome::Rejected(Refusal::Outside(why))),
    }
}

/// Checks the certificate of a machine and writes its bounds.
#[inline(never)]
pub(crate) fn certify_machine<O: Sink>(alloc: Global, text: CertificateText, out: &mut O) -> Outcome
    ensures answered { WritesAnswer O.written O.faults O.failed false
        (IsCertifyAnswer text.entry.m.now text.entry.bytes.now) result out.old out.new }
    ensures sound { result ≡ Outcome.Done
        → (c : Certificate)
        × (bounds : List ℕ)
        × Appends (O.written out.old) (O.written out.new) bounds
        × IsSoundCertification text.entry.m.now text.entry.bytes.now bounds c }
{
    Outcome::from(certify(alloc, text, out))
}

/// Writes the certificate of a machine in form 3.
#[inline(never)]
pub(crate) fn upgrade_machine<O: Sink>(alloc: Global, text: CertificateText, out: &mut O) -> Outcome
    ensures { WritesAnswer O.written O.faults O.failed false
        (IsUpgradeAnswer text.entry.m.now text.entry.bytes.now) result out.old out.new }
{
    Outcome::from(upgrade(alloc, text, out))
}

/// Checks whether a trace is a legitimate run of a machine.
#[inline(never)]
pub(crate) fn check_machine<O: Sink>(alloc: Global, text: TraceText, out: &mut O) -> Outcome
    ensures answered { WritesAnswer O.written O.faults O.failed false
        (IsCheckAnswer text.entry.m.now text.entry.bytes.now) result out.old out.new }
    ensures legitimate { result ≡ Outcome.Done
        → (t : Trace)
        × IsTextOf (state_count text.entry.m.now) text.entry.bytes.now t
        × IsRunOf text.entry.m.now t }
{
    Outcome::from(check_trace_text(alloc, text, out))
}
