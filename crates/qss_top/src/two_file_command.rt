//! Executes the commands on a model and a second text: a certificate or a trace.

ghost use Rattle.std.specs.Prelude.{◌≡◌, ◌≤◌, ◌∷◌, length, false};
ghost use Rattle.qss_top.specs.Prelude.{model_length_limit, IsInScope, files_of, share_of_task, command_on};
ghost use Rattle.qss_top.specs.CertificateOutcomes.{files_after_text, kind_in, ScopeAnswers, SourceAnswers, TextAnswers};
ghost use Rattle.qss_top.specs.CommandAnswers.{Answers};
ghost use Rattle.qss_top.specs.FileReadings.{limit_of};
ghost use Rattle.qss_top.specs.Frames.{AnswersFromFiles};

use crate::byte_answers::{certify_machine, check_machine, upgrade_machine};
use crate::command_outcome::Outcome;
use crate::comparison::compare_runs;
use crate::file_reading::{FileKind, read_file};
use crate::run_origin::{Origins, named_origin};
use crate::source::compile_source;
use cert_check::scope;
use mu_io::{Shelf, Sink};
use qss_answers::{CertificateText, Refusal, TraceText};
use qss_cli::{TwoFileTask, TwoFiles};
use qss_machine::Machine;
use std::alloc::Global;

/// Executes a task on a model and a second text, which are read from two files.
#[inline(never)]
pub(crate) fn execute_two_file_task<S: Shelf, O: Sink>(
    alloc: Global,
    files: TwoFiles,
    shelf: &mut S,
    out: &mut O,
) -> Outcome
    ensures { AnswersFromFiles S.files S.faults S.readings O.written O.faults O.failed false
        (files_of (command_on files.entry.task files.entry.model.now files.entry.second.now))
        (Answers (command_on files.entry.task files.entry.model.now files.entry.second.now)) result
        shelf.old shelf.new out.old out.new }
{
    match read_file(alloc, shelf, files.model, FileKind::Model) {
        Ok(bytes) => on_model(alloc, files, &bytes, shelf, out),
        Err(what) => what,
    }
}

// Executes the task on the machine of a model.
fn on_model<S: Shelf, O: Sink>(
    alloc: Global,
    files: TwoFiles,
    bytes: &[u8],
    shelf: &mut S,
    out: &mut O,
) -> Outcome
    requires { length bytes.now ≤ model_length_limit }
    ensures { AnswersFromFiles S.files S.faults S.readings O.written O.faults O.failed false
        (files.entry.second.now ∷ files_after_text files.entry.task)
        (SourceAnswers files.entry.task bytes.now) result shelf.old shelf.new out.old out.new }
{
    let TwoFiles { task, second, .. } = files;
    match compile_source(alloc, share_of(task), bytes) {
        Ok(m) => in_scope(alloc, task, &m, second, shelf, out),
        Err(what) => what,
    }
}

// The relative quantum of the task, in 4096ths, which is 0 for an upgrade.
fn share_of(task: TwoFileTask) -> u16
    ensures { result ≡ share_of_task task.entry }
{
    match task {
        TwoFileTask::Certify { share } => share,
        TwoFileTask::Upgrade | TwoFileTask::Check | TwoFileTask::Compare(_) => 0,
    }
}

// Executes the task if the machine can have a certificate, and rejects it otherwise.
fn in_scope<S: Shelf, O: Sink>(
    alloc: Global,
    task: TwoFileTask,
    m: &Machine,
    second: &str,
    shelf: &mut S,
    out: &mut O,
) -> Outcome
    ensures { AnswersFromFiles S.files S.faults S.readings O.written O.faults O.failed false
        (second.now ∷ files_after_text task.entry) (ScopeAnswers task.entry m.now) result shelf.old
        shelf.new out.old out.new }
{
    match scope(m) {
        Ok(_states) => text_file_command(alloc, task, m, second, shelf, out),
        Err(why) => Outcome::Rejected(Refusal::Outside(why)),
    }
}

// Executes the task on the second text, which is read from a file.
fn text_file_command<S: Shelf, O: Sink>(
    alloc: Global,
    task: TwoFileTask,
    m: &Machine,
    second: &str,
    shelf: &mut S,
    out: &mut O,
) -> Outcome
    requires { IsInScope m.now }
    ensures { AnswersFromFiles S.files S.faults S.readings O.written O.faults O.failed false
        (second.now ∷ files_after_text task.entry) (ScopeAnswers task.entry m.now) result shelf.old
        shelf.new out.old out.new }
{
    match read_file(alloc, shelf, second, kind_of(task)) {
        Ok(text) => answer_second_file(alloc, task, m, &text, shelf, out),
        Err(what) => what,
    }
}

// What the second file contains.
fn kind_of(task: TwoFileTask) -> FileKind
    ensures { result ≡ kind_in task.entry }
{
    match task {
        TwoFileTask::Certify { .. } | TwoFileTask::Upgrade | TwoFileTask::Compare(_) =>
            FileKind::Certificate,
        TwoFileTask::Check => FileKind::Trace,
    }
}

// Executes the task on the bytes of the second text.
fn answer_second_file<S: Shelf, O: Sink>(
    alloc: Global,
    task: TwoFileTask,
    m: &Machine,
    text: &[u8],
    shelf: &mut S,
    out: &mut O,
) -> Outcome
    requires scope { IsInScope m.now }
    requires short { length text.now ≤ limit_of (kind_in task) }
    ensures { AnswersFromFiles S.files S.faults S.readings O.written O.faults O.failed false
        (files_after_text task.entry) (TextAnswers task.entry m.now text.now) result shelf.old shelf.new
        out.old out.new }
{
    match task {
        TwoFileTask::Certify { .. } => {
            certify_machine(alloc, CertificateText { m, bytes: text }, out)
        }
        TwoFileTask::Upgrade => upgrade_machine(alloc, CertificateText { m, bytes: text }, out),
        TwoFileTask::Check => check_machine(alloc, TraceText { m, bytes: text }, out),
        TwoFileTask::Compare(sides) => {
            let origins = Origins {
                one: named_origin(sides.one),
                two: named_origin(sides.two),
            };
            compare_runs(
                alloc,
                origins,
                CertificateText { m, bytes: text },
                shelf,
                out,
            )
        }
    }
}
