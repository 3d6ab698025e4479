//! Parses the command line and executes the command.

ghost use Rattle.std.specs.Prelude.{◌≡◌, ◌≤◌, ◌⊎◌, length, false, map, None, Some};
ghost use Rattle.qss_top.specs.Prelude.{model_length_limit, model, command_of, files_of, writes_as_it_goes, command_in, command_with};
ghost use Rattle.qss_top.specs.CommandAnswers.{Answers};
ghost use Rattle.qss_top.specs.Frames.{AnswersFromFiles, IsFileFrame, IsOutputFrame, WritesAnswer};
ghost use Rattle.qss_top.specs.MachineAnswers.{IsPrintAnswer, model_answer};
ghost use Rattle.qss_top.specs.ReadAnswers.{ArgumentsAnswerFromReads};
ghost use Rattle.qss_top.specs.Tasks.{task_goes};
ghost use Rattle.qss_cli.specs.Commands as Spec;

use crate::command_outcome::Outcome;
use crate::comparison::write_text;
use crate::file_reading::{FileKind, read_file};
use crate::generation::on_generation;
use crate::machine_task::answer_task;
use crate::two_file_command::execute_two_file_task;
use mu_canonical::write_model;
use mu_io::{Items, Shelf, Sink};
use mu_tree::Model;
use qss_cli::{Request, Task, read_words};
use qss_compile::{Refused, compile_source_to_tree};
use std::alloc::Global;

/// Executes the command of an argument list and writes to `out`.
pub(crate) fn answer<S: Shelf, O: Sink>(
    alloc: Global,
    words: &[&str],
    shelf: &mut S,
    out: &mut O,
) -> Outcome
    ensures usage { result ≡ Outcome.Usage → command_of (map (λ word. word.now) words.now) ≡ None }
    ensures no_command { command_of (map (λ word. word.now) words.now) ≡ None
        → (result ≡ Outcome.Usage) ⊎ (result ≡ Outcome.Memory) }
    ensures output { IsOutputFrame O.faults O.failed
        (writes_as_it_goes (command_of (map (λ word. word.now) words.now))) result out.old out.new }
    ensures shelf { IsFileFrame S.files S.faults S.readings result shelf.old shelf.new }
    ensures reads { ArgumentsAnswerFromReads (command_of (map (λ word. word.now) words.now)) result
        (O.written out.old) (O.written out.new) (S.readings shelf.old) (S.readings shelf.new) }
{
    match read_words(alloc, words) {
        Ok(Some(request)) => on_request(alloc, request, shelf, out),
        Ok(None) => Outcome::Usage,
        Err(_) => Outcome::Memory,
    }
}

// Executes a command.
fn on_request<S: Shelf, O: Sink>(
    alloc: Global,
    request: Request,
    shelf: &mut S,
    out: &mut O,
) -> Outcome
    ensures { AnswersFromFiles S.files S.faults S.readings O.written O.faults O.failed
        (writes_as_it_goes (Some (command_in request.entry)))
        (files_of (command_in request.entry)) (Answers (command_in request.entry)) result
        shelf.old shelf.new out.old out.new }
{
    match request {
        Request::Machine { task, model } => execute_file_task(alloc, task, model, shelf, out),
        Request::Print { model } => print_file(alloc, model, shelf, out),
        Request::TwoFiles(files) => execute_two_file_task(alloc, files, shelf, out),
        Request::Generated(generation) => on_generation(alloc, generation, out),
    }
}

// Executes a task on the machine of the model in a file.
fn execute_file_task<S: Shelf, O: Sink>(
    alloc: Global,
    task: Task,
    model: &str,
    shelf: &mut S,
    out: &mut O,
) -> Outcome
    ensures { AnswersFromFiles S.files S.faults S.readings O.written O.faults O.failed
        (task_goes task.entry) (files_of (command_with task.entry model.now))
        (Answers (command_with task.entry model.now)) result shelf.old shelf.new out.old out.new }
{
    match read_file(alloc, shelf, model, FileKind::Model) {
        Ok(bytes) => answer_task(alloc, task, &bytes, out),
        Err(what) => what,
    }
}

// Writes the canonical text of the model in a file.
fn print_file<S: Shelf, O: Sink>(alloc: Global, model: &str, shelf: &mut S, out: &mut O) -> Outcome
    ensures { AnswersFromFiles S.files S.faults S.readings O.written O.faults O.failed false
        (files_of (Spec.print_model model.now)) (Answers (Spec.print_model model.now)) result shelf.old
        shelf.new out.old out.new }
{
    match read_file(alloc, shelf, model, FileKind::Model) {
        Ok(bytes) => print_source(alloc, &bytes, out),
        Err(what) => what,
    }
}

/// Parses a source and writes the canonical text of its model.
#[inline(never)]
pub(crate) fn print_source<O: Sink>(alloc: Global, bytes: &[u8], out: &mut O) -> Outcome
    requires { length bytes.now ≤ model_length_limit }
    ensures { WritesAnswer O.written O.faults O.failed false (IsPrintAnswer bytes.now) result
        out.old out.new }
{
    match compile_source_to_tree(alloc, bytes) {
        Ok(tree) => print_model(alloc, &tree, out),
        Err(error) => Outcome::from(Refused {
            error,
            names: Items::new(Vec::new(alloc)),
        }),
    }
}

// Writes the canonical text of a model.
fn print_model<O: Sink>(alloc: Global, tree: &Model, out: &mut O) -> Outcome
    ensures { WritesAnswer O.written O.faults O.failed false
        (λ answer. answer ≡ model_answer (model tree.now)) result out.old out.new }
{
    match write_model(alloc, tree) {
        Ok(text) => write_text(&text, out),
        Err(_) => Outcome::Memory,
    }
}
