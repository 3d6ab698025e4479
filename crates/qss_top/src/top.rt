//! The program as a function of arguments, files and streams.

ghost use Rattle.std.specs.Prelude.{◌≡◌, ◌≢◌, ◌≤◌, ◌⊎◌, true, List, ℕ, map, None};
ghost use Rattle.qss_top.specs.Prelude.{EndsByFault, command_of, writes_as_it_goes};
ghost use Rattle.qss_top.specs.Calls.{IsTrueToReads};
ghost use Rattle.qss_top.specs.Frames.{AddsReadings, CountsLastFault};
ghost use Rattle.qss_top.specs.Statuses.{leaves_out};

use crate::command::answer;
use crate::command_outcome::report;
use crate::status::Status;
use mu_io::{Shelf, Sink};
use std::alloc::Global;

/// Executes the program: parses the arguments after the program's name, reads the files, and writes
/// to `out` and `err`. Returns the status.
pub fn qss_main<S: Shelf, O: Sink, E: Sink>(
    alloc: Global,
    words: &[&str],
    shelf: &mut S,
    out: &mut O,
    err: &mut E,
) -> Status
    // The program computes its specification for exactly the bytes that were read, also if the file
    // contents are not known. The crate qss_guarantees states what this implies for each command,
    // and for files with known contents.
    ensures reads { IsTrueToReads (command_of (map (λ word. word.now) words.now)) result
        (O.written out.old) (O.written out.new) (E.written err.old) (E.written err.new)
        (E.faults err.old) (E.faults err.new) (S.readings shelf.old) (S.readings shelf.new) }

    // Status 2 occurs only if the arguments are not a valid command.
    ensures usage { result ≡ Status.Usage → command_of (map (λ word. word.now) words.now) ≡ None }
    ensures no_command { command_of (map (λ word. word.now) words.now) ≡ None
        → (result ≡ Status.Usage) ⊎ (result ≡ Status.Memory) }

    // Files are only read. If their contents are known, the readings are possible for them.
    ensures files { S.files shelf.new ≡ S.files shelf.old }
    ensures readings { AddsReadings (S.files shelf.old) (S.readings shelf.old)
        (S.readings shelf.new) }

    // At status 3 the last reading failed, and the fault count of its file is incremented, or stays
    // at 2^64 - 1. All other fault counts of files are unchanged, and all of them at other statuses.
    ensures last_reading_failed { result ≡ Status.ReadFault
        → CountsLastFault (S.readings shelf.new) (S.faults shelf.old) (S.faults shelf.new) }
    ensures no_read_fault { result ≢ Status.ReadFault
        → (name : List ℕ) → S.faults shelf.new name ≡ S.faults shelf.old name }
    ensures counts_never_fall { (name : List ℕ) → S.faults shelf.old name ≤ S.faults shelf.new name }

    // Status 4 occurs only if the last write to `out` failed, and nothing is appended afterwards.
    // A rejection appends nothing to `out`, and neither does an allocation failure outside a run.
    ensures fault_was_last { result ≡ Status.WriteFault → EndsByFault O.faults O.failed out.old out.new }
    ensures no_new_fault { result ≢ Status.WriteFault → O.faults out.new ≡ O.faults out.old }
    ensures untouched { leaves_out
        (writes_as_it_goes (command_of (map (λ word. word.now) words.now))) result
        ≡ true
        → out.new ≡ out.old }

    // No line is appended to `err` for status 0.
    ensures err_unchanged { result ≡ Status.Ok → err.new ≡ err.old }
    ensures err_count_never_falls { E.faults err.old ≤ E.faults err.new }
{
    let outcome = answer(alloc, words, shelf, out);
    report(alloc, &outcome, err)
}
