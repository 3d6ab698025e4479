//! What the contract of the program implies if the contents of the files are known.

ghost use Rattle.std.specs.Prelude.{◌≡◌, ◌≢◌, ◌≤◌, ◌⊎◌, [], true, List, ℕ, map, None, Some, Contains};
ghost use Rattle.qss_guarantees.specs.Prelude.{Appends, HasOneMoreFault, AppendsPrefix, EndsByFault, Answer, Command, command_of, files_of, writes_as_it_goes, leaves_out, IsOutOfMemoryPrefix};
ghost use Rattle.qss_guarantees.specs.ExpectedResults.{ExpectedResult, IsExpectedResult, answered};
ghost use Rattle.qss_guarantees.specs.Replies.{IsReplyGiven, HasReply, text_of, SomeFaultCounted, IsStatusReported};

use mu_io::{Shelf, Sink};
use qss_top::{Status, qss_main};
use std::alloc::Global;

/// Calls `qss_main`. The contract follows from the contract of `qss_main`. It states the call in
/// terms of the result that the arguments and the contents of the files determine, if the contents
/// are known. The clauses from `usage` on are clauses of `qss_main`.
pub fn run_on_known_contents<S: Shelf, O: Sink, E: Sink>(
    alloc: Global,
    words: &[&str],
    shelf: &mut S,
    out: &mut O,
    err: &mut E,
) -> Status
    // If the file contents are known: if the status is not 3, 4 or 8, it is the specified one, and
    // exactly the specified text is appended to `out`. If a file is missing, the status is 3 or 8.
    // Only a prefix of the text is ever appended.
    ensures replied { (expected : ExpectedResult)
        → IsExpectedResult (map (λ word. word.now) words.now) (S.files shelf.old) expected
        → IsReplyGiven expected.reply result (O.written out.old) (O.written out.new) }
    ensures prefix { (expected : ExpectedResult)
        → IsExpectedResult (map (λ word. word.now) words.now) (S.files shelf.old) expected
        → HasReply (λ answer. AppendsPrefix (O.written out.old) (O.written out.new) answer.out)
        expected.reply }
    ensures no_fault_without_text { (expected : ExpectedResult)
        → IsExpectedResult (map (λ word. word.now) words.now) (S.files shelf.old) expected
        → text_of expected.reply ≡ []
        → O.faults out.new ≡ O.faults out.old }

    // If an allocation fails, the appended text is empty, or some complete lines of the specified
    // text, or all text of a run that overflows.
    ensures out_of_memory_prefix { (expected : ExpectedResult)
        → IsExpectedResult (map (λ word. word.now) words.now) (S.files shelf.old) expected
        → result ≡ Status.Memory
        → HasReply (IsOutOfMemoryPrefix (O.written out.old) (O.written out.new)) expected.reply }

    // If no I/O error and no allocation failure occurs, the status is the specified one and the
    // whole text is appended. An I/O error increments the fault count of its file or of `out`,
    // which stays at 2^64 - 1 once it is reached.
    ensures complete { (expected : ExpectedResult) (answer : Answer)
        → IsExpectedResult (map (λ word. word.now) words.now) (S.files shelf.old) expected
        → expected.reply ≡ answered answer
        → ¬ SomeFaultCounted expected.files_read (S.faults shelf.old) (S.faults shelf.new)
        → ¬ HasOneMoreFault (O.faults out.old) (O.faults out.new)
        → result ≢ Status.Memory
        → (result ≡ answer.status) × Appends (O.written out.old) (O.written out.new) answer.out }

    // Also if the contents are not known: status 3 occurs only for a file of the command, whose
    // fault count is incremented. The fault count of every file that is not a file of the command is
    // unchanged.
    ensures command_read_fault { (command : Command)
        → command_of (map (λ word. word.now) words.now) ≡ Some command
        → result ≡ Status.ReadFault
        → SomeFaultCounted (files_of command) (S.faults shelf.old) (S.faults shelf.new) }
    ensures command_counts { (command : Command)
        → command_of (map (λ word. word.now) words.now) ≡ Some command
        → (name : List ℕ) → ¬ Contains (files_of command) name
        → S.faults shelf.new name ≡ S.faults shelf.old name }

    // If the file contents are known, this holds for the files that are read.
    ensures read_fault { (expected : ExpectedResult)
        → IsExpectedResult (map (λ word. word.now) words.now) (S.files shelf.old) expected
        → result ≡ Status.ReadFault
        → SomeFaultCounted expected.files_read (S.faults shelf.old) (S.faults shelf.new) }
    ensures other_counts_unchanged { (expected : ExpectedResult)
        → IsExpectedResult (map (λ word. word.now) words.now) (S.files shelf.old) expected
        → (name : List ℕ) → ¬ Contains expected.files_read name
        → S.faults shelf.new name ≡ S.faults shelf.old name }

    // The line of the status is appended to `err`, or a prefix of it if `err` fails. No line is
    // appended for status 0.
    ensures line { (expected : ExpectedResult)
        → IsExpectedResult (map (λ word. word.now) words.now) (S.files shelf.old) expected
        → IsStatusReported result expected.reply (E.written err.old) (E.written err.new)
        (E.faults err.old) (E.faults err.new) }

    // Status 2 occurs only if the arguments are not a valid command. Files are only read.
    ensures usage { result ≡ Status.Usage → command_of (map (λ word. word.now) words.now) ≡ None }
    ensures no_command { command_of (map (λ word. word.now) words.now) ≡ None
        → (result ≡ Status.Usage) ⊎ (result ≡ Status.Memory) }
    ensures files { S.files shelf.new ≡ S.files shelf.old }

    // Fault counts of files change only at status 3.
    ensures counts_never_fall { (name : List ℕ) → S.faults shelf.old name ≤ S.faults shelf.new name }
    ensures no_read_fault { result ≢ Status.ReadFault
        → (name : List ℕ) → S.faults shelf.new name ≡ S.faults shelf.old name }

    // Status 4 occurs only if the last write to `out` failed, and nothing is appended afterwards.
    // A rejection appends nothing to `out`, and neither does an allocation failure outside a run.
    ensures fault_was_last { result ≡ Status.WriteFault → EndsByFault O.faults O.failed out.old out.new }
    ensures no_new_fault { result ≢ Status.WriteFault → O.faults out.new ≡ O.faults out.old }
    ensures untouched { leaves_out
        (writes_as_it_goes (command_of (map (λ word. word.now) words.now))) result
        ≡ true
        → out.new ≡ out.old }
    ensures err_unchanged { result ≡ Status.Ok → err.new ≡ err.old }
    ensures err_count_never_falls { E.faults err.old ≤ E.faults err.new }
{
    qss_main(alloc, words, shelf, out, err)
}
