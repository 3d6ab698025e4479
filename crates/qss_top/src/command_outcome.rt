//! The outcome of a command, its status, and its line on standard error.

ghost use Rattle.std.specs.Prelude.{◌≡◌, ◌⊎◌, ◌≤◌, true, ℕ, List, codes, IfOk};
ghost use Rattle.qss_top.specs.Words.{overflow_line, status_of_refusal, IsLineWritten};
ghost use Rattle.qss_top.specs.CertificateOutcomes.{outcome_by, outcome_of_run};
ghost use Rattle.qss_top.specs.CommandOutcomes.{refused_so};
ghost use Rattle.qss_top.specs.CommandOutcomes as Spec;

use crate::status::Status;
use mu_io::{Name, Sink, write_all};
use qss_answers::{AnswerResult, Refusal, write_refusal};
use qss_compile::{ModelErr, Refused, phase_fault_line};
use qss_rows::RunResult;
use std::alloc::{AllocError, Global};

/// The outcome of a command.
#[derive(Drop)]
pub enum Outcome {
    Done,
    Usage,
    ReadFault,
    WriteFault,
    TooLong,
    Refused(Refused),
    Overflow { name: Name, tick: u64 },
    Rejected(Refusal),
    Memory,
}

impl From<Refused> for Outcome {
    ghost from_gives = { λ refused what. what ≡ refused_so refused };

    fn from(refused: Refused) -> Outcome {
        match refused.error {
            ModelErr::Memory => Outcome::Memory,
            _ => Outcome::Refused(refused),
        }
    }
}

impl From<AnswerResult> for Outcome {
    ghost from_gives = { λ ended what. what ≡ outcome_by ended };

    fn from(ended: AnswerResult) -> Outcome {
        match ended {
            AnswerResult::Written => Outcome::Done,
            AnswerResult::Refused(why) => Outcome::Rejected(why),
            AnswerResult::Fault => Outcome::WriteFault,
            AnswerResult::Memory => Outcome::Memory,
        }
    }
}

impl From<RunResult> for Outcome {
    ghost from_gives = { λ ended what. what ≡ outcome_of_run ended };

    fn from(ended: RunResult) -> Outcome {
        match ended {
            RunResult::Ended => Outcome::Done,
            RunResult::Overflowed { name, tick } => Outcome::Overflow { name, tick },
            RunResult::Fault => Outcome::WriteFault,
            RunResult::Memory => Outcome::Memory,
        }
    }
}

/// Writes the line of an outcome to `err` and returns the status. If the line cannot be allocated,
/// the line and the status are those of `Memory`.
#[inline(never)]
pub fn report<E: Sink>(alloc: Global, outcome: &Outcome, err: &mut E) -> Status
    ensures status { (result ≡ Spec.status_of outcome.now)
        ⊎ ((result ≡ Status.Memory) × (Spec.takes_memory outcome.now ≡ true)) }
    ensures err_unchanged { outcome.now ≡ Outcome.Done → err.new ≡ err.old }
    ensures line { (line : List ℕ)
        × Spec.IsReported result outcome.now line
        × IsLineWritten line (E.written err.old) (E.written err.new) (E.faults err.old)
        (E.faults err.new) }
    ensures counts_never_fall { E.faults err.old ≤ E.faults err.new }
{
    match outcome {
        Outcome::Done => Status::Ok,
        Outcome::Usage => tell(
            Status::Usage,
            b"usage: qss VERB [WORD] [WORD] [WORD] [WORD] [--rule RULE] [--only NAME] [--relative N]\n",
            err,
        ),
        Outcome::ReadFault => tell(Status::ReadFault, b"read fault\n", err),
        Outcome::WriteFault => tell(Status::WriteFault, b"write fault\n", err),
        Outcome::TooLong => tell(Status::ModelRefused, b"refused: top 1\n", err),
        Outcome::Refused(refused) => match phase_fault_line(alloc, refused) {
            Ok(line) => tell(Status::ModelRefused, &line, err),
            Err(_) => tell(Status::Memory, b"out of memory\n", err),
        },
        Outcome::Overflow { name, tick } => match overflow_text(alloc, name.bytes(), *tick) {
            Ok(line) => tell(Status::Overflow, &line, err),
            Err(_) => tell(Status::Memory, b"out of memory\n", err),
        },
        Outcome::Rejected(why) => match write_refusal(alloc, *why) {
            Ok(line) => tell(refusal_status(*why), &line, err),
            Err(_) => tell(Status::Memory, b"out of memory\n", err),
        },
        Outcome::Memory => tell(Status::Memory, b"out of memory\n", err),
    }
}

// Writes a line, as far as the sink accepts it, and returns the status.
fn tell<E: Sink>(status: Status, line: &[u8], err: &mut E) -> Status
    ensures status { result ≡ status }
    ensures line { IsLineWritten line.now (E.written err.old) (E.written err.new) (E.faults err.old)
        (E.faults err.new) }
    ensures counts_never_fall { E.faults err.old ≤ E.faults err.new }
{
    let _ = write_all(err, line);
    status
}

fn overflow_text(alloc: Global, name: &[u8], tick: u64) -> Result<Vec<u8>, AllocError>
    ensures { IfOk result (λ line. line.items ≡ overflow_line name.now tick) }
{
    let tick = tick.to_string(alloc)?;
    let mut line = b"overflow: ".to_vec(alloc)?;
    line.extend_from_slice(name)?;
    line.extend_from_slice(b" at tick ")?;
    line.extend_from_slice(tick.as_bytes())?;
    line.extend_from_slice(b"\n")?;
    Ok(line)
}

// The status for a rejection.
fn refusal_status(why: Refusal) -> Status
    ensures { result ≡ status_of_refusal why }
{
    match why {
        Refusal::CertificateTooLong
        | Refusal::TraceTooLong
        | Refusal::NotCertificate(_)
        | Refusal::NotTrace(_) => Status::CertRefused,
        _ => Status::Rejected,
    }
}
