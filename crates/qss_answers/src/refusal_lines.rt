//! Formats the line that reports a rejection, with its cause or with the first failure of a check.

ghost use Rattle.std.specs.Prelude.{◌≡◌, IfOk};
ghost use Rattle.qss_answers.specs.RefusalTexts as Spec;

use crate::refusal::Refusal;
use cert_check::{Outside, TextErr, Verdict};
use std::alloc::{AllocError, Global};

/// The line that reports a rejection, with its line feed.
pub fn write_refusal(alloc: Global, why: Refusal) -> Result<Vec<u8>, AllocError>
    ensures { IfOk result (λ line. line.items ≡ Spec.write_refusal why) }
{
    let line = match why {
        Refusal::Outside(why) => return outside_line(alloc, why),
        Refusal::Clauses { count } => return outside_line(alloc, Outside::HasClauses { count }),
        Refusal::CertificateTooLong => return b"certificate refused: top 1\n".to_vec(alloc),
        Refusal::TraceTooLong => return b"trace refused: top 1\n".to_vec(alloc),
        Refusal::NotCertificate(why) => return cause_line(alloc, "certificate", why),
        Refusal::NotTrace(why) => return cause_line(alloc, "trace", why),
        Refusal::Rejected(verdict) => return verdict_line(alloc, verdict),
        Refusal::Broken {
            place,
            fact,
            state,
            left,
            right,
        } => {
            format!(in alloc;
                "rejected: trace place {place} fact {fact} state {state} left {left} right {right}\n"
            )?
        }
        Refusal::NoCandidate { step } => format!(in alloc; "rejected: no candidate {step}\n")?,
        Refusal::Start => return b"rejected: start\n".to_vec(alloc),
        Refusal::Quantum { run, state } => {
            format!(in alloc; "rejected: quantum trace {run} state {state}\n")?
        }
        Refusal::Long { last } => format!(in alloc; "rejected: long {last}\n")?,
        Refusal::Range { place1, place2 } => {
            format!(in alloc; "rejected: range places {place1} {place2}\n")?
        }
    };
    Ok(line.into_bytes())
}

// The line that reports why a machine cannot have a certificate.
fn outside_line(alloc: Global, why: Outside) -> Result<Vec<u8>, AllocError>
    ensures { IfOk result (λ line. line.items ≡ Spec.outside_line why) }
{
    let line = match why {
        Outside::HasClauses { count } => format!(in alloc; "rejected: clauses {count}\n")?,
        Outside::States { count } => format!(in alloc; "rejected: states {count}\n")?,
    };
    Ok(line.into_bytes())
}

/// The line that reports why a text is not of this kind, which is a word: `certificate` or `trace`.
/// It is empty for an allocation failure, which has a line of its own.
pub fn cause_line(alloc: Global, kind: &str, cause: TextErr) -> Result<Vec<u8>, AllocError>
    ensures { IfOk result (λ line. line.items ≡ Spec.cause_line kind.now cause) }
{
    let line = match cause {
        TextErr::Keyword { line } => format!(in alloc; "{kind} refused: 1 {line}\n")?,
        TextErr::Shape { line, want, got } => format!(in alloc;
            "{kind} refused: 2 {line} {want} {got}\n"
        )?,
        TextErr::Number { line, field } => format!(in alloc; "{kind} refused: 3 {line} {field}\n")?,
        TextErr::Missing { line } => format!(in alloc; "{kind} refused: 4 {line}\n")?,
        TextErr::Form { got } => return version_line(alloc, kind, got),
        TextErr::Memory => return Ok(Vec::new(alloc)),
    };
    Ok(line.into_bytes())
}

/// The line that reports the first failure of a check. It is empty for an accepted certificate.
pub fn verdict_line(alloc: Global, verdict: Verdict) -> Result<Vec<u8>, AllocError>
    ensures { IfOk result (λ line. line.items ≡ Spec.verdict_line verdict) }
{
    match verdict {
        Verdict::Accepted => Ok(Vec::new(alloc)),
        Verdict::Rejected {
            number,
            place,
            left,
            right,
        } => {
            let line = format!(in alloc;
                "rejected: inequality {number} place {place} left {left} right {right}\n"
            )?;
            Ok(line.into_bytes())
        }
        Verdict::Range { number, place } => {
            let line = format!(in alloc; "rejected: range inequality {number} place {place}\n")?;
            Ok(line.into_bytes())
        }
    }
}

// The line for a text whose first record has the number of no version.
fn version_line(alloc: Global, kind: &str, got: i128) -> Result<Vec<u8>, AllocError>
    ensures { IfOk result (λ line. line.items ≡ Spec.version_line kind.now got) }
{
    let line = format!(in alloc; "{kind} refused: 5 {got}\n")?;
    Ok(line.into_bytes())
}
