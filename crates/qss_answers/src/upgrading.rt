//! Reads a certificate of a machine and writes it with all lines, in form 3.

ghost use Rattle.std.specs.Prelude.{IfOk, IfErr};
ghost use Rattle.qss_answers.specs.Answers.{written, HasNoText, Ends};
ghost use Rattle.qss_answers.specs.CertificateAnswers.{IsUpgrade};

use crate::answer_result::{AnswerErr, AnswerResult};
use crate::answer_writing::write_answer;
use crate::certificate_reading::{CertificateText, read_for};
use cert_check::write_certificate;
use mu_io::Sink;
use std::alloc::Global;

/// Parses a certificate of a machine and writes it with all lines, in form 3, without a check.
pub fn upgrade<O: Sink>(alloc: Global, text: CertificateText, out: &mut O) -> AnswerResult
    ensures { Ends O.written O.faults O.failed
        (IsUpgrade text.entry.m.now text.entry.bytes.now) result out.old out.new }
{
    write_answer(upgraded_text(alloc, text), out)
}

// The certificate in these bytes, in form 3. Error: the reason why there is none.
fn upgraded_text(alloc: Global, text: CertificateText) -> Result<Vec<u8>, AnswerErr>
    ensures text { IfOk result
        (λ line. IsUpgrade text.entry.m.now text.entry.bytes.now (written line.items)) }
    ensures no_text { IfErr result
        (HasNoText (IsUpgrade text.entry.m.now text.entry.bytes.now)) }
{
    let c = read_for(alloc, text)?;
    Ok(write_certificate(alloc, &c)?)
}
