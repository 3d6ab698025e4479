//! Reads the certificate of a machine from bytes, and checks it.

ghost use Rattle.std.specs.Prelude.{◌≤◌, length, IfOk, OnOk, IfErr};
ghost use Rattle.qss_answers.specs.Prelude.{certificate_data, IsVerdict, IsInScope, system_of, Accepted};
ghost use Rattle.qss_answers.specs.Answers.{refused};
ghost use Rattle.qss_answers.specs.CertificateAnswers.{limit, IsCertified, IsRead, RefusesBy};

use crate::answer_result::AnswerErr;
use crate::comparison_basis::Basis;
use crate::refusal::Refusal;
use cert_check::{Certificate, TextErr, Verdict, check, read_certificate};
use qss_machine::Machine;
use std::alloc::Global;

/// The greatest length of a certificate, in bytes.
pub const CERTIFICATE_LIMIT: usize = 1 << 18;

/// A machine m without clauses and with 1 to 16 states, and the bytes of a certificate of it, at
/// most `CERTIFICATE_LIMIT`.
#[derive(Clone, Copy)]
pub struct CertificateText<'a> {
    pub m: &'a Machine,
    pub bytes: &'a [u8],
    pub ghost scope: { IsInScope m.now },
    pub ghost short: { length bytes.now ≤ limit },
}

/// Parses a certificate of a machine. Error: the reason why there is none.
#[inline(never)]
pub(crate) fn read_for(alloc: Global, text: CertificateText) -> Result<Certificate, AnswerErr>
    ensures read { IfOk result (IsRead text.entry.m.now text.entry.bytes.now) }
    ensures refused { IfErr result (RefusesBy text.entry.m.now text.entry.bytes.now) }
{
    match read_certificate(alloc, text.bytes, text.m) {
        Ok(c) => Ok(c),
        Err(TextErr::Memory) => Err(AnswerErr::Memory),
        Err(why) => Err(AnswerErr::Refused(Refusal::NotCertificate(why))),
    }
}

/// Checks a certificate of a machine. Error: the reason why it is not accepted.
pub(crate) fn judge(basis: Basis) -> Result<(), Refusal>
    ensures accepted { OnOk result (IsVerdict (system_of basis.entry.m.now)
        (certificate_data basis.entry.c.now) Accepted) }
    ensures rejected { IfErr result
        (λ why. IsCertified basis.entry.m.now basis.entry.c.now (refused why)) }
{
    match check(basis.m, basis.c) {
        Verdict::Accepted => Ok(()),
        verdict => Err(Refusal::Rejected(verdict)),
    }
}
