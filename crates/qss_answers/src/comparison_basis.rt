//! The machine and the certificate of a comparison of two runs. The certificate must be accepted
//! and have the start of the machine.

ghost use Rattle.std.specs.Prelude.{◌≡◌, ◌↔◌, ◌⊎◌, IsTrue, IfOk, OnOk, IfErr, length};
ghost use Rattle.qss_answers.specs.Prelude.{state_count, start_states, certificate_data, IsVerdict, IsInScope, system_of, Accepted};
ghost use Rattle.qss_answers.specs.Answers.{refused};
ghost use Rattle.qss_answers.specs.CertificateAnswers.{IsCertified};
ghost use Rattle.qss_answers.specs.Comparisons.{HasStart, IsUsableCertificate, IsUnusableCertificate, MayStop};

use crate::answer_result::AnswerErr;
use crate::certificate_reading::{CertificateText, judge, read_for};
use crate::comparison_ending::ComparisonStop;
use crate::refusal::Refusal;
use cert_check::Certificate;
use qss_machine::Machine;
use std::alloc::Global;

/// A machine m without clauses and with 1 to 16 states, and a certificate c for its number of states.
#[derive(Clone, Copy)]
pub struct Basis<'a> {
    pub m: &'a Machine,
    pub c: &'a Certificate,
    pub ghost scope: { IsInScope m.now },
    pub ghost size: { c.now.n ≡ state_count m.now },
}

/// Parses and checks a certificate, which must have the machine's start. Error: the reason why the
/// runs cannot be compared.
#[inline(never)]
pub fn usable_certificate(
    alloc: Global,
    text: CertificateText,
) -> Result<Certificate, ComparisonStop>
    ensures basis { IfOk result (IsUsableCertificate text.entry.m.now text.entry.bytes.now) }
    ensures stopped { IfErr result
        (MayStop (IsUnusableCertificate text.entry.m.now text.entry.bytes.now)) }
{
    let c = match read_for(alloc, text) {
        Ok(c) => c,
        Err(AnswerErr::Refused(why)) => return Err(ComparisonStop::Refused(why)),
        Err(AnswerErr::Memory) => return Err(ComparisonStop::Memory),
    };
    match judge_with_start(Basis { m: text.m, c: &c }) {
        Ok(()) => Ok(c),
        Err(why) => Err(ComparisonStop::Refused(why)),
    }
}

// Checks a certificate, which must have the machine's start. Error: the reason of the rejection.
fn judge_with_start(basis: Basis) -> Result<(), Refusal>
    ensures usable { OnOk result (IsVerdict (system_of basis.entry.m.now)
        (certificate_data basis.entry.c.now) Accepted
        × HasStart basis.entry.m.now basis.entry.c.now) }
    ensures refused { IfErr result
        (λ why. IsCertified basis.entry.m.now basis.entry.c.now (refused why)
        ⊎ ((why ≡ Refusal.Start)
        × IsVerdict (system_of basis.entry.m.now) (certificate_data basis.entry.c.now) Accepted
        × (HasStart basis.entry.m.now basis.entry.c.now → ⊥))) }
{
    match judge(basis) {
        Ok(()) if has_start(basis.m, basis.c) => Ok(()),
        Ok(()) => Err(Refusal::Start),
        Err(why) => Err(why),
    }
}

// Whether one of the certificate's starts is the machine's.
fn has_start(m: &Machine, c: &Certificate) -> bool
    requires { c.now.n ≡ state_count m.now }
    ensures { IsTrue result ↔ HasStart m.now c.now }
{
    is_basis_start(m, c.start1.as_slice()) || is_basis_start(m, c.start2.as_slice())
}

// Whether these are the machine's start states.
fn is_basis_start(m: &Machine, start: &[i128]) -> bool
    requires { length start.now ≡ state_count m.now }
    ensures { IsTrue result ↔ (start_states m.now ≡ start.now) }
{
    let states = m.states.as_slice();
    for j in 0..states.len() {
        if states[j].x0 != start[j] {
            return false;
        }
    }
    true
}
