//! Proposes a certificate of a machine and writes its text.

ghost use Rattle.std.specs.Prelude.{◌≡◌, ℕ, List, IfOk, IfErr};
ghost use Rattle.qss_answers.specs.Prelude.{Appends, Certificate};
ghost use Rattle.qss_answers.specs.Answers.{written, HasNoText, Ends};
ghost use Rattle.qss_answers.specs.ProposalAnswers.{answer_of, IsProposed};
ghost use Rattle.qss_answers.specs.ProposedBounds.{IsSoundProposal};

use crate::answer_result::{AnswerErr, AnswerResult};
use crate::answer_writing::write_answer;
use crate::refusal::Refusal;
use cert_check::{Verdict, scope, write_certificate};
use cert_propose::{Proposal, propose};
use mu_io::Sink;
use qss_machine::Machine;
use std::alloc::Global;

/// Proposes a certificate of a machine. If it is accepted, writes its text with all lines.
pub fn propose_text<O: Sink>(alloc: Global, m: &Machine, out: &mut O) -> AnswerResult
    ensures answered { Ends O.written O.faults O.failed (IsProposed m.now) result out.old out.new }

    // If a text is written, it parses as the certificate that was checked. Any two legitimate runs
    // from the machine's start are within its bounds, and the machine's own runs are legitimate.
    ensures promised { result ≡ AnswerResult.Written
        → (c : Certificate)
        × (text : List ℕ)
        × Appends (O.written out.old) (O.written out.new) text
        × IsSoundProposal m.now text c }
{
    write_answer(proposal_text(alloc, m), out)
}

// The text of the proposed certificate of a machine if it is accepted. Error: the reason why there
// is none.
fn proposal_text(alloc: Global, m: &Machine) -> Result<Vec<u8>, AnswerErr>
    ensures text { IfOk result (λ text. IsProposed m.now (written text.items)) }
    ensures no_text { IfErr result (HasNoText (IsProposed m.now)) }
{
    match scope(m) {
        Ok(_states) => {}
        Err(why) => return Err(AnswerErr::Refused(Refusal::Outside(why))),
    }
    match propose(alloc, m) {
        Ok(proposal) => candidate_text(alloc, &proposal),
        Err(_) => Err(AnswerErr::Memory),
    }
}

// The text of the candidate of a proposal if it is accepted. Error: the reason why there is none.
fn candidate_text(alloc: Global, proposal: &Proposal) -> Result<Vec<u8>, AnswerErr>
    ensures text { IfOk result (λ text. written text.items ≡ answer_of proposal.now) }
    ensures no_text { IfErr result (HasNoText (λ answer. answer ≡ answer_of proposal.now)) }
{
    match proposal {
        Proposal::Candidate { cert, verdict } => match *verdict {
            Verdict::Accepted => Ok(write_certificate(alloc, cert)?),
            verdict => Err(AnswerErr::Refused(Refusal::Rejected(verdict))),
        },
        Proposal::NoCandidate { step } => {
            Err(AnswerErr::Refused(Refusal::NoCandidate { step: *step }))
        }
    }
}
