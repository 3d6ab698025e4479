//! The result of a call that writes the answer for a certificate, a trace or a proposal, and the
//! reason why a call has no value.

use crate::refusal::Refusal;
use std::alloc::AllocError;

/// The result of a call that writes an answer.
#[derive(Clone, Copy, Debug, PartialEq, Eq)]
pub enum AnswerResult {
    /// The text is written completely.
    Written,
    /// The input is rejected.
    Refused(Refusal),
    /// The sink failed.
    Fault,
    /// Out of memory.
    Memory,
}

/// The reason why a call has no value or no text.
#[derive(Clone, Copy, Debug, PartialEq, Eq)]
pub enum AnswerErr {
    /// The input is rejected.
    Refused(Refusal),
    /// Out of memory.
    Memory,
}

impl From<AllocError> for AnswerErr {
    ghost use Rattle.std.specs.Prelude.{◌≡◌};
    ghost use Rattle.qss_answers.specs.declared.answer_result.AnswerErr.TheVariants.{Memory};

    ghost from_gives = { λ _ why. why ≡ Memory };

    fn from(_: AllocError) -> AnswerErr {
        AnswerErr::Memory
    }
}
