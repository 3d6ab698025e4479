//! Writes the text of an answer, or returns the reason why there is no text.

ghost use Rattle.std.specs.Prelude.{◌≡◌, IfOk, IfErr};
ghost use Rattle.qss_answers.specs.Answers.{result_of, WritesText};

use crate::answer_result::{AnswerErr, AnswerResult};
use mu_io::{Sink, WriteErr, write_all};

/// Writes the text of an answer. Without a text, nothing is written, and the result is the reason.
pub(crate) fn write_answer<O: Sink>(answer: Result<Vec<u8>, AnswerErr>, out: &mut O) -> AnswerResult
    ensures text { IfOk answer (λ text. WritesText O.written O.faults O.failed text.items result
        out.old out.new) }
    ensures no_text { IfErr answer (λ why. (result ≡ result_of why) × (out.new ≡ out.old)) }
{
    match answer {
        Ok(text) => match write_all(out, &text) {
            Ok(()) => AnswerResult::Written,
            Err(WriteErr::Fault) => AnswerResult::Fault,
        },
        Err(AnswerErr::Refused(why)) => AnswerResult::Refused(why),
        Err(AnswerErr::Memory) => AnswerResult::Memory,
    }
}
