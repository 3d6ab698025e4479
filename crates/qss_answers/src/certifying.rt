//! Checks a certificate and writes its bounds. The text has a line for each state, with the largest
//! distance of two runs in levels.

ghost use Rattle.std.specs.Prelude.{◌≡◌, ◌++◌, ◌∷◌, [], ℕ, List, map, IfOk, IfErr, OnOk};
ghost use Rattle.qss_answers.specs.Prelude.{Appends, Certificate, default_writer, row_text};
ghost use Rattle.qss_answers.specs.AcceptedBounds.{IsSoundCertification};
ghost use Rattle.qss_answers.specs.Answers.{written, HasNoText, Ends};
ghost use Rattle.qss_answers.specs.CertificateAnswers.{HasNoBounds, IsCertification, IsCertified};
ghost use Rattle.qss_answers.specs.BoundTexts as Bounds;

use crate::answer_result::{AnswerErr, AnswerResult};
use crate::answer_writing::write_answer;
use crate::certificate_reading::{CertificateText, judge, read_for};
use crate::comparison_basis::Basis;
use cert_check::Certificate;
use csv::WriterBuilder;
use mu_io::Sink;
use qss_machine::{Machine, StateInfo};
use std::alloc::{AllocError, Global};

/// Parses and checks a certificate of a machine. If it is accepted, writes its bounds: a header,
/// then one line for each state with its name and the largest distance of two runs, in levels.
pub fn certify<O: Sink>(alloc: Global, text: CertificateText, out: &mut O) -> AnswerResult
    ensures answered { Ends O.written O.faults O.failed
        (IsCertification text.entry.m.now text.entry.bytes.now) result out.old out.new }

    // If bounds are written, any two legitimate runs from the certificate's starts are within them,
    // the machine's own runs are among these runs, and each of these runs is within half of them
    // of the solution from its own start.
    ensures promised { result ≡ AnswerResult.Written
        → (c : Certificate)
        × (bounds : List ℕ)
        × Appends (O.written out.old) (O.written out.new) bounds
        × IsSoundCertification text.entry.m.now text.entry.bytes.now bounds c }
{
    write_answer(certification(alloc, text), out)
}

// The bounds of the certificate in these bytes if it is accepted. Error: the reason why there
// are none.
fn certification(alloc: Global, text: CertificateText) -> Result<Vec<u8>, AnswerErr>
    ensures text { IfOk result
        (λ bounds. IsCertification text.entry.m.now text.entry.bytes.now (written bounds.items)) }
    ensures no_text { IfErr result
        (HasNoText (IsCertification text.entry.m.now text.entry.bytes.now)) }
{
    let c = read_for(alloc, text)?;
    certified_text(alloc, Basis { m: text.m, c: &c })
}

// The bounds of a certificate if it is accepted. Error: the reason why there are none.
fn certified_text(alloc: Global, basis: Basis) -> Result<Vec<u8>, AnswerErr>
    ensures text { IfOk result
        (λ text. IsCertified basis.entry.m.now basis.entry.c.now (written text.items)) }
    ensures no_text { IfErr result (HasNoBounds basis.entry.m.now basis.entry.c.now) }
{
    match judge(basis) {
        Ok(()) => Ok(bounds_text(alloc, basis.m, basis.c)?),
        Err(why) => Err(AnswerErr::Refused(why)),
    }
}

/// The bounds of a certificate: a header, then one line for each state with its name and the
/// largest distance of two runs, in levels (2^-f). Error: out of memory.
pub fn bounds_text(alloc: Global, m: &Machine, c: &Certificate) -> Result<Vec<u8>, AllocError>
    ensures { IfOk result (λ text. text.items ≡ Bounds.bounds_text m.now c.now) }
{
    let mut text = b"name,levels\n".to_vec(alloc)?;
    add_lines(alloc, &mut text, m.states.as_slice(), c.e.as_slice())?;
    Ok(text)
}

// Appends the lines of the states with their bounds.
fn add_lines(
    alloc: Global,
    text: &mut Vec<u8>,
    states: &[StateInfo],
    bounds: &[i128],
) -> Result<(), AllocError>
    ensures { OnOk result
        (text.new.items ≡ text.old.items ++ Bounds.bound_lines states.now bounds.now) }
{
    for (state, bound) in states.iter().zip(bounds.iter()) {
        add_line(alloc, text, state.name.bytes(), bound)?;
    }
    Ok(())
}

// Appends the line of a state.
fn add_line(alloc: Global, text: &mut Vec<u8>, name: &[u8], bound: &i128) -> Result<(), AllocError>
    ensures { OnOk result (text.new.items ≡ text.old.items ++ Bounds.bound_line name.now bound.now) }
{
    let bound = bound.to_string(alloc)?;
    let line = record_text(alloc, &[name, bound.as_bytes()])?;
    text.extend_from_slice(&line)?;
    Ok(())
}

// The CSV text of a record of two fields. The only error is out of memory.
#[inline(never)]
fn record_text(alloc: Global, fields: &[&[u8]]) -> Result<Vec<u8>, AllocError>
    ensures { IfOk result
        (λ text. text.items ≡ row_text default_writer (map (λ f. f.now) fields.now)) }
{
    let mut writer = WriterBuilder::new().from_writer(Vec::new(alloc));
    let Ok(()) = writer.write_fields(fields) else {
        return Err(AllocError);
    };
    let Ok(()) = writer.flush() else {
        return Err(AllocError);
    };
    writer.get_ref().to_vec(alloc)
}
