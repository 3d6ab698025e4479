//! Reads the files of a command, each up to the greatest length of its kind.

ghost use Rattle.std.specs.Prelude.{◌≡◌};
ghost use Rattle.qss_top.specs.FileReadings.{ReadsFile};
ghost use Rattle.qss_top.specs.FileReadings as Spec;

use crate::command_outcome::Outcome;
use mu_io::{ReadErr, Shelf, read_all};
use qss_answers::{CERTIFICATE_LIMIT, Refusal, TRACE_LIMIT};
use std::alloc::Global;

/// The greatest length of a model, in bytes.
pub(crate) const MODEL_LIMIT: usize = 1 << 20;

/// What a file of a command contains.
#[derive(Clone, Copy, Debug, PartialEq, Eq)]
pub(crate) enum FileKind {
    Model,
    Certificate,
    Trace,
}

/// Returns the contents of a file. Error: the outcome if the file exceeds the limit of its kind, if
/// a read fails, or if an allocation fails.
#[inline(never)]
pub(crate) fn read_file<S: Shelf>(
    alloc: Global,
    shelf: &mut S,
    name: &str,
    kind: FileKind,
) -> Result<Vec<u8>, Outcome>
    ensures { ReadsFile S.files S.faults S.readings name.now kind result shelf.old shelf.new }
{
    match read_all(alloc, shelf, name, limit_of(kind)) {
        Ok(bytes) => Ok(bytes),
        Err(ReadErr::TooLong) => Err(too_long(kind)),
        Err(ReadErr::Fault) => Err(Outcome::ReadFault),
        Err(ReadErr::Memory) => Err(Outcome::Memory),
    }
}

/// The greatest length of a file of this kind, in bytes.
pub(crate) fn limit_of(kind: FileKind) -> usize
    ensures { result ≡ Spec.limit_of kind }
{
    match kind {
        FileKind::Model => MODEL_LIMIT,
        FileKind::Certificate => CERTIFICATE_LIMIT,
        FileKind::Trace => TRACE_LIMIT,
    }
}

/// The outcome for a file of this kind that exceeds its limit.
pub(crate) fn too_long(kind: FileKind) -> Outcome
    ensures { result ≡ Spec.long_outcome kind }
{
    match kind {
        FileKind::Model => Outcome::TooLong,
        FileKind::Certificate => Outcome::Rejected(Refusal::CertificateTooLong),
        FileKind::Trace => Outcome::Rejected(Refusal::TraceTooLong),
    }
}
