//! Compares two runs by a certificate. The text has the number of common times, and the greatest V
//! of the difference of the runs with its bound.

ghost use Rattle.std.specs.Prelude.{◌≡◌, IfOk, IfErr, ℤ};
ghost use Rattle.qss_answers.specs.Prelude.{state_count};
ghost use Rattle.qss_answers.specs.Comparisons.{IfMemory, IsComparable, IsCompared, IsComparisonRefused, MayStop};
ghost use Rattle.qss_answers.specs.Comparisons as Spec;

use crate::comparison_basis::Basis;
use crate::comparison_ending::ComparisonStop;
use crate::refusal::Refusal;
use cert_check::affine_system;
use qss_trace::{Greatest, Trace, compare};
use std::alloc::{AllocError, Global};

/// The text of a comparison of two runs by a certificate: a header, then one line with the number
/// of common times, the first places where V of the difference is greatest, this V, and its bound.
/// Error: the reason why the runs cannot be compared.
pub fn comparison_text(
    alloc: Global,
    basis: Basis,
    t1: &Trace,
    t2: &Trace,
) -> Result<Vec<u8>, ComparisonStop>
    requires first { t1.now.n ≡ state_count basis.m.now }
    requires second { t2.now.n ≡ state_count basis.m.now }
    ensures compared { IfOk result (λ text. IsCompared basis.entry.m.now basis.entry.c.now t1.now
        t2.now text.items) }
    ensures stopped { IfErr result (MayStop (IsComparisonRefused basis.entry.m.now basis.entry.c.now
        t1.now t2.now)) }

    // Only the text is allocated.
    ensures memory { IfErr result
        (IfMemory (IsComparable basis.entry.m.now basis.entry.c.now t1.now t2.now)) }
{
    let c = basis.c;
    let unit = affine_system(basis.m).unit;
    match compare(c.pm.as_matrix(), c.cc, unit, t1, t2) {
        Greatest::Found {
            common,
            place1,
            place2,
            value,
            bound,
        } => Ok(found_text(alloc, common, place1, place2, value, bound)?),
        Greatest::Range { place1, place2 } => {
            Err(ComparisonStop::Refused(Refusal::Range { place1, place2 }))
        }
    }
}

// The header and the line with these numbers.
fn found_text(
    alloc: Global,
    common: u64,
    place1: u32,
    place2: u32,
    value: i128,
    bound: i128,
) -> Result<Vec<u8>, AllocError>
    ensures { IfOk result
        (λ text. text.items ≡ Spec.comparison_text common place1 place2 value bound) }
{
    let text = format!(in alloc;
        "common,place1,place2,greatest,bound\n{common},{place1},{place2},{value},{bound}\n"
    )?;
    Ok(text.into_bytes())
}
