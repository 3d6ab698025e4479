//! Writes the text of a certificate in form 3, line by line, as the library `csv` formats records.

ghost use Rattle.std.specs.Prelude.{◌≡◌, ◌++◌, ◌∷◌, [], ◌<◌, ℕ, ℤ, List, IfOk, OnOk, pos, length, slice_index_or};
ghost use Rattle.cert_check.specs.Prelude.{fields_of, default_writer, row_text, Machine, state_count};
ghost use Rattle.cert_check.specs.CertificateLines.{line, lines, row_lines};
ghost use Rattle.cert_check.specs.CertificateTexts.{IsTextOf};
ghost use Rattle.cert_check.specs.Written.{fields_of_line, line_text, lines_text, form_lines, bound_lines, second_lines, root_lines, basin_lines, ellipsoid_lines};

use crate::certificate::Certificate;
use cert_matrix::HeapMatrix;
use csv::{ByteRecord, WriterBuilder};
use mu_io::Items;
use std::alloc::{AllocError, Global};

/// The text of a certificate in form 3, which has all lines. Numbers have no leading zeros.
/// Error: out of memory.
pub fn write_certificate(alloc: Global, c: &Certificate) -> Result<Vec<u8>, AllocError>
    ensures text { IfOk result (λ text. text.items ≡ lines_text (lines (pos 3) c.now)) }

    // Reading the text returns the same certificate.
    ensures reads_back { IfOk result
        (λ text. (m : Machine) → c.now.n ≡ state_count m → IsTextOf m text.items c.now) }
{
    let mut text = Vec::new(alloc);
    write_certificate_form(alloc, &mut text, c)?;
    write_certificate_bounds(alloc, &mut text, c)?;
    write_certificate_roots(alloc, &mut text, c)?;
    write_certificate_basin(alloc, &mut text, c)?;
    write_certificate_ellipsoid(alloc, &mut text, c)?;
    Ok(text)
}

/// Appends the lines `form` and `P`.
fn write_certificate_form(
    alloc: Global,
    text: &mut Vec<u8>,
    c: &Certificate,
) -> Result<(), AllocError>
    ensures { OnOk result
        (text.new.items ≡ text.old.items ++ lines_text (form_lines (pos 3) c.now)) }
{
    write_certificate_line(alloc, text, b"form", &[3])?;
    write_certificate_rows(alloc, text, b"P", &c.pm)?;
    Ok(())
}

/// Appends a line. The only error is out of memory.
fn write_certificate_line(
    alloc: Global,
    text: &mut Vec<u8>,
    keyword: &[u8],
    numbers: &[i128],
) -> Result<(), AllocError>
    ensures { OnOk result
        (text.new.items ≡ text.old.items ++ line_text (line keyword.now numbers.now)) }
{
    let record = certificate_record(alloc, keyword, numbers)?;
    let more = format_certificate_record(alloc, &record)?;
    text.extend_from_slice(more.as_slice())?;
    Ok(())
}

/// The record with a keyword and numbers.
fn certificate_record(
    alloc: Global,
    keyword: &[u8],
    numbers: &[i128],
) -> Result<ByteRecord, AllocError>
    ensures { IfOk result
        (λ found. fields_of found ≡ fields_of_line (line keyword.now numbers.now)) }
{
    let mut record = ByteRecord::new(alloc);
    record.push_field(keyword)?;
    for number in numbers {
        let text = number.to_string(alloc)?;
        record.push_field(text.as_bytes())?;
    }
    Ok(record)
}

/// The CSV text of a record. The only error is out of memory.
#[inline(never)]
fn format_certificate_record(alloc: Global, found: &ByteRecord) -> Result<Vec<u8>, AllocError>
    ensures { IfOk result (λ text. text.items ≡ row_text default_writer (fields_of found.now)) }
{
    let mut writer = WriterBuilder::new().from_writer(Vec::new(alloc));
    let Ok(()) = writer.write_byte_record(found) else {
        return Err(AllocError);
    };
    let Ok(()) = writer.flush() else {
        return Err(AllocError);
    };
    writer.get_ref().to_vec(alloc)
}

/// Appends a line for each row of a matrix.
fn write_certificate_rows(
    alloc: Global,
    text: &mut Vec<u8>,
    keyword: &[u8],
    matrix: &HeapMatrix,
) -> Result<(), AllocError>
    ensures { OnOk result
        (text.new.items ≡ text.old.items ++ lines_text (row_lines keyword.now matrix.now)) }
{
    for i in 0..matrix.size() {
        let row = certificate_matrix_row(alloc, matrix, i)?;
        write_certificate_line(alloc, text, keyword, row.as_slice())?;
    }
    Ok(())
}

/// Row `i` of a matrix as a list.
fn certificate_matrix_row(
    alloc: Global,
    matrix: &HeapMatrix,
    i: u8,
) -> Result<Items<i128>, AllocError>
    requires { i < length matrix.now }
    ensures { IfOk result (λ row. row ≡ slice_index_or matrix.now i []) }
{
    let mut row = Vec::new(alloc);
    for j in 0..matrix.size() {
        row.push(matrix.get(i, j))?;
    }
    Ok(Items::new(row))
}

/// Appends the lines from `p` to `h1`.
fn write_certificate_bounds(
    alloc: Global,
    text: &mut Vec<u8>,
    c: &Certificate,
) -> Result<(), AllocError>
    ensures { OnOk result (text.new.items ≡ text.old.items ++ lines_text (bound_lines c.now)) }
{
    write_certificate_line(alloc, text, b"p", c.p.as_slice())?;
    write_certificate_line(alloc, text, b"mu", c.mu.as_slice())?;
    write_certificate_line(alloc, text, b"lambda", &[c.lambda])?;
    write_certificate_line(alloc, text, b"h1", &[c.h1])
}

/// Appends the lines from `G1` to `G2`.
fn write_certificate_roots(
    alloc: Global,
    text: &mut Vec<u8>,
    c: &Certificate,
) -> Result<(), AllocError>
    ensures { OnOk result (text.new.items ≡ text.old.items ++ lines_text (root_lines c.now)) }
{
    write_certificate_rows(alloc, text, b"G1", &c.g1)?;
    write_certificate_second(alloc, text, c)?;
    write_certificate_rows(alloc, text, b"G2", &c.g2)?;
    Ok(())
}

/// Appends the line `h2`.
fn write_certificate_second(
    alloc: Global,
    text: &mut Vec<u8>,
    c: &Certificate,
) -> Result<(), AllocError>
    ensures { OnOk result (text.new.items ≡ text.old.items ++ lines_text (second_lines c.now)) }
{
    write_certificate_line(alloc, text, b"h2", &[c.h2])
}

/// Appends the lines from `c` to `sigmaR`.
fn write_certificate_basin(
    alloc: Global,
    text: &mut Vec<u8>,
    c: &Certificate,
) -> Result<(), AllocError>
    ensures { OnOk result (text.new.items ≡ text.old.items ++ lines_text (basin_lines c.now)) }
{
    write_certificate_line(alloc, text, b"c", c.c.as_slice())?;
    write_certificate_line(alloc, text, b"R", &[c.r])?;
    write_certificate_line(alloc, text, b"Z", c.z.as_slice())?;
    write_certificate_line(alloc, text, b"S", c.s.as_slice())?;
    write_certificate_line(alloc, text, b"sigmaR", c.sigma_r.as_slice())
}

/// Appends the lines from `C` to `Q`.
fn write_certificate_ellipsoid(
    alloc: Global,
    text: &mut Vec<u8>,
    c: &Certificate,
) -> Result<(), AllocError>
    ensures { OnOk result (text.new.items ≡ text.old.items ++ lines_text (ellipsoid_lines c.now)) }
{
    write_certificate_line(alloc, text, b"C", &[c.cc])?;
    write_certificate_line(alloc, text, b"sigmaC", c.sigma_c.as_slice())?;
    write_certificate_line(alloc, text, b"E", c.e.as_slice())?;
    write_certificate_line(alloc, text, b"start1", c.start1.as_slice())?;
    write_certificate_line(alloc, text, b"start2", c.start2.as_slice())?;
    write_certificate_line(alloc, text, b"Q", c.q.as_slice())
}
