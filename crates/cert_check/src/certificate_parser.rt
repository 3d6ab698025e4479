//! Reads a certificate from its text. The library `csv` parses the bytes into records. Each record
//! must have the keyword and the count of numbers that its line requires. The first fault is
//! reported with its line and field.

ghost use Rattle.std.specs.Prelude.{◌≡◌, ◌+◌, ◌*◌, ◌<◌, ◌≤◌, ◌≢◌, ◌^◌, if◌then◌else◌, ◌⊎◌, [], length, IfOk, IfErr, true, map, Some, None, IfSome, unsigned_abs, nat_le, ℕ, List, false, drop, take, slice_index_or, pos, All, bytes_eq};
ghost use Rattle.cert_check.specs.Prelude.{error_kind, stops_reader, fields_of, all_ascii_digits, digits_value, option_map, position_from, sum_limit, certificate_length_limit};
ghost use Rattle.cert_check.specs.Words.{IsSize, IsVector, line_count, due_at, IsReadAs, AreReadAs, TakesMemory, FirstTakesMemory, Certificate, IsInScope, IsTextOf, IsRefusedFor, IsCutInto, magnitude_in, number_in, expected, keyword_of, is_no_number, record_fault, first_fault, first_number, form_in, layout, text_fault};

use crate::certificate::Certificate;
use crate::certificate_assembly::{assemble_certificate, complete_certificate_rows};
use crate::text_err::TextErr;
use csv::{ByteRecord, Error, ReaderBuilder};
use mu_io::Items;
use mu_num::SUM_LIMIT;
use qss_machine::Machine;
use std::alloc::{AllocError, Global};

/// An expected record: a keyword and the count of numbers after it.
#[derive(Clone, Copy)]
pub struct Due {
    pub keyword: &'static [u8],
    pub count: u8,
}

/// Reads a certificate of a machine from its text of at most 2^18 bytes.
/// Error: the first fault of the text, or out of memory.
#[inline(never)]
pub fn read_certificate(alloc: Global, bytes: &[u8], m: &Machine) -> Result<Certificate, TextErr>
    requires scope { IsInScope m.now }
    requires short { length bytes.now ≤ certificate_length_limit }
    ensures read { IfOk result (λ c. IsTextOf m.now bytes.now c) }
    ensures refused { IfErr result (λ why. IsRefusedFor m.now bytes.now why) }

    // If the error is not an allocation failure, the bytes are not the text of any certificate.
    ensures unreadable { IfErr result
        (λ why. why ≢ TextErr.Memory → (c : Certificate) → IsTextOf m.now bytes.now c → ⊥) }
{
    parse_certificate_text(alloc, bytes, m)
}

/// Parses a text of at most 2^18 bytes.
fn parse_certificate_text(alloc: Global, bytes: &[u8], m: &Machine) -> Result<Certificate, TextErr>
    requires scope { IsInScope m.now }
    requires short { length bytes.now ≤ certificate_length_limit }
    ensures read { IfOk result (λ c. IsTextOf m.now bytes.now c) }
    ensures refused { IfErr result (λ why. IsRefusedFor m.now bytes.now why) }
{
    let n = m.states.as_slice().len() as u8;
    let records = parse_certificate_records(alloc, bytes)?;
    let form = parse_certificate_form(alloc, records.as_slice())?;
    let count = count_certificate_lines(n, form);
    let mut rows = parse_certificate_rows(alloc, n, count, records.as_slice())?;
    complete_certificate_rows(alloc, m, form, &mut rows)?;
    let certificate = match assemble_certificate(alloc, n, rows.as_slice()) {
        Ok(certificate) => certificate,
        Err(_) => return Err(TextErr::Memory),
    };
    Ok(certificate)
}

/// The records that `csv` parses from the bytes. Error: out of memory.
#[inline(never)]
pub fn parse_certificate_records(alloc: Global, bytes: &[u8]) -> Result<Vec<ByteRecord>, AllocError>
    ensures { IfOk result (λ records. IsCutInto bytes.now (map fields_of records.items)) }
{
    let mut reader = ReaderBuilder::new()
        .has_headers(false)
        .flexible(true)
        .from_reader(alloc, bytes);
    let mut records = Vec::new(alloc);
    for record in reader.byte_records() {
        match record {
            Ok(record) => records.push(record)?,
            Err(error) => return Err(certificate_allocation_failure(&error)),
        }
    }
    Ok(records)
}

// The only error of a reader of bytes in memory is an allocation failure.
fn certificate_allocation_failure(_error: &Error) -> AllocError
    requires { stops_reader (error_kind _error.now) ≡ true }
{
    AllocError
}

/// The form that the first record specifies.
pub fn parse_certificate_form(alloc: Global, records: &[ByteRecord]) -> Result<u8, TextErr>
    requires { All (λ found. length (fields_of found) ≤ 2 ^ 20) records.now }
    ensures named { IfOk result
        (λ form. first_number (slice_index_or (map fields_of records.now) 0 []) ≡ pos form) }
    ensures sound { IfOk result
        (λ form. (n : ℕ)
        → text_fault n (map fields_of records.now)
        ≡ first_fault 1 (take (line_count n form) (layout n)) (map fields_of records.now)) }
    ensures one_of_three { IfOk result (λ form. (1 ≤ form) × (form ≤ 3)) }
    ensures refused { IfErr result
        (λ why. ((why ≡ TextErr.Memory) × FirstTakesMemory 1 (map fields_of records.now))
        ⊎ ((n : ℕ) → text_fault n (map fields_of records.now) ≡ Some why)) }
{
    if records.is_empty() {
        return Err(TextErr::Missing { line: 1 });
    }
    let row = parse_certificate_record(alloc, 1, b"form", 1, &records[0])?;
    let form = certificate_form_named(row.as_slice()[0])?;
    Ok(form)
}

/// The numbers of a record that must have this keyword and `count` numbers.
/// Error: the first fault of the record, or out of memory.
fn parse_certificate_record(
    alloc: Global,
    line: u32,
    keyword: &[u8],
    count: u8,
    found: &ByteRecord,
) -> Result<Items<i128>, TextErr>
    requires keyword { 1 ≤ length keyword.now }
    requires count_limit { length (fields_of found.now) ≤ 2 ^ 20 }
    ensures read { IfOk result
        (λ row. IsReadAs (expected keyword.now count) (fields_of found.now) row) }
    ensures sound { IfOk result
        (λ row. record_fault line (expected keyword.now count) (fields_of found.now) ≡ None) }
    ensures refused { IfErr result
        (λ why.
        ((why ≡ TextErr.Memory)
        × TakesMemory (expected keyword.now count) (fields_of found.now))
        ⊎ (record_fault line (expected keyword.now count) (fields_of found.now) ≡ Some why)) }
{
    if !has_certificate_keyword(found, keyword) {
        return Err(TextErr::Keyword { line });
    }
    let want = u32::from(count) + 1;
    let got = found.len() as u32;
    if got != want {
        return Err(TextErr::Shape { line, want, got });
    }
    parse_certificate_numbers(alloc, line, found)
}

/// Whether the first field of a record is this keyword.
fn has_certificate_keyword(found: &ByteRecord, keyword: &[u8]) -> bool
    ensures { result ≡ bytes_eq (keyword_of (fields_of found.now)) keyword.now }
{
    match found.get(0) {
        Some(field) => field == keyword,
        None => keyword.is_empty(),
    }
}

/// The numbers of a record after its keyword.
/// Error: the first field that is not a number, or out of memory.
fn parse_certificate_numbers(
    alloc: Global,
    line: u32,
    found: &ByteRecord,
) -> Result<Items<i128>, TextErr>
    requires some { 1 ≤ length (fields_of found.now) }
    requires count_limit { length (fields_of found.now) ≤ 2 ^ 20 }
    ensures spelt { IfOk result
        (λ row. map number_in (drop 1 (fields_of found.now)) ≡ map (λ z. Some z) row) }
    ensures numbers { IfOk result (λ row. IsVector (length (drop 1 (fields_of found.now))) row) }
    ensures refused { IfErr result (λ why. ((why ≡ TextErr.Memory) × (is_no_number (slice_index_or (fields_of found.now) 1 []) ≡ false))
        ⊎ (option_map (λ field. TextErr.Number line field) (position_from is_no_number 2 (drop 1 (fields_of found.now))) ≡ Some why)) }
    ensures read { IfOk result
        (λ row. position_from is_no_number 2 (drop 1 (fields_of found.now)) ≡ None) }
{
    let mut row = Vec::new(alloc);
    for place in 1..found.len() {
        match certificate_number_at(found, place) {
            Some(number) => row.push(number)?,
            None => {
                return Err(TextErr::Number {
                    line,
                    field: place as u32 + 1,
                });
            }
        }
    }
    Ok(Items::new(row))
}

/// The number in a field of a record, or `None` if the field is not a number.
fn certificate_number_at(found: &ByteRecord, place: usize) -> Option<i128>
    requires { place < length (fields_of found.now) }
    ensures value { result ≡ number_in (slice_index_or (fields_of found.now) place []) }
    ensures bound { IfSome result (λ z. unsigned_abs z ≤ sum_limit) }
{
    match found.get(place) {
        Some(field) => number(field),
        None => None,
    }
}

/// Parses a field: an optional minus sign and 1 to 39 digits, at most 2^126 in absolute value.
pub fn number(field: &[u8]) -> Option<i128>
    ensures value { result ≡ number_in field.now }
    ensures bound { IfSome result (λ z. unsigned_abs z ≤ sum_limit) }
{
    if !field.is_empty() && field[0] == b'-' {
        let size = parse_field_magnitude(&field[1..])?;
        return Some(-(size as i128));
    }
    let size = parse_field_magnitude(field)?;
    Some(size as i128)
}

/// The value of 1 to 39 digits, or `None` if the bytes are invalid or the value exceeds 2^126.
fn parse_field_magnitude(digits: &[u8]) -> Option<u128>
    ensures value { result ≡ magnitude_in digits.now }
    ensures bound { IfSome result (λ n. n ≤ sum_limit) }
{
    if digits.is_empty() || digits.len() > 39 || !are_field_digits(digits) {
        return None;
    }
    parse_field_digits(digits)
}

/// Whether all bytes are ASCII digits.
fn are_field_digits(bytes: &[u8]) -> bool
    ensures { result ≡ all_ascii_digits bytes.now }
{
    for byte in bytes {
        if !byte.is_ascii_digit() {
            return false;
        }
    }
    true
}

/// The value of the digits, or `None` if it exceeds 2^126.
fn parse_field_digits(digits: &[u8]) -> Option<u128>
    requires { all_ascii_digits digits.now ≡ true }
    ensures { result
        ≡ (if nat_le (digits_value 10 digits.now) sum_limit
        then Some (digits_value 10 digits.now)
        else None) }
{
    let mut value = 0;
    for byte in digits {
        if value > SUM_LIMIT / 10 {
            return None;
        }
        value = value * 10 + u128::from(*byte - b'0');
        if value > SUM_LIMIT {
            return None;
        }
    }
    Some(value)
}

/// The form with this number: 1, 2 or 3.
fn certificate_form_named(got: i128) -> Result<u8, TextErr>
    ensures form { IfOk result
        (λ form. (form_in got ≡ Some form) × (got ≡ pos form) × (1 ≤ form) × (form ≤ 3)) }
    ensures none { IfErr result (λ why. (form_in got ≡ None) × (why ≡ TextErr.Form got)) }
{
    if got == 1 {
        return Ok(1);
    }
    if got == 2 {
        return Ok(2);
    }
    if got == 3 {
        return Ok(3);
    }
    Err(TextErr::Form { got })
}

/// The number of records of a text in this form, for `n` states.
pub fn count_certificate_lines(n: u8, form: u8) -> u8
    requires { IsSize n }
    ensures { result ≡ line_count n form }
{
    match form {
        1 => 3 * n + 14,
        2 => 3 * n + 16,
        _ => 3 * n + 17,
    }
}

/// The rows of numbers of the records, of which there must be exactly `count`.
/// Error: the first fault of the records, or out of memory.
pub fn parse_certificate_rows(
    alloc: Global,
    n: u8,
    count: u8,
    records: &[ByteRecord],
) -> Result<Vec<Items<i128>>, TextErr>
    requires size { IsSize n }
    requires count { count ≤ 3 * n + 17 }
    requires count_limit { All (λ found. length (fields_of found) ≤ 2 ^ 20) records.now }
    ensures read { IfOk result (λ rows. AreReadAs n count (map fields_of records.now) rows.items) }
    ensures refused { IfErr result
        (λ why. ((why ≡ TextErr.Memory) × FirstTakesMemory count (map fields_of records.now))
        ⊎ (first_fault 1 (take count (layout n)) (map fields_of records.now) ≡ Some why)) }
{
    let mut rows = Vec::new(alloc);
    for k in 0..count {
        let line = u32::from(k) + 1;
        if k as usize >= records.len() {
            return Err(TextErr::Missing { line });
        }
        let due = expected_record_at(n, k);
        let record = &records[k as usize];
        let row = parse_certificate_record(alloc, line, due.keyword, due.count, record)?;
        rows.push(row)?;
    }
    if records.len() > count as usize {
        return Err(TextErr::Keyword {
            line: u32::from(count) + 1,
        });
    }
    Ok(rows)
}

/// The expected record at place `k`.
pub fn expected_record_at(n: u8, k: u8) -> Due
    requires size { IsSize n }
    requires place { k < 3 * n + 17 }
    ensures keyword { result.keyword.now ≡ (due_at n k).keyword }
    ensures count { result.count ≡ (due_at n k).count }
    ensures some { 1 ≤ length result.keyword.now }
{
    if k == 0 {
        expected_record(b"form", 1)
    } else if k <= n {
        expected_record(b"P", n)
    } else if k < n + 5 {
        expected_record_after_p(n, k - n - 1)
    } else if k < 2 * n + 5 {
        expected_record(b"G1", n)
    } else if k == 2 * n + 5 {
        expected_record(b"h2", 1)
    } else if k < 3 * n + 6 {
        expected_record(b"G2", n)
    } else {
        expected_record_after_g2(n, k - 3 * n - 6)
    }
}

// The record with this keyword and this count.
fn expected_record(keyword: &'static [u8], count: u8) -> Due
    ensures keyword { result.keyword.now ≡ keyword.now }
    ensures count { result.count ≡ count }
{
    Due { keyword, count }
}

/// The expected record at line `i` between the rows of P and of G1.
fn expected_record_after_p(n: u8, i: u8) -> Due
    requires { i < 4 }
    ensures keyword { result.keyword.now ≡ (due_at n (n + 1 + i)).keyword }
    ensures count { result.count ≡ (due_at n (n + 1 + i)).count }
    ensures some { 1 ≤ length result.keyword.now }
{
    match i {
        0 => expected_record(b"p", n),
        1 => expected_record(b"mu", n),
        2 => expected_record(b"lambda", 1),
        _ => expected_record(b"h1", 1),
    }
}

/// The expected record at line `i` after the rows of G2.
fn expected_record_after_g2(n: u8, i: u8) -> Due
    requires { i < 11 }
    ensures keyword { result.keyword.now ≡ (due_at n (3 * n + 6 + i)).keyword }
    ensures count { result.count ≡ (due_at n (3 * n + 6 + i)).count }
    ensures some { 1 ≤ length result.keyword.now }
{
    match i {
        0 => expected_record(b"c", n),
        1 => expected_record(b"R", 1),
        2 => expected_record(b"Z", n),
        3 => expected_record(b"S", n),
        4 => expected_record(b"sigmaR", n),
        5 => expected_record(b"C", 1),
        6 => expected_record(b"sigmaC", n),
        7 => expected_record(b"E", n),
        8 => expected_record(b"start1", n),
        9 => expected_record(b"start2", n),
        _ => expected_record(b"Q", n),
    }
}
