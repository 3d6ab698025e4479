//! Reads a trace from its text, record by record. Each record must have its keyword, its count of
//! fields, and numbers within their limits. The first fault is reported with its line and field.

ghost use Rattle.std.specs.Prelude.{◌≡◌, ◌⊎◌, ◌<◌, ◌≤◌, ◌^◌, ◌++◌, ◌∷◌, [], ◌≢◌, ◌+◌, ◌*◌, ℕ, List, Some, OnOk, IfErr, length, IfSome, unsigned_abs, true, IfOk, None, drop, take, slice_index_or, bytes_eq, pos, codes};
ghost use Rattle.qss_trace.specs.Prelude.{fields_of, IsSize, error_kind, stops_reader, option_map, position_from, trace_length_limit, keyword_of, line, ParsesAs};
ghost use Rattle.qss_trace.specs.Words.{record_fault, trace_fault, shape_fault, IsDraftOf, Trace, AreRecordsOf, IsTextOf, IsRefusedFor, AddsNumbers, HasShape, IsFactor, AreQuanta, AddsPlace};
ghost use Rattle.qss_trace.specs.ExpectedFields as Dues;

use crate::trace::Trace;
use cert_check::{TextErr, number_of_field};
use csv::{ByteRecord, Error, ReaderBuilder};
use mu_io::Items;
use std::alloc::Global;

/// The numbers of the records that are read so far.
#[derive(Drop)]
pub(crate) struct Draft {
    pub n: u8,
    /// The number of records.
    pub taken: u32,
    pub scale: u32,
    pub refine: u32,
    pub q: Vec<i128>,
    pub states: Vec<i128>,
    pub levels: Vec<i128>,
}

/// The range of a number of a trace.
#[derive(Clone, Copy)]
pub(crate) enum Limit {
    /// At most 2^126 in absolute value, as each number of a text.
    Any,
    /// From 1 to 2^16.
    Factor,
    /// From 1 to 2^43.
    Quantum,
    /// At most 2^108 in absolute value.
    State,
    /// At most 2^64 in absolute value.
    Level,
}

/// Reads a trace for `n` states from its text of at most 2^24 bytes.
/// Error: the first fault of the text, or out of memory.
pub fn read_trace(alloc: Global, bytes: &[u8], n: u8) -> Result<Trace, TextErr>
    requires short { length bytes.now ≤ trace_length_limit }
    requires size { IsSize n }
    ensures read { IfOk result (λ t. IsTextOf n bytes.now t) }
    ensures refused { IfErr result (λ why. IsRefusedFor n bytes.now why) }

    // If the error is not an allocation failure, the bytes are not the text of any trace.
    ensures unreadable { IfErr result
        (λ why. why ≢ TextErr.Memory → (t : Trace) → IsTextOf n bytes.now t → ⊥) }
{
    parse_trace_text(alloc, bytes, n)
}

// Parses a trace for `n` states.
#[inline(never)]
fn parse_trace_text(alloc: Global, bytes: &[u8], n: u8) -> Result<Trace, TextErr>
    requires short { length bytes.now ≤ trace_length_limit }
    requires size { IsSize n }
    ensures read { IfOk result (λ t. IsTextOf n bytes.now t) }
    ensures refused { IfErr result (λ why. IsRefusedFor n bytes.now why) }
{
    let mut reader = ReaderBuilder::new()
        .has_headers(false)
        .flexible(true)
        .from_reader(alloc, bytes);
    let mut draft = empty_trace_draft(alloc, n);
    for record in reader.byte_records() {
        match record {
            Ok(record) => take_trace_record(&mut draft, &record)?,
            Err(error) => return Err(trace_allocation_failure(&error)),
        }
    }
    finish_trace_draft(draft)
}

// The empty draft.
fn empty_trace_draft(alloc: Global, n: u8) -> Draft
    ensures size { result.n ≡ n }
    ensures draft { IsDraftOf [] result }
{
    Draft {
        n,
        taken: 0,
        scale: 0,
        refine: 0,
        q: Vec::new(alloc),
        states: Vec::new(alloc),
        levels: Vec::new(alloc),
    }
}

/// Reads the next record. Error: the fault of the record, or out of memory.
pub(crate) fn take_trace_record(draft: &mut Draft, found: &ByteRecord) -> Result<(), TextErr>
    requires size { IsSize draft.old.n }
    requires place { draft.old.taken ≡ 3 → draft.old.q.items ≡ [] }
    requires count_limit { draft.old.taken < 2 ^ 31 }
    requires fields { length (fields_of found.now) ≤ 2 ^ 30 }
    ensures size { OnOk result (draft.new.n ≡ draft.old.n) }
    ensures takes { OnOk result
        ((seen : List (List (List ℕ))) → IsDraftOf seen draft.old
        → IsDraftOf (seen ++ fields_of found.now ∷ []) draft.new) }
    ensures refused { IfErr result
        (λ why. (why ≡ TextErr.Memory)
        ⊎ (record_fault draft.old.n draft.old.taken (fields_of found.now) ≡ Some why)) }
{
    match draft.taken {
        0 => take_trace_form(found)?,
        1 => draft.scale = take_trace_scale(found)?,
        2 => draft.refine = take_trace_refine(found)?,
        3 => take_trace_quanta(draft.n, found, &mut draft.q)?,
        taken => {
            take_trace_place(
                draft.n,
                taken + 1,
                found,
                &mut draft.states,
                &mut draft.levels,
            )?
        }
    }
    draft.taken += 1;
    Ok(())
}

/// Reads record 1, the number of the form, which must be 1.
pub(crate) fn take_trace_form(found: &ByteRecord) -> Result<(), TextErr>
    requires { length (fields_of found.now) ≤ 2 ^ 30 }
    ensures fine { OnOk result ((n : ℕ) → record_fault n 0 (fields_of found.now) ≡ None) }
    ensures spelt { OnOk result (ParsesAs (fields_of found.now) (line (codes "trace") (pos 1 ∷ []))) }
    ensures refused { IfErr result
        (λ why. (n : ℕ) → record_fault n 0 (fields_of found.now) ≡ Some why) }
{
    let got = parse_trace_number(1, found, b"trace", Limit::Any)?;
    if got != 1 {
        return Err(TextErr::Form { got });
    }
    Ok(())
}

/// The number of a record that must have this keyword and one number.
pub(crate) fn parse_trace_number(
    line: u32,
    found: &ByteRecord,
    keyword: &[u8],
    limit: Limit,
) -> Result<i128, TextErr>
    requires { length (fields_of found.now) ≤ 2 ^ 30 }
    ensures shape { IfOk result (λ number. HasShape keyword.now 1 (fields_of found.now)) }
    ensures read { IfOk result
        (λ number. Dues.number_within limit (slice_index_or (fields_of found.now) 1 [])
        ≡ Some number) }
    ensures fits { IfOk result (λ number. Dues.fits limit number ≡ true) }
    ensures refused { IfErr result
        (λ why. (shape_fault line keyword.now 1 (fields_of found.now) ≡ Some why)
        ⊎ ((shape_fault line keyword.now 1 (fields_of found.now) ≡ None)
        × (Dues.number_within limit (slice_index_or (fields_of found.now) 1 []) ≡ None)
        × (why ≡ TextErr.Number line 2))) }
{
    check_trace_shape(line, found, keyword, 1)?;
    match trace_number_at(found, limit, 1) {
        Some(number) => Ok(number),
        None => Err(TextErr::Number { line, field: 2 }),
    }
}

/// Checks that a record has this keyword and `count` fields after it.
pub(crate) fn check_trace_shape(
    line: u32,
    found: &ByteRecord,
    keyword: &[u8],
    count: u8,
) -> Result<(), TextErr>
    requires { length (fields_of found.now) ≤ 2 ^ 30 }
    ensures shape { OnOk result (HasShape keyword.now count (fields_of found.now)) }
    ensures sound { OnOk result (shape_fault line keyword.now count (fields_of found.now) ≡ None) }
    ensures refused { IfErr result
        (λ why. shape_fault line keyword.now count (fields_of found.now) ≡ Some why) }
{
    if !has_trace_keyword(found, keyword) {
        return Err(TextErr::Keyword { line });
    }
    let want = u32::from(count) + 1;
    let got = found.len() as u32;
    if got != want {
        return Err(TextErr::Shape { line, want, got });
    }
    Ok(())
}

// Whether the first field of a record is this keyword.
fn has_trace_keyword(found: &ByteRecord, keyword: &[u8]) -> bool
    ensures { result ≡ bytes_eq (keyword_of (fields_of found.now)) keyword.now }
{
    match found.get(0) {
        Some(field) => field == keyword,
        None => keyword.is_empty(),
    }
}

// The number in a field of a record, or `None` if it is not a number in the range.
fn trace_number_at(found: &ByteRecord, limit: Limit, place: usize) -> Option<i128>
    requires { place < length (fields_of found.now) }
    ensures { result ≡ Dues.number_within limit (slice_index_or (fields_of found.now) place []) }
{
    match found.get(place) {
        Some(field) => trace_number_within(limit, field),
        None => None,
    }
}

/// Parses a field as a number in a range.
pub(crate) fn trace_number_within(limit: Limit, field: &[u8]) -> Option<i128>
    ensures { result ≡ Dues.number_within limit field.now }
{
    let number = number_of_field(field)?;
    if is_within_trace_limit(limit, &number) {
        Some(number)
    } else {
        None
    }
}

// Whether a number is in a range.
fn is_within_trace_limit(limit: Limit, number: &i128) -> bool
    ensures { result ≡ Dues.fits limit number.now }
{
    match limit {
        Limit::Any => true,
        Limit::Factor => 1 <= *number && *number <= 1 << 16,
        Limit::Quantum => 1 <= *number && *number <= 1 << 43,
        Limit::State => number.unsigned_abs() <= 1 << 108,
        Limit::Level => number.unsigned_abs() <= 1 << 64,
    }
}

/// Reads record 2, the scale.
pub(crate) fn take_trace_scale(found: &ByteRecord) -> Result<u32, TextErr>
    requires { length (fields_of found.now) ≤ 2 ^ 30 }
    ensures fine { IfOk result (λ scale. (n : ℕ) → record_fault n 1 (fields_of found.now) ≡ None) }
    ensures spelt { IfOk result
        (λ scale. ParsesAs (fields_of found.now) (line (codes "scale") (pos scale ∷ []))) }
    ensures factor { IfOk result (λ scale. IsFactor scale) }
    ensures refused { IfErr result
        (λ why. (n : ℕ) → record_fault n 1 (fields_of found.now) ≡ Some why) }
{
    let scale = parse_trace_number(2, found, b"scale", Limit::Factor)?;
    Ok(scale as u32)
}

/// Reads record 3, the refinement.
pub(crate) fn take_trace_refine(found: &ByteRecord) -> Result<u32, TextErr>
    requires { length (fields_of found.now) ≤ 2 ^ 30 }
    ensures fine { IfOk result (λ refine. (n : ℕ) → record_fault n 2 (fields_of found.now) ≡ None) }
    ensures spelt { IfOk result
        (λ refine. ParsesAs (fields_of found.now) (line (codes "refine") (pos refine ∷ []))) }
    ensures factor { IfOk result (λ refine. IsFactor refine) }
    ensures refused { IfErr result
        (λ why. (n : ℕ) → record_fault n 2 (fields_of found.now) ≡ Some why) }
{
    let refine = parse_trace_number(3, found, b"refine", Limit::Factor)?;
    Ok(refine as u32)
}

/// Reads record 4, the quanta.
pub(crate) fn take_trace_quanta(n: u8, found: &ByteRecord, q: &mut Vec<i128>) -> Result<(), TextErr>
    requires count_limit { length (fields_of found.now) ≤ 2 ^ 30 }
    requires none { q.old.items ≡ [] }
    ensures fine { OnOk result (record_fault n 3 (fields_of found.now) ≡ None) }
    ensures spelt { OnOk result (ParsesAs (fields_of found.now) (line (codes "Q") q.new.items)) }
    ensures quanta { OnOk result (AreQuanta n q.new.items) }
    ensures refused { IfErr result
        (λ why. (why ≡ TextErr.Memory) ⊎ (record_fault n 3 (fields_of found.now) ≡ Some why)) }
{
    check_trace_shape(4, found, b"Q", n)?;
    parse_trace_numbers(4, found, 1, n, Limit::Quantum, q)
}

/// Appends the numbers of `count` fields of a record, from the field at index `first` on.
/// Error: the first field that is not a number in the range, or out of memory.
pub(crate) fn parse_trace_numbers(
    line: u32,
    found: &ByteRecord,
    first: usize,
    count: u8,
    limit: Limit,
    numbers: &mut Vec<i128>,
) -> Result<(), TextErr>
    requires inside { first + count ≤ length (fields_of found.now) }
    requires count_limit { length (fields_of found.now) ≤ 2 ^ 30 }
    ensures read { OnOk result
        (AddsNumbers limit (take count (drop first (fields_of found.now))) numbers.old.items
        numbers.new.items) }
    ensures sound { OnOk result
        (position_from (Dues.is_unfit limit) (first + 1)
        (take count (drop first (fields_of found.now)))
        ≡ None) }
    ensures refused { IfErr result
        (λ why. (why ≡ TextErr.Memory)
        ⊎ (option_map (λ field. TextErr.Number line field)
        (position_from (Dues.is_unfit limit) (first + 1)
        (take count (drop first (fields_of found.now))))
        ≡ Some why)) }
{
    for place in first..first + count as usize {
        match trace_number_at(found, limit, place) {
            Some(number) => numbers.push(number)?,
            None => {
                return Err(TextErr::Number {
                    line,
                    field: place as u32 + 1,
                });
            }
        }
    }
    Ok(())
}

/// Reads a record of a place and appends its states and levels.
pub(crate) fn take_trace_place(
    n: u8,
    line: u32,
    found: &ByteRecord,
    states: &mut Vec<i128>,
    levels: &mut Vec<i128>,
) -> Result<(), TextErr>
    requires count_limit { length (fields_of found.now) ≤ 2 ^ 30 }
    requires states { n ≤ 16 }
    requires line { 5 ≤ line }
    ensures fine { OnOk result
        ((k : ℕ) → k + 1 ≡ line → record_fault n k (fields_of found.now) ≡ None) }
    ensures adds { OnOk result
        (AddsPlace n (fields_of found.now) states.old.items levels.old.items states.new.items
        levels.new.items) }
    ensures refused { IfErr result
        (λ why. (why ≡ TextErr.Memory)
        ⊎ ((k : ℕ) → k + 1 ≡ line → record_fault n k (fields_of found.now) ≡ Some why)) }
{
    check_trace_shape(line, found, b"at", 2 * n)?;
    parse_trace_numbers(line, found, 1, n, Limit::State, states)?;
    parse_trace_numbers(line, found, n as usize + 1, n, Limit::Level, levels)
}

// The only error of a reader of bytes in memory is an allocation failure.
fn trace_allocation_failure(_error: &Error) -> TextErr
    requires { stops_reader (error_kind _error.now) ≡ true }
    ensures { result ≡ TextErr.Memory }
{
    TextErr::Memory
}

// The trace of all its records, of which there are at most 2^24 + 1.
fn finish_trace_draft(draft: Draft) -> Result<Trace, TextErr>
    requires size { IsSize draft.n }
    requires count_limit { draft.taken ≤ 2 ^ 24 + 1 }
    requires read { (seen : List (List (List ℕ))) × IsDraftOf seen draft }
    ensures read { IfOk result
        (λ t. (seen : List (List (List ℕ))) → IsDraftOf seen draft → AreRecordsOf draft.n seen t) }
    ensures refused { IfErr result
        (λ why. (seen : List (List (List ℕ)))
        → IsDraftOf seen draft
        → trace_fault draft.n seen ≡ Some why) }
{
    if draft.taken < 5 {
        return Err(TextErr::Missing {
            line: draft.taken + 1,
        });
    }
    Ok(Trace {
        n: draft.n,
        scale: draft.scale,
        refine: draft.refine,
        q: Items::new(draft.q),
        states: Items::new(draft.states),
        levels: Items::new(draft.levels),
    })
}
