//! Formats lines of five fields without quotes in a buffer, from their end to their start. The
//! digits of a tick are formatted once for all of its rows.

ghost use Rattle.std.specs.Prelude.{◌≡◌, ◌<◌, ◌≤◌, ◌+◌, ◌++◌, ◌∷◌, [], true, false, length, drop, decimal, None, IsSome, IfSome};
ghost use Rattle.qss_rows.specs.Prelude.{signed_decimal, default_writer};
ghost use Rattle.qss_rows.specs.PlainFields.{IsPlain, number_text, values_line};
ghost use Rattle.csv.specs.Writing as Csv;

use itoa::{Buffer, write_digits};

// The maximum length of a field that is copied to a line.
const FIELD_LENGTH: usize = 200;

/// The length of a buffer for a line: five fields of at most 200 bytes, and four commas.
pub(crate) const LINE_LENGTH: usize = 1004;

// The maximum number of digits of a tick.
const TICK_LENGTH: usize = 20;

/// The digits of a tick, at the end of a buffer.
#[derive(Drop)]
pub(crate) struct TickText {
    pub(crate) tick: u64,
    digits: [u8; TICK_LENGTH],
    from: usize,
    ghost within: { from ≤ 20 },
    ghost written: { drop from digits ≡ decimal tick },
}

impl TickText {
    /// The digits of tick 0.
    pub(crate) fn new() -> TickText
        ensures { result.tick ≡ 0 }
    {
        let mut digits = [0; TICK_LENGTH];
        let from = put_tick_digits(0, &mut digits);
        TickText {
            tick: 0,
            digits,
            from,
        }
    }

    /// Formats the digits of this tick, unless they are already present.
    #[inline(always)]
    pub(crate) fn set(&mut self, tick: u64)
        ensures tick { self.new.tick ≡ tick }
        ensures kept { self.old.tick ≡ tick → self.new ≡ self.old }
    {
        if tick == self.tick {
            return;
        }
        self.from = put_tick_digits(tick, &mut self.digits);
        self.tick = tick;
    }

    // Puts the digits of the tick before the index `at`, and returns the index of the first digit.
    // It also copies the bytes before the digits, because a copy of a constant length is faster.
    #[inline(always)]
    fn put(&self, line: &mut [u8; LINE_LENGTH], at: usize) -> usize
        requires room { 20 ≤ at }
        requires within { at ≤ 1004 }
        ensures start { result ≤ at }
        ensures written { drop result line.new ≡ decimal self.now.tick ++ drop at line.old }
    {
        let start = at - TICK_LENGTH;
        line[start..at].copy_from_slice(&self.digits);
        start + self.from
    }
}

/// Formats the line of a row at the end of a buffer, without the line feed, and returns the index
/// of its first byte, or `None` if the name needs quotes or has more than 200 bytes. A level or a
/// state that is `None` is an empty field.
#[inline(always)]
pub(crate) fn put_values(
    line: &mut [u8; LINE_LENGTH],
    tick: &TickText,
    event: &[u8],
    name: &[u8],
    level: Option<i128>,
    state: Option<i128>,
) -> Option<usize>
    requires { IsPlain event.now }
    ensures plain { IsPlain name.now → IsSome result }
    ensures only_plain { IsSome result → IsPlain name.now }
    ensures start { IfSome result (λ start. start < 1004) }
    ensures written { IfSome result (λ start. drop start line.new ++ (10 ∷ [])
        ≡ values_line tick.now.tick event.now name.now level state) }
{
    if name.len() > FIELD_LENGTH {
        return None;
    }
    let state_at = put_number(line, LINE_LENGTH, state);
    let comma = put_comma(line, state_at);
    let level_at = put_number(line, comma, level);
    let last = put_comma(line, level_at);
    let name_at = put_unquoted(line, last, name)?;
    let middle = put_comma(line, name_at);
    let event_at = put_bytes(line, middle, event);
    let first = put_comma(line, event_at);
    Some(tick.put(line, first))
}

/// The line that was formatted at the end of a buffer, from the index of its first byte on.
#[inline(always)]
pub(crate) fn line_from(line: &[u8; LINE_LENGTH], start: usize) -> &[u8]
    requires { start < 1004 }
    ensures some { 0 < length result.now }
    ensures text { result.now ≡ drop start line.now }
{
    &line[start..]
}

// Writes the digits of a tick to the end of a buffer, and returns the index of the first digit.
#[inline(always)]
fn put_tick_digits(tick: u64, digits: &mut [u8; TICK_LENGTH]) -> usize
    ensures within { result ≤ 20 }
    ensures written { drop result digits.new ≡ decimal tick }
{
    write_digits(tick, digits, TICK_LENGTH)
}

// Puts the decimal text of a number, or an empty field for `None`, before the index `at`, and
// returns the index of its first byte.
#[inline(always)]
fn put_number(line: &mut [u8; LINE_LENGTH], at: usize, number: Option<i128>) -> usize
    requires room { 40 ≤ at }
    requires within { at ≤ 1004 }
    ensures start { result ≤ at }
    ensures short { at ≤ result + 40 }
    ensures written { drop result line.new ≡ number_text number ++ drop at line.old }
{
    match number {
        Some(number) => put_i128(line, at, number),
        None => at,
    }
}

// Puts the decimal text of a number before the index `at`, and returns the index of its first byte.
#[inline(always)]
fn put_i128(line: &mut [u8; LINE_LENGTH], at: usize, number: i128) -> usize
    requires room { 40 ≤ at }
    requires within { at ≤ 1004 }
    ensures start { result ≤ at }
    ensures short { at ≤ result + 40 }
    ensures written { drop result line.new ≡ signed_decimal number ++ drop at line.old }
{
    match i64::try_from(number) {
        Ok(narrow) => put_i64(line, at, narrow),
        Err(_) => put_large(line, at, number),
    }
}

// Puts the decimal text of a number before the index `at`, and returns the index of its first byte.
#[inline(always)]
fn put_i64(line: &mut [u8; LINE_LENGTH], at: usize, number: i64) -> usize
    requires room { 20 ≤ at }
    requires within { at ≤ 1004 }
    ensures start { result ≤ at }
    ensures short { at ≤ result + 20 }
    ensures written { drop result line.new ≡ signed_decimal number ++ drop at line.old }
{
    let start = write_digits(number.unsigned_abs(), line, at);
    if number >= 0 {
        return start;
    }
    line[start - 1] = b'-';
    start - 1
}

// Puts the decimal text of a number before the index `at`, and returns the index of its first byte.
// It is not inlined, because few numbers have more than 64 bits.
#[cold]
#[inline(never)]
fn put_large(line: &mut [u8; LINE_LENGTH], at: usize, number: i128) -> usize
    requires room { 40 ≤ at }
    requires within { at ≤ 1004 }
    ensures start { result ≤ at }
    ensures short { at ≤ result + 40 }
    ensures written { drop result line.new ≡ signed_decimal number ++ drop at line.old }
{
    put_bytes(line, at, Buffer::new().format(number).as_bytes())
}

// Puts bytes before the index `at`, and returns the index of the first of them.
#[inline(always)]
fn put_bytes(line: &mut [u8; LINE_LENGTH], at: usize, bytes: &[u8]) -> usize
    requires room { length bytes.now ≤ at }
    requires within { at ≤ 1004 }
    ensures start { result + length bytes.now ≡ at }
    ensures written { drop result line.new ≡ bytes.now ++ drop at line.old }
{
    let start = at - bytes.len();
    line[start..at].copy_from_slice(bytes);
    start
}

// Puts a comma before the index `at`, and returns the index of the comma.
#[inline(always)]
fn put_comma(line: &mut [u8; LINE_LENGTH], at: usize) -> usize
    requires room { 0 < at }
    requires within { at ≤ 1004 }
    ensures start { result + 1 ≡ at }
    ensures written { drop result line.new ≡ 44 ∷ drop at line.old }
{
    let start = at - 1;
    line[start] = b',';
    start
}

// Puts a field before the index `at`, and returns the index of its first byte, or `None` if the
// field needs quotes. It copies byte by byte, because most fields are short.
#[inline(always)]
fn put_unquoted(line: &mut [u8; LINE_LENGTH], at: usize, field: &[u8]) -> Option<usize>
    requires room { length field.now ≤ at }
    requires within { at ≤ 1004 }
    ensures unquoted { IsSome result → Csv.needs_quotes default_writer field.now ≡ false }
    ensures quoted { result ≡ None → Csv.needs_quotes default_writer field.now ≡ true }
    ensures start { IfSome result (λ start. start + length field.now ≡ at) }
    ensures written { IfSome result
        (λ start. drop start line.new ≡ field.now ++ drop at line.old) }
{
    let mut start = at;
    let mut left = field.len();
    while left > 0 {
        left -= 1;
        let byte = field[left];
        if needs_byte(byte) {
            return None;
        }
        start -= 1;
        line[start] = byte;
    }
    Some(start)
}

// Whether a field with this byte needs quotes.
#[inline(always)]
fn needs_byte(byte: u8) -> bool
    ensures { result ≡ Csv.needs_byte default_writer byte }
{
    byte == b',' || byte == b'"' || byte == b'\r' || byte == b'\n'
}
