//! Writes the lines of many rows into memory, with the fields of each row as the library `csv`
//! formats them. One writer of `csv` and one buffer are reused for many lines.

ghost use Rattle.std.specs.Prelude.{◌≡◌, ◌<◌, ◌≤◌, [], ◌+◌, ◌∷◌, ◌++◌, true, false, length, IfOk, OnOk, OnErr, None, IsSome, IfSome};
ghost use Rattle.qss_rows.specs.Prelude.{writer_pending, default_writer, row_text, state_count, discrete_count};
ghost use Rattle.qss_rows.specs.PlainFields.{csv_line, IsPlain, number_text};
ghost use Rattle.qss_rows.specs.Writers.{IsBetween, given_to, Gains};
ghost use Rattle.qss_rows.specs.RowTexts as Spec;

use crate::line_text::{LINE_LENGTH, TickText, line_from, put_values};
use csv::{Error, QuoteStyle, Writer, WriterBuilder};
use itoa::{Buffer, write_digits};
use qss_machine::{Machine, Row, RowKind};
use std::alloc::{AllocError, Global};

/// The maximum length of the indices of a clause and of its branch, with a point between them.
pub(crate) const FIRING_LENGTH: usize = 21;

/// The approximate number of bytes after which a writer of `csv` is replaced by a new one.
pub(crate) const RENEWED: usize = 1 << 16;

// The initial capacity of a writer: the bytes before it is replaced, and the same amount for the
// event that exceeds this number.
const ROOM: usize = 2 * RENEWED;

/// Formats rows as lines, and holds the lines since it was last cleared. It reuses one writer of
/// `csv` and one buffer for the bytes of a line, and formats a tick once for consecutive rows of
/// that tick. The lines can be read after `finish`.
#[derive(Drop)]
pub struct LineWriter {
    pub(crate) records: RecordWriter,
    line: [u8; LINE_LENGTH],
    tick: TickText,
}

impl LineWriter {
    ghost use Rattle.qss_rows.specs.HeldLines.{AddsRow, lines_in, is_finished};

    /// A writer without lines.
    pub fn new(alloc: Global) -> LineWriter
        ensures { lines_in result ≡ [] }
    {
        LineWriter {
            records: RecordWriter::new(alloc),
            line: [0; LINE_LENGTH],
            tick: TickText::new(),
        }
    }

    /// Discards all lines.
    pub fn clear(&mut self)
        ensures { lines_in self.new ≡ [] }
    {
        self.records.clear();
    }

    /// Adds the line of a row of a machine. If allocation fails, it discards all lines.
    #[inline(always)]
    pub fn write(&mut self, r: &Row, m: &Machine) -> Result<(), AllocError>
        requires { Spec.HasVariable m.now r.now }
        ensures ok { OnOk result
            (lines_in self.new ≡ lines_in self.old ++ Spec.line_of m.now r.now) }
        ensures err { OnErr result (lines_in self.new ≡ []) }
    {
        if let RowKind::Level = r.kind {
            let (level, state) = (Some(i128::from(r.level)), Some(r.state));
            let name = line_variable_name(m, r.var);
            if let Some(done) = self.write_plain(r.tick, b"level", name, level, state) {
                return done;
            }
        }
        self.write_any(r, m)
    }

    // Adds the line of any row. If allocation fails, it discards all lines.
    #[inline(never)]
    fn write_any(&mut self, r: &Row, m: &Machine) -> Result<(), AllocError>
        requires { Spec.HasVariable m.now r.now }
        ensures ok { OnOk result
            (lines_in self.new ≡ lines_in self.old ++ Spec.line_of m.now r.now) }
        ensures err { OnErr result (lines_in self.new ≡ []) }
    {
        let is_state = (r.var as usize) < m.states.as_slice().len();
        let mut firing = [0; FIRING_LENGTH];
        let event = row_kind_word(r.kind);
        let name = line_name_text(m, r, &mut firing);
        let (level, state) = (
            row_level(r.kind, r.level),
            row_state(is_state, r.kind, r.state),
        );
        self.write_values(r.tick, event, name, level, state)
    }

    /// Adds the line of a row with these fields, as `csv` formats a record. A level or a state that
    /// is `None` is an empty field. If allocation fails, it discards all lines.
    #[inline(never)]
    pub fn write_values(
        &mut self,
        tick: u64,
        event: &[u8],
        name: &[u8],
        level: Option<i128>,
        state: Option<i128>,
    ) -> Result<(), AllocError>
        requires { IsPlain event.now }
        ensures ok { OnOk result
            (AddsRow self.old self.new tick event.now name.now level state) }
        ensures err { OnErr result (lines_in self.new ≡ []) }
    {
        match self.write_plain(tick, event, name, level, state) {
            Some(done) => done,
            None => self.write_quoted(tick, event, name, level, state),
        }
    }

    /// Adds the line of a row with these fields, as `csv` formats a record, or returns `None` and
    /// adds nothing if the name needs quotes or has more than 200 bytes. A level or a state that is
    /// `None` is an empty field. If allocation fails, it discards all lines.
    #[inline(always)]
    pub fn write_plain(
        &mut self,
        tick: u64,
        event: &[u8],
        name: &[u8],
        level: Option<i128>,
        state: Option<i128>,
    ) -> Option<Result<(), AllocError>>
        requires { IsPlain event.now }
        ensures plain { IsPlain name.now → IsSome result }
        ensures only_plain { IsSome result → IsPlain name.now }
        ensures ok { IfSome result
            (λ done. OnOk done (AddsRow self.old self.new tick event.now name.now level state)) }
        ensures err { IfSome result (λ done. OnErr done (lines_in self.new ≡ [])) }
        ensures none { result ≡ None → lines_in self.new ≡ lines_in self.old }
    {
        self.tick.set(tick);
        match put_values(&mut self.line, &self.tick, event, name, level, state) {
            Some(start) => Some(self.records.add(line_from(&self.line, start))),
            None => None,
        }
    }

    // Adds the line of a row with any name. If allocation fails, it discards all lines. It is not
    // inlined: no name of a source needs quotes, and few names have more than 200 bytes.
    #[cold]
    #[inline(never)]
    fn write_quoted(
        &mut self,
        tick: u64,
        event: &[u8],
        name: &[u8],
        level: Option<i128>,
        state: Option<i128>,
    ) -> Result<(), AllocError>
        ensures ok { OnOk result
            (AddsRow self.old self.new tick event.now name.now level state) }
        ensures err { OnErr result (lines_in self.new ≡ []) }
    {
        match quoted_line(
            self.records.alloc,
            Buffer::new().format(tick).as_bytes(),
            event,
            name,
            number_bytes(level, &mut Buffer::new()),
            number_bytes(state, &mut Buffer::new()),
        ) {
            Ok(line) => self.records.add(&line),
            Err(e) => {
                self.records.begin_anew();
                Err(e)
            }
        }
    }

    /// Makes the lines readable. If allocation fails, it discards all lines. It cannot fail without
    /// lines.
    #[inline(always)]
    pub fn finish(&mut self) -> Result<(), AllocError>
        ensures ok { OnOk result (lines_in self.new ≡ lines_in self.old) }
        ensures finished { OnOk result (is_finished self.new ≡ true) }
        ensures err { OnErr result (lines_in self.new ≡ []) }
        ensures memory_was_needed { OnErr result (0 < length (lines_in self.old)) }
    {
        self.records.finish()
    }

    /// The text of the lines, after `finish`.
    pub fn text(&self) -> &[u8]
        requires { is_finished self.now ≡ true }
        ensures { result.now ≡ lines_in self.now }
    {
        self.records.text()
    }
}

/// Adds lines as records of one field, and holds the lines since it was last cleared. It reuses one
/// writer of `csv` for many lines. The lines can be read after `finish`.
#[derive(Drop)]
pub(crate) struct RecordWriter {
    alloc: Global,
    writer: Writer<Vec<u8>>,
    from: usize,
    pub(crate) is_finished: bool,
    ghost between: { IsBetween writer },
    ghost within: { from ≤ length (given_to writer) },
    ghost passed_on: { is_finished ≡ true → writer_pending writer ≡ [] },
    ghost some: { is_finished ≡ false → from < length (given_to writer) },
}

impl RecordWriter {
    ghost use Rattle.qss_rows.specs.HeldLines.{records_in};

    /// A writer without lines.
    pub(crate) fn new(alloc: Global) -> RecordWriter
        ensures { records_in result ≡ [] }
    {
        RecordWriter {
            alloc,
            writer: new_line_csv_writer(alloc),
            from: 0,
            is_finished: true,
        }
    }

    // Discards all lines and replaces the writer of `csv`.
    #[cold]
    fn begin_anew(&mut self)
        ensures { records_in self.new ≡ [] }
    {
        renew_line_csv_writer(self.alloc, &mut self.writer);
        self.from = 0;
        self.is_finished = true;
    }

    /// Discards all lines.
    pub(crate) fn clear(&mut self)
        ensures { records_in self.new ≡ [] }
    {
        let length = self.writer.get_ref().len();
        if self.is_finished && length < RENEWED {
            self.from = length;
        } else {
            self.begin_anew();
        }
    }

    /// Adds a line and its line feed. If allocation fails, it discards all lines.
    #[inline(always)]
    pub(crate) fn add(&mut self, line: &[u8]) -> Result<(), AllocError>
        requires { 0 < length line.now }
        ensures ok { OnOk result
            (records_in self.new ≡ records_in self.old ++ (line.now ++ (10 ∷ []))) }
        ensures err { OnErr result (records_in self.new ≡ []) }
    {
        match add_csv_line(&mut self.writer, line) {
            Ok(()) => {
                self.is_finished = false;
                Ok(())
            }
            Err(e) => {
                renew_line_csv_writer(self.alloc, &mut self.writer);
                self.from = 0;
                self.is_finished = true;
                Err(e)
            }
        }
    }

    /// Makes the lines readable. If allocation fails, it discards all lines. It cannot fail without
    /// lines.
    #[inline(always)]
    pub(crate) fn finish(&mut self) -> Result<(), AllocError>
        ensures ok { OnOk result (records_in self.new ≡ records_in self.old) }
        ensures finished { OnOk result (self.new.is_finished ≡ true) }
        ensures err { OnErr result (records_in self.new ≡ []) }
        ensures memory_was_needed { OnErr result (0 < length (records_in self.old)) }
    {
        if self.is_finished {
            return Ok(());
        }
        match pass_on_csv_line(&mut self.writer) {
            Ok(()) => {
                self.is_finished = true;
                Ok(())
            }
            Err(e) => {
                self.begin_anew();
                Err(e)
            }
        }
    }

    /// The text of the lines, after `finish`.
    pub(crate) fn text(&self) -> &[u8]
        requires { self.now.is_finished ≡ true }
        ensures { result.now ≡ records_in self.now }
    {
        &self.writer.get_ref()[self.from..]
    }
}

/// The header line, before all rows.
pub fn header() -> &'static [u8]
    ensures { result.now ≡ Spec.header }
{
    b"tick,event,name,level,state\n"
}

/// Formats one row of a machine. For many rows, a `LineWriter` is faster. It fails if allocation
/// fails.
pub fn row_bytes(alloc: Global, r: &Row, m: &Machine) -> Result<Vec<u8>, AllocError>
    requires { Spec.HasVariable m.now r.now }
    ensures { IfOk result (λ line. line.items ≡ Spec.line_of m.now r.now) }
{
    let mut lines = LineWriter::new(alloc);
    lines.write(r, m)?;
    lines.finish()?;
    lines.text().to_vec(alloc)
}

/// Theorem: if the name needs no quotes, the line of a row is its fields, joined by commas and
/// followed by a line feed.
pub fn writer_lines_are_plain()
    ensures { Spec.LinesArePlain }
{}

/// The name of a variable, by index: states first, then discrete variables.
pub fn line_variable_name(m: &Machine, var: u32) -> &[u8]
    requires { var < state_count m.now + discrete_count m.now }
    ensures { result.now ≡ Spec.name_of m.now var }
{
    let var = var as usize;
    let states = m.states.as_slice();
    if var < states.len() {
        states[var].name.bytes()
    } else {
        m.discretes.as_slice()[var - states.len()].name.bytes()
    }
}

/// The text of the event field for a kind of rows.
pub(crate) fn row_kind_word(kind: RowKind) -> &'static [u8]
    ensures { result.now ≡ Spec.word_of kind }
{
    match kind {
        RowKind::Start => b"start",
        RowKind::When { .. } => b"when",
        RowKind::Set => b"set",
        RowKind::Reinit => b"reinit",
        RowKind::Level => b"level",
        RowKind::End => b"end",
        RowKind::Overflow => b"overflow",
    }
}

/// The text of the name field: the name of the variable, or the indices of a branch that fired.
pub(crate) fn line_name_text<'a>(
    m: &'a Machine,
    r: &Row,
    firing: &'a mut [u8; FIRING_LENGTH],
) -> &'a [u8]
    requires { Spec.HasVariable m.now r.now }
    ensures { result.now ≡ Spec.name_field m.now r.now.kind r.now.var }
{
    match r.kind {
        RowKind::When { clause, branch } => line_firing_text(clause, branch, firing),
        _ => line_variable_name(m, r.var),
    }
}

// Formats the indices of a clause and of its branch, both counted from 1, at the end of a buffer.
fn line_firing_text(clause: u32, branch: u32, buffer: &mut [u8; FIRING_LENGTH]) -> &[u8]
    ensures { result.now ≡ Spec.firing_field clause branch }
{
    let point = write_digits(u64::from(branch) + 1, buffer, FIRING_LENGTH) - 1;
    buffer[point] = b'.';
    let start = write_digits(u64::from(clause) + 1, buffer, point);
    &buffer[start..]
}

/// The level of a row: a level or a discrete value, or `None` for kinds of rows without one.
pub(crate) fn row_level(kind: RowKind, level: i64) -> Option<i128>
    ensures { number_text result ≡ Spec.level_field kind level }
{
    match kind {
        RowKind::Start | RowKind::Set | RowKind::Level | RowKind::End => Some(i128::from(level)),
        RowKind::When { .. } | RowKind::Reinit | RowKind::Overflow => None,
    }
}

/// The state of a row, or `None` for kinds of rows without one.
pub(crate) fn row_state(is_state: bool, kind: RowKind, state: i128) -> Option<i128>
    ensures { number_text result ≡ Spec.state_field is_state kind state }
{
    match kind {
        RowKind::Start | RowKind::End if is_state => Some(state),
        RowKind::Reinit | RowKind::Level => Some(state),
        _ => None,
    }
}

// The record of five fields, as `csv` formats it by default, without the line feed at its end.
fn quoted_line(
    alloc: Global,
    tick: &[u8],
    event: &[u8],
    name: &[u8],
    level: &[u8],
    state: &[u8],
) -> Result<Vec<u8>, AllocError>
    ensures some { IfOk result (λ line. 0 < length line.items) }
    ensures text { IfOk result
        (λ l. l.items ++ (10 ∷ []) ≡ csv_line tick.now event.now name.now level.now state.now) }
{
    match quoted_record(alloc, tick, event, name, level, state) {
        Ok(mut line) => {
            line.pop();
            Ok(line)
        }
        Err(e) => Err(e),
    }
}

// The record of five fields, as `csv` formats it by default.
fn quoted_record<'a>(
    alloc: Global,
    tick: &'a [u8],
    event: &'a [u8],
    name: &'a [u8],
    level: &'a [u8],
    state: &'a [u8],
) -> Result<Vec<u8>, AllocError>
    ensures { IfOk result
        (λ text. text.items ≡ csv_line tick.now event.now name.now level.now state.now) }
{
    let mut writer = Writer::from_writer(Vec::new(alloc));
    match writer.write_fields(&[tick, event, name, level, state]) {
        Ok(()) => match writer.flush() {
            Ok(()) => writer.get_ref().to_vec(alloc),
            Err(error) => Err(csv_line_allocation_error(&error)),
        },
        Err(error) => Err(csv_line_allocation_error(&error)),
    }
}

// The error that is reported if a writer into memory fails. `csv` does not specify other errors of
// a write into memory.
fn csv_line_allocation_error(_error: &Error) -> AllocError {
    AllocError
}

// The decimal text of a number, or nothing for `None`.
fn number_bytes(number: Option<i128>, buffer: &mut Buffer) -> &[u8]
    ensures { result.now ≡ number_text number }
{
    match number {
        Some(number) => buffer.format(number).as_bytes(),
        None => b"",
    }
}

/// A writer into memory that has written nothing and never writes quotes.
pub(crate) fn new_line_csv_writer(alloc: Global) -> Writer<Vec<u8>>
    ensures between { IsBetween result }
    ensures empty { given_to result ≡ [] }
    ensures pending { writer_pending result ≡ [] }
{
    WriterBuilder::new()
        .quote_style(QuoteStyle::Never)
        .from_writer(line_buffer_with_room(alloc))
}

// An empty vector, with the initial capacity if allocation succeeds.
fn line_buffer_with_room(alloc: Global) -> Vec<u8>
    ensures { result.items ≡ [] }
{
    match Vec::with_capacity(alloc, ROOM) {
        Ok(bytes) => bytes,
        Err(_) => Vec::new(alloc),
    }
}

/// Replaces a writer by one that has written nothing. It is not inlined, to keep the stack frame of
/// the callers small.
#[cold]
#[inline(never)]
pub(crate) fn renew_line_csv_writer(alloc: Global, writer: &mut Writer<Vec<u8>>)
    ensures between { IsBetween writer.new }
    ensures empty { given_to writer.new ≡ [] }
    ensures pending { writer_pending writer.new ≡ [] }
{
    *writer = new_line_csv_writer(alloc);
}

/// Adds a line and its line feed, as a record of one field. The writer may buffer it.
pub(crate) fn add_csv_line<'a>(
    writer: &mut Writer<Vec<u8>>,
    line: &'a [u8],
) -> Result<(), AllocError>
    requires between { IsBetween writer.old }
    requires some { 0 < length line.now }
    ensures { OnOk result (Gains writer.old writer.new (line.now ++ (10 ∷ []))) }
{
    match writer.write_fields(&[line]) {
        Ok(()) => Ok(()),
        Err(error) => Err(csv_line_allocation_error(&error)),
    }
}

/// Flushes the buffer of the writer.
pub(crate) fn pass_on_csv_line(writer: &mut Writer<Vec<u8>>) -> Result<(), AllocError>
    requires { IsBetween writer.old }
    ensures between { IsBetween writer.new }
    ensures same { given_to writer.new ≡ given_to writer.old }
    ensures pending { OnOk result (writer_pending writer.new ≡ []) }
{
    match writer.flush() {
        Ok(()) => Ok(()),
        Err(error) => Err(csv_line_allocation_error(&error)),
    }
}
