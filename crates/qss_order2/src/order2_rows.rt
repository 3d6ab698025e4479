//! The rows that a second-order run prints, and the text line of a row. There are rows of the
//! start, of a tick, of the end and of an overflow.

ghost use Rattle.std.specs.Prelude.{◌≡◌, ◌+◌, ◌<◌, ◌≤◌, ◌++◌, ◌∷◌, [], length, pos, flat_map, vec_len, vec_capacity, OnOk, OnErr};
ghost use Rattle.qss_order2.specs.Prelude.{state_count, discrete_count, tabulate, AreRisingBelow, variable_limit, lines_in, number_text};
ghost use Rattle.qss_order2.specs.SecondRuns.{discrete_rows2, end_rows, overflow_row};
ghost use Rattle.qss_order2.specs.Stores.{CanAdvance, CanMoveTo, place_there, snapshot_of, motion_at, HasLists, place_rows};
ghost use Rattle.qss_order2.specs.declared.order2_rows.Kind2.TheVariants.{Slope, End};
ghost use Rattle.qss_order2.specs.SecondRowLines as Spec;

use crate::fixed_machine::FixedMachine;
use crate::order2_motion::{Motion, Place};
use qss_machine::Machine;
use qss_rows::{LineWriter, line_variable_name};
use std::alloc::{AllocError, Global};

/// The kind of a row.
#[derive(Clone, Copy)]
pub enum Kind2 {
    /// The value of a variable at tick 0.
    Start,
    /// The slope of a state's level from this tick on, as an increment per tick.
    Slope,
    /// A state has a new level.
    Level,
    /// The value of a variable at the last tick.
    End,
    /// A state exceeds its limit, and the run ends.
    Overflow,
}

/// One row of a second-order run. A field that its kind does not print is 0.
#[derive(Clone, Copy)]
pub struct Row2 {
    pub tick: u64,
    pub kind: Kind2,
    /// The number of the variable. States come before discrete variables.
    pub var: u32,
    /// A state's level or its slope per tick, in units of 2^-f / 64; or a discrete value in units
    /// of 2^-f.
    pub level: i128,
    /// A state in units of 2^-(f+p+k) / 64.
    pub state: i128,
}

/// The rows of the states of a list, whose places are of the tick.
pub(crate) fn set_left_rows(kind: Kind2, tick: u64, left: &[u32], q: &Motion, rows: &mut Vec<Row2>)
    requires count_limit { length q.now.places.items ≤ variable_limit }
    requires changes { length q.now.changes.items ≡ length q.now.places.items }
    requires left { AreRisingBelow (length q.now.places.items) left.now }
    requires room { length q.now.places.items + length q.now.places.items ≤ vec_capacity rows.old }
    ensures rows { rows.new.items
        ≡ flat_map (place_rows kind tick q.now.places.items q.now.changes.items) left.now }
    ensures count { vec_len rows.new ≤ length q.now.places.items + length q.now.places.items }
    ensures room { vec_capacity rows.new ≡ vec_capacity rows.old }
{
    rows.clear();
    for state in left {
        let j = *state as usize;
        let p = q.places[j];
        let row = Row2 {
            tick,
            kind,
            var: *state,
            level: p.level,
            state: p.state,
        };
        push_state(row, q.changes[j], rows);
    }
}

/// The end rows.
pub(crate) fn set_end_rows(f: &FixedMachine, tick: u64, q: &Motion, rows: &mut Vec<Row2>)
    requires lists { HasLists f.now.machine q.now }
    requires moves { CanMoveTo f.now.machine tick q.now }
    requires room { state_count f.now.machine + discrete_count f.now.machine
        ≤ vec_capacity rows.old }
    ensures { rows.new.items
        ≡ end_rows f.now.machine tick (snapshot_of (motion_at f.now.machine q.now tick)) }
{
    rows.clear();
    add_levels(tick, q, rows);
    add_discretes(f, Kind2::End, tick, rows);
}

/// The overflow row, as the only row.
pub(crate) fn set_overflow_row(tick: u64, var: u32, rows: &mut Vec<Row2>)
    requires { 0 < vec_capacity rows.old }
    ensures { rows.new.items ≡ overflow_row (record { tick = tick; var = var }) ∷ [] }
{
    rows.clear();
    rows.push_reserved(Row2 {
        tick,
        kind: Kind2::Overflow,
        var,
        level: 0,
        state: 0,
    });
}

/// Appends the text line of a row. After an error the writer holds no line.
#[inline(always)]
pub fn write_row2(lines: &mut LineWriter, r: &Row2, m: &Machine) -> Result<(), AllocError>
    requires { Spec.HasVariable2 m.now r.now }
    ensures ok { OnOk result (lines_in lines.new ≡ lines_in lines.old ++ Spec.line2_of m.now r.now) }
    ensures err { OnErr result (lines_in lines.new ≡ []) }
{
    let level = Some(r.level);
    let name = line_variable_name(m, r.var);
    let plain = match r.kind {
        Kind2::Slope => lines.write_plain(r.tick, b"slope", name, level, None),
        Kind2::Level => lines.write_plain(r.tick, b"level", name, level, Some(r.state)),
        _ => None,
    };
    match plain {
        Some(done) => done,
        None => write_any_row2(lines, r, m),
    }
}

// Appends the row of a state's level, and a row of the slope of this level.
fn push_state(row: Row2, change: i128, rows: &mut Vec<Row2>)
    requires room { vec_len rows.old + 2 ≤ vec_capacity rows.old }
    ensures rows { rows.new.items
        ≡ rows.old.items
        ++ row
        ∷ record { tick = row.tick; kind = Slope; var = row.var; level = change; state = pos 0 }
        ∷ [] }
    ensures count { vec_len rows.new ≡ vec_len rows.old + 2 }
    ensures room { vec_capacity rows.new ≡ vec_capacity rows.old }
{
    rows.push_reserved(row);
    rows.push_reserved(Row2 {
        kind: Kind2::Slope,
        level: change,
        state: 0,
        ..row
    });
}

// A row of the level of each state, at the end.
fn add_levels(tick: u64, q: &Motion, rows: &mut Vec<Row2>)
    requires count_limit { length q.now.places.items ≤ variable_limit }
    requires moves { CanAdvance tick q.now }
    requires room { vec_len rows.old + length q.now.places.items ≤ vec_capacity rows.old }
    ensures rows { rows.new.items
        ≡ rows.old.items
        ++ tabulate (length q.now.places.items)
        (λ j.
        let p = place_there tick q.now j in
        record { tick = tick; kind = End; var = j; level = p.level; state = p.state }) }
    ensures count { vec_len rows.new ≡ vec_len rows.old + length q.now.places.items }
    ensures room { vec_capacity rows.new ≡ vec_capacity rows.old }
{
    for j in 0..q.places.len() {
        rows.push_reserved(end_row(tick, j, q.place_at(j, tick)));
    }
}

// A row of a state at the end, at its place there.
fn end_row(tick: u64, state: usize, p: Place) -> Row2
    requires { state < variable_limit }
    ensures { result
        ≡ record { tick = tick; kind = End; var = state; level = p.level; state = p.state } }
{
    Row2 {
        tick,
        kind: Kind2::End,
        var: state as u32,
        level: p.level,
        state: p.state,
    }
}

/// Appends a row for each discrete variable.
pub(crate) fn add_discretes(f: &FixedMachine, kind: Kind2, tick: u64, rows: &mut Vec<Row2>)
    requires room { vec_len rows.old + discrete_count f.now.machine ≤ vec_capacity rows.old }
    ensures rows { rows.new.items ≡ rows.old.items ++ discrete_rows2 kind tick f.now.machine }
    ensures room { vec_capacity rows.new ≡ vec_capacity rows.old }
{
    let first = f.machine.states.as_slice().len();
    let d = f.discretes.as_slice();
    for g in 0..d.len() {
        rows.push_reserved(Row2 {
            tick,
            kind,
            var: (first + g) as u32,
            level: i128::from(d[g]),
            state: 0,
        });
    }
}

// Appends the text line of any row. After an error the writer holds no line.
#[inline(never)]
fn write_any_row2(lines: &mut LineWriter, r: &Row2, m: &Machine) -> Result<(), AllocError>
    requires { Spec.HasVariable2 m.now r.now }
    ensures ok { OnOk result (lines_in lines.new ≡ lines_in lines.old ++ Spec.line2_of m.now r.now) }
    ensures err { OnErr result (lines_in lines.new ≡ []) }
{
    let is_state = (r.var as usize) < m.states.as_slice().len();
    lines.write_values(
        r.tick,
        kind_word(r.kind),
        line_variable_name(m, r.var),
        row2_level(r.kind, r.level),
        row2_state(is_state, r.kind, r.state),
    )
}

// The event name of a kind.
fn kind_word(kind: Kind2) -> &'static [u8]
    ensures { result.now ≡ Spec.word2_of kind }
{
    match kind {
        Kind2::Start => b"start",
        Kind2::Slope => b"slope",
        Kind2::Level => b"level",
        Kind2::End => b"end",
        Kind2::Overflow => b"overflow",
    }
}

// The level of a row, or `None` if a row of this kind has none.
fn row2_level(kind: Kind2, level: i128) -> Option<i128>
    ensures { number_text result ≡ Spec.level2_field kind level }
{
    match kind {
        Kind2::Start | Kind2::Slope | Kind2::Level | Kind2::End => Some(level),
        Kind2::Overflow => None,
    }
}

// The state of a row, or `None` if a row of this kind has none.
fn row2_state(is_state: bool, kind: Kind2, state: i128) -> Option<i128>
    ensures { number_text result ≡ Spec.state2_field is_state kind state }
{
    match kind {
        Kind2::Start | Kind2::End if is_state => Some(state),
        Kind2::Level => Some(state),
        _ => None,
    }
}
