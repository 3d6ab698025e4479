//! A machine whose discrete variables keep their start values. It has the nonzero coefficients of
//! each row, and for each state those of the rows that read it.

ghost use Rattle.std.specs.Prelude.{◌≡◌, ◌<◌, ◌+◌, ◌*ℤ◌, ◌+ℤ◌, ◌≢◌, ◌≤◌, ◌++◌, ◌∷◌, [], IfOk, pos, replicate, ℕ, ℤ, All, length, map};
ghost use Rattle.qss_order2.specs.Prelude.{IsWithin, IsPositiveWithin, start_constant_part, start_coefficient, state_count, level_unit, start_discretes, tabulate, int_at, int_wrap, w128, reading_rows, uses_of, coefficient_of, IsStrictlyIncreasing, AreProducts};
ghost use Rattle.qss_order2.specs.Fixed.{AreRowsBelow, AreColumnsBelow, IsFixed, IsColumn, AreModes};
ghost use Rattle.qss_order2.specs.SecondSteps.{reach_of};

use mu_io::Items;
use qss_machine::{Entry, Machine, Product, Uses};
use qss_sched::repeat_value;
use std::alloc::{AllocError, Global};

/// A machine with its matrix at the start values of the discrete variables: the number of state
/// units in a level, the coefficients by row and by column, the constant part of each row, and the
/// quantum of each state.
#[derive(Drop)]
pub(crate) struct FixedMachine {
    pub machine: Machine,
    pub unit: i128,
    pub rows: Vec<Items<Entry>>,
    pub columns: Vec<Items<Entry>>,
    pub drives: Vec<i128>,
    pub limits: Vec<i128>,
    pub discretes: Vec<i64>,
    pub ghost is_fixed: { IsFixed machine unit rows.items drives.items limits.items discretes.items },
    pub ghost has_columns: { AreColumnsBelow machine (state_count machine) columns.items },
}

impl FixedMachine {
    /// Computes the rows of a machine at the start values of discrete variables.
    pub(crate) fn new(alloc: Global, m: Machine) -> Result<FixedMachine, AllocError>
        ensures { IfOk result (λ fixed. fixed.machine ≡ m) }
    {
        let unit = m.level_unit();
        let discretes = fixed_discretes_of(alloc, &m)?;
        let rows = rows_of(alloc, &m, &discretes)?;
        let drives = list_constant_slopes(alloc, &m, &discretes)?;
        let limits = list_fine_quanta(alloc, &m, unit)?;
        let columns = list_coefficient_columns(alloc, &m, &discretes)?;
        Ok(FixedMachine {
            machine: m,
            unit,
            rows,
            columns,
            drives,
            limits,
            discretes,
        })
    }
}

/// Adds a multiple of a column to sums of rows, modulo 2^128.
pub(crate) fn add_fixed_column_multiple(column: &[Entry], factor: i128, sums: &mut [i128])
    requires { All (λ entry. entry.var < length sums.old) column.now }
    ensures { (i : ℕ) (z : ℤ) → i < length sums.old
        → int_at sums.old i ≡ int_wrap w128 z
        → int_at sums.new i ≡ int_wrap w128 (z +ℤ coefficient_of column.now i *ℤ factor) }
{
    for entry in column {
        let i = entry.var as usize;
        sums[i] = fixed_column_sum(sums[i], fixed_column_multiple(entry.coef, factor));
    }
}

/// The start values of the discrete variables, in units of 2^-f.
pub fn fixed_discretes_of(alloc: Global, m: &Machine) -> Result<Vec<i64>, AllocError>
    ensures { IfOk result (λ list. list.items ≡ start_discretes m.now) }
{
    let discretes = m.discretes.as_slice();
    let mut list: Vec<i64> = Vec::with_capacity(alloc, discretes.len())?;
    for g in 0..discretes.len() {
        list.push_reserved(discretes[g].d0);
    }
    Ok(list)
}

// The coefficients of all rows.
fn rows_of(alloc: Global, m: &Machine, discretes: &[i64]) -> Result<Vec<Items<Entry>>, AllocError>
    requires { discretes.now ≡ start_discretes m.now }
    ensures { IfOk result (λ rows. AreRowsBelow m.now (state_count m.now) rows.items) }
{
    let mut rows: Vec<Items<Entry>> = Vec::new(alloc);
    for row in 0..m.states.as_slice().len() {
        add_fixed_row(alloc, m, row as u32, discretes, &mut rows)?;
    }
    Ok(rows)
}

// Appends the coefficients of a row.
fn add_fixed_row(
    alloc: Global,
    m: &Machine,
    row: u32,
    discretes: &[i64],
    rows: &mut Vec<Items<Entry>>,
) -> Result<(), AllocError>
    requires row { row < state_count m.now }
    requires start { discretes.now ≡ start_discretes m.now }
    requires before { AreRowsBelow m.now row rows.old.items }
    ensures { IfOk result (λ done. AreRowsBelow m.now (row + 1) rows.new.items) }
{
    let entries = fixed_modes_of(alloc, m, row, discretes)?;
    rows.push(Items::new(entries))?;
    Ok(())
}

/// The nonzero coefficients of a row, in increasing order of states.
pub(crate) fn fixed_modes_of(
    alloc: Global,
    m: &Machine,
    row: u32,
    discretes: &[i64],
) -> Result<Vec<Entry>, AllocError>
    requires row { row < state_count m.now }
    requires start { discretes.now ≡ start_discretes m.now }
    ensures { IfOk result (λ entries. AreModes m.now row entries.items) }
{
    let states = m.states.as_slice().len() as u32;
    let mut entries: Vec<Entry> = Vec::new(alloc);
    let mut state = next_fixed_state(m, row, 0);
    while state < states {
        let coef = fixed_mode_at(m, row, state, discretes);
        add_fixed_mode(&mut entries, state, coef)?;
        state = next_fixed_state(m, row, state + 1);
    }
    Ok(entries)
}

// The least state from `from` on that a row reads, or the number of states if there is none.
fn next_fixed_state(m: &Machine, row: u32, from: u32) -> u32
    requires row { row < state_count m.now }
    requires from { from ≤ state_count m.now }
    ensures later { from ≤ result }
    ensures known { result ≤ state_count m.now }
    ensures none { (i : ℕ) → from ≤ i → i < result → start_coefficient m.now row i ≡ pos 0 }
{
    let states = m.states.as_slice().len() as u32;
    let right_side = &m.rows.as_slice()[row as usize];
    let entry = next_fixed_entry(right_side.entries.as_slice(), from, states);
    let product = next_fixed_product(right_side.products.as_slice(), from, states);
    entry.min(product)
}

// The least state from `from` on that has an entry, or the number of states if there is none.
fn next_fixed_entry(entries: &[Entry], from: u32, states: u32) -> u32
    requires rising { IsStrictlyIncreasing (map (λ entry. entry.var) entries.now) }
    requires within { from ≤ states }
    ensures later { from ≤ result }
    ensures known { result ≤ states }
    ensures none { All (λ entry. from ≤ entry.var → result ≤ entry.var) entries.now }
{
    let place = entries.partition_point(|entry| entry.var < from);
    if place < entries.len() {
        return entries[place].var.min(states);
    }
    states
}

// The least state from `from` on that has a product, or the number of states if there is none.
fn next_fixed_product(products: &[Product], from: u32, states: u32) -> u32
    requires products { (count : ℕ) × AreProducts states count products.now }
    requires within { from ≤ states }
    ensures later { from ≤ result }
    ensures known { result ≤ states }
    ensures none { All (λ product. from ≤ product.state → result ≤ product.state) products.now }
{
    let place = products.partition_point(|product| product.state < from);
    if place < products.len() {
        return products[place].state;
    }
    states
}

/// The coefficient of a state in a row at the start values of discrete variables, in units of 2^-p.
pub(crate) fn fixed_mode_at(m: &Machine, row: u32, state: u32, discretes: &[i64]) -> i64
    requires row { row < state_count m.now }
    requires state { state < state_count m.now }
    requires start { discretes.now ≡ start_discretes m.now }
    ensures value { result ≡ start_coefficient m.now row state }
    ensures bound { IsWithin 44 result }
{
    m.mode_coef(row, state, discretes) as i64
}

/// Appends a coefficient, unless it is 0. `var` is the state of a row, or the row of a column.
pub(crate) fn add_fixed_mode(
    entries: &mut Vec<Entry>,
    var: u32,
    coef: i64,
) -> Result<(), AllocError>
    ensures { IfOk result
        (λ done. (coef ≡ pos 0 → entries.new.items ≡ entries.old.items)
        × (coef ≢ pos 0
        → entries.new.items
        ≡ entries.old.items ++ record { var = var; coef = coef } ∷ [])) }
{
    if coef == 0 {
        return Ok(());
    }
    entries.push(Entry { var, coef })?;
    Ok(())
}

// The constant parts of all rows.
fn list_constant_slopes(
    alloc: Global,
    m: &Machine,
    discretes: &[i64],
) -> Result<Vec<i128>, AllocError>
    requires { discretes.now ≡ start_discretes m.now }
    ensures { IfOk result
        (λ drives. drives.items ≡ tabulate (state_count m.now) (start_constant_part m.now)) }
{
    let count = m.states.as_slice().len();
    let zeros = repeat_value(alloc, 0, count)?;
    let mut drives: Vec<i128> = Vec::with_capacity(alloc, count)?;
    for row in 0..count {
        drives.push_reserved(constant_slope(m, row as u32, &zeros, discretes));
    }
    Ok(drives)
}

// The constant part of a row: its slope if all levels are 0, in units of states per tick.
fn constant_slope(m: &Machine, row: u32, zeros: &[i64], discretes: &[i64]) -> i128
    requires row { row < state_count m.now }
    requires zeros { zeros.now ≡ replicate (state_count m.now) (pos 0) }
    requires start { discretes.now ≡ start_discretes m.now }
    ensures { result ≡ start_constant_part m.now row }
{
    m.slope(row, zeros, discretes)
}

// The quanta of all states, in units 64 times finer.
fn list_fine_quanta(alloc: Global, m: &Machine, unit: i128) -> Result<Vec<i128>, AllocError>
    requires { unit ≡ level_unit m.now }
    ensures { IfOk result (λ limits. limits.items ≡ tabulate (state_count m.now) (reach_of m.now)) }
{
    let count = m.states.as_slice().len();
    let mut limits: Vec<i128> = Vec::with_capacity(alloc, count)?;
    for state in 0..count {
        limits.push_reserved(fine_state_quantum(m, unit, state));
    }
    Ok(limits)
}

// The quantum of a state: the distance from its level at which it is requantized.
fn fine_state_quantum(m: &Machine, unit: i128, state: usize) -> i128
    requires unit { unit ≡ level_unit m.now }
    requires state { state < state_count m.now }
    ensures { result ≡ reach_of m.now state }
{
    fine_quantum(unit, m.states.as_slice()[state].quantum)
}

// A quantum in units 64 times finer than those of states.
fn fine_quantum(unit: i128, quantum: i64) -> i128
    requires unit { IsPositiveWithin 44 unit }
    requires quantum { IsWithin 32 quantum }
    ensures { result ≡ pos 64 *ℤ unit *ℤ quantum }
{
    64 * unit * i128::from(quantum)
}

/// The columns of all states.
pub(crate) fn list_coefficient_columns(
    alloc: Global,
    m: &Machine,
    discretes: &[i64],
) -> Result<Vec<Items<Entry>>, AllocError>
    requires { discretes.now ≡ start_discretes m.now }
    ensures { IfOk result (λ columns. AreColumnsBelow m.now (state_count m.now) columns.items) }
{
    let uses = Uses::new(alloc, m)?;
    let mut columns: Vec<Items<Entry>> = Vec::new(alloc);
    for state in 0..m.states.as_slice().len() {
        let readers = uses.rows_of(state as u32);
        let entries = coefficient_column(alloc, m, readers, state as u32, discretes)?;
        columns.push(Items::new(entries))?;
    }
    Ok(columns)
}

// The nonzero coefficients of a state in the rows that read it, in increasing order of rows.
fn coefficient_column(
    alloc: Global,
    m: &Machine,
    readers: &[u32],
    state: u32,
    discretes: &[i64],
) -> Result<Vec<Entry>, AllocError>
    requires readers { readers.now ≡ reading_rows m.now state }
    requires state { state < state_count m.now }
    requires start { discretes.now ≡ start_discretes m.now }
    ensures { IfOk result (λ entries. IsColumn m.now state entries.items) }
{
    let mut entries: Vec<Entry> = Vec::new(alloc);
    for row in readers {
        let coef = fixed_mode_at(m, *row, state, discretes);
        add_fixed_mode(&mut entries, *row, coef)?;
    }
    Ok(entries)
}

// The sum of two numbers, modulo 2^128.
fn fixed_column_sum(a: i128, b: i128) -> i128
    ensures { result ≡ int_wrap w128 (a +ℤ b) }
{
    a.wrapping_add(b)
}

// A coefficient times a factor, modulo 2^128.
fn fixed_column_multiple(coef: i64, factor: i128) -> i128
    ensures { result ≡ int_wrap w128 (coef *ℤ factor) }
{
    i128::from(coef).wrapping_mul(factor)
}
