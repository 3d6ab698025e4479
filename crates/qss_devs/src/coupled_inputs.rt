//! The inputs of functions at the start: for each row, the variables that it reads.

ghost use Rattle.std.specs.Prelude.{◌≡◌, ◌<◌, ◌+◌, ◌++◌, ◌∷◌, [], map, length, IfOk, replicate, slice_set, slice_index_or};
ghost use Rattle.qss_devs.specs.Prelude.{state_count, discrete_count, uses_of, EachAt};
ghost use Rattle.qss_devs.specs.Starts.{values_in, start_values, level_or_value, AreFirstInputs};

use crate::coupled_start::StartValues;
use qss_components::FunctionInput;
use qss_machine::{Machine, Uses};
use std::alloc::{AllocError, Global};

/// For each row, the variables that it reads, with their values at the start.
pub(crate) fn start_function_inputs(
    alloc: Global,
    m: &Machine,
    v: &StartValues,
    uses: &Uses,
) -> Result<Vec<Vec<FunctionInput>>, AllocError>
    requires values { values_in v.now ≡ start_values m.now }
    requires uses { uses.now ≡ uses_of m.now }
    ensures count { IfOk result (λ lists. length lists.items ≡ state_count m.now) }
    ensures each { IfOk result (λ lists.
        EachAt (AreFirstInputs m.now (state_count m.now + discrete_count m.now))
        (map (λ list. list.items) lists.items)) }
{
    let states = m.states.as_slice().len();
    let discretes = m.discretes.as_slice().len();
    let mut lists = empty_input_lists(alloc, states)?;
    for var in 0..states + discretes {
        add_start_variable(m, v, uses, var as u32, &mut lists)?;
    }
    Ok(lists)
}

// `count` empty lists.
fn empty_input_lists(alloc: Global, count: usize) -> Result<Vec<Vec<FunctionInput>>, AllocError>
    ensures { IfOk result (λ lists. map (λ list. list.items) lists.items ≡ replicate count []) }
{
    let mut lists: Vec<Vec<FunctionInput>> = Vec::new(alloc);
    for _ in 0..count {
        lists.push(Vec::new(alloc))?;
    }
    Ok(lists)
}

// Appends the input of a variable to the lists of the rows that read it.
fn add_start_variable(
    m: &Machine,
    v: &StartValues,
    uses: &Uses,
    var: u32,
    lists: &mut Vec<Vec<FunctionInput>>,
) -> Result<(), AllocError>
    requires values { values_in v.now ≡ start_values m.now }
    requires uses { uses.now ≡ uses_of m.now }
    requires known { var < state_count m.now + discrete_count m.now }
    requires count { length lists.old.items ≡ state_count m.now }
    requires before { EachAt (AreFirstInputs m.now var) (map (λ list. list.items) lists.old.items) }
    ensures count { IfOk result (λ done. length lists.new.items ≡ state_count m.now) }
    ensures after { IfOk result (λ done. EachAt (AreFirstInputs m.now (var + 1))
        (map (λ list. list.items) lists.new.items)) }
{
    let value = start_input_value(m, v, var as usize);
    let rows = uses.rows_of(var);
    let coefs = uses.coefficients_of(var);
    for k in 0..rows.len() {
        let coef = coefs[k];
        add_start_input(lists, rows[k], FunctionInput { var, coef, value })?;
    }
    Ok(())
}

// The level or the discrete value of a variable at the start.
fn start_input_value(m: &Machine, v: &StartValues, var: usize) -> i64
    requires values { values_in v.now ≡ start_values m.now }
    requires known { var < state_count m.now + discrete_count m.now }
    ensures { result ≡ level_or_value m.now (start_values m.now) var }
{
    let states = m.states.as_slice().len();
    if var < states {
        v.level(var)
    } else {
        v.discrete(var - states)
    }
}

// Appends an input to the list of a row.
fn add_start_input(
    lists: &mut Vec<Vec<FunctionInput>>,
    row: u32,
    input: FunctionInput,
) -> Result<(), AllocError>
    requires { row < length lists.old.items }
    ensures { IfOk result (λ done. map (λ list. list.items) lists.new.items
        ≡ slice_set (map (λ list. list.items) lists.old.items) row
        (slice_index_or (map (λ list. list.items) lists.old.items) row [] ++ input ∷ [])) }
{
    lists[row as usize].push(input)?;
    Ok(())
}
