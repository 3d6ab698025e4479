//! Values and rates of change of affine forms, in the units of a machine.

ghost use Rattle.std.specs.Prelude.{◌≡◌, ◌+◌, ◌*◌, ◌^◌, ◌<◌, ◌≤◌, ◌*ℤ◌, ◌+ℤ◌, ◌≤ℤ◌, ◌++◌, ℕ, length, map, pos, unsigned_abs, sum_by};
ghost use Rattle.qss_machine.specs.Prelude.{IsWithin, int_at, tick_limit, IsLevel, AreLevels, IsState, AreStates};
ghost use Rattle.qss_machine.specs.Slopes.{weighted_sum};

use crate::machine_parts::Entry;
use mu_num::unit;

/// Returns the sum of the entries' coefficients times the values of their variables.
pub(crate) fn sum_form_entries(
    entries: &[Entry],
    states: &[i128],
    discretes: &[i64],
    before: &[i64],
    unit_bits: u8,
) -> i128
    requires coefficients { sum_by (λ entry. unsigned_abs entry.coef) entries.now ≤ 2 ^ 38 }
    requires unit { unit_bits ≤ 44 }
    requires states { AreStates states.now }
    requires discretes { AreLevels discretes.now }
    requires before { AreLevels before.now }
    requires count_limit { length states.now + length discretes.now + length before.now < 2 ^ 32 }
    ensures value { result
        ≡ weighted_sum entries.now
        (states.now
        ++ (map (λ d. d *ℤ pos (2 ^ unit_bits)) discretes.now
        ++ map (λ d. d *ℤ pos (2 ^ unit_bits)) before.now)) }
    ensures bound { unsigned_abs result
        ≤ sum_by (λ entry. unsigned_abs entry.coef) entries.now * 2 ^ 88 }
{
    let mut sum: i128 = 0;
    for entry in entries {
        sum += form_entry_value(*entry, states, discretes, before, unit_bits);
    }
    sum
}

/// Returns `time` * `tick` * 2^bits. The coefficient is at most 2^38 in size, the tick below 2^32
/// and `bits` at most 56.
pub fn form_time_part(time: i64, tick: u64, bits: u8) -> i128
    requires time { IsWithin 38 time }
    requires tick { tick < tick_limit }
    requires bits { bits ≤ 56 }
    ensures value { result ≡ time *ℤ pos (tick * 2 ^ bits) }
    ensures bound { unsigned_abs result ≤ unsigned_abs time * 2 ^ 88 }
{
    if time == 0 {
        return 0;
    }
    multiply_form_coefficient(time, form_unit_tick(tick, bits))
}

/// Converts a form's constant to the unit of form values: `gamma` * 2^unit_bits. The constant is at
/// most 2^78 in size and `unit_bits` at most 44.
pub fn form_constant_part(gamma: i128, unit_bits: u8) -> i128
    requires gamma { IsWithin 78 gamma }
    requires unit { unit_bits ≤ 44 }
    ensures value { result ≡ gamma *ℤ pos (2 ^ unit_bits) }
    ensures bound { IsWithin 122 result }
{
    multiply_form_gamma(gamma, unit(unit_bits))
}

/// Returns a + b + c. The sum of their sizes is below 2^127.
pub fn add_form_parts(a: i128, b: i128, c: i128) -> i128
    requires { unsigned_abs a + unsigned_abs b + unsigned_abs c < 2 ^ 127 }
    ensures { result ≡ a +ℤ b +ℤ c }
{
    a + b + c
}

// Returns an entry's coefficient times the value of its variable.
fn form_entry_value(
    entry: Entry,
    states: &[i128],
    discretes: &[i64],
    before: &[i64],
    unit_bits: u8,
) -> i128
    requires coef { IsWithin 38 entry.coef }
    requires unit { unit_bits ≤ 44 }
    requires states { AreStates states.now }
    requires discretes { AreLevels discretes.now }
    requires before { AreLevels before.now }
    requires count_limit { length states.now + length discretes.now + length before.now < 2 ^ 32 }
    ensures value { result
        ≡ entry.coef *ℤ int_at
        (states.now
        ++ (map (λ d. d *ℤ pos (2 ^ unit_bits)) discretes.now
        ++ map (λ d. d *ℤ pos (2 ^ unit_bits)) before.now))
        entry.var }
    ensures bound { unsigned_abs result ≤ unsigned_abs entry.coef * 2 ^ 88 }
{
    multiply_form_coefficient(
        entry.coef,
        form_input_at(states, discretes, before, unit_bits, entry.var as usize),
    )
}

/// Multiplies a coefficient of at most 2^38 in size by a value of at most 2^88 in size.
pub fn multiply_form_coefficient(coef: i64, value: i128) -> i128
    requires coef { IsWithin 38 coef }
    requires value { IsState value }
    ensures { result ≡ coef *ℤ value }
{
    i128::from(coef) * value
}

// Returns the value of a form's variable in the unit of states. The variable is a state, a discrete
// variable, or a discrete variable's value before the tick.
fn form_input_at(
    states: &[i128],
    discretes: &[i64],
    before: &[i64],
    unit_bits: u8,
    var: usize,
) -> i128
    requires unit { unit_bits ≤ 44 }
    requires states { AreStates states.now }
    requires discretes { AreLevels discretes.now }
    requires before { AreLevels before.now }
    requires count_limit { length states.now + length discretes.now + length before.now < 2 ^ 32 }
    ensures value { result
        ≡ int_at
        (states.now
        ++ (map (λ d. d *ℤ pos (2 ^ unit_bits)) discretes.now
        ++ map (λ d. d *ℤ pos (2 ^ unit_bits)) before.now))
        var }
    ensures bound { IsState result }
{
    if var < states.len() {
        return states[var];
    }
    let past_states = var - states.len();
    if past_states < discretes.len() {
        return scale_discrete_value(discretes[past_states], unit_bits);
    }
    let past_discretes = past_states - discretes.len();
    if past_discretes < before.len() {
        return scale_discrete_value(before[past_discretes], unit_bits);
    }
    0
}

/// Converts a discrete value to the unit of states: `value` * 2^unit_bits. The value is at most
/// 2^43 in size and `unit_bits` at most 44.
pub fn scale_discrete_value(value: i64, unit_bits: u8) -> i128
    requires value { IsLevel value }
    requires unit { unit_bits ≤ 44 }
    ensures value { result ≡ value *ℤ pos (2 ^ unit_bits) }
    ensures bound { IsState result }
{
    multiply_by_unit(value, unit(unit_bits))
}

// Multiplies a number of at most 2^43 in size by one of at most 2^44.
fn multiply_by_unit(value: i64, unit: i128) -> i128
    requires value { IsLevel value }
    requires unit { IsWithin 44 unit }
    ensures value { result ≡ value *ℤ unit }
    ensures bound { IsState result }
{
    i128::from(value) * unit
}

// Converts a tick to the unit of states.
fn form_unit_tick(tick: u64, bits: u8) -> i128
    requires tick { tick < tick_limit }
    requires bits { bits ≤ 56 }
    ensures value { result ≡ pos (tick * 2 ^ bits) }
    ensures bound { IsState result }
{
    i128::from(tick) * unit(bits)
}

// Multiplies a number of at most 2^78 in size by one of at most 2^44.
fn multiply_form_gamma(gamma: i128, unit: i128) -> i128
    requires gamma { IsWithin 78 gamma }
    requires unit { IsWithin 44 unit }
    ensures value { result ≡ gamma *ℤ unit }
    ensures bound { IsWithin 122 result }
{
    gamma * unit
}
