//! Distances between a state and its level, in units of the state.

ghost use Rattle.std.specs.Prelude.{◌≡◌, ◌*ℤ◌, ◌+ℤ◌, ◌-ℤ◌, ◌<ℤ◌, ◌↔◌, pos, unsigned_abs, IsTrue};
ghost use Rattle.qss_quant.specs.Prelude.{IsWithin, IsPositiveWithin, IsLevel, IsQuantum, IsState};

/// The difference between a state and its level, in units of the state. It is negative below the
/// level.
pub(crate) fn signed_gap(x: i128, level: i64, unit: i128) -> i128
    requires state { IsWithin 89 x }
    requires level { IsLevel level }
    requires unit { IsPositiveWithin 44 unit }
    ensures value { result ≡ x -ℤ unit *ℤ level }
    ensures bound { IsWithin 90 result }
{
    x - levels_in_units(level, unit)
}

/// The distance by which a state may rise until it is one quantum above its level, in units of the
/// state.
pub(crate) fn room_above(x: i128, level: i64, quantum: i64, unit: i128) -> i128
    requires state { IsWithin 89 x }
    requires level { IsLevel level }
    requires quantum { IsLevel quantum }
    requires unit { IsPositiveWithin 44 unit }
    ensures value { result ≡ unit *ℤ quantum -ℤ (x -ℤ unit *ℤ level) }
    ensures bound { IsWithin 90 result }
{
    level_product(unit, quantum + level) - x
}

/// The distance by which a state may fall until it is one quantum below its level, in units of the
/// state.
pub(crate) fn room_below(x: i128, level: i64, quantum: i64, unit: i128) -> i128
    requires state { IsWithin 89 x }
    requires level { IsLevel level }
    requires quantum { IsLevel quantum }
    requires unit { IsPositiveWithin 44 unit }
    ensures value { result ≡ unit *ℤ quantum +ℤ (x -ℤ unit *ℤ level) }
    ensures bound { IsWithin 90 result }
{
    level_product(unit, quantum - level) + x
}

/// A quantum, converted from levels to units of a state.
pub(crate) fn quantum_in_units(quantum: i64, unit: i128) -> i128
    requires quantum { IsQuantum quantum }
    requires unit { IsPositiveWithin 44 unit }
    ensures value { result ≡ unit *ℤ quantum }
    ensures bound { IsWithin 87 result }
    ensures positive { pos 0 <ℤ result }
{
    levels_in_units(quantum, unit)
}

/// Whether the absolute value of a number is below a limit.
pub(crate) fn is_gap_inside(gap: i128, limit: i128) -> bool
    requires { pos 0 <ℤ limit }
    ensures { IsTrue result ↔ (pos (unsigned_abs gap) <ℤ limit) }
{
    gap.unsigned_abs() < limit as u128
}

/// Converts a number of levels to units of a state. `unit` is the number of units in a level.
pub fn levels_in_units(levels: i64, unit: i128) -> i128
    requires levels { IsLevel levels }
    requires unit { IsPositiveWithin 44 unit }
    ensures value { result ≡ unit *ℤ levels }
    ensures bound { IsWithin 87 result }
{
    level_product(unit, levels)
}

// Both factors fit in 64 bits, so that one multiplication instruction is enough.
fn level_product(unit: i128, levels: i64) -> i128
    requires unit { IsPositiveWithin 44 unit }
    requires levels { IsWithin 44 levels }
    ensures value { result ≡ unit *ℤ levels }
    ensures bound { IsState result }
{
    i128::from(unit as i64) * i128::from(levels)
}
