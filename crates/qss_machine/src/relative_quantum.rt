//! Quanta relative to the size of the level (Kofman, Relative error control in quantization based
//! integration, 2009).

ghost use Rattle.std.specs.Prelude.{◌≡◌, ◌*◌, ◌/◌, ◌^◌, ◌≤◌, ◌≤ℤ◌, pos, unsigned_abs};
ghost use Rattle.qss_machine.specs.Prelude.{int_max, relative_unit, IsLevel};

/// Returns the greater of the state's own quantum and the relative quantum |level| * relative /
/// 4096. If `relative` is 0, no multiplication is done.
pub(crate) fn quantum_with_relative(own: i64, level: i64, relative: u16) -> i64
    requires own { pos 0 ≤ℤ own }
    requires level { IsLevel level }
    ensures { result ≡ int_max own (pos (unsigned_abs level * relative / relative_unit)) }
{
    if relative == 0 {
        return own;
    }
    greater_quantum(own, share_of_level(level, relative))
}

// Returns the greater of two quanta.
fn greater_quantum(own: i64, share: i64) -> i64
    ensures { result ≡ int_max own share }
{
    own.max(share)
}

// The relative quantum: |level| * relative / 4096, rounded down.
fn share_of_level(level: i64, relative: u16) -> i64
    requires { IsLevel level }
    ensures { result ≡ pos (unsigned_abs level * relative / relative_unit) }
{
    (level.unsigned_abs() * u64::from(relative) / 4096) as i64
}
