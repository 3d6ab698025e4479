//! The machines that can have a certificate: those without clauses and with 1 to 16 states.

ghost use Rattle.std.specs.Prelude.{◌≡◌, ◌↔◌, IsOk, IfOk, IfErr};
ghost use Rattle.cert_check.specs.Prelude.{state_count};
ghost use Rattle.cert_check.specs.Scope.{IsInScope, IsOutsideBy};

use qss_machine::Machine;

/// The reason why a machine cannot have a certificate.
#[derive(Clone, Copy, Debug, PartialEq, Eq)]
pub enum Outside {
    /// The machine has this many `when` clauses, at least one.
    HasClauses { count: u32 },
    /// The machine has no clauses and this many states: none, or more than 16.
    States { count: u32 },
}

/// The number of states of a machine without clauses and with 1 to 16 states, or the reason.
pub fn scope(m: &Machine) -> Result<u8, Outside>
    ensures inside { IsOk result ↔ IsInScope m.now }
    ensures states { IfOk result (λ n. n ≡ state_count m.now) }
    ensures outside { IfErr result (λ why. IsOutsideBy m.now why) }
{
    let clauses = m.clauses.as_slice().len();
    if clauses != 0 {
        return Err(Outside::HasClauses {
            count: clauses as u32,
        });
    }
    let states = m.states.as_slice().len();
    if states == 0 || states > 16 {
        return Err(Outside::States {
            count: states as u32,
        });
    }
    Ok(states as u8)
}
