//! Theorems about runs of the program, each the contract of a function that does nothing.

ghost use Rattle.qss_guarantees.specs.CallProperties.{CallsHaveProperties, SessionsHaveProperties};
ghost use Rattle.qss_guarantees.specs.RunAndCertificate.{PrintedRunsAreNearSolution};

/// Each call that computes its specification, with a status other than 3, 4 and 8, has the
/// properties of its command for the contents that it read.
pub fn calls_have_properties()
    ensures { CallsHaveProperties }
{}

/// Each run of the program with a status other than 3, 4 and 8 has the properties of its command for
/// the contents that it read. `run_over` of the crate qss states that the program is such a run.
pub fn sessions_have_properties()
    ensures { SessionsHaveProperties }
{}

/// If `run` and `certify` read the same source with the same relative quantum, and the certificate
/// has the machine's start, then at each tick the solution of the machine's differential equation is
/// within E/2 of each state of the run, and the rows print these states.
pub fn printed_runs_are_near_solution()
    ensures { PrintedRunsAreNearSolution }
{}
