//! Theorems on one example. Each is the contract of a function that does nothing.

ghost use Rattle.qss_instance.specs.DecayInstance.{DecayIsBounded};

/// The example `decay` has this machine, this run and this certificate, and at tick 16 its run is
/// within 10.5 levels of the solution.
pub fn decay_is_bounded()
    ensures { DecayIsBounded }
{}
