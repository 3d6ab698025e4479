//! Theorems about all runs of machines. Each is the contract of a function with an empty body.

ghost use Rattle.qss_machine.specs.Firing.{BranchesFireWhenDue};
ghost use Rattle.qss_machine.specs.RunLaws.{RulesAreFree, RunsAreUnique, RunsStayWithinDrift, RunsAreLegitimate, SlopesAreWithinWeights};
ghost use Rattle.qss_machine.specs.SameData.{SameDataIsEqual};

/// Each named rule satisfies the free rule. So does each function whose levels are less than one
/// level unit from the state.
pub fn machine_rules_are_free()
    ensures { RulesAreFree }
{}

/// If the rule is a function, a machine has exactly one run.
pub fn machine_runs_are_unique()
    ensures { RunsAreUnique }
{}

/// At each time between two ticks, the distance of a state from its level is less than its quantum
/// plus the absolute value of its slope.
pub fn machine_runs_stay_near()
    ensures { RunsStayWithinDrift }
{}

/// Each run of a machine without clauses is a legitimate run.
pub fn machine_runs_are_legitimate()
    ensures { RunsAreLegitimate }
{}

/// A branch fires at a tick if and only if it is the first due branch of its clause.
pub fn machine_branches_fire_due()
    ensures { BranchesFireWhenDue }
{}

/// Machines with equal data are equal, whatever their ghost fields. So their runs, rows and event
/// counts are equal.
pub fn same_machine_data_equal()
    ensures { SameDataIsEqual }
{}

/// The absolute value of a slope is at most the absolute row sum.
pub fn machine_slopes_within_weights()
    ensures { SlopesAreWithinWeights }
{}
