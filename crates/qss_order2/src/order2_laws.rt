//! Theorems about second-order runs. Each is the contract of a function with an empty body.

ghost use Rattle.qss_order2.specs.Events.{RowsFromStart};
ghost use Rattle.qss_order2.specs.SecondRunLaws.{SecondRunsAreLegitimate, RuledRunsAreLegitimate, SecondRunsAreUnique, NearestIsFree, EventFreeTicksAreForced};

/// The states and levels of a second-order run form a legitimate run in units 64 times finer.
pub fn second_runs_are_legitimate()
    ensures { SecondRunsAreLegitimate }
{}

/// The states and levels of a run under a stored rule form a legitimate run.
pub fn order2_ruled_runs_legitimate()
    ensures { RuledRunsAreLegitimate }
{}

/// The start rows of a simulator with the nearest rule, followed by the rows of all its events, are
/// the rows of the run.
pub fn order2_rows_from_start()
    ensures { RowsFromStart }
{}

/// The free rule allows the nearest change.
pub fn order2_nearest_is_free()
    ensures { NearestIsFree }
{}

/// A tick between two event steps has exactly one result and no rows.
pub fn order2_event_free_ticks_forced()
    ensures { EventFreeTicksAreForced }
{}

/// Under a rule that is a function, a machine has exactly one second-order run.
pub fn second_runs_are_unique()
    ensures { SecondRunsAreUnique }
{}
