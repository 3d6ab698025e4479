//! The origins of the two runs of a comparison: an own run of the machine, a given trace, or a
//! trace in a named file.

ghost use Rattle.std.specs.Prelude.{◌≡◌};
ghost use Rattle.qss_top.specs.Prelude.{side_in};
ghost use Rattle.qss_top.specs.CommandAnswers.{origin_of};
ghost use Rattle.qss_top.specs.Tasks.{origin_in};

use qss_cli::Side;

/// A run of a comparison: with the rule `floor`, second-order, or the trace in these bytes.
#[derive(Clone, Copy, Debug)]
pub enum RunSource<'a> {
    First,
    Second,
    Traced(&'a [u8]),
}

/// The two runs of a comparison.
#[derive(Clone, Copy, Debug)]
pub struct RunSources<'a> {
    pub one: RunSource<'a>,
    pub two: RunSource<'a>,
}

/// The origin of a run of a comparison: a given run, or the trace in a named file.
#[derive(Clone, Copy, Debug)]
pub(crate) enum Origin<'a> {
    Given(RunSource<'a>),
    InFile(&'a str),
}

/// The origins of the two runs of a comparison.
#[derive(Clone, Copy, Debug)]
pub(crate) struct Origins<'a> {
    pub(crate) one: Origin<'a>,
    pub(crate) two: Origin<'a>,
}

/// The origin of a run that the command line names.
pub(crate) fn named_origin<'a>(side: Side<'a>) -> Origin<'a>
    ensures { origin_in result ≡ origin_of (side_in side.entry) }
{
    match side {
        Side::First => Origin::Given(RunSource::First),
        Side::Second => Origin::Given(RunSource::Second),
        Side::Trace(name) => Origin::InFile(name),
    }
}
