//! Theorems over several crates. Each is the contract of a function with an empty body.

ghost use Rattle.qss_theorems.specs.Words.{AffectedStatesAreBounded, WrittenCertificatesAreShort, ListingsAreRight, EventsLeadFreely, NamesAreTaken, ItemsAreKept, BoundLinesAreFields, LinesAreFields, SecondOrderLinesAreFields, PrintedRunsAreFree, SourcesAreWellFormed};

/// The flat model of a source equals the recursive listing of its tree, which has no counters for
/// limits.
pub fn program_listings_are_right()
    ensures { ListingsAreRight }
{}

/// The steps of a simulator are free steps from its start, for quantizers with a named rule and for
/// all other quantizers.
pub fn program_events_lead_freely()
    ensures { EventsLeadFreely }
{}

/// The states of the printed run stay within quantum and drift of their levels. Without clauses the
/// run is legitimate.
pub fn printed_program_runs_are_free()
    ensures { PrintedRunsAreFree }
{}

/// In the rows of a source's machine no field needs quotes. Each line is its fields, joined by
/// commas, and a line feed.
pub fn program_lines_are_fields()
    ensures { LinesAreFields }
{}

/// In the rows of a second-order run of a source's machine no field needs quotes. Each line is its
/// fields, joined by commas, and a line feed.
pub fn program_second_order_lines_are_fields()
    ensures { SecondOrderLinesAreFields }
{}

/// In the bounds of a source's machine no field needs quotes. Each line is the name of a state and
/// its bound, joined by a comma, and a line feed.
pub fn program_bound_lines_are_fields()
    ensures { BoundLinesAreFields }
{}

/// The written text of a certificate is short enough to be read, and reads back as this
/// certificate.
pub fn program_certificates_are_short()
    ensures { WrittenCertificatesAreShort }
{}

/// A parsed source is well formed, as each phase requires, and its canonical text parses as the
/// same model.
pub fn program_sources_are_well_formed()
    ensures { SourcesAreWellFormed }
{}

/// In a model without name errors no equation, statement or start value is dropped.
pub fn program_items_are_kept()
    ensures { ItemsAreKept }
{}

/// In a model without name errors each name in an expression denotes a value or a variable, unless
/// unrolling rejects its index. Constant expressions use only the values of constants and loop
/// variables.
pub fn program_names_are_taken()
    ensures { NamesAreTaken }
{}

/// The number of affected states, summed over all ticks of a run, is at most the number of states
/// times the number of event steps. The reason: a state is affected only at event steps.
pub fn program_affected_states_are_bounded()
    ensures { AffectedStatesAreBounded }
{}
