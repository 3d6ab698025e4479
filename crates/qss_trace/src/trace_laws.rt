//! Theorems about traces, each the contract of a function that does nothing.

ghost use Rattle.qss_trace.specs.TraceLaws.{VerdictsAreOne, TracesAreCertified, GreatestIsBounded, ComparisonIsUnique, TextsAreJudged};

/// Each trace has exactly one verdict.
pub fn trace_verdicts_are_unique()
    ensures { VerdictsAreOne }
{}

/// A trace that is a legitimate run is a certified run, if the machine's start is one of the
/// certificate's and the quanta are at most the certificate's.
pub fn traces_are_certified()
    ensures { TracesAreCertified }
{}

/// At each common time V of the difference of two certified traces is at most its bound.
pub fn trace_comparison_is_bounded()
    ensures { GreatestIsBounded }
{}

/// Each pair of traces has exactly one result of the comparison.
pub fn trace_comparisons_are_unique()
    ensures { ComparisonIsUnique }
{}

/// Each text is either the text of exactly one trace or has exactly one first fault.
pub fn trace_texts_are_judged()
    ensures { TextsAreJudged }
{}
