//! Theorems about the results for certificates, traces and proposals, each the contract of a
//! function that does nothing.

ghost use Rattle.qss_guarantees.specs.CertificateLaws.{CertificateAnswersAreOne, BoundsHold, UpgradesKeep};
ghost use Rattle.qss_guarantees.specs.ProposalLaws.{ProposalsAreKept, ProposalsAreOne};
ghost use Rattle.qss_guarantees.specs.TraceLaws.{TraceAnswersAreOne, RunsAreAccepted, ComparisonsAreJudged, ComparedRunsAreWithinBound};

/// A machine and the bytes of a trace determine exactly one result of `check`.
pub fn trace_answers_are_unique()
    ensures { TraceAnswersAreOne }
{}

/// A trace is accepted if and only if it is a legitimate run of the machine.
pub fn runs_are_accepted()
    ensures { RunsAreAccepted }
{}

/// Each step of a comparison has exactly one result: a value, or one reason why it has none.
pub fn comparisons_are_judged()
    ensures { ComparisonsAreJudged }
{}

/// Two compared runs are legitimate, and V of their difference is at most the bound.
pub fn compared_runs_are_within_bound()
    ensures { ComparedRunsAreWithinBound }
{}

/// A machine and the bytes of a certificate determine exactly one result of `certify` and of
/// `upgrade`.
pub fn certificate_answers_are_unique()
    ensures { CertificateAnswersAreOne }
{}

/// If a certificate is accepted, the runs of the machine are within the printed bounds.
pub fn bounds_hold()
    ensures { BoundsHold }
{}

/// The text of an upgrade parses as the same certificate.
pub fn upgrades_keep()
    ensures { UpgradesKeep }
{}

/// A machine determines exactly one result of `propose`.
pub fn proposals_are_unique()
    ensures { ProposalsAreOne }
{}

/// If a text is the result, it parses as the certificate that was checked, whose bounds are
/// guaranteed.
pub fn proposals_are_sound()
    ensures { ProposalsAreKept }
{}
