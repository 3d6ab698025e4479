//! Theorems about certificates, their texts and their verdicts. Each is the contract of a function
//! that does nothing.

ghost use Rattle.cert_check.specs.Bounds.{CertificatesAreSound, SmallerQuantaAreLegitimate};
ghost use Rattle.cert_check.specs.CheckVerdicts.{VerdictsAreOne};
ghost use Rattle.cert_check.specs.TextFaults.{TextsAreJudged};

/// If the inequalities hold, any two certified runs stay within the bounds of the certificate.
/// If one of its starts is the machine's, the machine's own runs are certified runs.
pub fn certificates_are_sound()
    ensures { CertificatesAreSound }
{}

/// A run that is legitimate with some quanta is legitimate with greater quanta.
pub fn certificates_allow_smaller_quanta()
    ensures { SmallerQuantaAreLegitimate }
{}

/// Each certificate of a machine has exactly one verdict.
pub fn certificate_verdicts_are_unique()
    ensures { VerdictsAreOne }
{}

/// Any bytes are either the text of exactly one certificate or have exactly one first fault,
/// for each machine without clauses and with 1 to 16 states.
pub fn certificate_texts_are_judged()
    ensures { TextsAreJudged }
{}
