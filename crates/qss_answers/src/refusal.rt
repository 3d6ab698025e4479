//! The reasons why a certificate, a trace, a proposal or a comparison is rejected.

use cert_check::{Outside, TextErr, Verdict};

/// The reason for a rejection.
#[derive(Clone, Copy, Debug, PartialEq, Eq)]
pub enum Refusal {
    /// The machine has clauses, no states, or more than 16 states, so no certificate applies to it.
    Outside(Outside),
    /// The machine has this number of clauses, so it has no second-order run.
    Clauses {
        count: u32,
    },
    /// The certificate has more than 2^18 bytes.
    CertificateTooLong,
    /// The trace has more than 2^24 bytes.
    TraceTooLong,
    /// The bytes are not a certificate of the machine.
    NotCertificate(TextErr),
    /// The bytes are not a trace with the machine's number of states.
    NotTrace(TextErr),
    /// The certificate is not accepted. The verdict states the failure.
    Rejected(Verdict),
    /// The trace is not a legitimate run: the first fact that fails, with its two sides. `place`
    /// counts from 0, `state` from 1, and `fact` is 1 to 3.
    Broken {
        place: u32,
        fact: u32,
        state: u32,
        left: i128,
        right: i128,
    },
    /// A sum of the proposed certificate is out of range, first in this step, 2 to 6.
    NoCandidate {
        step: u8,
    },
    /// Neither of the certificate's starts is the machine's.
    Start,
    /// A quantum of run 1 or 2 exceeds the certificate's, in this state, which counts from 1.
    Quantum {
        run: u32,
        state: u32,
    },
    /// The last tick of the machine's own run exceeds 65,535.
    Long {
        last: u64,
    },
    /// A sum is out of range at these places of the two runs, or in the bound if both are 0.
    Range {
        place1: u32,
        place2: u32,
    },
}
