//! Tests of the candidates for worked models and for generated models.

use crate::answers::ANSWERS;
use crate::sources::source_of;
use cert_check::{Certificate, Verdict, scope};
use cert_propose::{Proposal, propose};
use mu_io::Items;
use qss_compile::compile;
use qss_machine::Machine;
use std::alloc::{AllocError, Global};
use std::test::Fail;

// The modulus of a digest, a prime.
const PRIME: u64 = 2_147_483_647;

// Worked models, each with the expected digest or step.
const WORKED: [(&str, u64); 14] = [
    (
        "model m Real x(start = 64); equation der(x) = -1*x; annotation(experiment(StopTime = 1, QSS_CoefBits = 8, QSS_TickBits = 4, QSS_LevelBits = 0, QSS_Quantum = 4)); end m;",
        535122344,
    ),
    (
        "model m Real x(start = 64); equation der(x) = 0; annotation(experiment(StopTime = 1, QSS_CoefBits = 8, QSS_TickBits = 4, QSS_LevelBits = 0, QSS_Quantum = 4)); end m;",
        389588679,
    ),
    (
        "model m Real x(start = 1); Real v; equation der(x) = v; der(v) = -1*x - v; annotation(experiment(StopTime = 1, QSS_CoefBits = 8, QSS_TickBits = 8, QSS_LevelBits = 6, QSS_Quantum = 1/16)); end m;",
        510554781,
    ),
    (
        "model m Real x(start = 64); equation der(x) = 100 - x; annotation(experiment(StopTime = 1, QSS_CoefBits = 8, QSS_TickBits = 4, QSS_LevelBits = 0, QSS_Quantum = 4)); end m;",
        148364741,
    ),
    (
        "model m Real x(start = 64); equation der(x) = x; annotation(experiment(StopTime = 1, QSS_CoefBits = 8, QSS_TickBits = 4, QSS_LevelBits = 0, QSS_Quantum = 4)); end m;",
        3,
    ),
    (
        "model m Real x(start = 64); equation der(x) = 16 + x; annotation(experiment(StopTime = 1, QSS_CoefBits = 8, QSS_TickBits = 4, QSS_LevelBits = 0, QSS_Quantum = 4)); end m;",
        2,
    ),
    (
        "model m Real x(start = 64); Real y(start = 64); equation der(x) = -1*x; der(y) = -16*y; annotation(experiment(StopTime = 1, QSS_CoefBits = 8, QSS_TickBits = 4, QSS_LevelBits = 0, QSS_Quantum = 4)); end m;",
        5,
    ),
    (
        "model m Real x; Real y(start = 1); Real z; equation der(x) = 1/4 - x; der(y) = x - y; der(z) = y - z; annotation(experiment(StopTime = 1, QSS_CoefBits = 8, QSS_TickBits = 6, QSS_LevelBits = 2, QSS_Quantum = 1/2)); end m;",
        1561194320,
    ),
    // Only the last step is out of range.
    (
        "model m Real x(start = 57262935); equation der(x) = -1/4*x; annotation(experiment(StopTime = 1, QSS_CoefBits = 24, QSS_TickBits = 0, QSS_LevelBits = 4, QSS_Quantum = 1)); end m;",
        6,
    ),
    (
        "model m Real x(start = 10540281099); equation der(x) = -64*x; annotation(experiment(StopTime = 1, QSS_CoefBits = 8, QSS_TickBits = 8, QSS_LevelBits = 4, QSS_Quantum = 16)); end m;",
        6,
    ),
    // The invariant set still grows: the ninth inequality fails.
    (
        "model m Real x(start = 578432208331); equation der(x) = -1*x; annotation(experiment(StopTime = 1, QSS_CoefBits = 2, QSS_TickBits = 0, QSS_LevelBits = 0, QSS_Quantum = 16)); end m;",
        777709445,
    ),
    (
        "model m Real x(start = 3527223113); equation der(x) = -1*x + 5185729; annotation(experiment(StopTime = 1, QSS_CoefBits = 0, QSS_TickBits = 0, QSS_LevelBits = 4, QSS_Quantum = 16)); end m;",
        1889482632,
    ),
    // A sum of the fifth inequality is out of range.
    (
        "model m Real x(start = 1060702); equation der(x) = -1/16*x; annotation(experiment(StopTime = 1, QSS_CoefBits = 24, QSS_TickBits = 12, QSS_LevelBits = 0, QSS_Quantum = 2^8*2^8*256)); end m;",
        1675715928,
    ),
    (
        "model m Real x(start = 333990); equation der(x) = -1/2*x; annotation(experiment(StopTime = 1, QSS_CoefBits = 16, QSS_TickBits = 20, QSS_LevelBits = 2, QSS_Quantum = 2^8*2^8*256)); end m;",
        5704988,
    ),
];

#[test]
fn worked_models(rt: HostRuntime) -> Result<(), Fail> {
    let alloc = rt.alloc();
    for worked in WORKED.as_slice() {
        assert_eq!(rt;
            answer(alloc, worked.0.as_bytes())?,
            Some(worked.1),
            "{}",
            worked.0
        );
    }
    Ok(())
}

#[test]
fn models_of_seeds(rt: HostRuntime) -> Result<(), Fail> {
    let alloc = rt.alloc();
    for line in ANSWERS.lines() {
        let (seed, wanted) = seed_and_answer(line).ok_or("line")?;
        let source = source_of(alloc, seed).ok_or("source")?;
        assert_eq!(rt;
            answer(alloc, source.as_slice())?,
            Some(wanted),
            "seed {seed}"
        );
    }
    Ok(())
}

// The digest of the candidate for a model, or the number of the step that fails. `None` if the
// model does not compile or is outside the scope of certificates.
fn answer(alloc: Global, source: &[u8]) -> Result<Option<u64>, AllocError> {
    let Some(m) = machine_of(alloc, source) else {
        return Ok(None);
    };
    if scope(&m).is_err() {
        return Ok(None);
    }
    Ok(Some(match propose(alloc, &m)? {
        Proposal::Candidate { cert, verdict } => digest_of(&cert, &verdict),
        Proposal::NoCandidate { step } => u64::from(step),
    }))
}

// The machine of a model, or `None` if the model does not compile.
fn machine_of(alloc: Global, source: &[u8]) -> Option<Machine> {
    if source.len() > 1048576 {
        return None;
    }
    compile(alloc, source).ok()
}

// The digest of a candidate's verdict and numbers.
fn digest_of(cert: &Certificate, verdict: &Verdict) -> u64 {
    let digest = with_form(with_list(with_verdict(7, verdict), &cert.c), cert);
    let digest = with_list(with_list(digest, &cert.p), &cert.mu);
    let digest = with(with(digest, cert.lambda), cert.r);
    let digest = with_list(with_list(digest, &cert.z), &cert.s);
    let digest = with(with_list(digest, &cert.sigma_r), cert.cc);
    with_list(with_list(digest, &cert.sigma_c), &cert.e)
}

// Appends the numbers of the quadratic form to a digest.
fn with_form(digest: u64, cert: &Certificate) -> u64 {
    let mut digest = digest;
    for i in 0..cert.pm.size() {
        for j in 0..cert.pm.size() {
            digest = with(digest, cert.pm.get(i, j));
        }
    }
    digest
}

// Appends a number to a digest.
fn with(digest: u64, number: i128) -> u64 {
    let rest = u64::try_from(number.rem_euclid(2_147_483_647)).unwrap_or(0);
    let sum = digest.wrapping_mul(1_000_003).wrapping_add(rest);
    sum.checked_rem(PRIME).unwrap_or(0)
}

// Appends a list of numbers to a digest.
fn with_list(digest: u64, numbers: &Items<i128>) -> u64 {
    let mut digest = digest;
    for number in numbers.as_slice() {
        digest = with(digest, *number);
    }
    digest
}

// Appends the inequality and the place of a verdict to a digest.
fn with_verdict(digest: u64, verdict: &Verdict) -> u64 {
    let (number, place) = match verdict {
        Verdict::Accepted => (0, 0),
        Verdict::Rejected { number, place, .. } => (*number, *place),
        Verdict::Range { number, place } => (number.saturating_add(100), *place),
    };
    with(with(digest, i128::from(number)), i128::from(place))
}

// The seed and the expected result of a line.
fn seed_and_answer(line: &str) -> Option<(u64, u64)> {
    let (seed, answer) = line.split_once(' ')?;
    Some((seed.parse().ok()?, answer.parse().ok()?))
}
