//! Proposes a certificate of a machine: computes a candidate in six steps, assembles the
//! certificate and checks it. The result is the candidate with its verdict, or the first step with
//! a sum out of range.

ghost use Rattle.std.specs.Prelude.{◌≡◌, Ok, IfOk, IfErr, length};
ghost use Rattle.cert_propose.specs.Prelude.{state_count, start_states, quanta, system_of, IsSize, IsVector, IsInScope, vector, zeros, system};
ghost use Rattle.cert_propose.specs.Candidate.{candidate_of};
ghost use Rattle.cert_propose.specs.ProposalLimits.{AreFit, IsFormed, AreSmall};
ghost use Rattle.cert_propose.specs.Proposals.{IsCandidate, IsProposal, IsKept, HasCandidate};
ghost use Rattle.cert_propose.specs.Candidate as Step;

use crate::candidate_basin::{Basin, search_basin};
use crate::candidate_bounds::{Bounds, search_bounds};
use crate::candidate_centre::search_centre;
use crate::candidate_ellipsoid::{Ellipsoid, search_ellipsoid};
use crate::candidate_exponent::search_exponent;
use crate::candidate_form::search_form;
use crate::candidate_matrices::candidate_column_list;
use cert_check::{AffineSystem, Certificate, Column, Verdict, affine_system, check};
use cert_matrix::{HeapMatrix, Matrix};
use qss_machine::Machine;
use std::alloc::{AllocError, Global};

/// A candidate certificate with its verdict, or the first step with a sum out of range.
#[derive(Drop)]
pub enum Proposal {
    /// All numbers of the candidate are in range.
    Candidate { cert: Certificate, verdict: Verdict },
    /// A sum is out of range, first in step 2 (centre), 3 (P), 4 (lower bounds),
    /// 5 (invariant set) or 6 (ellipsoid).
    NoCandidate { step: u8 },
}

/// The computed numbers of a candidate.
#[derive(Drop)]
pub(crate) struct Numbers {
    pub c: Column,
    pub pm: Matrix,
    pub bounds: Bounds,
    pub basin: Basin,
    pub ellipsoid: Ellipsoid,
}

/// Computes a candidate certificate of a machine and its verdict. Error: out of memory.
#[inline(never)]
pub fn propose(alloc: Global, m: &Machine) -> Result<Proposal, AllocError>
    requires { IsInScope m.now }
    ensures proposed { IfOk result (λ p. IsProposal m.now p) }

    // If the candidate is accepted, any two legitimate runs from the machine's start stay within
    // its bounds.
    ensures bounds_guaranteed { IfOk result (λ p. IsKept m.now p) }

    // Only the candidate's lists are allocated.
    ensures memory_was_needed { IfErr result (λ why. HasCandidate m.now) }
{
    let affine = affine_system(m);
    propose_by(alloc, m, &affine)
}

// Computes a candidate by the affine system of the machine. It is not inlined, so that the system
// and the numbers of the candidate are not in one stack frame.
#[inline(never)]
fn propose_by(alloc: Global, m: &Machine, affine: &AffineSystem) -> Result<Proposal, AllocError>
    requires scope { IsInScope m.now }
    requires size { affine.now.n ≡ state_count m.now }
    requires coef { length affine.now.coef ≡ state_count m.now }
    requires system { system affine.now ≡ system_of m.now }
    ensures proposed { IfOk result (λ p. IsProposal m.now p) }
    ensures bounds_guaranteed { IfOk result (λ p. IsKept m.now p) }
    ensures memory_was_needed { IfErr result (λ why. HasCandidate m.now) }
{
    let start = proposal_start(m);
    match find_candidate_numbers(affine, &start) {
        Ok(x) => {
            let quantum = proposal_quanta(m);
            let cert = proposal_certificate(alloc, affine.n, &start, &quantum, &x)?;
            let verdict = check(m, &cert);
            Ok(Proposal::Candidate { cert, verdict })
        }
        Err(step) => Ok(Proposal::NoCandidate { step }),
    }
}

// The start states of a machine, in units of states.
fn proposal_start(m: &Machine) -> Column
    requires { IsInScope m.now }
    ensures { result ≡ start_states m.now }
{
    let mut start = Column::new();
    for state in m.states.as_slice() {
        start.push(state.x0);
    }
    start
}

/// The candidate, or the number of the first step with a sum out of range.
#[inline(never)]
pub(crate) fn find_candidate_numbers(m: &AffineSystem, start: &Column) -> Result<Numbers, u8>
    requires formed { IsFormed m.now }
    requires size_limit { AreSmall (system m.now) }
    ensures { result ≡ Step.candidate (system m.now) (vector start.now) }
{
    let q = search_exponent(&m.coef);
    let Some(c) = search_centre(m, q) else {
        return Err(2);
    };
    let Some(pm) = search_form(m, q) else {
        return Err(3);
    };
    let Some(bounds) = search_bounds(m, &pm) else {
        return Err(4);
    };
    let Some(basin) = search_basin(m, start, &c, &pm, &bounds) else {
        return Err(5);
    };
    let Some(ellipsoid) = search_ellipsoid(m.n, &bounds, &basin.reach.w) else {
        return Err(6);
    };
    Ok(Numbers {
        c,
        pm,
        bounds,
        basin,
        ellipsoid,
    })
}

// The quanta of a machine, in levels.
fn proposal_quanta(m: &Machine) -> Column
    requires { IsInScope m.now }
    ensures { result ≡ quanta m.now }
{
    let mut quantum = Column::new();
    for state in m.states.as_slice() {
        quantum.push(i128::from(state.quantum));
    }
    quantum
}

// The certificate of a candidate for `n` states, with this start for both starts and these quanta.
#[inline(never)]
fn proposal_certificate(
    alloc: Global,
    n: u8,
    start: &Column,
    quantum: &Column,
    x: &Numbers,
) -> Result<Certificate, AllocError>
    requires size { IsSize n }
    requires fit { AreFit n x.now }
    requires start { IsVector n start.now }
    requires quanta { IsVector n quantum.now }
    ensures { IfOk result (λ c. IsCandidate n start.now quantum.now x.now c) }
{
    let pm = HeapMatrix::new(alloc, &x.pm)?;
    let g1 = proposal_zeros(alloc, n)?;
    let g2 = proposal_zeros(alloc, n)?;
    let p = candidate_column_list(alloc, n, &x.bounds.p)?;
    let mu = candidate_column_list(alloc, n, &x.bounds.mu)?;
    let c = candidate_column_list(alloc, n, &x.c)?;
    let z = candidate_column_list(alloc, n, &x.basin.reach.z)?;
    let s = candidate_column_list(alloc, n, &x.basin.reach.s)?;
    let sigma_r = candidate_column_list(alloc, n, &x.basin.reach.sigma)?;
    let sigma_c = candidate_column_list(alloc, n, &x.ellipsoid.sigma)?;
    let e = candidate_column_list(alloc, n, &x.ellipsoid.e)?;
    let start1 = candidate_column_list(alloc, n, start)?;
    let start2 = candidate_column_list(alloc, n, start)?;
    let q = candidate_column_list(alloc, n, quantum)?;
    Ok(Certificate {
        n,
        pm,
        p,
        mu,
        lambda: x.bounds.lambda,
        h1: 1,
        g1,
        h2: 1,
        g2,
        c,
        r: x.basin.r,
        z,
        s,
        sigma_r,
        cc: x.ellipsoid.cc,
        sigma_c,
        e,
        start1,
        start2,
        q,
    })
}

// The zero matrix of `n` rows, on the heap.
#[inline(never)]
fn proposal_zeros(alloc: Global, n: u8) -> Result<HeapMatrix, AllocError>
    requires { IsSize n }
    ensures { IfOk result (λ matrix. matrix ≡ zeros n) }
{
    HeapMatrix::new(alloc, &Matrix::new(n))
}
