//! Builds a certificate from the rows of numbers of its text. Each part of the certificate takes
//! its own rows. An older form of the text leaves out the rows of starts and quanta, which are then
//! those of the machine.

ghost use Rattle.std.specs.Prelude.{◌≡◌, ◌+◌, ◌*◌, ◌<◌, ◌≤◌, [], ◌++◌, ◌∷◌, IfOk, length, take, drop, All, slice_index_or, ℕ, OnOk};
ghost use Rattle.cert_check.specs.Prelude.{vector, table, IsSquare, start_states, quanta};
ghost use Rattle.cert_check.specs.CertificateLimits.{IsSize, IsVector};
ghost use Rattle.cert_check.specs.CertificateLines.{lines};
ghost use Rattle.cert_check.specs.CertificateParts.{IsRow, IsSingle, IsBlock, IsBound, AreRoots, IsBasin, IsEllipsoid};
ghost use Rattle.cert_check.specs.Layout.{layout};
ghost use Rattle.cert_check.specs.MatrixRows.{AreAllRows, due_at, lines_from, left_out};

use crate::certificate::Certificate;
use cert_matrix::{HeapMatrix, Matrix};
use mu_io::Items;
use qss_machine::Machine;
use std::alloc::{AllocError, Global};

/// The Lyapunov function and its lower bounds: the rows from P to h1.
#[derive(Drop)]
pub struct Bound {
    pub pm: HeapMatrix,
    pub p: Items<i128>,
    pub mu: Items<i128>,
    pub lambda: i128,
    pub h1: i128,
}

/// The data of the two Gram tests: the rows from G1 to G2.
#[derive(Drop)]
pub struct Roots {
    pub g1: HeapMatrix,
    pub h2: i128,
    pub g2: HeapMatrix,
}

/// The invariant set of one run: the rows from c to sigmaR.
#[derive(Drop)]
pub struct Basin {
    pub c: Items<i128>,
    pub r: i128,
    pub z: Items<i128>,
    pub s: Items<i128>,
    pub sigma_r: Items<i128>,
}

/// The ellipsoid of the difference of two runs, starts and quanta: the rows from C to Q.
#[derive(Drop)]
pub struct Ellipsoid {
    pub cc: i128,
    pub sigma_c: Items<i128>,
    pub e: Items<i128>,
    pub start1: Items<i128>,
    pub start2: Items<i128>,
    pub q: Items<i128>,
}

/// Builds the certificate from all rows. The first row is the number of the form.
/// Error: out of memory.
#[inline(never)]
pub fn assemble_certificate(
    alloc: Global,
    n: u8,
    rows: &[Items<i128>],
) -> Result<Certificate, AllocError>
    requires size { IsSize n }
    requires rows { AreAllRows n rows.now }
    ensures size { IfOk result (λ c. c.n ≡ n) }
    ensures lines { IfOk result
        (λ c. lines (vector (slice_index_or rows.now 0 []) 0) c
        ≡ lines_from (layout n) 0 rows.now) }
    ensures start1 { IfOk result (λ c. c.start1 ≡ slice_index_or rows.now (3 * n + 6 + 8) []) }
    ensures start2 { IfOk result (λ c. c.start2 ≡ slice_index_or rows.now (3 * n + 6 + 9) []) }
    ensures quanta { IfOk result (λ c. c.q ≡ slice_index_or rows.now (3 * n + 6 + 10) []) }
{
    let bound = assemble_bound(alloc, n, rows)?;
    let basin = assemble_basin(alloc, n, rows)?;
    let ellipsoid = assemble_ellipsoid(alloc, n, rows)?;
    let roots = assemble_roots(alloc, n, rows)?;
    Ok(Certificate {
        n,
        pm: bound.pm,
        p: bound.p,
        mu: bound.mu,
        lambda: bound.lambda,
        h1: bound.h1,
        g1: roots.g1,
        h2: roots.h2,
        g2: roots.g2,
        c: basin.c,
        r: basin.r,
        z: basin.z,
        s: basin.s,
        sigma_r: basin.sigma_r,
        cc: ellipsoid.cc,
        sigma_c: ellipsoid.sigma_c,
        e: ellipsoid.e,
        start1: ellipsoid.start1,
        start2: ellipsoid.start2,
        q: ellipsoid.q,
    })
}

/// Appends the rows that a text in this form leaves out: starts and quanta of the machine.
pub fn complete_certificate_rows(
    alloc: Global,
    m: &Machine,
    form: u8,
    rows: &mut Vec<Items<i128>>,
) -> Result<(), AllocError>
    ensures { OnOk result (rows.new.items ≡ rows.old.items ++ left_out m.now form) }
{
    if form == 1 {
        rows.push(assemble_start_row(alloc, m)?)?;
        rows.push(assemble_start_row(alloc, m)?)?;
    }
    if form < 3 {
        rows.push(assemble_quantum_row(alloc, m)?)?;
    }
    Ok(())
}

/// Reads the rows from P to h1. Error: out of memory.
pub fn assemble_bound(alloc: Global, n: u8, rows: &[Items<i128>]) -> Result<Bound, AllocError>
    requires size { IsSize n }
    requires rows { AreAllRows n rows.now }
    ensures { IfOk result (λ part. IsBound n rows.now part) }
{
    let first = n as usize + 1;
    Ok(Bound {
        pm: certificate_matrix_at(alloc, n, rows, 1)?,
        p: certificate_vector_at(alloc, n, rows, first)?,
        mu: certificate_vector_at(alloc, n, rows, first + 1)?,
        lambda: certificate_number_at(n, rows, first + 2),
        h1: certificate_number_at(n, rows, first + 3),
    })
}

/// The matrix with the `n` rows from row `k` on.
#[inline(never)]
fn certificate_matrix_at(
    alloc: Global,
    n: u8,
    rows: &[Items<i128>],
    k: usize,
) -> Result<HeapMatrix, AllocError>
    requires size { IsSize n }
    requires place { k + n ≤ length rows.now }
    requires due { All (IsVector n) (take n (drop k rows.now)) }
    ensures { IfOk result (λ matrix. IsBlock n rows.now k matrix) }
{
    let matrix = assemble_matrix(n, &rows[k..k + n as usize]);
    HeapMatrix::new(alloc, &matrix)
}

/// The matrix with these rows.
pub fn assemble_matrix(n: u8, rows: &[Items<i128>]) -> Matrix
    requires size { IsSize n }
    requires rows { length rows.now ≡ n }
    requires columns { All (λ row. length row ≡ n) rows.now }
    ensures { result ≡ rows.now }
{
    let mut matrix = Matrix::new(n);
    for i in 0..n {
        write_row(&mut matrix, i, &rows[i as usize]);
    }
    matrix
}

/// Writes a row of numbers into row `i` of a matrix.
fn write_row(matrix: &mut Matrix, i: u8, row: &Items<i128>)
    requires size { length row.now ≡ length matrix.old }
    requires row { i < length matrix.old }
    ensures size { length matrix.new ≡ length matrix.old }
    ensures square { IsSquare matrix.new }
    ensures row { (k : ℕ) → k < length matrix.old → table matrix.new i k ≡ vector row.now k }
    ensures others { (h k : ℕ) → h < i
        → k < length matrix.old
        → table matrix.new h k ≡ table matrix.old h k }
{
    let numbers = row.as_slice();
    for j in 0..matrix.size() {
        matrix.set(i, j, numbers[j as usize]);
    }
}

/// A copy of row `k`, which has one number for each state.
fn certificate_vector_at(
    alloc: Global,
    n: u8,
    rows: &[Items<i128>],
    k: usize,
) -> Result<Items<i128>, AllocError>
    requires rows { AreAllRows n rows.now }
    requires place { k < 3 * n + 17 }
    requires due { (due_at n k).count ≡ n }
    ensures { IfOk result (λ row. IsRow n rows.now k row) }
{
    let row = copy_certificate_row(alloc, &rows[k])?;
    Ok(row)
}

/// A copy of a row.
pub fn copy_certificate_row(alloc: Global, row: &Items<i128>) -> Result<Items<i128>, AllocError>
    ensures { IfOk result (λ copy. copy ≡ row.now) }
{
    let copy = row.as_slice().to_vec(alloc)?;
    Ok(Items::new(copy))
}

/// The number of row `k`, which has exactly one.
fn certificate_number_at(n: u8, rows: &[Items<i128>], k: usize) -> i128
    requires rows { AreAllRows n rows.now }
    requires place { k < 3 * n + 17 }
    requires due { (due_at n k).count ≡ 1 }
    ensures { IsSingle rows.now k result }
{
    certificate_row_number(&rows[k])
}

/// The number of a row that has exactly one.
pub fn certificate_row_number(row: &Items<i128>) -> i128
    requires { length row.now ≡ 1 }
    ensures { row.now ≡ result ∷ [] }
{
    row.as_slice()[0]
}

/// Reads the rows from c to sigmaR. Error: out of memory.
pub fn assemble_basin(alloc: Global, n: u8, rows: &[Items<i128>]) -> Result<Basin, AllocError>
    requires size { IsSize n }
    requires rows { AreAllRows n rows.now }
    ensures { IfOk result (λ part. IsBasin n rows.now part) }
{
    let third = 3 * n as usize + 6;
    Ok(Basin {
        c: certificate_vector_at(alloc, n, rows, third)?,
        r: certificate_number_at(n, rows, third + 1),
        z: certificate_vector_at(alloc, n, rows, third + 2)?,
        s: certificate_vector_at(alloc, n, rows, third + 3)?,
        sigma_r: certificate_vector_at(alloc, n, rows, third + 4)?,
    })
}

/// Reads the rows from C to Q. Error: out of memory.
pub fn assemble_ellipsoid(
    alloc: Global,
    n: u8,
    rows: &[Items<i128>],
) -> Result<Ellipsoid, AllocError>
    requires size { IsSize n }
    requires rows { AreAllRows n rows.now }
    ensures { IfOk result (λ part. IsEllipsoid n rows.now part) }
{
    let third = 3 * n as usize + 6;
    Ok(Ellipsoid {
        cc: certificate_number_at(n, rows, third + 5),
        sigma_c: certificate_vector_at(alloc, n, rows, third + 6)?,
        e: certificate_vector_at(alloc, n, rows, third + 7)?,
        start1: certificate_vector_at(alloc, n, rows, third + 8)?,
        start2: certificate_vector_at(alloc, n, rows, third + 9)?,
        q: certificate_vector_at(alloc, n, rows, third + 10)?,
    })
}

/// Reads the rows from G1 to G2. Error: out of memory.
pub fn assemble_roots(alloc: Global, n: u8, rows: &[Items<i128>]) -> Result<Roots, AllocError>
    requires size { IsSize n }
    requires rows { AreAllRows n rows.now }
    ensures { IfOk result (λ part. AreRoots n rows.now part) }
{
    let first = n as usize + 1;
    let second = 2 * n as usize + 5;
    Ok(Roots {
        g1: certificate_matrix_at(alloc, n, rows, first + 4)?,
        h2: certificate_number_at(n, rows, second),
        g2: certificate_matrix_at(alloc, n, rows, second + 1)?,
    })
}

/// The start states of a machine as a row, in units of 2^-(f+p+k).
fn assemble_start_row(alloc: Global, m: &Machine) -> Result<Items<i128>, AllocError>
    ensures { IfOk result (λ row. row ≡ start_states m.now) }
{
    let mut row = Vec::new(alloc);
    for state in m.states.as_slice() {
        row.push(state.x0)?;
    }
    Ok(Items::new(row))
}

/// The quanta of a machine as a row, in levels.
fn assemble_quantum_row(alloc: Global, m: &Machine) -> Result<Items<i128>, AllocError>
    ensures { IfOk result (λ row. row ≡ quanta m.now) }
{
    let mut row = Vec::new(alloc);
    for state in m.states.as_slice() {
        row.push(i128::from(state.quantum))?;
    }
    Ok(Items::new(row))
}
