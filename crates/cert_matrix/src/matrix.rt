//! Square matrices of 1 to 16 rows, stored without allocation, and their quadratic forms.

ghost use Rattle.std.specs.Prelude.{◌≡◌, ◌+◌, ◌*◌, ◌^◌, ◌<◌, ◌≤◌, ◌↔◌, ℕ, ℤ, List, length, IsSome, IfSome};
ghost use Rattle.cert_matrix.specs.Form.{form, times};
ghost use Rattle.cert_matrix.specs.Matrix.{rows_of, vector, table, zeros, with_entry, IsSquare, IsInRange, IsFormInRange};

use crate::ranged_sum::RangedSum;
use std::marker::Model;

/// A square matrix of 1 to 16 rows, stored without allocation.
#[derive(Drop)]
pub struct Matrix {
    n: u8,
    cells: [i128; 256],
}

impl Model for Matrix {
    ghost Value = { List (List ℤ) };

    ghost view = { λ m. rows_of m.n m.cells };

    ghost invariant = { λ m. (1 ≤ m.n) × (m.n ≤ 16) };
}

impl Matrix {
    /// The zero matrix of `n` rows.
    pub fn new(n: u8) -> Self
        requires some { 1 ≤ n }
        requires count_limit { n ≤ 16 }
        ensures { result ≡ zeros n }
    {
        Matrix { n, cells: [0; 256] }
    }

    // A copy.
    pub(crate) fn copy(&self) -> Matrix
        ensures { result ≡ self.now }
    {
        Matrix {
            n: self.n,
            cells: self.cells,
        }
    }

    /// The number of rows, which equals the number of columns.
    pub fn size(&self) -> u8
        ensures size { result ≡ length self.now }
        ensures square { IsSquare self.now }
        ensures some { 1 ≤ result }
        ensures count_limit { result ≤ 16 }
    {
        self.n
    }

    /// Entry (`i`, `j`).
    pub fn get(&self, i: u8, j: u8) -> i128
        requires row { i < length self.now }
        requires column { j < length self.now }
        ensures { result ≡ table self.now i j }
    {
        self.cells[16 * i as usize + j as usize]
    }

    /// Sets entry (`i`, `j`).
    pub fn set(&mut self, i: u8, j: u8, value: i128)
        requires row { i < length self.old }
        requires column { j < length self.old }
        ensures { self.new ≡ with_entry self.old i j value }
    {
        self.cells[16 * i as usize + j as usize] = value;
    }
}

/// The quadratic form of `m` at `y`, or `None` if a sum that computes it is out of range.
pub fn quad(m: &Matrix, y: &[i128]) -> Option<i128>
    requires { length y.now ≡ length m.now }
    ensures in_range { IsSome result ↔ IsFormInRange (length m.now) (table m.now) (vector y.now) }
    ensures value { IfSome result
        (λ value. value ≡ form (length m.now) (table m.now) (vector y.now)) }
{
    let mut sum = RangedSum::new();
    for i in 0..m.size() {
        sum = sum.plus(y[i as usize], multiply_matrix_row(m, i, y)?)?;
    }
    Some(sum.total)
}

/// Row `i` of `m` times the vector `y`, or `None` if the sum is out of range.
fn multiply_matrix_row(m: &Matrix, i: u8, y: &[i128]) -> Option<i128>
    requires row { i < length m.now }
    requires length { length y.now ≡ length m.now }
    ensures in_range { IsSome result ↔ IsInRange (length m.now) (table m.now i) (vector y.now) }
    ensures value { IfSome result
        (λ sum. sum ≡ times (length m.now) (table m.now) (vector y.now) i) }
{
    let mut sum = RangedSum::new();
    for j in 0..m.size() {
        sum = sum.plus(m.get(i, j), y[j as usize])?;
    }
    Some(sum.total)
}
