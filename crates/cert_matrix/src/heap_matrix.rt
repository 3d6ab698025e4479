//! A square matrix that is stored on the heap. Contracts see the same table of numbers as for a
//! matrix without allocation.

use crate::matrix::Matrix;
use std::alloc::{AllocError, Global};
use std::marker::Model;

/// A matrix that is stored on the heap. Its view in contracts is that of the matrix.
#[derive(Drop)]
pub struct HeapMatrix {
    matrix: Box<Matrix>,
}

impl Model for HeapMatrix {
    ghost use Rattle.std.specs.Prelude.{List, ℤ};

    ghost Value = { List (List ℤ) };

    ghost view = { λ m. m.matrix.value };
}

impl HeapMatrix {
    ghost use Rattle.std.specs.Prelude.{◌≡◌, ◌<◌, ◌≤◌, length, IfOk};
    ghost use Rattle.cert_matrix.specs.Matrix.{table, IsSquare};

    /// A copy of a matrix. Error: out of memory.
    #[inline(never)]
    pub fn new(alloc: Global, matrix: &Matrix) -> Result<HeapMatrix, AllocError>
        ensures { IfOk result (λ copy. copy ≡ matrix.now) }
    {
        let matrix = Box::new(alloc, matrix.copy())?;
        Ok(HeapMatrix { matrix })
    }

    /// The matrix.
    pub fn as_matrix(&self) -> &Matrix
        ensures { result.now ≡ self.now }
    {
        &*self.matrix
    }

    /// The number of rows, which equals the number of columns.
    pub fn size(&self) -> u8
        ensures size { result ≡ length self.now }
        ensures square { IsSquare self.now }
        ensures some { 1 ≤ result }
        ensures count_limit { result ≤ 16 }
    {
        self.as_matrix().size()
    }

    /// Entry (`i`, `j`).
    pub fn get(&self, i: u8, j: u8) -> i128
        requires row { i < length self.now }
        requires column { j < length self.now }
        ensures { result ≡ table self.now i j }
    {
        self.as_matrix().get(i, j)
    }
}
