//! A list of at most 16 whole numbers in a fixed array, which needs no allocation. A list can be
//! read at any index: after its end the number is 0.

ghost use Rattle.std.specs.Prelude.{◌≡◌};
ghost use Rattle.cert_check.specs.Prelude.{vector};

use mu_io::Items;
use std::marker::Model;

/// A list of at most 16 whole numbers in a fixed array.
#[derive(Drop)]
pub struct Column {
    len: u8,
    cells: [i128; 16],
}

impl Model for Column {
    ghost use Rattle.std.specs.Prelude.{List, ℤ, take, ◌≤◌};

    ghost Value = { List ℤ };

    ghost view = { λ column. take column.len column.cells };

    ghost invariant = { λ column. column.len ≤ 16 };
}

impl Column {
    ghost use Rattle.std.specs.Prelude.{◌≡◌, ◌<◌, [], ◌∷◌, ◌++◌, length};
    ghost use Rattle.cert_check.specs.Prelude.{vector};

    /// The empty list.
    pub fn new() -> Self
        ensures { result ≡ [] }
    {
        Column {
            len: 0,
            cells: [0; 16],
        }
    }

    /// Appends a number.
    pub fn push(&mut self, number: i128)
        requires { length self.old < 16 }
        ensures { self.new ≡ self.old ++ number ∷ [] }
    {
        self.cells[self.len as usize] = number;
        self.len += 1;
    }

    /// The number at index `i`, or 0 after the end.
    pub fn at(&self, i: u8) -> i128
        ensures { result ≡ vector self.now i }
    {
        if i < self.len {
            self.cells[i as usize]
        } else {
            0
        }
    }
}

/// The number at index `i`, or 0 after the end.
pub fn at(numbers: &Items<i128>, i: u8) -> i128
    ensures { result ≡ vector numbers.now i }
{
    let items = numbers.as_slice();
    items.get(i as usize).copied().unwrap_or(0)
}
