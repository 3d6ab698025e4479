//! Arithmetic on the numbers, columns and matrices of a candidate. A result is `None` if one of its
//! sums is out of range.

ghost use Rattle.std.specs.Prelude.{◌≡◌, ◌<◌, ◌≤◌, ◌+◌, ◌+ℤ◌, ◌*ℤ◌, ℕ, ℤ, pos, neg_ℤ, length, Option, IfOk, true, false, Some, None};
ghost use Rattle.cert_propose.specs.Prelude.{table, vector, weight, IsSquare, abs_of, sum_below, tabulate, Vector, Table, total_of, weight_of, IsVector};
ghost use Rattle.cert_propose.specs.RangedSums.{where_in_range, ranged, ranged_sum, ranged_product, ranged_less, vector_by, table_by};
ghost use Rattle.cert_propose.specs.RangedSums as Spec;
ghost use Rattle.cert_propose.specs.Candidate as Step;

use cert_check::Column;
use cert_matrix::{Matrix, RangedSum};
use mu_io::Items;
use std::alloc::{AllocError, Global};

/// `base` plus the matrix times a column.
pub(crate) fn multiply_candidate_rows(base: &Column, m: &Matrix, y: &Column) -> Option<Column>
    ensures { result
        ≡ Spec.rows_times (length m.now) (vector base.now) (table m.now) (vector y.now) }
{
    candidate_column_by(m.size(), |i| multiply_candidate_row(base.at(i), m, i, y))
}

/// The absolute values of `base` plus the absolute values of the matrix times a column.
pub(crate) fn multiply_candidate_sizes(base: &Column, m: &Matrix, y: &Column) -> Option<Column>
    ensures { result
        ≡ Spec.sizes_times (length m.now) (vector base.now) (table m.now) (vector y.now) }
{
    candidate_column_by(
        m.size(),
        |i| multiply_candidate_row_sizes(base.at(i), m, i, y),
    )
}

/// The absolute row sums.
pub(crate) fn candidate_row_sizes(m: &Matrix) -> Option<Column>
    ensures { result ≡ Step.row_sizes (length m.now) m.now }
{
    candidate_column_by(m.size(), |i| candidate_row_size(m, i))
}

/// Each diagonal entry less the off-diagonal absolute row sum.
pub(crate) fn candidate_diagonal_surpluses(m: &Matrix) -> Option<Column>
    ensures { result ≡ Step.over_sizes (length m.now) m.now }
{
    candidate_column_by(m.size(), |i| candidate_diagonal_surplus(m, i))
}

/// The scalar product of the first `n` numbers of two columns.
pub(crate) fn candidate_dot_product(n: u8, y: &Column, z: &Column) -> Option<i128>
    ensures { result ≡ Spec.ranged (pos 0) n (vector y.now) (vector z.now) }
{
    sum_candidate_products(0, n, |k| y.at(k), |k| z.at(k))
}

/// The sum of the first `n` numbers of a column.
pub(crate) fn sum_candidate_column(n: u8, z: &Column) -> Option<i128>
    ensures { result ≡ Step.sum_of n z.now }
{
    sum_candidate_products(0, n, |k| z.at(k), |_k| 1)
}

/// The sum of two columns of `n` numbers.
pub(crate) fn add_candidate_columns(n: u8, x: &Column, y: &Column) -> Option<Column>
    requires { n ≤ 16 }
    ensures { result ≡ Spec.sums n (vector x.now) (vector y.now) }
{
    candidate_column_by(n, |i| add_candidate_terms(x.at(i), y.at(i)))
}

/// The squares of the first `n` numbers of a column.
pub(crate) fn squares(n: u8, x: &Column) -> Option<Column>
    requires { n ≤ 16 }
    ensures { result ≡ Spec.products n (vector x.now) (vector x.now) }
{
    candidate_column_by(n, |i| multiply_candidate_terms(x.at(i), x.at(i)))
}

/// Twice the first `n` numbers of a column.
pub(crate) fn double_candidate_column(n: u8, x: &Column) -> Option<Column>
    requires { n ≤ 16 }
    ensures { result ≡ Step.doubled n x.now }
{
    candidate_column_by(n, |i| multiply_candidate_terms(2, x.at(i)))
}

/// A column of `n` numbers less `k` times another column.
pub(crate) fn subtract_candidate_columns(n: u8, x: &Column, k: i128, y: &Column) -> Option<Column>
    requires { n ≤ 16 }
    ensures { result ≡ Spec.differences n (vector x.now) k (vector y.now) }
{
    candidate_column_by(n, |i| subtract_candidate_multiple(x.at(i), k, y.at(i)))
}

/// The product of two matrices.
pub(crate) fn candidate_matrix_product(x: &Matrix, y: &Matrix) -> Option<Matrix>
    requires { length y.now ≡ length x.now }
    ensures { result ≡ Spec.product_of (length x.now) (table x.now) (table y.now) }
{
    candidate_matrix_by(x.size(), |i, j| candidate_product_entry(x, y, i, j))
}

/// The sum of the negatives of two numbers.
pub(crate) fn add_candidate_negatives(x: i128, y: i128) -> Option<i128>
    ensures { result ≡ ranged_sum (neg_ℤ x) (neg_ℤ y) }
{
    let sum = RangedSum::new().minus(x, 1)?.minus(y, 1)?;
    Some(sum.total())
}

/// The first `n` values of a function.
pub(crate) fn candidate_column_of<F: Fn(u8) -> i128>(n: u8, number: F) -> Column
    requires count_limit { n ≤ 16 }
    requires numbers { (k : ℕ) → k < n → F.pre number k }
    ensures { (f : Vector) → ((k : ℕ) (x : ℤ) → k < n → F.post number k x → x ≡ f k)
        → result ≡ tabulate n f }
{
    let mut column = Column::new();
    for k in 0..n {
        column.push(number(k));
    }
    column
}

/// The first `n` numbers of a column as a list. Error: out of memory.
pub(crate) fn candidate_column_list(
    alloc: Global,
    n: u8,
    column: &Column,
) -> Result<Items<i128>, AllocError>
    requires { IsVector n column.now }
    ensures same { IfOk result (λ list. list ≡ column.now) }
    ensures fits { IfOk result (λ list. IsVector n list) }
{
    let mut list = Vec::new(alloc);
    for k in 0..n {
        list.push(column.at(k))?;
    }
    Ok(Items::new(list))
}

/// The matrix of `n` rows with the values of a function.
pub(crate) fn candidate_matrix_of<F: Fn(u8, u8) -> i128>(n: u8, entry: F) -> Matrix
    requires some { 1 ≤ n }
    requires count_limit { n ≤ 16 }
    requires entries { (i j : ℕ) → i < n → j < n → F.pre entry i j }
    ensures { (f : Table) → ((i j : ℕ) (x : ℤ) → i < n → j < n → F.post entry i j x → x ≡ f i j)
        → result ≡ tabulate n (λ i. tabulate n (f i)) }
{
    let mut m = Matrix::new(n);
    for i in 0..n {
        fill_candidate_row(&mut m, i, &entry);
    }
    m
}

/// The first `n` values of a function, or `None` if one of them is `None`.
pub(crate) fn candidate_column_by<F: Fn(u8) -> Option<i128>>(n: u8, number: F) -> Option<Column>
    requires count_limit { n ≤ 16 }
    requires numbers { (k : ℕ) → k < n → F.pre number k }
    ensures { (f : ℕ → Option ℤ) → ((k : ℕ) (x : Option ℤ) → k < n → F.post number k x → x ≡ f k)
        → result ≡ vector_by n f }
{
    let mut column = Column::new();
    for k in 0..n {
        column.push(number(k)?);
    }
    Some(column)
}

// `base` plus row `i` of a matrix times a column.
fn multiply_candidate_row(base: i128, m: &Matrix, i: u8, y: &Column) -> Option<i128>
    requires { i < length m.now }
    ensures { result ≡ Spec.ranged base (length m.now) (table m.now i) (vector y.now) }
{
    sum_candidate_products(base, m.size(), |k| m.get(i, k), |k| y.at(k))
}

/// A number plus the sum of the products of the first `n` values of two functions.
pub(crate) fn sum_candidate_products<F: Fn(u8) -> i128, G: Fn(u8) -> i128>(
    base: i128,
    n: u8,
    left: F,
    right: G,
) -> Option<i128>
    requires left { (k : ℕ) → k < n → F.pre left k }
    requires right { (k : ℕ) → k < n → G.pre right k }
    ensures { (f g : Vector) → ((k : ℕ) (x : ℤ) → k < n → F.post left k x → x ≡ f k)
        → ((k : ℕ) (x : ℤ) → k < n → G.post right k x → x ≡ g k)
        → result ≡ ranged base n f g }
{
    let mut sum = RangedSum::new().plus(base, 1)?;
    for k in 0..n {
        sum = sum.plus(left(k), right(k))?;
    }
    Some(sum.total())
}

// The absolute value of `base` plus the absolute values of row `i` times a column.
fn multiply_candidate_row_sizes(base: i128, m: &Matrix, i: u8, y: &Column) -> Option<i128>
    requires { i < length m.now }
    ensures { result ≡ Spec.ranged_sizes (abs_of base) (length m.now) (table m.now i) (vector y.now) }
{
    let start = RangedSum::new().plus_size(base, 1)?;
    sum_candidate_sizes(start, m.size(), |k| m.get(i, k), |k| y.at(k))
}

/// A sum plus the first `n` absolute values of one function times the values of another.
pub(crate) fn sum_candidate_sizes<F: Fn(u8) -> i128, G: Fn(u8) -> i128>(
    start: RangedSum,
    n: u8,
    left: F,
    right: G,
) -> Option<i128>
    requires left { (k : ℕ) → k < n → F.pre left k }
    requires right { (k : ℕ) → k < n → G.pre right k }
    ensures { (f g : Vector) → ((k : ℕ) (x : ℤ) → k < n → F.post left k x → x ≡ f k)
        → ((k : ℕ) (x : ℤ) → k < n → G.post right k x → x ≡ g k)
        → result
        ≡ where_in_range (weight_of start + weight n f g)
        (total_of start +ℤ sum_below n (λ k. abs_of (f k) *ℤ g k)) }
{
    let mut sum = start;
    for k in 0..n {
        sum = sum.plus_size(left(k), right(k))?;
    }
    Some(sum.total())
}

/// The absolute row sum of row `i`.
pub(crate) fn candidate_row_size(m: &Matrix, i: u8) -> Option<i128>
    requires { i < length m.now }
    ensures { result ≡ Spec.ranged_sizes (pos 0) (length m.now) (table m.now i) (λ j. pos 1) }
{
    sum_candidate_sizes(RangedSum::new(), m.size(), |k| m.get(i, k), |_k| 1)
}

// The diagonal entry of row `i` less the off-diagonal absolute row sum.
fn candidate_diagonal_surplus(m: &Matrix, i: u8) -> Option<i128>
    requires { i < length m.now }
    ensures { result
        ≡ Spec.ranged_sizes (table m.now i i) (length m.now) (Step.beside_diagonal (table m.now) i)
        (λ j. neg_ℤ (pos 1)) }
{
    let start = RangedSum::new().plus(m.get(i, i), 1)?;
    sum_candidate_sizes(
        start,
        m.size(),
        |k| candidate_off_diagonal(m, i, k),
        |_k| -1,
    )
}

// Entry (`i`, `j`), or 0 on the diagonal.
fn candidate_off_diagonal(m: &Matrix, i: u8, j: u8) -> i128
    requires row { i < length m.now }
    requires column { j < length m.now }
    ensures { result ≡ Step.beside_diagonal (table m.now) i j }
{
    if i == j { 0 } else { m.get(i, j) }
}

/// The sum of two numbers.
pub(crate) fn add_candidate_terms(x: i128, y: i128) -> Option<i128>
    ensures { result ≡ ranged_sum x y }
{
    let sum = RangedSum::new().plus(x, 1)?.plus(y, 1)?;
    Some(sum.total())
}

/// The product of two numbers.
pub(crate) fn multiply_candidate_terms(x: i128, y: i128) -> Option<i128>
    ensures { result ≡ ranged_product x y }
{
    let sum = RangedSum::new().plus(x, y)?;
    Some(sum.total())
}

/// `x` less `k` times `y`.
pub(crate) fn subtract_candidate_multiple(x: i128, k: i128, y: i128) -> Option<i128>
    ensures { result ≡ ranged_less x k y }
{
    let sum = RangedSum::new().plus(x, 1)?.minus(k, y)?;
    Some(sum.total())
}

/// The matrix of `n` rows with the values of a function, or `None` if one of them is `None`.
pub(crate) fn candidate_matrix_by<F: Fn(u8, u8) -> Option<i128>>(n: u8, entry: F) -> Option<Matrix>
    requires some { 1 ≤ n }
    requires count_limit { n ≤ 16 }
    requires entries { (i j : ℕ) → i < n → j < n → F.pre entry i j }
    ensures { (f : ℕ → ℕ → Option ℤ)
        → ((i j : ℕ) (x : Option ℤ) → i < n → j < n → F.post entry i j x → x ≡ f i j)
        → result ≡ table_by n f }
{
    let mut m = Matrix::new(n);
    for i in 0..n {
        if !write_candidate_row(&mut m, i, &entry) {
            return None;
        }
    }
    Some(m)
}

/// Writes row `i` of a matrix. Returns false if an entry is `None`.
fn write_candidate_row<F: Fn(u8, u8) -> Option<i128>>(m: &mut Matrix, i: u8, entry: &F) -> bool
    requires square { IsSquare m.old }
    requires row { i < length m.old }
    requires entries { (j : ℕ) → j < length m.old → F.pre entry.now i j }
    ensures size { length m.new ≡ length m.old }
    ensures square { IsSquare m.new }
    ensures others { (h k : ℕ) → h < i → k < length m.old → table m.new h k ≡ table m.old h k }
    ensures written { result ≡ true
        → (f : ℕ → Option ℤ)
        → ((j : ℕ) (x : Option ℤ) → j < length m.old → F.post entry.now i j x → x ≡ f j)
        → (j : ℕ) → j < length m.old
        → f j ≡ Some (table m.new i j) }
    ensures missing { result ≡ false
        → (f : ℕ → Option ℤ)
        → ((j : ℕ) (x : Option ℤ) → j < length m.old → F.post entry.now i j x → x ≡ f j)
        → vector_by (length m.old) f ≡ None }
{
    for j in 0..m.size() {
        match entry(i, j) {
            Some(value) => m.set(i, j, value),
            None => return false,
        }
    }
    true
}

// Entry (`i`, `j`) of the product of two matrices.
fn candidate_product_entry(x: &Matrix, y: &Matrix, i: u8, j: u8) -> Option<i128>
    requires same { length y.now ≡ length x.now }
    requires row { i < length x.now }
    requires column { j < length x.now }
    ensures { result ≡ Spec.ranged (pos 0) (length x.now) (table x.now i) (λ k. table y.now k j) }
{
    sum_candidate_products(0, x.size(), |k| x.get(i, k), |k| y.get(k, j))
}

/// Writes row `i` of a matrix.
fn fill_candidate_row<F: Fn(u8, u8) -> i128>(m: &mut Matrix, i: u8, entry: &F)
    requires square { IsSquare m.old }
    requires row { i < length m.old }
    requires entries { (j : ℕ) → j < length m.old → F.pre entry.now i j }
    ensures size { length m.new ≡ length m.old }
    ensures square { IsSquare m.new }
    ensures others { (h k : ℕ) → h < i → k < length m.old → table m.new h k ≡ table m.old h k }
    ensures written { (f : ℕ → ℤ)
        → ((j : ℕ) (x : ℤ) → j < length m.old → F.post entry.now i j x → x ≡ f j)
        → (j : ℕ) → j < length m.old
        → table m.new i j ≡ f j }
{
    for j in 0..m.size() {
        let value = entry(i, j);
        m.set(i, j, value);
    }
}
