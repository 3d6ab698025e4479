//! The inequalities of a certificate, the two sides of each at a place, and the sums that several
//! inequalities share. A result is `None` if one of its sums is out of range.

ghost use Rattle.std.specs.Prelude.{◌≡◌, ◌*ℤ◌, ◌↔◌, ◌<◌, ◌≤◌, ◌+◌, ◌*◌, ◌+ℤ◌, pos, length, IsSome, IfSome, ℕ, unsigned_abs};
ghost use Rattle.cert_check.specs.Prelude.{sum_below, relative_unit, sum_limit, vector, IsInRange, table, weight, minus_gram, off_diagonal_sum, form, diagonal, matrix_product, times, total_of, weight_of};
ghost use Rattle.cert_check.specs.CertificateData.{certificate_data, system};
ghost use Rattle.cert_check.specs.Inequalities.{level_range, diagonal_surplus, decrease_matrix, scaled_offset, level_error, weighted_level_error, centre_slope, slope_limit, centre_disturbance, pair_disturbance};
ghost use Rattle.cert_check.specs.InequalityTable.{IsPlaceInRange, left_of, right_of, places_of, IsWellFormed, is_same_below};
ghost use Rattle.cert_check.specs.Pairs.{pairs, pair_of};
ghost use Rattle.cert_check.specs.Ranges.{IsSquareInRange, IsSumBoundInRange, IsShareInRange, IsSlopeSidesInRange, IsCentreSidesInRange, IsPairSidesInRange, IsPartInRange, IsDecayPartInRange, ArePartsInRange, AreProductsInRange, IsStageInRange, IsGapInRange, matrix_of, factor_of, root_of, IsSumInRange, IsRestInRange, IsWidthInRange, IsProductEntryInRange, IsReachSumInRange, IsSlopeInRange, IsWeightedRestInRange, IsWidthSumInRange, IsCentreGainInRange, IsPairGainInRange, IsLevelReachInRange};

use crate::affine_data::AffineSystem;
use crate::certificate::Certificate;
use crate::column::at;
use crate::inequality_checker::{Sides, multiply_side_terms};
use cert_matrix::{Matrix, RangedSum, gram_row, quad};
use mu_io::Items;

/// The parts of the 13 inequalities, in the order of the check.
/// Each part compares two sides at each of its places.
#[derive(Clone, Copy, Debug, PartialEq, Eq)]
pub enum Inequality {
    SignP,
    SignMu,
    SignLambda,
    SignH1,
    SignH2,
    SignR,
    SignZ,
    SignS,
    SignSigmaR,
    SignC,
    SignSigmaC,
    SignE,
    Symmetric,
    BoundParts,
    Bound,
    DecayProducts,
    DecayParts,
    Decay,
    FirstStart,
    SecondStart,
    StartsApart,
    Reach,
    Slope,
    CentreGain,
    CentreSum,
    PairGain,
    PairSum,
    Distance,
    Quantum,
    Share,
}

/// The two inequalities that test a matrix by its rows: number 3 (V is bounded below) and
/// number 4 (V decreases).
#[derive(Clone, Copy, Debug, PartialEq, Eq)]
pub enum Stage {
    Bounded,
    Decaying,
}

/// A row and a column above the diagonal.
#[derive(Clone, Copy)]
struct Pair {
    row: u8,
    column: u8,
}

/// The two sides of an inequality at place `k`, which counts from 0.
/// `None` if a sum is out of range.
pub fn sides_of_inequality(
    m: &AffineSystem,
    x: &Certificate,
    inequality: Inequality,
    k: u8,
) -> Option<Sides>
    requires formed { IsWellFormed m.now x.now }
    requires place { k < places_of m.now.n inequality }
    ensures in_range { IsSome result ↔ IsPlaceInRange (system m.now) (certificate_data x.now) inequality k }
    ensures left { IfSome result
        (λ sides. sides.left ≡ left_of (system m.now) (certificate_data x.now) inequality k) }
    ensures right { IfSome result
        (λ sides. sides.right ≡ right_of (system m.now) (certificate_data x.now) inequality k) }
{
    match inequality {
        Inequality::SignP => least_number_sides(at(&x.p, k), 1),
        Inequality::SignMu => least_number_sides(at(&x.mu, k), 1),
        Inequality::SignLambda => least_number_sides(x.lambda, 1),
        Inequality::SignH1 => least_number_sides(x.h1, 1),
        Inequality::SignH2 => least_number_sides(x.h2, 1),
        Inequality::SignR => least_number_sides(x.r, 0),
        Inequality::SignZ => least_number_sides(at(&x.z, k), 0),
        Inequality::SignS => least_number_sides(at(&x.s, k), 0),
        Inequality::SignSigmaR => least_number_sides(at(&x.sigma_r, k), 0),
        Inequality::SignC => least_number_sides(x.cc, 0),
        Inequality::SignSigmaC => least_number_sides(at(&x.sigma_c, k), 0),
        Inequality::SignE => least_number_sides(at(&x.e, k), 0),
        Inequality::Symmetric => pair_sides(m, x, k),
        Inequality::BoundParts => parts_sides(m, x, Stage::Bounded, k),
        Inequality::Bound => bound_sides(m, x, k),
        Inequality::DecayProducts => products_sides(m, x, k),
        Inequality::DecayParts => parts_sides(m, x, Stage::Decaying, k),
        Inequality::Decay => decay_sides(m, x, k),
        Inequality::FirstStart => gap_sides(m, x, &x.start1, &m.unit, &x.c, &x.r),
        Inequality::SecondStart => gap_sides(m, x, &x.start2, &m.unit, &x.c, &x.r),
        Inequality::StartsApart => apart_sides(m, x),
        Inequality::Reach => square_sides(at(&x.p, k), at(&x.z, k), x.r),
        Inequality::Slope => slope_sides(m, x, k),
        Inequality::CentreGain => centre_gain_sides(m, x, k),
        Inequality::CentreSum => sum_sides(x.lambda, x.r, &x.sigma_r, m.n),
        Inequality::PairGain => pair_gain_sides(m, x, k),
        Inequality::PairSum => sum_sides(x.lambda, x.cc, &x.sigma_c, m.n),
        Inequality::Distance => square_sides(at(&x.p, k), at(&x.e, k), x.cc),
        Inequality::Quantum => least_number_sides(at(&x.q, k), m.quantum.at(k)),
        Inequality::Share => share_sides(m, x, k),
    }
}

/// The number of pairs of two different numbers below `n`.
pub fn count_side_pairs(n: u8) -> u8
    requires { n ≤ 16 }
    ensures { result ≡ pairs n }
{
    let mut count = 0;
    for i in 0..n {
        count += i;
    }
    count
}

/// Sides: a number, and its least value. They need no sum.
fn least_number_sides(number: i128, least: i128) -> Option<Sides>
    ensures some { IsSome result }
    ensures left { IfSome result (λ sides. sides.left ≡ number) }
    ensures right { IfSome result (λ sides. sides.right ≡ least) }
{
    Some(Sides {
        left: number,
        right: least,
    })
}

/// Sides: the entries of P at pair `k` and at its transpose.
pub fn pair_sides(m: &AffineSystem, x: &Certificate, k: u8) -> Option<Sides>
    requires formed { IsWellFormed m.now x.now }
    requires place { k < pairs m.now.n }
    ensures some { IsSome result }
    ensures left { IfSome result
        (λ sides. sides.left ≡ (certificate_data x.now).pm (pair_of m.now.n k).0 (pair_of m.now.n k).1) }
    ensures right { IfSome result
        (λ sides. sides.right ≡ (certificate_data x.now).pm (pair_of m.now.n k).1 (pair_of m.now.n k).0) }
{
    let pair = side_pair_at(m.n, k);
    Some(Sides {
        left: x.pm.get(pair.row, pair.column),
        right: x.pm.get(pair.column, pair.row),
    })
}

/// Pair `k` of two numbers below `n`, in the order (0,1), (0,2), .., (1,2), ..
fn side_pair_at(n: u8, k: u8) -> Pair
    requires count_limit { n ≤ 16 }
    requires place { k < pairs n }
    ensures row { result.row ≡ (pair_of n k).0 }
    ensures column { result.column ≡ (pair_of n k).1 }
    ensures row_inside { result.row < n }
    ensures column_inside { result.column < n }
{
    let mut rest = k;
    for i in 0..n {
        let width = n - 1 - i;
        if rest < width {
            return Pair {
                row: i,
                column: i + 1 + rest,
            };
        }
        rest -= width;
    }
    Pair { row: 0, column: 0 }
}

/// Both sides 0, or `None` if a sum of row `i` of the matrix of a stage is out of range.
pub fn parts_sides(m: &AffineSystem, x: &Certificate, stage: Stage, i: u8) -> Option<Sides>
    requires formed { IsWellFormed m.now x.now }
    requires row { i < m.now.n }
    ensures in_range { IsSome result ↔ ArePartsInRange (system m.now) (certificate_data x.now) stage i }
    ensures left { IfSome result (λ sides. sides.left ≡ pos 0) }
    ensures right { IfSome result (λ sides. sides.right ≡ pos 0) }
{
    let _rows = stage_row(m, x, stage, i)?;
    Some(Sides { left: 0, right: 0 })
}

/// A matrix whose row `i` is row `i` of the matrix of a stage. Its other rows are 0.
/// `None` if a sum of the row is out of range.
fn stage_row(m: &AffineSystem, x: &Certificate, stage: Stage, i: u8) -> Option<Matrix>
    requires formed { IsWellFormed m.now x.now }
    requires row { i < m.now.n }
    ensures in_range { IsSome result ↔ ArePartsInRange (system m.now) (certificate_data x.now) stage i }
    ensures size { IfSome result (λ rows. length rows ≡ m.now.n) }
    ensures value { IfSome result
        (λ rows. (j : ℕ)
        → j < m.now.n
        → table rows i j ≡ matrix_of (system m.now) (certificate_data x.now) stage i j) }
{
    let mut rows = Matrix::new(m.n);
    for j in 0..m.n {
        let part = stage_part_at(m, x, stage, i, j)?;
        rows.set(i, j, part);
    }
    Some(rows)
}

/// Entry (`i`, `j`) of the matrix of a stage, or `None` if a sum is out of range.
fn stage_part_at(m: &AffineSystem, x: &Certificate, stage: Stage, i: u8, j: u8) -> Option<i128>
    requires formed { IsWellFormed m.now x.now }
    requires row { i < m.now.n }
    requires column { j < m.now.n }
    ensures in_range { IsSome result ↔ IsPartInRange (system m.now) (certificate_data x.now) stage i j }
    ensures value { IfSome result
        (λ value. value ≡ matrix_of (system m.now) (certificate_data x.now) stage i j) }
{
    match stage {
        Stage::Bounded => surplus_at(x, i, j),
        Stage::Decaying => decay_at(m, x, i, j),
    }
}

/// Entry (`i`, `j`) of P less diag(`p`), or `None` if the sum is out of range.
fn surplus_at(x: &Certificate, i: u8, j: u8) -> Option<i128>
    requires row { i < length x.now.pm }
    requires column { j < length x.now.pm }
    ensures in_range { IsSome result
        ↔ (unsigned_abs ((certificate_data x.now).pm i j) + unsigned_abs (diagonal (certificate_data x.now).p i j)
        ≤ sum_limit) }
    ensures value { IfSome result (λ value. value ≡ diagonal_surplus (certificate_data x.now) i j) }
{
    let entry = RangedSum::new().plus(x.pm.get(i, j), 1)?;
    let part = entry.minus(side_diagonal_at(&x.p, i, j), 1)?;
    Some(part.total())
}

/// Entry (`i`, `j`) of the diagonal matrix with these numbers.
fn side_diagonal_at(numbers: &Items<i128>, i: u8, j: u8) -> i128
    ensures { result ≡ diagonal (vector numbers.now) i j }
{
    if i == j { at(numbers, i) } else { 0 }
}

/// Entry (`i`, `j`) of -(P A + A^T P) less diag(`mu`) less `lambda` P.
/// `None` if a sum is out of range.
fn decay_at(m: &AffineSystem, x: &Certificate, i: u8, j: u8) -> Option<i128>
    requires formed { IsWellFormed m.now x.now }
    requires row { i < m.now.n }
    requires column { j < m.now.n }
    ensures in_range { IsSome result ↔ IsDecayPartInRange (system m.now) (certificate_data x.now) i j }
    ensures value { IfSome result (λ value. value ≡ decrease_matrix (system m.now) (certificate_data x.now) i j) }
{
    let entry = product_entry(m, x, i, j)?;
    let turned = product_entry(m, x, j, i)?;
    let first = RangedSum::new().minus(entry, 1)?;
    let second = first.minus(turned, 1)?;
    let third = second.minus(side_diagonal_at(&x.mu, i, j), 1)?;
    let whole = third.minus(x.lambda, x.pm.get(i, j))?;
    Some(whole.total())
}

/// Entry (`i`, `j`) of P A.
pub fn product_entry(m: &AffineSystem, x: &Certificate, i: u8, j: u8) -> Option<i128>
    requires size { length m.now.coef ≡ m.now.n }
    requires form { length x.now.pm ≡ m.now.n }
    requires row { i < m.now.n }
    requires column { j < m.now.n }
    ensures in_range { IsSome result ↔ IsProductEntryInRange (system m.now) (certificate_data x.now) i j }
    ensures value { IfSome result
        (λ value. value ≡ matrix_product m.now.n (certificate_data x.now).pm (system m.now).coef i j) }
{
    let mut sum = RangedSum::new();
    for k in 0..m.n {
        sum = sum.plus(x.pm.get(i, k), m.coef.get(k, j))?;
    }
    Some(sum.total())
}

/// The two sides of row `i` of inequality 3: diagonal entry and off-diagonal absolute row sum.
pub fn bound_sides(m: &AffineSystem, x: &Certificate, i: u8) -> Option<Sides>
    requires formed { IsWellFormed m.now x.now }
    requires row { i < m.now.n }
    ensures in_range { IsSome result ↔ IsStageInRange (system m.now) (certificate_data x.now) Stage.Bounded i }
    ensures left { IfSome result
        (λ sides. sides.left
        ≡ minus_gram m.now.n x.now.h1 (diagonal_surplus (certificate_data x.now)) (certificate_data x.now).g1 i i) }
    ensures right { IfSome result
        (λ sides. sides.right
        ≡ off_diagonal_sum m.now.n (minus_gram m.now.n x.now.h1 (diagonal_surplus (certificate_data x.now)) (certificate_data x.now).g1)
        i) }
{
    let rows = stage_row(m, x, Stage::Bounded, i)?;
    let sides = gram_row(&x.h1, &rows, x.g1.as_matrix(), i)?;
    Some(Sides {
        left: sides.left,
        right: sides.right,
    })
}

/// Both sides 0, or `None` if an entry in row `i` of P A is out of range.
pub fn products_sides(m: &AffineSystem, x: &Certificate, i: u8) -> Option<Sides>
    requires formed { IsWellFormed m.now x.now }
    requires row { i < m.now.n }
    ensures in_range { IsSome result ↔ AreProductsInRange (system m.now) (certificate_data x.now) i }
    ensures left { IfSome result (λ sides. sides.left ≡ pos 0) }
    ensures right { IfSome result (λ sides. sides.right ≡ pos 0) }
{
    for j in 0..m.n {
        let _entry = product_entry(m, x, i, j)?;
    }
    Some(Sides { left: 0, right: 0 })
}

/// The two sides of row `i` of inequality 4: diagonal entry and off-diagonal absolute row sum.
pub fn decay_sides(m: &AffineSystem, x: &Certificate, i: u8) -> Option<Sides>
    requires formed { IsWellFormed m.now x.now }
    requires row { i < m.now.n }
    ensures in_range { IsSome result
        ↔ IsStageInRange (system m.now) (certificate_data x.now) Stage.Decaying i }
    ensures left { IfSome result
        (λ sides. sides.left
        ≡ minus_gram m.now.n x.now.h2 (decrease_matrix (system m.now) (certificate_data x.now)) (certificate_data x.now).g2 i
        i) }
    ensures right { IfSome result
        (λ sides. sides.right
        ≡ off_diagonal_sum m.now.n
        (minus_gram m.now.n x.now.h2 (decrease_matrix (system m.now) (certificate_data x.now)) (certificate_data x.now).g2)
        i) }
{
    let rows = stage_row(m, x, Stage::Decaying, i)?;
    let sides = gram_row(&x.h2, &rows, x.g2.as_matrix(), i)?;
    Some(Sides {
        left: sides.left,
        right: sides.right,
    })
}

/// Sides: V of `start` less `factor` times `base`, and the square of the unit times `bound`.
pub fn gap_sides(
    m: &AffineSystem,
    x: &Certificate,
    start: &Items<i128>,
    factor: &i128,
    base: &Items<i128>,
    bound: &i128,
) -> Option<Sides>
    requires { IsWellFormed m.now x.now }
    ensures in_range { IsSome result
        ↔ IsGapInRange (system m.now) (certificate_data x.now) (vector start.now) factor.now (vector base.now)
        bound.now }
    ensures left { IfSome result
        (λ sides. sides.left
        ≡ form m.now.n (certificate_data x.now).pm (scaled_offset (vector start.now) factor.now (vector base.now))) }
    ensures right { IfSome result (λ sides. sides.right ≡ m.now.unit *ℤ m.now.unit *ℤ bound.now) }
{
    let gaps = side_gaps(m.n, start, factor, base)?;
    let left = quad(x.pm.as_matrix(), &gaps[..m.n as usize])?;
    let square = multiply_side_terms(m.unit, m.unit)?;
    let right = multiply_side_terms(square, *bound)?;
    Some(Sides { left, right })
}

/// The first `n` entries of `start` less `factor` times `base`, or `None` if one is out of range.
fn side_gaps(n: u8, start: &Items<i128>, factor: &i128, base: &Items<i128>) -> Option<[i128; 16]>
    requires { n ≤ 16 }
    ensures in_range { IsSome result
        ↔ ((k : ℕ) → k < n
        → unsigned_abs (vector start.now k)
        + unsigned_abs factor.now * unsigned_abs (vector base.now k)
        ≤ sum_limit) }
    ensures value { IfSome result
        (λ gaps. (k : ℕ)
        → k < n
        → vector gaps k ≡ scaled_offset (vector start.now) factor.now (vector base.now) k) }
{
    let mut gaps = [0; 16];
    for k in 0..n {
        gaps[k as usize] = side_gap_at(start, factor, base, k)?;
    }
    Some(gaps)
}

/// Entry `k` of `start` less `factor` times entry `k` of `base`, or `None` if out of range.
fn side_gap_at(start: &Items<i128>, factor: &i128, base: &Items<i128>, k: u8) -> Option<i128>
    ensures in_range { IsSome result
        ↔ (unsigned_abs (vector start.now k)
        + unsigned_abs factor.now * unsigned_abs (vector base.now k)
        ≤ sum_limit) }
    ensures value { IfSome result
        (λ value. value ≡ scaled_offset (vector start.now) factor.now (vector base.now) k) }
{
    let first = RangedSum::new().plus(at(start, k), 1)?;
    let part = first.minus(*factor, at(base, k))?;
    Some(part.total())
}

/// Sides: V of the difference of the two starts, and its bound. Both are 0 if the starts are equal.
pub fn apart_sides(m: &AffineSystem, x: &Certificate) -> Option<Sides>
    requires { IsWellFormed m.now x.now }
    ensures in_range { IsSome result
        ↔ IsPlaceInRange (system m.now) (certificate_data x.now) Inequality.StartsApart 0 }
    ensures left { IfSome result
        (λ sides. sides.left ≡ left_of (system m.now) (certificate_data x.now) Inequality.StartsApart 0) }
    ensures right { IfSome result
        (λ sides. sides.right ≡ right_of (system m.now) (certificate_data x.now) Inequality.StartsApart 0) }
{
    if are_side_vectors_same(m.n, &x.start1, &x.start2) {
        return Some(Sides { left: 0, right: 0 });
    }
    gap_sides(m, x, &x.start1, &1, &x.start2, &x.cc)
}

/// Whether the first `n` numbers of two lists are equal.
fn are_side_vectors_same(n: u8, first: &Items<i128>, second: &Items<i128>) -> bool
    ensures { result ≡ is_same_below n (vector first.now) (vector second.now) }
{
    for k in 0..n {
        if at(first, k) != at(second, k) {
            return false;
        }
    }
    true
}

/// Sides: `p` times the square of `z`, and `bound`.
fn square_sides(p: i128, z: i128, bound: i128) -> Option<Sides>
    ensures in_range { IsSome result ↔ IsSquareInRange p z }
    ensures left { IfSome result (λ sides. sides.left ≡ p *ℤ (z *ℤ z)) }
    ensures right { IfSome result (λ sides. sides.right ≡ bound) }
{
    let square = multiply_side_terms(z, z)?;
    let left = multiply_side_terms(p, square)?;
    Some(Sides { left, right: bound })
}

/// Sides: the certified bound S of the slope of state `j`, and the bound computed from Z.
fn slope_sides(m: &AffineSystem, x: &Certificate, j: u8) -> Option<Sides>
    requires formed { IsWellFormed m.now x.now }
    requires row { j < m.now.n }
    ensures in_range { IsSome result ↔ IsSlopeSidesInRange (system m.now) (certificate_data x.now) j }
    ensures left { IfSome result
        (λ sides. sides.left ≡ left_of (system m.now) (certificate_data x.now) Inequality.Slope j) }
    ensures right { IfSome result
        (λ sides. sides.right ≡ right_of (system m.now) (certificate_data x.now) Inequality.Slope j) }
{
    let right = slope_bound_at(m, x, j)?;
    let left = multiply_side_terms(m.unit, at(&x.s, j))?;
    Some(Sides { left, right })
}

/// The bound T of the slope of state `j` in the invariant set.
pub fn slope_bound_at(m: &AffineSystem, x: &Certificate, j: u8) -> Option<i128>
    requires size { length m.now.coef ≡ m.now.n }
    requires row { j < m.now.n }
    ensures in_range { IsSome result ↔ IsSlopeInRange (system m.now) (certificate_data x.now) j }
    ensures value { IfSome result (λ value. value ≡ slope_limit (system m.now) (certificate_data x.now) j) }
{
    let rest = rest_slope_at(m, x, j)?;
    let mut sum = RangedSum::new().plus_size(rest, 1)?;
    for k in 0..m.n {
        sum = sum.plus_size(m.coef.get(j, k), reach_sum_at(x, k)?)?;
    }
    Some(sum.total())
}

/// The slope of state `j` if all levels are at the centre.
pub fn rest_slope_at(m: &AffineSystem, x: &Certificate, j: u8) -> Option<i128>
    requires size { length m.now.coef ≡ m.now.n }
    requires row { j < m.now.n }
    ensures in_range { IsSome result ↔ IsRestInRange (system m.now) (certificate_data x.now) j }
    ensures value { IfSome result (λ value. value ≡ centre_slope (system m.now) (certificate_data x.now) j) }
{
    let mut sum = RangedSum::new().plus(m.constant.at(j), 1)?;
    for k in 0..m.n {
        sum = sum.plus(m.coef.get(j, k), at(&x.c, k))?;
    }
    Some(sum.total())
}

/// The largest distance of level `k` from the centre: Z plus Q, in levels.
pub fn reach_sum_at(x: &Certificate, k: u8) -> Option<i128>
    ensures in_range { IsSome result ↔ IsReachSumInRange (certificate_data x.now) k }
    ensures value { IfSome result (λ value. value ≡ (certificate_data x.now).z k +ℤ (certificate_data x.now).q k) }
{
    add_side_terms(at(&x.z, k), at(&x.q, k))
}

/// The sum of two numbers.
pub fn add_side_terms(a: i128, b: i128) -> Option<i128>
    ensures in_range { IsSome result ↔ IsSumInRange a b }
    ensures value { IfSome result (λ value. value ≡ a +ℤ b) }
{
    let sum = RangedSum::new().plus(a, 1)?.plus(b, 1)?;
    Some(sum.total())
}

/// Sides: `mu[i] * sigma_r[i]`, and the square of the disturbance bound about the centre.
fn centre_gain_sides(m: &AffineSystem, x: &Certificate, i: u8) -> Option<Sides>
    requires formed { IsWellFormed m.now x.now }
    requires row { i < m.now.n }
    ensures in_range { IsSome result ↔ IsCentreSidesInRange (system m.now) (certificate_data x.now) i }
    ensures left { IfSome result
        (λ sides. sides.left ≡ left_of (system m.now) (certificate_data x.now) Inequality.CentreGain i) }
    ensures right { IfSome result
        (λ sides. sides.right ≡ right_of (system m.now) (certificate_data x.now) Inequality.CentreGain i) }
{
    let gain = centre_gain_at(m, x, i)?;
    let left = multiply_side_terms(at(&x.mu, i), at(&x.sigma_r, i))?;
    let right = multiply_side_terms(gain, gain)?;
    Some(Sides { left, right })
}

/// The disturbance bound gR of state `i` about the centre, per tick.
pub fn centre_gain_at(m: &AffineSystem, x: &Certificate, i: u8) -> Option<i128>
    requires size { length m.now.coef ≡ m.now.n }
    requires form { length x.now.pm ≡ m.now.n }
    requires row { i < m.now.n }
    ensures in_range { IsSome result ↔ IsCentreGainInRange (system m.now) (certificate_data x.now) i }
    ensures value { IfSome result (λ value. value ≡ centre_disturbance (system m.now) (certificate_data x.now) i) }
{
    let rest = weighted_rest_at(m, x, i)?;
    let sum = width_sum_at(m, x, i)?.plus_size(rest, 1)?;
    Some(sum.total())
}

/// Entry `i` of P times the slopes at the centre.
pub fn weighted_rest_at(m: &AffineSystem, x: &Certificate, i: u8) -> Option<i128>
    requires size { length m.now.coef ≡ m.now.n }
    requires form { length x.now.pm ≡ m.now.n }
    requires row { i < m.now.n }
    ensures in_range { IsSome result ↔ IsWeightedRestInRange (system m.now) (certificate_data x.now) i }
    ensures value { IfSome result
        (λ value. value
        ≡ times m.now.n (certificate_data x.now).pm (centre_slope (system m.now) (certificate_data x.now)) i) }
{
    let mut sum = RangedSum::new();
    for j in 0..m.n {
        sum = sum.plus(x.pm.get(i, j), rest_slope_at(m, x, j)?)?;
    }
    Some(sum.total())
}

/// The sum over `j` of the absolute value of entry (`i`, `j`) of P A, times Q plus S of state `j`.
pub fn width_sum_at(m: &AffineSystem, x: &Certificate, i: u8) -> Option<RangedSum>
    requires size { length m.now.coef ≡ m.now.n }
    requires form { length x.now.pm ≡ m.now.n }
    requires row { i < m.now.n }
    ensures in_range { IsSome result ↔ IsWidthSumInRange (system m.now) (certificate_data x.now) i }
    ensures total { IfSome result (λ sum. total_of sum ≡ weighted_level_error (system m.now) (certificate_data x.now) i) }
    ensures weight { IfSome result
        (λ sum. weight_of sum
        ≡ weight m.now.n (matrix_product m.now.n (certificate_data x.now).pm (system m.now).coef i)
        (level_error (certificate_data x.now))) }
{
    let mut sum = RangedSum::new();
    for j in 0..m.n {
        sum = sum.plus_size(product_entry(m, x, i, j)?, width_at(x, j)?)?;
    }
    Some(sum)
}

/// The largest distance of state `j` from its level one tick before: Q plus S, in levels.
pub fn width_at(x: &Certificate, j: u8) -> Option<i128>
    ensures in_range { IsSome result ↔ IsWidthInRange (certificate_data x.now) j }
    ensures value { IfSome result (λ value. value ≡ level_error (certificate_data x.now) j) }
{
    add_side_terms(at(&x.q, j), at(&x.s, j))
}

/// Sides: `lambda` times `bound`, and the sum of the first `n` numbers.
fn sum_sides(lambda: i128, bound: i128, numbers: &Items<i128>, n: u8) -> Option<Sides>
    ensures in_range { IsSome result ↔ IsSumBoundInRange n lambda bound (vector numbers.now) }
    ensures left { IfSome result (λ sides. sides.left ≡ lambda *ℤ bound) }
    ensures right { IfSome result (λ sides. sides.right ≡ sum_below n (vector numbers.now)) }
{
    let left = multiply_side_terms(lambda, bound)?;
    let right = sum_side_terms(numbers, n)?;
    Some(Sides { left, right })
}

/// The sum of the first `n` numbers, or `None` if it is out of range.
fn sum_side_terms(numbers: &Items<i128>, n: u8) -> Option<i128>
    ensures in_range { IsSome result ↔ IsInRange n (vector numbers.now) (λ _. pos 1) }
    ensures value { IfSome result (λ sum. sum ≡ sum_below n (vector numbers.now)) }
{
    let mut sum = RangedSum::new();
    for i in 0..n {
        sum = sum.plus(at(numbers, i), 1)?;
    }
    Some(sum.total())
}

/// Sides: `mu[i] * sigma_c[i]`, and the square of the disturbance bound of two runs.
fn pair_gain_sides(m: &AffineSystem, x: &Certificate, i: u8) -> Option<Sides>
    requires formed { IsWellFormed m.now x.now }
    requires row { i < m.now.n }
    ensures in_range { IsSome result ↔ IsPairSidesInRange (system m.now) (certificate_data x.now) i }
    ensures left { IfSome result
        (λ sides. sides.left ≡ left_of (system m.now) (certificate_data x.now) Inequality.PairGain i) }
    ensures right { IfSome result
        (λ sides. sides.right ≡ right_of (system m.now) (certificate_data x.now) Inequality.PairGain i) }
{
    let gain = pair_gain_at(m, x, i)?;
    let left = multiply_side_terms(at(&x.mu, i), at(&x.sigma_c, i))?;
    let right = multiply_side_terms(gain, gain)?;
    Some(Sides { left, right })
}

/// The disturbance bound gC of state `i` for the difference of two runs, per tick.
pub fn pair_gain_at(m: &AffineSystem, x: &Certificate, i: u8) -> Option<i128>
    requires size { length m.now.coef ≡ m.now.n }
    requires form { length x.now.pm ≡ m.now.n }
    requires row { i < m.now.n }
    ensures in_range { IsSome result ↔ IsPairGainInRange (system m.now) (certificate_data x.now) i }
    ensures value { IfSome result (λ value. value ≡ pair_disturbance (system m.now) (certificate_data x.now) i) }
{
    let sum = width_sum_at(m, x, i)?;
    multiply_side_terms(2, sum.total())
}

/// Sides: 4096 times the quantum of state `j`, and the relative quantum times its largest level.
/// Both are 0 if the machine has no relative quantum.
fn share_sides(m: &AffineSystem, x: &Certificate, j: u8) -> Option<Sides>
    ensures in_range { IsSome result
        ↔ IsPlaceInRange (system m.now) (certificate_data x.now) Inequality.Share j }
    ensures left { IfSome result
        (λ sides. sides.left ≡ left_of (system m.now) (certificate_data x.now) Inequality.Share j) }
    ensures right { IfSome result
        (λ sides. sides.right ≡ right_of (system m.now) (certificate_data x.now) Inequality.Share j) }
{
    if m.share == 0 {
        return Some(Sides { left: 0, right: 0 });
    }
    some_share_sides(m, x, j)
}

/// Sides: 4096 times the quantum of state `j`, and the relative quantum times its largest level.
fn some_share_sides(m: &AffineSystem, x: &Certificate, j: u8) -> Option<Sides>
    ensures in_range { IsSome result ↔ IsShareInRange (system m.now) (certificate_data x.now) j }
    ensures left { IfSome result (λ sides. sides.left ≡ pos relative_unit *ℤ (certificate_data x.now).q j) }
    ensures right { IfSome result
        (λ sides. sides.right ≡ m.now.share *ℤ level_range (certificate_data x.now) j) }
{
    let reach = level_reach_at(x, j)?;
    let right = multiply_side_terms(m.share, reach)?;
    let left = multiply_side_terms(4096, at(&x.q, j))?;
    Some(Sides { left, right })
}

/// The largest absolute value of level `j` in the invariant set, in levels.
pub fn level_reach_at(x: &Certificate, j: u8) -> Option<i128>
    ensures in_range { IsSome result ↔ IsLevelReachInRange (certificate_data x.now) j }
    ensures value { IfSome result (λ value. value ≡ level_range (certificate_data x.now) j) }
{
    let centre = RangedSum::new().plus_size(at(&x.c, j), 1)?;
    let state = centre.plus(at(&x.z, j), 1)?;
    let level = state.plus(at(&x.q, j), 1)?;
    Some(level.total())
}
