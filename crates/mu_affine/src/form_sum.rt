//! Sums of affine forms. An incomplete sum maps variables, and pairs of a state and a discrete
//! variable, to coefficients. These coefficients may be 0 until the sum is complete.

ghost use Rattle.std.specs.Prelude.{◌≡◌, [], IfOk, map, filter};
ghost use Rattle.mu_affine.specs.Prelude.{nat_cmp, checked};
ghost use Rattle.mu_affine.specs.AffineForm.{constant_form, none, is_nonzero};
ghost use Rattle.mu_affine.specs.FinishedForms.{sum_meaning, IsCanonical, IsReducedSum, JoinsForm, Finishes};
ghost use Rattle.mu_affine.specs.FormRows.{value_at, joined, pair_cmp, named, paired, JoinsAt, JoinsList, IsRising, AreReduced};

use crate::exact_form::{ExactEntry, ExactForm, ExactProduct};
use mu_io::Items;
use mu_num::{NumErr, Ratio};
use std::alloc::{AllocError, Global};
use std::collections::BTreeMap;

/// An incomplete sum of forms. Coefficients may be 0.
#[derive(Drop)]
pub struct RunningForm {
    pub names: BTreeMap<u32, Ratio>,
    pub pairs: BTreeMap<(u32, u32), Ratio>,
    pub time: Ratio,
    pub constant: Ratio,
}

impl RunningForm {
    /// Creates the empty sum.
    pub fn new(alloc: Global) -> RunningForm
        ensures meaning { sum_meaning result ≡ constant_form none }
        ensures reduced { IsReducedSum result }
        ensures names { result.names.entries ≡ [] }
        ensures pairs { result.pairs.entries ≡ [] }
    {
        RunningForm {
            names: BTreeMap::new(alloc),
            pairs: BTreeMap::new(alloc),
            time: Ratio::whole(0),
            constant: Ratio::whole(0),
        }
    }

    /// Adds a form to the sum, or subtracts it. The fault is `Range` if a number of the new sum
    /// exceeds 2^62 in lowest terms. After a fault the sum contains a part of the form.
    pub fn join(&mut self, minus: bool, form: &ExactForm) -> Result<Result<(), NumErr>, AllocError>
        requires canonical { IsCanonical form.now }
        requires reduced { IsReducedSum self.old }
        ensures { IfOk result (JoinsForm minus self.old self.new form.now) }
    {
        match add_coefficients(&mut self.names, minus, form.entries.as_slice())? {
            Ok(()) => {}
            Err(fault) => return Ok(Err(fault)),
        }
        match add_pair_coefficients(&mut self.pairs, minus, form.products.as_slice())? {
            Ok(()) => {}
            Err(fault) => return Ok(Err(fault)),
        }
        match combine_ratios(minus, self.time, form.time) {
            Ok(time) => self.time = time,
            Err(fault) => return Ok(Err(fault)),
        }
        match combine_ratios(minus, self.constant, form.constant) {
            Ok(constant) => self.constant = constant,
            Err(fault) => return Ok(Err(fault)),
        }
        Ok(Ok(()))
    }

    /// Converts the sum to an exact form.
    pub fn finish(&self, alloc: Global) -> Result<ExactForm, AllocError>
        requires { IsReducedSum self.now }
        ensures { IfOk result (Finishes self.now) }
    {
        let entries = nonzero_coefficients(alloc, &self.names)?;
        let products = nonzero_pair_coefficients(alloc, &self.pairs)?;
        Ok(ExactForm {
            entries: Items::new(entries),
            products: Items::new(products),
            time: self.time,
            constant: self.constant,
        })
    }
}

/// Adds the coefficients of variables to a row, or subtracts them. After an error the row has some
/// of them.
pub(crate) fn add_coefficients(
    row: &mut BTreeMap<u32, Ratio>,
    minus: bool,
    entries: &[ExactEntry],
) -> Result<Result<(), NumErr>, AllocError>
    requires rising { IsRising nat_cmp (map named entries.now) }
    requires reduced { AreReduced nat_cmp row.old.entries }
    ensures { IfOk result
        (JoinsList nat_cmp minus row.old.entries row.new.entries (map named entries.now)) }
{
    for entry in entries {
        match add_to_coefficient(row, minus, entry.var, entry.coef)? {
            Ok(()) => {}
            Err(fault) => return Ok(Err(fault)),
        }
    }
    Ok(Ok(()))
}

// Adds a fraction to the coefficient of a variable, or subtracts it.
fn add_to_coefficient(
    row: &mut BTreeMap<u32, Ratio>,
    minus: bool,
    var: u32,
    value: Ratio,
) -> Result<Result<(), NumErr>, AllocError>
    ensures { IfOk result (JoinsAt nat_cmp minus row.old.entries row.new.entries var value) }
{
    match combine_ratios(minus, coefficient_of_variable(row, var), value) {
        Ok(total) => {
            row.insert(var, total)?;
            Ok(Ok(()))
        }
        Err(fault) => Ok(Err(fault)),
    }
}

// Returns the sum or the difference of two fractions.
pub(crate) fn combine_ratios(minus: bool, left: Ratio, right: Ratio) -> Result<Ratio, NumErr>
    ensures { result ≡ checked (joined minus left right) }
{
    if minus {
        left.sub(right)
    } else {
        left.add(right)
    }
}

// Returns the coefficient of a variable.
fn coefficient_of_variable(row: &BTreeMap<u32, Ratio>, var: u32) -> Ratio
    ensures { result ≡ value_at nat_cmp row.now.entries var }
{
    match row.get(&var) {
        Some(value) => *value,
        None => Ratio::whole(0),
    }
}

/// Adds the coefficients of pairs to a row, or subtracts them. After an error the row has some of
/// them.
pub(crate) fn add_pair_coefficients(
    row: &mut BTreeMap<(u32, u32), Ratio>,
    minus: bool,
    products: &[ExactProduct],
) -> Result<Result<(), NumErr>, AllocError>
    requires rising { IsRising pair_cmp (map paired products.now) }
    requires reduced { AreReduced pair_cmp row.old.entries }
    ensures { IfOk result
        (JoinsList pair_cmp minus row.old.entries row.new.entries (map paired products.now)) }
{
    for product in products {
        let pair = (product.state, product.discrete);
        match add_to_pair_coefficient(row, minus, pair, product.coef)? {
            Ok(()) => {}
            Err(fault) => return Ok(Err(fault)),
        }
    }
    Ok(Ok(()))
}

// Adds a fraction to the coefficient of a pair, or subtracts it.
fn add_to_pair_coefficient(
    row: &mut BTreeMap<(u32, u32), Ratio>,
    minus: bool,
    pair: (u32, u32),
    value: Ratio,
) -> Result<Result<(), NumErr>, AllocError>
    ensures { IfOk result (JoinsAt pair_cmp minus row.old.entries row.new.entries pair value) }
{
    match combine_ratios(minus, coefficient_of_pair(row, pair), value) {
        Ok(total) => {
            row.insert(pair, total)?;
            Ok(Ok(()))
        }
        Err(fault) => Ok(Err(fault)),
    }
}

// Returns the coefficient of a pair of variables.
fn coefficient_of_pair(row: &BTreeMap<(u32, u32), Ratio>, pair: (u32, u32)) -> Ratio
    ensures { result ≡ value_at pair_cmp row.now.entries pair }
{
    match row.get(&pair) {
        Some(value) => *value,
        None => Ratio::whole(0),
    }
}

/// Returns the nonzero coefficients of variables.
pub(crate) fn nonzero_coefficients(
    alloc: Global,
    row: &BTreeMap<u32, Ratio>,
) -> Result<Vec<ExactEntry>, AllocError>
    ensures kept { IfOk result
        (λ v. map named v.items ≡ filter (λ c. is_nonzero c.1) row.now.entries) }
    ensures rising { IfOk result (λ v. IsRising nat_cmp row.now.entries) }
{
    let mut all = Vec::new(alloc);
    for (var, coef) in row {
        if coef.num() != 0 {
            all.push(ExactEntry {
                var: *var,
                coef: *coef,
            })?;
        }
    }
    Ok(all)
}

/// Returns the nonzero coefficients of pairs.
pub(crate) fn nonzero_pair_coefficients(
    alloc: Global,
    row: &BTreeMap<(u32, u32), Ratio>,
) -> Result<Vec<ExactProduct>, AllocError>
    ensures kept { IfOk result
        (λ v. map paired v.items ≡ filter (λ c. is_nonzero c.1) row.now.entries) }
    ensures rising { IfOk result (λ v. IsRising pair_cmp row.now.entries) }
{
    let mut all = Vec::new(alloc);
    for (pair, coef) in row {
        if coef.num() != 0 {
            all.push(ExactProduct {
                state: pair.0,
                discrete: pair.1,
                coef: *coef,
            })?;
        }
    }
    Ok(all)
}
