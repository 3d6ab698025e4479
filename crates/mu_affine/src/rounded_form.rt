//! Rounds right-hand sides and affine forms to the units of a machine, and checks the limits of the
//! rounded numbers.

ghost use Rattle.std.specs.Prelude.{◌≡◌, ◌+◌, ◌^◌, ◌<◌, ◌≤◌, ◌++◌, [], ◌∷◌, if◌then◌else◌, not, true, false, length, None, map, IfOk, IfErr, IfNone, IfSome, OnOk, sum_by, unsigned_abs, All};
ghost use Rattle.mu_affine.specs.Prelude.{list_all, exceeds, variable_limit, AreLevels};
ghost use Rattle.mu_affine.specs.MachineChecks.{IsRefusal, checks, first_failed, form_fits, row_fits, row_fits_at_start};
ghost use Rattle.mu_affine.specs.Rounded.{is_some_number, rounded_entries, rounded_products, rounded_row, rounded_form, rounded, rounded_down, rounded_up};
ghost use Rattle.mu_affine.specs.RoundedMachines.{IsRightSide};
ghost use Rattle.mu_affine.specs.declared.machine_fault.MachineErr.TheVariants.{Start, Coefficient};

use crate::exact_form::{ExactEntry, ExactForm, ExactProduct};
use crate::machine_fault::MachineErr;
use crate::rounded_machine::Units;
use mu_io::Items;
use mu_num::{Ratio, ceil_div, exceeds_power_of_two, floor_div, nearest, times_power_of_two};
use qss_machine::{Entry, Form, Product, SlopeRow, is_row_in_limits};
use std::alloc::{AllocError, Global};

/// Returns an error for the first right-hand side whose absolute row sum exceeds its limit at the
/// start.
pub(crate) fn check_start_row_sums(
    alloc: Global,
    forms: &[ExactForm],
    levels: &[i64],
    values: &[i64],
    units: Units,
) -> Result<(), MachineErr>
    requires count_limit { length levels.now + length values.now ≤ variable_limit }
    requires one_each { length forms.now ≤ length levels.now }
    requires forms { All (IsRightSide (length levels.now) (length values.now)) forms.now }
    requires levels { AreLevels levels.now }
    requires values { AreLevels values.now }
    ensures ok { IfOk result
        (λ _. first_failed
        (checks
        (λ form. row_fits_at_start units.f levels.now values.now
        (rounded_row units.p units.f form))
        Start 0 forms.now)
        ≡ None) }
    ensures err { IfErr result
        (IsRefusal
        (checks
        (λ form. row_fits_at_start units.f levels.now values.now
        (rounded_row units.p units.f form))
        Start 0 forms.now)) }
{
    for (place, form) in forms.iter().enumerate() {
        if !is_rounded_start_valid(alloc, form, levels, values, units)? {
            return Err(MachineErr::Start { var: place as u32 });
        }
    }
    Ok(())
}

/// Rounds the form of a condition or a statement. Returns `None` if it exceeds a limit.
pub(crate) fn round_form(
    alloc: Global,
    form: &ExactForm,
    units: Units,
) -> Result<Option<Form>, AllocError>
    ensures none { IfOk result
        (λ form'. IfNone form' (form_fits (rounded_form units.p units.f form.now) ≡ false)) }
    ensures some { IfOk result
        (λ form'. IfSome form'
        (λ form'. (form' ≡ rounded_form units.p units.f form.now) × (form_fits form' ≡ true))) }
{
    let Some(entries) = round_form_entries(alloc, form.entries.as_slice(), units.p)? else {
        return Ok(None);
    };
    let time = round_form_number(form.time, units.p);
    let gamma = round_form_number(form.constant, units.f + units.p);
    if !is_form_in_limits(entries.as_slice(), time, gamma) {
        return Ok(None);
    }
    Ok(Some(Form {
        entries: Items::new(entries),
        time: time as i64,
        gamma,
    }))
}

/// Rounds all right-hand sides. The error is the first one that exceeds a limit.
pub(crate) fn round_form_rows(
    alloc: Global,
    forms: &[ExactForm],
    units: Units,
) -> Result<Vec<SlopeRow>, MachineErr>
    requires count_limit { length forms.now ≤ variable_limit }
    ensures rows { IfOk result (λ rows. rows.items ≡ map (rounded_row units.p units.f) forms.now) }
    ensures ok { IfOk result
        (λ _. first_failed
        (checks (λ form. row_fits (rounded_row units.p units.f form)) Coefficient 1
        forms.now)
        ≡ None) }
    ensures err { IfErr result
        (IsRefusal
        (checks (λ form. row_fits (rounded_row units.p units.f form)) Coefficient 1
        forms.now)) }
{
    let mut rows = Vec::new(alloc);
    for (place, form) in forms.iter().enumerate() {
        let Some(row) = round_form_row(alloc, form, units)? else {
            return Err(MachineErr::Coefficient {
                row: place as u32 + 1,
            });
        };
        rows.push(row)?;
    }
    Ok(rows)
}

/// Returns a fraction in units of 2^-bits, rounded down.
pub(crate) fn round_form_number_down(r: Ratio, bits: u8) -> i128
    requires { bits ≤ 64 }
    ensures { result ≡ rounded_down bits r }
{
    floor_div(times_power_of_two(r.num(), bits), r.den())
}

/// Returns a fraction in units of 2^-bits, rounded up.
pub(crate) fn round_form_number_up(r: Ratio, bits: u8) -> i128
    requires { bits ≤ 64 }
    ensures { result ≡ rounded_up bits r }
{
    ceil_div(times_power_of_two(r.num(), bits), r.den())
}

// Returns whether the absolute row sum of a right-hand side is within its limit at the start. A row
// that exceeds another limit passes, because `round_form_rows` reports it.
fn is_rounded_start_valid(
    alloc: Global,
    form: &ExactForm,
    levels: &[i64],
    values: &[i64],
    units: Units,
) -> Result<bool, AllocError>
    requires count_limit { length levels.now + length values.now ≤ variable_limit }
    requires form { IsRightSide (length levels.now) (length values.now) form.now }
    requires levels { AreLevels levels.now }
    requires values { AreLevels values.now }
    ensures { IfOk result
        (λ holds. holds
        ≡ row_fits_at_start units.f levels.now values.now (rounded_row units.p units.f form.now)) }
{
    let Some(row) = round_form_row(alloc, form, units)? else {
        return Ok(true);
    };
    Ok(is_row_in_limits(&row, units.f, levels, values))
}

/// Rounds a right-hand side. Returns `None` if a coefficient or the constant exceeds its limit.
pub(crate) fn round_form_row(
    alloc: Global,
    form: &ExactForm,
    units: Units,
) -> Result<Option<SlopeRow>, AllocError>
    ensures none { IfOk result
        (λ row. IfNone row (row_fits (rounded_row units.p units.f form.now) ≡ false)) }
    ensures some { IfOk result
        (λ row. IfSome row
        (λ row. (row ≡ rounded_row units.p units.f form.now) × (row_fits row ≡ true))) }
{
    let Some(entries) = round_form_entries(alloc, form.entries.as_slice(), units.p)? else {
        return Ok(None);
    };
    let Some(products) = round_form_products(alloc, form.products.as_slice(), units.p)? else {
        return Ok(None);
    };
    let beta = round_form_number(form.constant, units.f + units.p);
    if exceeds_power_of_two(beta, 78) {
        return Ok(None);
    }
    Ok(Some(SlopeRow {
        entries: Items::new(entries),
        products: Items::new(products),
        beta,
    }))
}

// Rounds coefficients of variables. Returns `None` if one exceeds 2^44 in size.
fn round_form_entries(
    alloc: Global,
    exact: &[ExactEntry],
    p: u8,
) -> Result<Option<Vec<Entry>>, AllocError>
    requires { p ≤ 64 }
    ensures none { IfOk result
        (λ entries. IfNone entries
        (list_all (λ e. not (exceeds 44 e.coef)) (rounded_entries p exact.now) ≡ false)) }
    ensures some { IfOk result
        (λ entries. IfSome entries
        (λ entries. (entries.items ≡ rounded_entries p exact.now)
        × (list_all (λ e. not (exceeds 44 e.coef)) entries.items ≡ true))) }
{
    let mut entries = Vec::new(alloc);
    for e in exact {
        let coef = round_form_number(e.coef, p);
        if exceeds_power_of_two(coef, 44) {
            return Ok(None);
        }
        let entry = Entry {
            var: e.var,
            coef: coef as i64,
        };
        push_rounded_entry(&mut entries, entry)?;
    }
    Ok(Some(entries))
}

/// Returns a fraction in units of 2^-bits, rounded to the nearest, ties to even.
pub(crate) fn round_form_number(r: Ratio, bits: u8) -> i128
    requires { bits ≤ 64 }
    ensures { result ≡ rounded bits r }
{
    nearest(r, bits)
}

// Appends an entry, unless its coefficient is 0.
fn push_rounded_entry(entries: &mut Vec<Entry>, entry: Entry) -> Result<(), AllocError>
    ensures { OnOk result
        (entries.new.items
        ≡ entries.old.items ++ (if is_some_number entry.coef then entry ∷ [] else [])) }
{
    if is_nonzero_coefficient(i128::from(entry.coef)) {
        entries.push(entry)?;
    }
    Ok(())
}

/// Returns whether a number is not 0.
pub(crate) fn is_nonzero_coefficient(z: i128) -> bool
    ensures { result ≡ is_some_number z }
{
    z != 0
}

// Rounds coefficients of products. Returns `None` if one exceeds 2^44 in size.
fn round_form_products(
    alloc: Global,
    exact: &[ExactProduct],
    p: u8,
) -> Result<Option<Vec<Product>>, AllocError>
    requires { p ≤ 64 }
    ensures none { IfOk result
        (λ products. IfNone products
        (list_all (λ e. not (exceeds 44 e.coef)) (rounded_products p exact.now) ≡ false)) }
    ensures some { IfOk result
        (λ products. IfSome products
        (λ products. (products.items ≡ rounded_products p exact.now)
        × (list_all (λ e. not (exceeds 44 e.coef)) products.items ≡ true))) }
{
    let mut products = Vec::new(alloc);
    for e in exact {
        let coef = round_form_number(e.coef, p);
        if exceeds_power_of_two(coef, 44) {
            return Ok(None);
        }
        let product = Product {
            state: e.state,
            discrete: e.discrete,
            coef: coef as i64,
        };
        push_rounded_product(&mut products, product)?;
    }
    Ok(Some(products))
}

// Appends a product, unless its coefficient is 0.
fn push_rounded_product(products: &mut Vec<Product>, product: Product) -> Result<(), AllocError>
    ensures { OnOk result
        (products.new.items
        ≡ products.old.items ++ (if is_some_number product.coef then product ∷ [] else [])) }
{
    if is_nonzero_coefficient(i128::from(product.coef)) {
        products.push(product)?;
    }
    Ok(())
}

// Returns whether the coefficients, including the coefficient of time, and the constant are within
// the limits of a form.
fn is_form_in_limits(entries: &[Entry], time: i128, gamma: i128) -> bool
    requires count_limit { length entries.now < 2 ^ 64 }
    ensures { result ≡ form_fits (record { entries = entries.now; time = time; gamma = gamma }) }
{
    let most = 1u128 << 38;
    let sum = sum_of_sizes(entries);
    let own = time.unsigned_abs();
    sum <= most && own <= most && sum + own <= most && !exceeds_power_of_two(gamma, 78)
}

// Returns the sum of the absolute values of coefficients.
fn sum_of_sizes(entries: &[Entry]) -> u128
    requires { length entries.now < 2 ^ 64 }
    ensures value { result ≡ sum_by (λ e. unsigned_abs e.coef) entries.now }
    ensures bound { result ≤ 2 ^ 127 }
{
    let mut sum: u128 = 0;
    for entry in entries {
        sum += size_of_coefficient(entry);
    }
    sum
}

// Returns the absolute value of a coefficient.
fn size_of_coefficient(entry: &Entry) -> u128
    ensures value { result ≡ unsigned_abs entry.now.coef }
    ensures bound { result ≤ 2 ^ 63 }
{
    u128::from(entry.coef.unsigned_abs())
}
