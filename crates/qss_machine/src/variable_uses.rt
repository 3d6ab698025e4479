//! The dependency graph of a machine: the rows and conditions that read each variable, and its
//! coefficients in these rows. It is computed in one pass over all entries.

ghost use Rattle.std.specs.Prelude.{◌≡◌, ◌<◌, [], ◌+◌, ◌≤◌, ◌++◌, ◌||◌, ◌==◌, length, IfOk, slice_index_or, map, All, flat_map, replicate, List};
ghost use Rattle.qss_machine.specs.Prelude.{tabulate, variable_limit, condition_limit, list_any};
ghost use Rattle.qss_machine.specs.Machines.{state_count, discrete_count, row_coefficient};
ghost use Rattle.qss_machine.specs.Marks.{AppendsOnce, MarksBy, Collects, IsRowOf, IsConditionOf};
ghost use Rattle.qss_machine.specs.Readers.{uses_of, reading_rows, reading_coefficients, has_entry, row_reads, condition_reads, places_from};
ghost use Rattle.qss_machine.specs.declared.machine_parts.Condition.{Condition};

use crate::compiled_machine::Machine;
use crate::machine_parts::{BranchInfo, ClauseInfo, Entry, Product, SlopeRow};
use std::alloc::{AllocError, Global};
use std::marker::Model;

/// For each variable: the rows that read it, the conditions that read it, and its coefficients in
/// these rows. Contracts see three lists of lists.
#[derive(Drop)]
pub struct Uses {
    rows: Vec<Vec<u32>>,
    conditions: Vec<Vec<u32>>,
    coefficients: Vec<Vec<i64>>,
}

impl Model for Uses {
    ghost use Rattle.std.specs.Prelude.{ℕ, ℤ, List, map};

    ghost Value = { List (List ℕ) × List (List ℕ) × List (List ℤ) };

    ghost view = { λ u. (map (λ list. list.items) u.rows.items, map (λ list. list.items) u.conditions.items, map (λ list. list.items) u.coefficients.items) };
}

impl Uses {
    /// Computes the readers of all variables of a machine. Fails if it is out of memory.
    pub fn new(alloc: Global, m: &Machine) -> Result<Self, AllocError>
        ensures { IfOk result (λ uses. uses ≡ uses_of m.now) }
    {
        let states = m.states.as_slice().len() as u32;
        let discretes = m.discretes.as_slice().len() as u32;
        let rows = row_uses_by_variable(alloc, m.rows.as_slice(), states + discretes)?;
        let conditions = condition_uses_by_variable(
            alloc,
            m.clauses.as_slice(),
            states + discretes + discretes,
        )?;
        let coefficients = coefficient_uses_by_variable(alloc, m, rows.as_slice())?;
        Ok(Uses {
            rows,
            conditions,
            coefficients,
        })
    }

    /// Returns the rows that read a state or a discrete variable, in increasing order.
    pub fn rows_of(&self, var: u32) -> &[u32]
        requires { var < length self.now.0 }
        ensures { result.now ≡ slice_index_or self.now.0 var [] }
    {
        self.rows[var as usize].as_slice()
    }

    /// Returns the conditions that read a state, a discrete variable or its value before the tick,
    /// in increasing order. Conditions are numbered in source order.
    pub fn conditions_of(&self, var: u32) -> &[u32]
        requires { var < length self.now.1 }
        ensures { result.now ≡ slice_index_or self.now.1 var [] }
    {
        self.conditions[var as usize].as_slice()
    }

    /// Returns the coefficients of a state or a discrete variable in the rows that read it, in the
    /// order of `rows_of`, in units of 2^-p. The coefficient is 0 if a row reads the variable only
    /// in products.
    pub fn coefficients_of(&self, var: u32) -> &[i64]
        requires { var < length self.now.2 }
        ensures { result.now ≡ slice_index_or self.now.2 var [] }
    {
        self.coefficients[var as usize].as_slice()
    }
}

/// For each variable below `count`, returns the rows that read it.
pub(crate) fn row_uses_by_variable(
    alloc: Global,
    rows: &[SlopeRow],
    count: u32,
) -> Result<Vec<Vec<u32>>, AllocError>
    requires count_limit { length rows.now ≤ variable_limit }
    requires known { All (IsRowOf count) rows.now }
    ensures { IfOk result
        (λ lists. map (λ list. list.items) lists.items
        ≡ tabulate count (λ var. places_from (row_reads var) 0 rows.now)) }
{
    let mut lists = empty_use_lists(alloc, count)?;
    for place in 0..rows.len() {
        mark_row_uses(&mut lists, &rows[place], place as u32)?;
    }
    Ok(lists)
}

// Returns `count` empty lists.
fn empty_use_lists(alloc: Global, count: u32) -> Result<Vec<Vec<u32>>, AllocError>
    ensures { IfOk result (λ lists. map (λ list. list.items) lists.items ≡ replicate count []) }
{
    let mut lists: Vec<Vec<u32>> = Vec::new(alloc);
    for _ in 0..count {
        lists.push(Vec::new(alloc))?;
    }
    Ok(lists)
}

// Appends a place to the lists of all variables that a row reads.
fn mark_row_uses(lists: &mut Vec<Vec<u32>>, row: &SlopeRow, place: u32) -> Result<(), AllocError>
    requires { IsRowOf (length lists.old.items) row.now }
    ensures { IfOk result
        (λ done. MarksBy (map (λ list. list.items) lists.old.items)
        (map (λ list. list.items) lists.new.items) place (λ v. row_reads v row.now)) }
{
    mark_entry_uses(lists, row.entries.as_slice(), place)?;
    mark_product_uses(lists, row.products.as_slice(), place)?;
    Ok(())
}

// Appends a place to the lists of the entries' variables.
fn mark_entry_uses(
    lists: &mut Vec<Vec<u32>>,
    entries: &[Entry],
    place: u32,
) -> Result<(), AllocError>
    requires { All (λ entry. entry.var < length lists.old.items) entries.now }
    ensures { IfOk result
        (λ done. MarksBy (map (λ list. list.items) lists.old.items)
        (map (λ list. list.items) lists.new.items) place (λ v. has_entry v entries.now)) }
{
    for entry in entries {
        mark_reader(lists, entry.var, place)?;
    }
    Ok(())
}

// Appends a place to the list of a variable, unless the last element is this place.
fn mark_reader(lists: &mut Vec<Vec<u32>>, var: u32, place: u32) -> Result<(), AllocError>
    requires { var < length lists.old.items }
    ensures { IfOk result
        (λ done. MarksBy (map (λ list. list.items) lists.old.items)
        (map (λ list. list.items) lists.new.items) place (λ v. var == v)) }
{
    push_use_once(&mut lists[var as usize], place)
}

// Appends a place to a list, unless the last element is this place.
fn push_use_once(list: &mut Vec<u32>, place: u32) -> Result<(), AllocError>
    ensures { IfOk result (λ done. AppendsOnce list.old.items list.new.items place) }
{
    let count = list.len();
    if count > 0 && list[count - 1] == place {
        return Ok(());
    }
    list.push(place)?;
    Ok(())
}

// Appends a place to the lists of the products' variables.
fn mark_product_uses(
    lists: &mut Vec<Vec<u32>>,
    products: &[Product],
    place: u32,
) -> Result<(), AllocError>
    requires { All
        (λ product. (product.state < length lists.old.items)
        × (product.discrete < length lists.old.items))
        products.now }
    ensures { IfOk result
        (λ done. MarksBy (map (λ list. list.items) lists.old.items)
        (map (λ list. list.items) lists.new.items) place
        (λ v. list_any (λ product. product.state == v || product.discrete == v) products.now)) }
{
    for product in products {
        mark_product_use(lists, *product, place)?;
    }
    Ok(())
}

// Appends a place to the lists of a product's state and discrete variable.
fn mark_product_use(
    lists: &mut Vec<Vec<u32>>,
    product: Product,
    place: u32,
) -> Result<(), AllocError>
    requires { (product.state < length lists.old.items)
        × (product.discrete < length lists.old.items) }
    ensures { IfOk result
        (λ done. MarksBy (map (λ list. list.items) lists.old.items)
        (map (λ list. list.items) lists.new.items) place
        (λ v. product.state == v || product.discrete == v)) }
{
    mark_reader(lists, product.state, place)?;
    mark_reader(lists, product.discrete, place)?;
    Ok(())
}

/// For each variable below `count`, returns the conditions that read it.
pub(crate) fn condition_uses_by_variable(
    alloc: Global,
    clauses: &[ClauseInfo],
    count: u32,
) -> Result<Vec<Vec<u32>>, AllocError>
    requires count_limit { length
        (flat_map (λ clause. map (λ branch. branch.condition) clause.branches) clauses.now)
        ≤ condition_limit }
    requires known { All
        (λ clause. All (λ branch. IsConditionOf count branch.condition) clause.branches)
        clauses.now }
    ensures { IfOk result
        (λ lists. map (λ list. list.items) lists.items
        ≡ tabulate count
        (λ var. places_from (condition_reads var) 0
        (flat_map (λ clause. map (λ branch. branch.condition) clause.branches)
        clauses.now))) }
{
    let mut lists = empty_use_lists(alloc, count)?;
    let mut first: u32 = 0;
    for clause in clauses {
        first = mark_branch_uses(&mut lists, clause.branches.as_slice(), first)?;
    }
    Ok(lists)
}

// Appends each branch's number to the lists of the variables of its condition. `first` is the
// number of the first branch. Returns the number after the last branch.
fn mark_branch_uses(
    lists: &mut Vec<Vec<u32>>,
    branches: &[BranchInfo],
    first: u32,
) -> Result<u32, AllocError>
    requires count_limit { first + length branches.now ≤ condition_limit }
    requires known { All (λ branch. IsConditionOf (length lists.old.items) branch.condition)
        branches.now }
    ensures next { IfOk result (λ next. next ≡ first + length branches.now) }
    ensures same_length { IfOk result (λ next. length lists.new.items ≡ length lists.old.items) }
    ensures marks { IfOk result
        (λ next. (before : List Condition)
        → length before ≡ first
        → Collects condition_reads before (length lists.old.items)
        (map (λ list. list.items) lists.old.items)
        → Collects condition_reads (before ++ map (λ branch. branch.condition) branches.now)
        (length lists.old.items) (map (λ list. list.items) lists.new.items)) }
{
    for place in 0..branches.len() {
        let form = &branches[place].condition.form;
        mark_entry_uses(lists, form.entries.as_slice(), first + place as u32)?;
    }
    Ok(first + branches.len() as u32)
}

/// For each state and each discrete variable, returns its coefficients in the rows that read it.
pub(crate) fn coefficient_uses_by_variable(
    alloc: Global,
    m: &Machine,
    rows: &[Vec<u32>],
) -> Result<Vec<Vec<i64>>, AllocError>
    requires { map (λ list. list.items) rows.now
        ≡ tabulate (state_count m.now + discrete_count m.now) (reading_rows m.now) }
    ensures { IfOk result (λ lists. map (λ list. list.items) lists.items
        ≡ tabulate (state_count m.now + discrete_count m.now) (reading_coefficients m.now)) }
{
    let mut lists: Vec<Vec<i64>> = Vec::with_capacity(alloc, rows.len())?;
    for var in 0..rows.len() {
        let readers = rows[var].as_slice();
        let list = coefficients_of_use(alloc, m, readers, var as u32)?;
        lists.push_reserved(list);
    }
    Ok(lists)
}

// Returns the coefficients of a variable in the given rows.
fn coefficients_of_use(
    alloc: Global,
    m: &Machine,
    rows: &[u32],
    var: u32,
) -> Result<Vec<i64>, AllocError>
    requires { All (λ row. row < state_count m.now) rows.now }
    ensures { IfOk result
        (λ list. list.items ≡ map (λ row. row_coefficient m.now row var) rows.now) }
{
    let mut list: Vec<i64> = Vec::with_capacity(alloc, rows.len())?;
    for row in rows {
        list.push_reserved(m.coef(*row, var));
    }
    Ok(list)
}
