//! Builds the dependency graph of a flat model from the variables that right sides read. Sorts the
//! graph topologically, or finds a cycle in it.

ghost use Rattle.std.specs.Prelude.{◌≡◌, ◌<◌, ◌≤◌, ◌^◌, [], ◌++◌, ℕ, Bool, true, false, List, length, slice_index_or, Contains, All, MatchOption, IfOk, IfSome, IfNone, slice_index, map, OnOk};
ghost use Rattle.mu_causal.specs.Prelude.{flat_expression, flat_terms_of, flat_factors_of, flat_signed, flat_scaled, flat_equation, flat_variable, flat_model};
ghost use Rattle.mu_causal.specs.Words.{Graph, HasEdge, IsClosed, IsCausality, IsMarked, IsUnmarked, IsBlocked, IsUnblocked, AreFirstReaders, ArePassed, IsListing, Needs, IsCycle, IsTurned, names_of, names_of_terms, names_of_factors, row_at, AddsEquation, is_known, IsGraphOf};

use mu_tree::{FlatEquation, FlatExpr, FlatFactor, FlatModel, FlatRole, FlatTerm, FlatVar};
use std::alloc::{AllocError, Global};

/// The result for a dependency graph.
#[derive(Drop)]
pub enum Causality {
    /// The variables in causal order.
    Order(Vec<u32>),
    /// A cycle of dependencies.
    Loop(Vec<u32>),
}

/// Returns the variables in causal order, or a cycle. Each next variable is the least-numbered one
/// that reads only known and listed numbers. Known numbers are not listed. Errors: allocation
/// failure.
pub fn causality_of_graph(
    alloc: Global,
    graph: &[Vec<u32>],
    known: &[bool],
) -> Result<Causality, AllocError>
    requires size { length graph.now < 2 ^ 32 }
    requires same { length known.now ≡ length graph.now }
    requires closed { IsClosed graph.now }
    ensures { IfOk result (IsCausality graph.now known.now) }
{
    let mut marks = Vec::from_slice(alloc, known)?;
    let vars = list_ready_dependencies(alloc, graph, &mut marks)?;
    for v in 0..graph.len() {
        if !marks[v] {
            let vars = find_dependency_cycle(alloc, graph, &marks, v)?;
            return Ok(Causality::Loop(vars));
        }
    }
    Ok(Causality::Order(vars))
}

/// Returns the dependency graph. The row of an algebraic variable has the variables that its
/// equations read. Other rows are empty. The function reads each equation once. Errors: allocation
/// failure.
pub fn list_dependencies(alloc: Global, m: &FlatModel) -> Result<Vec<Vec<u32>>, AllocError>
    requires { length m.now.vars.items < 2 ^ 32 }
    ensures { IfOk result (λ graph. IsGraphOf (flat_model m.now) graph.items) }
{
    let known = known_dependencies(alloc, &m.vars)?;
    let mut graph = empty_dependency_rows(alloc, m.vars.len())?;
    for equation in &m.equations {
        push_equation_dependencies(&known, equation, &mut graph)?;
    }
    Ok(graph)
}

// Appends each next ready variable to the list and marks it, until none is ready. Returns the list.
// A variable that becomes ready reads the marked one. So the search for the next variable begins at
// the smaller of two numbers: the first reader of the marked variable, and the number after the
// marked variable.
fn list_ready_dependencies(
    alloc: Global,
    graph: &[Vec<u32>],
    marks: &mut [bool],
) -> Result<Vec<u32>, AllocError>
    requires size { length graph.now < 2 ^ 32 }
    requires same { length marks.old ≡ length graph.now }
    requires closed { IsClosed graph.now }
    ensures { IfOk result (λ vars. IsListing graph.now marks.old marks.new vars.items) }
{
    let readers = first_readers(alloc, graph)?;
    let mut passed = vec![in alloc; 0usize; graph.len()]?;
    let mut vars = Vec::new(alloc);
    let mut from = 0;
    while let Some(v) = next_ready_dependency(graph, marks, &mut passed, from) {
        marks[v] = true;
        vars.push(v as u32)?;
        from = readers[v].min(v + 1);
    }
    Ok(vars)
}

// Returns the first reader of each number: the least number that reads it, or the length of the
// graph if no number reads it.
fn first_readers(alloc: Global, graph: &[Vec<u32>]) -> Result<Vec<usize>, AllocError>
    requires { IsClosed graph.now }
    ensures { IfOk result (λ readers. AreFirstReaders graph.now readers.items) }
{
    let mut readers = vec![in alloc; graph.len(); graph.len()]?;
    for v in 0..graph.len() {
        lower_first_readers(&graph[v], v, &mut readers);
    }
    Ok(readers)
}

// Lowers the first reader of each number in the row of `v` to `v`.
fn lower_first_readers(row: &[u32], v: usize, readers: &mut Vec<usize>)
    requires known { All (λ w. w < length readers.old.items) row.now }
    ensures same_length { length readers.new.items ≡ length readers.old.items }
    ensures lower { (w : ℕ)
        → slice_index_or readers.new.items w 0 ≤ slice_index_or readers.old.items w 0 }
    ensures named { (k : ℕ) → k < length row.now
        → slice_index_or readers.new.items (slice_index_or row.now k 0) 0 ≤ v }
{
    for name in row {
        let w = *name as usize;
        readers[w] = readers[w].min(v);
    }
}

// Returns the least unmarked number that reads only marked ones. Each unmarked number below `from`
// reads an unmarked one.
fn next_ready_dependency(
    graph: &[Vec<u32>],
    marks: &[bool],
    passed: &mut [usize],
    from: usize,
) -> Option<usize>
    requires marks { length marks.now ≡ length graph.now }
    requires closed { IsClosed graph.now }
    requires passed { ArePassed graph.now marks.now passed.old }
    requires before { (w : ℕ) → w < from
        → IsUnmarked marks.now w
        → IsBlocked graph.now marks.now w }
    ensures passed { ArePassed graph.now marks.now passed.new }
    ensures found { IfSome result (λ v. IsUnblocked graph.now marks.now v) }
    ensures least { IfSome result
        (λ v. (w : ℕ) → w < v → IsUnmarked marks.now w → IsBlocked graph.now marks.now w) }
    ensures none { IfNone result
        ((w : ℕ) → w < length graph.now
        → IsUnmarked marks.now w
        → IsBlocked graph.now marks.now w) }
{
    for v in from..graph.len() {
        if !marks[v] {
            let names = &graph[v];
            let place = first_unmarked_dependency(names, marks, passed[v]);
            passed[v] = place;
            if place == names.len() {
                return Some(v);
            }
        }
    }
    None
}

// Returns the first position from `from` on whose number is unmarked, or the length.
pub fn first_unmarked_dependency(names: &[u32], marks: &[bool], from: usize) -> usize
    requires from { from ≤ length names.now }
    requires known { All (λ w. w < length marks.now) names.now }
    ensures from { from ≤ result }
    ensures end { result ≤ length names.now }
    ensures marked { (k : ℕ) → from ≤ k
        → k < result
        → IsMarked marks.now (slice_index_or names.now k 0) }
    ensures unmarked { result < length names.now
        → IsUnmarked marks.now (slice_index_or names.now result 0) }
{
    for place in from..names.len() {
        if !marks[names[place] as usize] {
            return place;
        }
    }
    names.len()
}

// Returns a cycle that is reachable from a number. Each unmarked number must read an unmarked
// number.
pub fn find_dependency_cycle(
    alloc: Global,
    graph: &[Vec<u32>],
    marks: &[bool],
    start: usize,
) -> Result<Vec<u32>, AllocError>
    requires size { length graph.now < 2 ^ 32 }
    requires marks { length marks.now ≡ length graph.now }
    requires closed { IsClosed graph.now }
    requires blocked { (w : ℕ) → w < length graph.now
        → IsUnmarked marks.now w
        → IsBlocked graph.now marks.now w }
    requires there { start < length graph.now }
    requires unmarked { IsUnmarked marks.now start }
    ensures { IfOk result (λ vars. IsCycle (Needs graph.now marks.now) vars.items) }
{
    let mut seen = vec![in alloc; false; graph.len()]?;
    let mut path = Vec::new(alloc);
    let mut v = start;
    while !seen[v] {
        seen[v] = true;
        path.push(v as u32)?;
        v = find_blocking_dependency(graph, marks, v);
    }
    let from = find_cycle_place(&path, v);
    rotate_dependency_cycle(alloc, &path[from..])
}

// Returns an unmarked number that v reads.
fn find_blocking_dependency(graph: &[Vec<u32>], marks: &[bool], v: usize) -> usize
    requires marks { length marks.now ≡ length graph.now }
    requires closed { IsClosed graph.now }
    requires there { v < length graph.now }
    requires blocked { IsBlocked graph.now marks.now v }
    ensures names { HasEdge graph.now v result }
    ensures unmarked { IsUnmarked marks.now result }
    ensures there { result < length graph.now }
{
    let names = &graph[v];
    let place = first_unmarked_dependency(names, marks, 0);
    names[place] as usize
}

// Returns the first position of a number in a list that contains it.
fn find_cycle_place(numbers: &[u32], number: usize) -> usize
    requires { Contains numbers.now number }
    ensures inside { result < length numbers.now }
    ensures value { slice_index numbers.now result ≡ number }
{
    for (place, other) in numbers.iter().enumerate() {
        if *other as usize == number {
            return place;
        }
    }
    unreachable!()
}

// Rotates a cycle so that its least number is first.
fn rotate_dependency_cycle(alloc: Global, round: &[u32]) -> Result<Vec<u32>, AllocError>
    requires { 0 < length round.now }
    ensures { IfOk result (λ vars. IsTurned round.now vars.items) }
{
    let place = least_cycle_place(round);
    let mut vars = Vec::from_slice(alloc, &round[place..])?;
    vars.extend_from_slice(&round[..place])?;
    Ok(vars)
}

// Returns the position of the least number in a nonempty list.
fn least_cycle_place(numbers: &[u32]) -> usize
    requires { 0 < length numbers.now }
    ensures inside { result < length numbers.now }
    ensures least { (k : ℕ) → k < length numbers.now
        → slice_index numbers.now result ≤ slice_index numbers.now k }
{
    let mut least = 0;
    for place in 1..numbers.len() {
        if numbers[place] < numbers[least] {
            least = place;
        }
    }
    least
}

/// Returns which variables are known from the start. Errors: allocation failure.
pub fn known_dependencies(alloc: Global, vars: &[FlatVar]) -> Result<Vec<bool>, AllocError>
    ensures { IfOk result
        (λ known. known.items ≡ map (λ v. is_known v.role) (map flat_variable vars.now)) }
{
    let mut known = Vec::new(alloc);
    for variable in vars {
        known.push(is_known_dependency(variable.role))?;
    }
    Ok(known)
}

// Returns whether a variable is known from the start: it is not algebraic.
fn is_known_dependency(role: FlatRole) -> bool
    ensures { result ≡ is_known role }
{
    match role {
        FlatRole::State | FlatRole::Discrete => true,
        FlatRole::Algebraic => false,
    }
}

// Returns an empty row for each of `count` numbers.
fn empty_dependency_rows(alloc: Global, count: usize) -> Result<Vec<Vec<u32>>, AllocError>
    ensures same_length { IfOk result (λ graph. length graph.items ≡ count) }
    ensures empty { IfOk result (λ graph. (v : ℕ) → row_at graph.items v ≡ []) }
{
    let mut graph: Vec<Vec<u32>> = Vec::new(alloc);
    for _made in 0..count {
        graph.push(Vec::new(alloc))?;
    }
    Ok(graph)
}

// Appends the variables that an equation reads to the row of its target, unless the target is known
// from the start.
fn push_equation_dependencies(
    known: &[bool],
    equation: &FlatEquation,
    graph: &mut Vec<Vec<u32>>,
) -> Result<(), AllocError>
    requires { length graph.old.items ≡ length known.now }
    ensures { OnOk result (AddsEquation known.now (flat_equation equation.now) graph.old.items
        graph.new.items) }
{
    let target = equation.target as usize;
    if target >= known.len() {
        return Ok(());
    }
    if known[target] {
        return Ok(());
    }
    push_dependencies(&equation.value, &mut graph[target])?;
    Ok(())
}

// Appends the variables that an expression reads.
#[cycle(naming)]
#[tactic(auto, using(std::proofs::Common::append_assoc))]
fn push_dependencies(e: &FlatExpr, names: &mut Vec<u32>) -> Result<(), AllocError>
    ensures { OnOk result (names.new.items ≡ names.old.items ++ names_of (flat_expression e.now)) }
{
    match e {
        FlatExpr::Var { var, .. } => {
            names.push(*var)?;
            Ok(())
        }
        FlatExpr::Const { .. } | FlatExpr::Pre { .. } | FlatExpr::Time { .. } => Ok(()),
        FlatExpr::Sum { terms } => push_term_dependencies(terms, names),
        FlatExpr::Product { factors } => push_factor_dependencies(factors, names),
        FlatExpr::Pow { base, .. } => push_dependencies(base, names),
    }
}

// Appends the variables that the terms read.
#[cycle(naming)]
#[tactic(auto, using(std::proofs::Common::append_assoc))]
fn push_term_dependencies(terms: &[FlatTerm], names: &mut Vec<u32>) -> Result<(), AllocError>
    ensures { OnOk result
        (names.new.items
        ≡ names.old.items ++ names_of_terms (flat_terms_of (map flat_signed terms.now))) }
{
    for term in terms {
        push_dependencies(&term.value, names)?;
    }
    Ok(())
}

// Appends the variables that the factors read.
#[cycle(naming)]
#[tactic(auto, using(std::proofs::Common::append_assoc))]
fn push_factor_dependencies(factors: &[FlatFactor], names: &mut Vec<u32>) -> Result<(), AllocError>
    ensures { OnOk result
        (names.new.items
        ≡ names.old.items ++ names_of_factors (flat_factors_of (map flat_scaled factors.now))) }
{
    for factor in factors {
        push_dependencies(&factor.value, names)?;
    }
    Ok(())
}
