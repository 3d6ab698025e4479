//! The scalar variables of a scope, one for each element of an array, and what the declared names
//! denote.

ghost use Rattle.std.specs.Prelude.{◌≡◌, ◌+◌, ◌^◌, ◌++◌, ◌≤◌, map, min, nat_lt, OnOk, IfOk};
ghost use Rattle.mu_unroll.specs.Prelude.{variable_limit, flat_variable};
ghost use Rattle.mu_unroll.specs.Nexts.{HasRoom, after_known, meant_at_next, next_after, next_number};
ghost use Rattle.mu_unroll.specs.Unrolling.{declared_in};
ghost use Rattle.mu_unroll.specs.VariablePlaces.{ArePlaced, count_of_kind, elements_from, element_name, has_kind, is_kind, kind_of, scalar, scalar_count, scalars_in, scalars_of, scalars_of_kind, width};
ghost use Rattle.mu_unroll.specs.VariableTables.{meant_at};

use crate::environment::NameDenotation;
use crate::flatten::is_flattened_kind;
use mu_io::Name;
use mu_names::{Known, Role, add};
use mu_tree::{FlatRole, FlatVar};
use std::alloc::{AllocError, Global};
use std::collections::BTreeMap;

/// The limit of scalar variables plus one, at which counts saturate.
const MANY: u32 = 4097;

// For each role, the number of the next variable.
#[derive(Clone, Copy, Drop)]
pub struct Next {
    pub state: u32,
    pub discrete: u32,
    pub algebraic: u32,
}

impl Next {
    // Returns the number of the next variable with this role.
    fn number(self, kind: FlatRole) -> u32
        ensures { result ≡ next_number self kind }
    {
        match kind {
            FlatRole::State => self.state,
            FlatRole::Discrete => self.discrete,
            FlatRole::Algebraic => self.algebraic,
        }
    }

    // Returns the next numbers after `count` more variables with this role.
    fn after(self, kind: FlatRole, count: u32) -> Next
        requires { next_number self kind + count ≤ variable_limit }
        ensures { result ≡ next_after self kind count }
    {
        match kind {
            FlatRole::State => Next {
                state: self.state + count,
                discrete: self.discrete,
                algebraic: self.algebraic,
            },
            FlatRole::Discrete => Next {
                state: self.state,
                discrete: self.discrete + count,
                algebraic: self.algebraic,
            },
            FlatRole::Algebraic => Next {
                state: self.state,
                discrete: self.discrete,
                algebraic: self.algebraic + count,
            },
        }
    }
}

/// Returns all scalar variables: states, then discrete variables, then algebraic variables. Errors:
/// allocation failure.
pub fn list_scalar_variables(alloc: Global, known: &[Known]) -> Result<Vec<FlatVar>, AllocError>
    ensures { IfOk result (λ vars. map flat_variable vars.items ≡ scalars_in known.now) }
{
    let mut vars = Vec::new(alloc);
    push_variables_of_kind(alloc, FlatRole::State, known, &mut vars)?;
    push_variables_of_kind(alloc, FlatRole::Discrete, known, &mut vars)?;
    push_variables_of_kind(alloc, FlatRole::Algebraic, known, &mut vars)?;
    Ok(vars)
}

/// Returns what each declared name denotes. Errors: allocation failure.
pub fn list_denotations<'a>(
    alloc: Global,
    known: &'a [Known],
) -> Result<BTreeMap<&'a [u8], NameDenotation>, AllocError>
    requires { scalar_count known.now ≤ variable_limit }
    ensures names { IfOk result (λ table. meant_at table ≡ declared_in known.now) }
    ensures placed { IfOk result (λ table. ArePlaced variable_limit (meant_at table)) }
{
    let discrete = count_scalar_variables(FlatRole::State, known);
    let algebraic = discrete + count_scalar_variables(FlatRole::Discrete, known);
    let mut next = Next {
        state: 0,
        discrete,
        algebraic,
    };
    let mut table = BTreeMap::new(alloc);
    for one in known {
        add(
            &mut table,
            one.name.bytes(),
            next_variable_denotation(next, one),
        )?;
        next = next_after_variable(next, one);
    }
    Ok(table)
}

/// Returns whether there are more than 4,096 scalar variables.
pub fn are_too_many_variables(known: &[Known]) -> bool
    ensures { result ≡ nat_lt (2 ^ 12) (scalar_count known.now) }
{
    let states = count_scalar_variables(FlatRole::State, known);
    let discretes = count_scalar_variables(FlatRole::Discrete, known);
    let algebraics = count_scalar_variables(FlatRole::Algebraic, known);
    states + discretes + algebraics >= MANY
}

// Appends the scalar variables with this role.
fn push_variables_of_kind(
    alloc: Global,
    kind: FlatRole,
    known: &[Known],
    vars: &mut Vec<FlatVar>,
) -> Result<(), AllocError>
    ensures { OnOk result
        (map flat_variable vars.new.items
        ≡ map flat_variable vars.old.items ++ scalars_of_kind kind known.now) }
{
    for one in known {
        if has_flat_role(kind, one) {
            push_scalar_variables(alloc, kind, one, vars)?;
        }
    }
    Ok(())
}

// Returns whether a declared name is a variable with this role.
fn has_flat_role(kind: FlatRole, known: &Known) -> bool
    ensures { result ≡ has_kind kind known.now }
{
    match flat_role_of(known.role) {
        Some(other) => is_flattened_kind(kind, other),
        None => false,
    }
}

// Returns the flat role of a variable; a parameter has none.
fn flat_role_of(role: Role) -> Option<FlatRole>
    ensures { result ≡ kind_of role }
{
    match role {
        Role::State => Some(FlatRole::State),
        Role::Discrete => Some(FlatRole::Discrete),
        Role::Algebraic => Some(FlatRole::Algebraic),
        Role::Parameter => None,
    }
}

// Appends the scalar variables of a name.
fn push_scalar_variables(
    alloc: Global,
    kind: FlatRole,
    known: &Known,
    vars: &mut Vec<FlatVar>,
) -> Result<(), AllocError>
    ensures { OnOk result
        (map flat_variable vars.new.items
        ≡ map flat_variable vars.old.items ++ scalars_of kind known.now) }
{
    match known.size {
        None => {
            let name = known.name.copy(alloc)?;
            vars.push(FlatVar {
                name,
                role: kind,
                start: known.start,
                quantum: known.quantum,
            })?;
            Ok(())
        }
        Some(count) => push_element_variables(alloc, kind, known, count, vars),
    }
}

// Appends the elements of an array.
fn push_element_variables(
    alloc: Global,
    kind: FlatRole,
    known: &Known,
    count: u32,
    vars: &mut Vec<FlatVar>,
) -> Result<(), AllocError>
    ensures { OnOk result
        (map flat_variable vars.new.items
        ≡ map flat_variable vars.old.items ++ elements_from kind known.now 1 count) }
{
    for before in 0..count {
        let name = name_element(alloc, known.name.bytes(), before + 1)?;
        vars.push(FlatVar {
            name,
            role: kind,
            start: known.start,
            quantum: known.quantum,
        })?;
    }
    Ok(())
}

// Returns the name of an array element, such as `x[3]`. Errors: allocation failure.
fn name_element(alloc: Global, name: &[u8], index: u32) -> Result<Name, AllocError>
    ensures { IfOk result (λ element. element ≡ element_name name.now index) }
{
    let digits = index.to_string(alloc)?;
    let mut bytes = Vec::from_slice(alloc, name)?;
    bytes.push(b'[')?;
    bytes.extend_from_slice(digits.as_bytes())?;
    bytes.push(b']')?;
    Name::new(alloc, &bytes)
}

// Returns the number of scalar variables with this role, saturated.
fn count_scalar_variables(kind: FlatRole, known: &[Known]) -> u32
    ensures { result ≡ min (count_of_kind kind known.now) 4097 }
{
    let mut count = 0;
    for one in known {
        if has_flat_role(kind, one) {
            count = (count + count_elements(one.size).min(MANY)).min(MANY);
        }
    }
    count
}

// Returns the number of scalar variables of a name.
fn count_elements(size: Option<u32>) -> u32
    ensures { result ≡ width size }
{
    match size {
        None => 1,
        Some(count) => count,
    }
}

// Returns what a declared name denotes if its variables get the next numbers.
fn next_variable_denotation(next: Next, known: &Known) -> NameDenotation
    ensures { result ≡ meant_at_next next known.now }
{
    match flat_role_of(known.role) {
        None => NameDenotation::Constant(known.value),
        Some(kind) => NameDenotation::Variable(kind, next.number(kind), known.size),
    }
}

// Returns the next numbers after the variables of a declared name.
fn next_after_variable(next: Next, known: &Known) -> Next
    requires { HasRoom next known.now }
    ensures { result ≡ after_known next known.now }
{
    match flat_role_of(known.role) {
        None => next,
        Some(kind) => next.after(kind, count_elements(known.size)),
    }
}
