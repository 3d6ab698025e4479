//! The declared names of a model with their roles, array sizes and values, and the model's
//! settings. Faults of declarations and settings are recorded.

ghost use Rattle.std.specs.Prelude.{◌≡◌, [], ◌∷◌, ◌<◌, ◌||◌, if◌then◌else◌, pos, ℕ, List, nat_eq, map, length, IfOk, OnOk};
ghost use Rattle.mu_names.specs.Prelude.{option_map, expression, declaration, equation, equations_of, model, setting};
ghost use Rattle.mu_names.specs.DeclarationFaults.{all_valued, binding_faults, constants_after, constants_with, declaration_faults, declarations_faults, is_constant, is_size, meaning_after, meaning_of, optional_faults, optional_value, repeated_faults, size_faults, size_of, valued, whole_faults};
ghost use Rattle.mu_names.specs.DeclaredRoles.{declared_in, derived, derived_all, derived_in, is_among, role_by};
ghost use Rattle.mu_names.specs.LeastFaults.{least_of};
ghost use Rattle.mu_names.specs.NameTables.{added_at, entry_at, name_kind_at, is_entry};
ghost use Rattle.mu_names.specs.Roles.{all_known, known_as, default_settings, role_value, setting_number, settings_faults, settings_from, with_setting};
ghost use Rattle.mu_names.specs.declared.name_fault.NameErr.TheVariants.{Duplicate};

use crate::constant_values::{Meaning, Meanings, evaluate_constant};
use crate::name_checks::{check_declared_standing, check_name_taken};
use crate::name_fault::{NameErr, keep_least_fault};
use crate::name_kind::{NameKind, Role};
use crate::name_table::{add, find};
use mu_io::{Items, Name};
use mu_num::Ratio;
use mu_tree::{Decl, Equation, Expr, Model, Prefix, SettingItem, SettingName, Settings};
use std::alloc::{AllocError, Global};
use std::collections::BTreeMap;

// The denotation of names in declarations and settings.
#[derive(Drop)]
struct Constants<'v, 'w, 'a, 'b> {
    declared: &'v BTreeMap<&'a [u8], NameKind>,
    values: &'w BTreeMap<&'b [u8], Option<Ratio>>,
}

impl<'v, 'w, 'a, 'b> Meanings for Constants<'v, 'w, 'a, 'b> {
    ghost meaning = { λ c. meaning_after (entry_at c.values.now) (name_kind_at c.declared.now) };

    fn meaning(&self, name: &[u8]) -> Meaning {
        declared_meaning(
            find(self.values, name),
            check_declared_standing(self.declared, name),
        )
    }
}

/// The properties of a declared name.
#[derive(Drop)]
pub struct Known {
    pub name: Name,
    pub role: Role,
    /// The array size, from 1 to 4,096, or `None` for a scalar.
    pub size: Option<u32>,
    /// The value of a parameter, and 0 for all other roles.
    pub value: Ratio,
    /// The declared start value, or 0.
    pub start: Ratio,
    /// The declared quantum, or the model's quantum.
    pub quantum: Ratio,
    /// The source offset of the name.
    pub at: u32,
}

/// The declared names in source order, and the settings.
#[derive(Drop)]
pub struct Scope {
    pub known: Items<Known>,
    pub settings: Settings,
}

// The values of a declaration: `None` for a part that is missing or has no value.
#[derive(Clone, Copy, Drop)]
pub struct DeclarationValues {
    pub size: Option<u32>,
    pub value: Option<Ratio>,
    pub start: Option<Ratio>,
    pub quantum: Option<Ratio>,
}

/// Returns the names whose derivative is a left side in the model. Errors: allocation failure.
pub fn derived_names<'a>(
    alloc: Global,
    equations: &'a [Equation],
) -> Result<BTreeMap<&'a [u8], ()>, AllocError>
    ensures { IfOk result
        (λ names. is_entry names
        ≡ is_among (derived_all (equations_of (map equation equations.now)))) }
{
    let mut names = BTreeMap::new(alloc);
    add_all_derived_names(equations, &mut names)?;
    Ok(names)
}

/// Returns the role of each declared name, and records a fault for each repeated declaration.
/// Errors: allocation failure.
pub fn declared_names<'a>(
    alloc: Global,
    derived: &BTreeMap<&[u8], ()>,
    m: &'a Model,
    least: &mut Option<NameErr>,
) -> Result<BTreeMap<&'a [u8], NameKind>, AllocError>
    requires { is_entry derived.now ≡ is_among (derived_in (model m.now)) }
    ensures table { IfOk result (λ table. name_kind_at table ≡ declared_in (model m.now)) }
    ensures faults { OnOk result
        (least.new
        ≡ least_of least.old
        (repeated_faults (derived_in (model m.now)) [] (model m.now).decls)) }
{
    let mut table = BTreeMap::new(alloc);
    for d in &m.decls {
        let name = d.name.bytes();
        check_name_taken(d.at, check_declared_standing(&table, name), least);
        let standing = NameKind::Declared(declared_role(derived, d), d.size.is_some());
        add(&mut table, name, standing)?;
    }
    Ok(table)
}

/// Returns the values of the declarations and records their faults. Each declaration may use the
/// constants before it. Their constants are added to the table. Errors: allocation failure.
#[tactic(auto, using(crate::proofs::LeastLemmas::least_of_append))]
pub fn evaluate_declarations<'a>(
    alloc: Global,
    declared: &BTreeMap<&[u8], NameKind>,
    constants: &mut BTreeMap<&'a [u8], Option<Ratio>>,
    decls: &'a [Decl],
    least: &mut Option<NameErr>,
) -> Result<Vec<DeclarationValues>, AllocError>
    ensures values { IfOk result
        (λ all. all.items
        ≡ all_valued (name_kind_at declared.now) (entry_at constants.old)
        (map declaration decls.now)) }
    ensures constants { OnOk result
        (entry_at constants.new
        ≡ constants_after (name_kind_at declared.now) (entry_at constants.old)
        (map declaration decls.now)) }
    ensures faults { OnOk result
        (least.new
        ≡ least_of least.old
        (declarations_faults (name_kind_at declared.now) (entry_at constants.old)
        (map declaration decls.now))) }
{
    let mut all = Vec::new(alloc);
    for d in decls {
        all.push(evaluate_and_declare(declared, constants, d, least)?)?;
    }
    Ok(all)
}

/// Returns the settings of a model, and records their faults.
pub fn model_settings(
    declared: &BTreeMap<&[u8], NameKind>,
    constants: &BTreeMap<&[u8], Option<Ratio>>,
    items: &[SettingItem],
    least: &mut Option<NameErr>,
) -> Settings
    ensures settings { result
        ≡ settings_from (meaning_after (entry_at constants.now) (name_kind_at declared.now))
        default_settings (map setting items.now) }
    ensures faults { least.new
        ≡ least_of least.old
        (settings_faults (meaning_after (entry_at constants.now) (name_kind_at declared.now)) []
        (map setting items.now)) }
{
    let meanings = Constants {
        declared,
        values: constants,
    };
    evaluate_scope_settings(&meanings, items, least)
}

/// Returns the properties of the declared names, in source order. Errors: allocation failure.
pub fn known_declared_names(
    alloc: Global,
    derived: &BTreeMap<&[u8], ()>,
    quantum: Ratio,
    m: &Model,
    values: &[DeclarationValues],
) -> Result<Vec<Known>, AllocError>
    requires derived { is_entry derived.now ≡ is_among (derived_in (model m.now)) }
    requires same { length values.now ≡ length (model m.now).decls }
    ensures { IfOk result
        (λ known. known.items
        ≡ all_known quantum (derived_in (model m.now)) (model m.now).decls values.now) }
{
    let mut known = Vec::new(alloc);
    for (place, d) in m.decls.iter().enumerate() {
        known.push(known_declared_name(alloc, derived, quantum, d, values[place])?)?;
    }
    Ok(known)
}

// Returns what a name denotes: a known constant, or what a name that is not yet a constant is.
fn declared_meaning(value: Option<Option<Ratio>>, other: NameKind) -> Meaning
    ensures { result ≡ meaning_of value other }
{
    match value {
        Some(value) => Meaning::Constant(value),
        None => match other {
            NameKind::Declared(role, _) => match role {
                Role::Parameter => Meaning::Undeclared,
                Role::State | Role::Discrete | Role::Algebraic => Meaning::Variable,
            },
            NameKind::Loop | NameKind::Missing => Meaning::Undeclared,
        },
    }
}

// Adds the names whose derivative is a left side of these equations.
#[cycle(deriving)]
fn add_all_derived_names<'a>(
    equations: &'a [Equation],
    names: &mut BTreeMap<&'a [u8], ()>,
) -> Result<(), AllocError>
    ensures { OnOk result
        ((q : List ℕ)
        → is_entry names.new q
        ≡ is_entry names.old q
        || is_among (derived_all (equations_of (map equation equations.now))) q) }
{
    for one in equations {
        add_derived_name(one, names)?;
    }
    Ok(())
}

// Adds the names whose derivative is the left side of this equation.
#[cycle(deriving)]
fn add_derived_name<'a>(
    one: &'a Equation,
    names: &mut BTreeMap<&'a [u8], ()>,
) -> Result<(), AllocError>
    ensures { OnOk result
        ((q : List ℕ)
        → is_entry names.new q
        ≡ is_entry names.old q || is_among (derived (equation one.now)) q) }
{
    match one {
        Equation::Der { target, .. } => add(names, target.name.bytes(), ()),
        Equation::Plain { .. } => Ok(()),
        Equation::For { body, .. } => add_all_derived_names(body, names),
    }
}

// Returns the role of a declared name.
fn declared_role(derived: &BTreeMap<&[u8], ()>, d: &Decl) -> Role
    ensures { result
        ≡ role_by (declaration d.now).prefix (is_entry derived.now (declaration d.now).name) }
{
    declared_role_of_prefix(d.prefix, find(derived, d.name.bytes()).is_some())
}

// Returns the role for a prefix. A variable whose derivative is defined is a state.
fn declared_role_of_prefix(prefix: Prefix, derived: bool) -> Role
    ensures { result ≡ role_by prefix derived }
{
    match prefix {
        Prefix::Parameter | Prefix::Constant => Role::Parameter,
        Prefix::Discrete => Role::Discrete,
        Prefix::Plain => {
            if derived {
                Role::State
            } else {
                Role::Algebraic
            }
        }
    }
}

// Returns the values of a declaration, records its faults, and adds its constant to the table.
fn evaluate_and_declare<'a>(
    declared: &BTreeMap<&[u8], NameKind>,
    constants: &mut BTreeMap<&'a [u8], Option<Ratio>>,
    d: &'a Decl,
    least: &mut Option<NameErr>,
) -> Result<DeclarationValues, AllocError>
    ensures value { IfOk result
        (λ v. v
        ≡ valued (meaning_after (entry_at constants.old) (name_kind_at declared.now))
        (declaration d.now)) }
    ensures constants { OnOk result
        (entry_at constants.new
        ≡ constants_with (meaning_after (entry_at constants.old) (name_kind_at declared.now))
        (entry_at constants.old) (declaration d.now)) }
    ensures faults { OnOk result
        (least.new
        ≡ least_of least.old
        (declaration_faults
        (meaning_after (entry_at constants.old) (name_kind_at declared.now))
        (declaration d.now))) }
{
    let valued = evaluate_declaration_after(declared, constants, d, least);
    add_declared_constant(
        is_constant_declaration(d.prefix),
        constants,
        d.name.bytes(),
        valued.value,
    )?;
    Ok(valued)
}

// Returns the values of a declaration that may use these constants, and records its faults.
fn evaluate_declaration_after(
    declared: &BTreeMap<&[u8], NameKind>,
    constants: &BTreeMap<&[u8], Option<Ratio>>,
    d: &Decl,
    least: &mut Option<NameErr>,
) -> DeclarationValues
    ensures value { result
        ≡ valued (meaning_after (entry_at constants.now) (name_kind_at declared.now))
        (declaration d.now) }
    ensures faults { least.new
        ≡ least_of least.old
        (declaration_faults (meaning_after (entry_at constants.now) (name_kind_at declared.now))
        (declaration d.now)) }
{
    let meanings = Constants {
        declared,
        values: constants,
    };
    evaluate_declaration(&meanings, d, least)
}

// Returns the values of a declaration, and records its faults.
#[tactic(auto, using(crate::proofs::LeastLemmas::least_of_append))]
fn evaluate_declaration<M: Meanings>(
    meanings: &M,
    d: &Decl,
    least: &mut Option<NameErr>,
) -> DeclarationValues
    ensures value { result ≡ valued (M.meaning meanings.now) (declaration d.now) }
    ensures faults { least.new
        ≡ least_of least.old (declaration_faults (M.meaning meanings.now) (declaration d.now)) }
{
    let size = evaluate_declared_expression(meanings, &d.size, least);
    let size = declared_array_size(size, d.at, least);
    let start = evaluate_declared_expression(meanings, &d.start, least);
    let quantum = evaluate_declared_expression(meanings, &d.quantum, least);
    let value = evaluate_declared_expression(meanings, &d.value, least);
    let constant = is_constant_declaration(d.prefix);
    note_whole_declaration(constant && d.whole, d.at, value, least);
    note_declaration_binding(constant, d.size.is_some(), d.value.is_some(), d.at, least);
    DeclarationValues {
        size,
        value,
        start,
        quantum,
    }
}

// Returns the value of an optional expression, and records the faults of its parts.
fn evaluate_declared_expression<M: Meanings>(
    meanings: &M,
    e: &Option<Expr>,
    least: &mut Option<NameErr>,
) -> Option<Ratio>
    ensures value { result ≡ optional_value (M.meaning meanings.now) (option_map expression e.now) }
    ensures faults { least.new
        ≡ least_of least.old
        (optional_faults (M.meaning meanings.now) (option_map expression e.now)) }
{
    match e {
        None => None,
        Some(e) => evaluate_constant(meanings, e, least),
    }
}

// Returns the array size, and records the fault of an invalid size.
fn declared_array_size(value: Option<Ratio>, at: u32, least: &mut Option<NameErr>) -> Option<u32>
    ensures size { result ≡ size_of value }
    ensures faults { least.new ≡ least_of least.old (size_faults at value) }
{
    let value = value?;
    if !is_whole_declared_value(value) {
        keep_least_fault(least, NameErr::NotWhole { at });
        return None;
    }
    let number = value.num();
    if !is_declared_array_size(number) {
        keep_least_fault(least, NameErr::Size { at, value: number });
        return None;
    }
    Some(number.unsigned_abs() as u32)
}

// Returns whether a value is an integer.
fn is_whole_declared_value(value: Ratio) -> bool
    ensures { result ≡ nat_eq value.den 1 }
{
    value.den() == 1
}

// Returns whether a number is a valid array size.
fn is_declared_array_size(number: i128) -> bool
    ensures { result ≡ is_size number }
{
    1 <= number && number <= 4096
}

// Returns whether a prefix declares a parameter or a constant.
fn is_constant_declaration(prefix: Prefix) -> bool
    ensures { result ≡ is_constant prefix }
{
    match prefix {
        Prefix::Parameter | Prefix::Constant => true,
        Prefix::Discrete | Prefix::Plain => false,
    }
}

// Records a fault if an Integer parameter has a value that is no integer.
fn note_whole_declaration(whole: bool, at: u32, value: Option<Ratio>, least: &mut Option<NameErr>)
    ensures { least.new ≡ least_of least.old (whole_faults whole at value) }
{
    if whole {
        match value {
            None => {}
            Some(value) => {
                if !is_whole_declared_value(value) {
                    keep_least_fault(least, NameErr::NotWhole { at });
                }
            }
        }
    }
}

// Records a fault if a declaration has a binding or an array size that is not allowed, or if a
// required value is missing.
fn note_declaration_binding(
    constant: bool,
    array: bool,
    bound: bool,
    at: u32,
    least: &mut Option<NameErr>,
)
    ensures { least.new ≡ least_of least.old (binding_faults constant array bound at) }
{
    if constant {
        if array {
            keep_least_fault(least, NameErr::Misused { at });
        }
        if !bound {
            keep_least_fault(least, NameErr::NoValue { at });
        }
    } else if bound {
        keep_least_fault(least, NameErr::Misused { at });
    }
}

// Adds the name to the constants, if it is a constant.
fn add_declared_constant<'a>(
    constant: bool,
    constants: &mut BTreeMap<&'a [u8], Option<Ratio>>,
    name: &'a [u8],
    value: Option<Ratio>,
) -> Result<(), AllocError>
    ensures { OnOk result
        (entry_at constants.new
        ≡ (if constant
        then added_at (entry_at constants.old) name.now value
        else entry_at constants.old)) }
{
    if constant {
        add(constants, name, value)
    } else {
        Ok(())
    }
}

// Returns the default settings, overridden by the written ones, and records their faults.
#[tactic(auto, using(crate::proofs::LeastLemmas::least_of_append))]
fn evaluate_scope_settings<M: Meanings>(
    meanings: &M,
    items: &[SettingItem],
    least: &mut Option<NameErr>,
) -> Settings
    ensures settings { result
        ≡ settings_from (M.meaning meanings.now) default_settings (map setting items.now) }
    ensures faults { least.new
        ≡ least_of least.old (settings_faults (M.meaning meanings.now) [] (map setting items.now)) }
{
    let mut settings = default_scope_settings();
    let mut written = [false; 6];
    for item in items {
        let place = declared_setting_number(item.which);
        note_repeated_setting(written[place], item.at, least);
        written[place] = true;
        let value = evaluate_constant(meanings, &item.value, least);
        settings = replace_declared_setting(settings, item.which, value);
    }
    settings
}

// Returns the default settings.
fn default_scope_settings() -> Settings
    ensures { result ≡ default_settings }
{
    Settings {
        start: Ratio::whole(0),
        stop: Ratio::whole(1),
        coef_bits: Ratio::whole(24),
        tick_bits: Ratio::whole(10),
        level_bits: Ratio::whole(16),
        quantum: default_scope_quantum(),
    }
}

// Returns 1/1024.
fn default_scope_quantum() -> Ratio
    ensures { result ≡ record { num = pos 1; den = 1024 } }
{
    match Ratio::whole(1).div(Ratio::whole(1024)) {
        Ok(quantum) => quantum,
        Err(_) => unreachable!(),
    }
}

// Returns the index of a setting among the six.
fn declared_setting_number(which: SettingName) -> usize
    ensures place { result ≡ setting_number which }
    ensures among { result < 6 }
{
    match which {
        SettingName::StartTime => 0,
        SettingName::StopTime => 1,
        SettingName::CoefBits => 2,
        SettingName::TickBits => 3,
        SettingName::LevelBits => 4,
        SettingName::Quantum => 5,
    }
}

// Records a fault if a setting is repeated.
fn note_repeated_setting(again: bool, at: u32, least: &mut Option<NameErr>)
    ensures { least.new ≡ least_of least.old (if again then Duplicate at ∷ [] else []) }
{
    if again {
        keep_least_fault(least, NameErr::Duplicate { at });
    }
}

// Returns the settings with one value replaced.
fn replace_declared_setting(
    settings: Settings,
    which: SettingName,
    value: Option<Ratio>,
) -> Settings
    ensures { result ≡ with_setting settings which value }
{
    let mut changed = settings;
    match value {
        None => {}
        Some(value) => match which {
            SettingName::StartTime => changed.start = value,
            SettingName::StopTime => changed.stop = value,
            SettingName::CoefBits => changed.coef_bits = value,
            SettingName::TickBits => changed.tick_bits = value,
            SettingName::LevelBits => changed.level_bits = value,
            SettingName::Quantum => changed.quantum = value,
        },
    }
    changed
}

// Returns the properties of a declared name. Errors: allocation failure.
fn known_declared_name(
    alloc: Global,
    derived: &BTreeMap<&[u8], ()>,
    quantum: Ratio,
    d: &Decl,
    value: DeclarationValues,
) -> Result<Known, AllocError>
    ensures { IfOk result
        (λ known. known
        ≡ known_as quantum
        (role_by (declaration d.now).prefix (is_entry derived.now (declaration d.now).name))
        (declaration d.now) value) }
{
    let role = declared_role(derived, d);
    let name = d.name.copy(alloc)?;
    Ok(Known {
        name,
        role,
        size: value.size,
        value: declared_role_value(role, value.value),
        start: value.start.unwrap_or(Ratio::whole(0)),
        quantum: value.quantum.unwrap_or(quantum),
        at: d.at,
    })
}

// Returns the value of a parameter, and 0 for all other roles.
fn declared_role_value(role: Role, value: Option<Ratio>) -> Ratio
    ensures { result ≡ role_value role value }
{
    match role {
        Role::Parameter => value.unwrap_or(Ratio::whole(0)),
        Role::State | Role::Discrete | Role::Algebraic => Ratio::whole(0),
    }
}
