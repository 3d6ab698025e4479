//! Builds the machine of a flat model from its exact forms and its settings. It computes the units,
//! and converts states, discrete variables and clauses to them. Each number is rounded once.

ghost use Rattle.std.specs.Prelude.{◌≡◌, ◌+◌, ◌^◌, ◌<◌, ◌≤◌, ◌&&◌, ◌≤ℤ◌, None, length, map, sum_by, IfOk, IfErr, true, false, Some, IfNone, IfSome, pos, int_lt, nat_le};
ghost use Rattle.mu_affine.specs.Prelude.{flat_action, flat_branch, flat_clause, flat_variable, flat_model, HasUnits, AreVariables, AreRows, AreClauses, variable_limit, tick_limit, IsLevel, AreLevels, IsFlatModel};
ghost use Rattle.mu_affine.specs.FormPlaces.{action_of, actions_of, branch_forms, branch_of, clause_forms, clauses_of, form_at, placed, rel_of, is_state, is_discrete, state_count, discrete_count, states_of, discretes_of};
ghost use Rattle.mu_affine.specs.MachineChecks.{IsRefusal, first_failed, form_checks, bits_of, is_bits, last_of, setting_checks, checks, is_quantum, is_start, is_value, start_level, machine_checks};
ghost use Rattle.mu_affine.specs.Rounded.{rounded_form, rounded_up, rounded, rounded_down, rounded_state, rounded_discrete};
ghost use Rattle.mu_affine.specs.RoundedMachines.{AreFormsFor, IsMachineOf};
ghost use Rattle.mu_affine.specs.declared.machine_fault.MachineErr.TheVariants.{Start, Quantum};

use crate::exact_form::{ExactForm, Forms};
use crate::machine_fault::MachineErr;
use crate::rounded_form::{
    check_start_row_sums, round_form, round_form_number, round_form_number_down,
    round_form_number_up, round_form_rows,
};
use mu_io::Items;
use mu_num::{LEVEL_BITS, Ratio, STATE_BITS, exceeds_power_of_two, floor_div, unit};
use mu_tree::{
    FlatBranch, FlatClause, FlatModel, FlatRole, FlatStatement, FlatVar, Rel as ReadRel,
    SettingName, Settings,
};
use qss_machine::{
    Action, BranchInfo, ClauseInfo, Condition, DiscreteInfo, Form, Machine, Rel, SlopeRow,
    StateInfo,
};
use std::alloc::{AllocError, Global};

/// A converted list, and the index of the next form.
#[derive(Drop)]
pub(crate) struct Placed<T> {
    pub items: Vec<T>,
    pub next: usize,
}

/// The binary places of a machine's units, and its last tick.
#[derive(Clone, Copy)]
pub(crate) struct Units {
    /// The binary places of coefficients: their unit is 2^-p.
    pub p: u8,
    /// The binary places of time: a tick is 2^-k seconds.
    pub k: u8,
    /// The binary places of levels: their unit is 2^-f.
    pub f: u8,
    pub last: u64,
    ghost in_range: { HasUnits p k f last 0 },
}

/// The states and the discrete variables of a flat model.
#[derive(Clone, Copy)]
pub(crate) struct Kinds<'a> {
    pub states: &'a [FlatVar],
    pub discretes: &'a [FlatVar],
}

/// Builds the machine of a flat model from its forms and its settings. Each number is rounded once.
/// The error is the first one in the order of the variants of `MachineErr`.
pub fn to_machine(
    alloc: Global,
    f: &Forms,
    m: &FlatModel,
    s: &Settings,
) -> Result<Machine, MachineErr>
    requires model { IsFlatModel (flat_model m.now) }
    requires forms { AreFormsFor f.now.forms (flat_model m.now) }
    ensures machine { IfOk result (IsMachineOf f.now.forms (flat_model m.now) s.now) }
    ensures refused { IfErr result
        (IsRefusal (machine_checks f.now.forms (flat_model m.now) s.now)) }
{
    let units = machine_units(s)?;
    let kinds = split_variables(&m.vars);
    let first = kinds.states.len();
    let forms = f.forms.as_slice();
    let rights = &forms[..first];
    let levels = round_machine_levels(alloc, kinds.states, units)?;
    let values = round_machine_values(alloc, kinds.discretes, first, units)?;
    check_start_row_sums(alloc, rights, &levels, &values, units)?;
    let states = round_machine_states(alloc, kinds.states, units)?;
    let discretes = round_machine_discretes(alloc, kinds.discretes, &values, units.f)?;
    let rows = round_form_rows(alloc, rights, units)?;
    let clauses = round_machine_clauses(alloc, &m.clauses, forms, first, units)?;
    Ok(assemble_machine(units, states, discretes, rows, clauses))
}

/// Computes the units. The error is the first invalid setting.
pub(crate) fn machine_units(s: &Settings) -> Result<Units, MachineErr>
    ensures ok { IfOk result (λ _. first_failed (setting_checks s.now) ≡ None) }
    ensures bits { IfOk result
        (λ u. (u.p ≡ bits_of s.now.coef_bits)
        × (u.k ≡ bits_of s.now.tick_bits)
        × (u.f ≡ bits_of s.now.level_bits)) }
    ensures last { IfOk result (λ u. pos u.last ≡ last_of s.now) }
    ensures err { IfErr result (λ fault. first_failed (setting_checks s.now) ≡ Some fault) }
{
    if s.start.num() != 0 {
        return Err(refuse_setting(SettingName::StartTime, s.start));
    }
    if s.stop.num() < 0 {
        return Err(refuse_setting(SettingName::StopTime, s.stop));
    }
    let Some(p) = bits(s.coef_bits, 32) else {
        return Err(refuse_setting(SettingName::CoefBits, s.coef_bits));
    };
    let Some(k) = bits_within_sum(s.tick_bits, 20, p, 44) else {
        return Err(refuse_setting(SettingName::TickBits, s.tick_bits));
    };
    let Some(f) = bits_within_sum(s.level_bits, 24, p + k, 62) else {
        return Err(refuse_setting(SettingName::LevelBits, s.level_bits));
    };
    let Some(last) = last_tick_before(s.stop, k) else {
        return Err(refuse_setting(SettingName::StopTime, s.stop));
    };
    Ok(Units { p, k, f, last })
}

// Creates the error of an invalid setting.
fn refuse_setting(which: SettingName, value: Ratio) -> MachineErr
    ensures { result ≡ MachineErr.Setting which value }
{
    MachineErr::Setting { which, value }
}

// Converts a number to a count of binary places. Returns `None` if it is not an integer from 0 to a
// limit.
fn bits(value: Ratio, limit: u8) -> Option<u8>
    ensures none { IfNone result (is_bits limit value ≡ false) }
    ensures some { IfSome result
        (λ bits. (is_bits limit value ≡ true) × (bits ≡ bits_of value) × (bits ≤ limit)) }
{
    if is_integer_up_to(value, limit) {
        Some(value.num() as u8)
    } else {
        None
    }
}

// Returns whether a number is an integer from 0 to a limit.
fn is_integer_up_to(value: Ratio, limit: u8) -> bool
    ensures { result ≡ is_bits limit value }
{
    value.den() == 1 && 0 <= value.num() && value.num() <= i128::from(limit)
}

// Converts a number like `bits`. Returns `None` also if the sum with `others` exceeds `most`.
fn bits_within_sum(value: Ratio, limit: u8, others: u8, most: u8) -> Option<u8>
    requires limit { limit ≤ 64 }
    requires others { others ≤ 64 }
    ensures none { IfNone result
        ((is_bits limit value && nat_le (others + bits_of value) most) ≡ false) }
    ensures some { IfSome result
        (λ bits. ((is_bits limit value && nat_le (others + bits_of value) most) ≡ true)
        × (bits ≡ bits_of value)
        × (bits ≤ limit)
        × (others + bits ≤ most)) }
{
    let own = bits(value, limit)?;
    if others + own <= most {
        Some(own)
    } else {
        None
    }
}

// Returns the last tick, or `None` if it is not below 2^32.
fn last_tick_before(stop: Ratio, tick_bits: u8) -> Option<u64>
    requires bits { tick_bits ≤ 20 }
    requires stop { pos 0 ≤ℤ stop.num }
    ensures none { IfNone result (int_lt (rounded_up tick_bits stop) (pos tick_limit) ≡ false) }
    ensures some { IfSome result
        (λ last. (int_lt (rounded_up tick_bits stop) (pos tick_limit) ≡ true)
        × (pos last ≡ rounded_up tick_bits stop)
        × (last < tick_limit)) }
{
    let last = round_form_number_up(stop, tick_bits);
    if last < 1 << 32 {
        Some(last as u64)
    } else {
        None
    }
}

/// Splits the variables. The states come first and the discrete variables next.
pub(crate) fn split_variables(vars: &[FlatVar]) -> Kinds<'_>
    ensures states { map flat_variable result.states.now ≡ states_of (map flat_variable vars.now) }
    ensures discretes { map flat_variable result.discretes.now
        ≡ discretes_of (map flat_variable vars.now) }
    ensures state_count { length result.states.now ≡ state_count (map flat_variable vars.now) }
    ensures discrete_count { length result.discretes.now
        ≡ discrete_count (map flat_variable vars.now) }
{
    let first = count_state_variables(vars);
    let past = first + count_discrete_variables(vars);
    let states = &vars[..first];
    let discretes = &vars[first..past];
    Kinds { states, discretes }
}

// Counts the states.
fn count_state_variables(vars: &[FlatVar]) -> usize
    ensures { result ≡ state_count (map flat_variable vars.now) }
{
    vars.iter().filter(|v| is_state_role(v.role)).count()
}

// Returns whether a role is that of states.
fn is_state_role(role: FlatRole) -> bool
    ensures { result ≡ is_state role }
{
    match role {
        FlatRole::State => true,
        FlatRole::Discrete | FlatRole::Algebraic => false,
    }
}

// Counts the discrete variables.
fn count_discrete_variables(vars: &[FlatVar]) -> usize
    ensures { result ≡ discrete_count (map flat_variable vars.now) }
{
    vars.iter().filter(|v| is_discrete_role(v.role)).count()
}

// Returns whether a role is that of discrete variables.
fn is_discrete_role(role: FlatRole) -> bool
    ensures { result ≡ is_discrete role }
{
    match role {
        FlatRole::Discrete => true,
        FlatRole::State | FlatRole::Algebraic => false,
    }
}

/// Returns the initial levels of the states. The error is the first state whose start value exceeds
/// a limit.
pub(crate) fn round_machine_levels(
    alloc: Global,
    states: &[FlatVar],
    units: Units,
) -> Result<Vec<i64>, MachineErr>
    requires count_limit { length states.now ≤ variable_limit }
    ensures levels { IfOk result
        (λ levels. levels.items
        ≡ map (λ v. start_level units.p units.k units.f v.start) states.now) }
    ensures size_limit { IfOk result (λ levels. AreLevels levels.items) }
    ensures ok { IfOk result
        (λ _. first_failed
        (checks (λ v. is_start units.p units.k units.f v.start) Start 0 states.now)
        ≡ None) }
    ensures err { IfErr result
        (IsRefusal (checks (λ v. is_start units.p units.k units.f v.start) Start 0 states.now)) }
{
    let mut levels = Vec::new(alloc);
    for (place, state) in states.iter().enumerate() {
        let Some(level) = round_machine_start_level(state.start, units) else {
            return Err(MachineErr::Start { var: place as u32 });
        };
        levels.push(level)?;
    }
    Ok(levels)
}

// Returns the initial level of a state, or `None` if the state or its level exceeds a limit.
fn round_machine_start_level(start: Ratio, units: Units) -> Option<i64>
    ensures none { IfNone result (is_start units.p units.k units.f start ≡ false) }
    ensures some { IfSome result
        (λ level. (is_start units.p units.k units.f start ≡ true)
        × (level ≡ start_level units.p units.k units.f start)
        × IsLevel level) }
{
    let state = round_form_number(start, units.f + units.p + units.k);
    let level = floor_div(state, unit(units.p + units.k));
    if exceeds_power_of_two(state, STATE_BITS) || exceeds_power_of_two(level, LEVEL_BITS) {
        return None;
    }
    Some(level as i64)
}

/// Returns the start values of the discrete variables. The error is the first one that exceeds its
/// limit. Discrete variables are numbered after the states.
pub(crate) fn round_machine_values(
    alloc: Global,
    discretes: &[FlatVar],
    first: usize,
    units: Units,
) -> Result<Vec<i64>, MachineErr>
    requires count_limit { first + length discretes.now ≤ variable_limit }
    ensures values { IfOk result
        (λ values. values.items ≡ map (λ v. rounded units.f v.start) discretes.now) }
    ensures size_limit { IfOk result (λ values. AreLevels values.items) }
    ensures ok { IfOk result
        (λ _. first_failed (checks (λ v. is_value units.f v.start) Start first discretes.now)
        ≡ None) }
    ensures err { IfErr result
        (IsRefusal (checks (λ v. is_value units.f v.start) Start first discretes.now)) }
{
    let mut values = Vec::new(alloc);
    for (place, discrete) in discretes.iter().enumerate() {
        let Some(value) = round_machine_start_value(discrete.start, units.f) else {
            return Err(MachineErr::Start {
                var: (first + place) as u32,
            });
        };
        values.push(value)?;
    }
    Ok(values)
}

// Returns the start value of a discrete variable, or `None` if it exceeds its limit.
fn round_machine_start_value(start: Ratio, level_bits: u8) -> Option<i64>
    requires { level_bits ≤ 24 }
    ensures none { IfNone result (is_value level_bits start ≡ false) }
    ensures some { IfSome result
        (λ value. (is_value level_bits start ≡ true)
        × (value ≡ rounded level_bits start)
        × IsLevel value) }
{
    let value = round_form_number(start, level_bits);
    if exceeds_power_of_two(value, LEVEL_BITS) {
        return None;
    }
    Some(value as i64)
}

/// Converts the states. The error is the first one whose quantum exceeds a limit.
pub(crate) fn round_machine_states(
    alloc: Global,
    states: &[FlatVar],
    units: Units,
) -> Result<Vec<StateInfo>, MachineErr>
    requires count_limit { length states.now ≤ variable_limit }
    ensures states { IfOk result
        (λ all. all.items
        ≡ map (λ v. rounded_state units.p units.k units.f (flat_variable v)) states.now) }
    ensures ok { IfOk result
        (λ _. first_failed (checks (λ v. is_quantum units.f v.quantum) Quantum 0 states.now)
        ≡ None) }
    ensures err { IfErr result
        (IsRefusal (checks (λ v. is_quantum units.f v.quantum) Quantum 0 states.now)) }
{
    let mut all = Vec::new(alloc);
    for (place, state) in states.iter().enumerate() {
        let Some(quantum) = round_machine_quantum(state.quantum, units.f) else {
            return Err(MachineErr::Quantum { var: place as u32 });
        };
        all.push(StateInfo {
            name: state.name.copy(alloc)?,
            x0: round_form_number(state.start, units.f + units.p + units.k),
            quantum,
        })?;
    }
    Ok(all)
}

// Returns a quantum, rounded down, or `None` if it is not from 1 to 2^32.
fn round_machine_quantum(quantum: Ratio, level_bits: u8) -> Option<i64>
    requires { level_bits ≤ 24 }
    ensures none { IfNone result (is_quantum level_bits quantum ≡ false) }
    ensures some { IfSome result
        (λ own. (is_quantum level_bits quantum ≡ true) × (own ≡ rounded_down level_bits quantum)) }
{
    let own = round_form_number_down(quantum, level_bits);
    if 1 <= own && own <= 1 << 32 {
        Some(own as i64)
    } else {
        None
    }
}

/// Creates the discrete variables with these start values.
pub(crate) fn round_machine_discretes(
    alloc: Global,
    discretes: &[FlatVar],
    values: &[i64],
    level_bits: u8,
) -> Result<Vec<DiscreteInfo>, AllocError>
    requires { values.now ≡ map (λ v. rounded level_bits v.start) discretes.now }
    ensures { IfOk result
        (λ all. all.items
        ≡ map (λ v. rounded_discrete level_bits (flat_variable v)) discretes.now) }
{
    let mut all = Vec::new(alloc);
    for (place, discrete) in discretes.iter().enumerate() {
        all.push(DiscreteInfo {
            name: discrete.name.copy(alloc)?,
            d0: values[place],
        })?;
    }
    Ok(all)
}

/// Converts clauses, whose forms begin at `place`. The fault is the first form that exceeds a
/// limit.
pub(crate) fn round_machine_clauses(
    alloc: Global,
    clauses: &[FlatClause],
    forms: &[ExactForm],
    first: usize,
    units: Units,
) -> Result<Vec<ClauseInfo>, MachineErr>
    requires count_limit { length forms.now ≤ 2 ^ 16 }
    requires within { first + sum_by clause_forms (map flat_clause clauses.now) ≤ length forms.now }
    ensures clauses { IfOk result
        (λ made. made.items
        ≡ clauses_of units.p units.f forms.now first (map flat_clause clauses.now)) }
    ensures ok { IfOk result
        (λ _. first_failed
        (form_checks units.p units.f forms.now first
        (sum_by clause_forms (map flat_clause clauses.now)))
        ≡ None) }
    ensures err { IfErr result
        (IsRefusal
        (form_checks units.p units.f forms.now first
        (sum_by clause_forms (map flat_clause clauses.now)))) }
{
    let mut all = Vec::new(alloc);
    let mut next = first;
    for clause in clauses {
        let made = round_machine_branches(alloc, &clause.branches, forms, next, units)?;
        all.push(ClauseInfo {
            branches: Items::new(made.items),
        })?;
        next = made.next;
    }
    Ok(all)
}

// Converts branches, whose forms begin at `place`.
fn round_machine_branches(
    alloc: Global,
    branches: &[FlatBranch],
    forms: &[ExactForm],
    first: usize,
    units: Units,
) -> Result<Placed<BranchInfo>, MachineErr>
    requires count_limit { length forms.now ≤ 2 ^ 16 }
    requires within { first + clause_forms (map flat_branch branches.now) ≤ length forms.now }
    ensures branches { IfOk result
        (λ made. made.items.items
        ≡ placed branch_forms (branch_of units.p units.f forms.now) first
        (map flat_branch branches.now)) }
    ensures next { IfOk result
        (λ made. made.next ≡ first + clause_forms (map flat_branch branches.now)) }
    ensures ok { IfOk result
        (λ _. first_failed
        (form_checks units.p units.f forms.now first
        (clause_forms (map flat_branch branches.now)))
        ≡ None) }
    ensures err { IfErr result
        (IsRefusal
        (form_checks units.p units.f forms.now first
        (clause_forms (map flat_branch branches.now)))) }
{
    let mut items = Vec::new(alloc);
    let mut next = first;
    for branch in branches {
        let made = round_machine_branch(alloc, branch, forms, next, units)?;
        items.push(made)?;
        next += 1 + branch.body.len();
    }
    Ok(Placed { items, next })
}

// Converts a branch, whose forms begin at `place`.
fn round_machine_branch(
    alloc: Global,
    branch: &FlatBranch,
    forms: &[ExactForm],
    first: usize,
    units: Units,
) -> Result<BranchInfo, MachineErr>
    requires count_limit { length forms.now ≤ 2 ^ 16 }
    requires within { first + branch_forms (flat_branch branch.now) ≤ length forms.now }
    ensures branch { IfOk result
        (λ made. made ≡ branch_of units.p units.f forms.now first (flat_branch branch.now)) }
    ensures ok { IfOk result
        (λ _. first_failed
        (form_checks units.p units.f forms.now first
        (branch_forms (flat_branch branch.now)))
        ≡ None) }
    ensures err { IfErr result
        (IsRefusal
        (form_checks units.p units.f forms.now first (branch_forms (flat_branch branch.now)))) }
{
    let form = round_machine_form(alloc, forms, first, units)?;
    let actions = round_machine_actions(alloc, &branch.body, forms, first + 1, units)?;
    Ok(BranchInfo {
        condition: Condition {
            form,
            rel: round_machine_relation(branch.rel),
        },
        actions: Items::new(actions),
    })
}

// Rounds the form at an index. Returns a fault if it exceeds a limit.
fn round_machine_form(
    alloc: Global,
    forms: &[ExactForm],
    place: usize,
    units: Units,
) -> Result<Form, MachineErr>
    requires count_limit { length forms.now ≤ 2 ^ 16 }
    requires place { place < length forms.now }
    ensures form { IfOk result
        (λ form. form ≡ rounded_form units.p units.f (form_at forms.now place)) }
    ensures ok { IfOk result
        (λ _. first_failed (form_checks units.p units.f forms.now place 1) ≡ None) }
    ensures err { IfErr result (IsRefusal (form_checks units.p units.f forms.now place 1)) }
{
    let Some(form) = round_form(alloc, &forms[place], units)? else {
        return Err(MachineErr::Coefficient {
            row: place as u32 + 1,
        });
    };
    Ok(form)
}

// Converts statements, whose forms begin at `place`.
fn round_machine_actions(
    alloc: Global,
    body: &[FlatStatement],
    forms: &[ExactForm],
    first: usize,
    units: Units,
) -> Result<Vec<Action>, MachineErr>
    requires count_limit { length forms.now ≤ 2 ^ 16 }
    requires within { first + length body.now ≤ length forms.now }
    ensures actions { IfOk result
        (λ actions. actions.items
        ≡ actions_of units.p units.f forms.now first (map flat_action body.now)) }
    ensures ok { IfOk result
        (λ _. first_failed (form_checks units.p units.f forms.now first (length body.now)) ≡ None) }
    ensures err { IfErr result
        (IsRefusal (form_checks units.p units.f forms.now first (length body.now))) }
{
    let mut actions = Vec::new(alloc);
    for (place, statement) in body.iter().enumerate() {
        let action = round_machine_action(alloc, statement, forms, first + place, units)?;
        actions.push(action)?;
    }
    Ok(actions)
}

// Converts a statement, whose form is at `place`.
fn round_machine_action(
    alloc: Global,
    statement: &FlatStatement,
    forms: &[ExactForm],
    place: usize,
    units: Units,
) -> Result<Action, MachineErr>
    requires count_limit { length forms.now ≤ 2 ^ 16 }
    requires place { place < length forms.now }
    ensures action { IfOk result
        (λ action. action ≡ action_of units.p units.f forms.now place (flat_action statement.now)) }
    ensures ok { IfOk result
        (λ _. first_failed (form_checks units.p units.f forms.now place 1) ≡ None) }
    ensures err { IfErr result (IsRefusal (form_checks units.p units.f forms.now place 1)) }
{
    let form = round_machine_form(alloc, forms, place, units)?;
    match statement {
        FlatStatement::FlatSet { var, .. } => Ok(Action::Set { var: *var, form }),
        FlatStatement::FlatReinit { var, .. } => Ok(Action::Reinit { var: *var, form }),
    }
}

// Converts the relation of a condition.
fn round_machine_relation(rel: ReadRel) -> Rel
    ensures { result ≡ rel_of rel }
{
    match rel {
        ReadRel::Less => Rel::Less,
        ReadRel::LessEq => Rel::LessEq,
        ReadRel::Greater => Rel::Greater,
        ReadRel::GreaterEq => Rel::GreaterEq,
    }
}

// Assembles the machine from these parts.
fn assemble_machine(
    units: Units,
    states: Vec<StateInfo>,
    discretes: Vec<DiscreteInfo>,
    rows: Vec<SlopeRow>,
    clauses: Vec<ClauseInfo>,
) -> Machine
    requires variables { AreVariables (pos (2 ^ (units.p + units.k))) states.items discretes.items }
    requires rows { AreRows units.f (pos (2 ^ (units.p + units.k))) states.items discretes.items
        rows.items }
    requires clauses { AreClauses (length states.items) (length discretes.items) clauses.items }
    ensures units { (result.p ≡ units.p)
        × (result.k ≡ units.k)
        × (result.f ≡ units.f)
        × (result.last ≡ units.last)
        × (result.relative ≡ 0) }
    ensures lists { (result.states ≡ states.items)
        × (result.discretes ≡ discretes.items)
        × (result.rows ≡ rows.items)
        × (result.clauses ≡ clauses.items) }
{
    Machine {
        p: units.p,
        k: units.k,
        f: units.f,
        last: units.last,
        states: Items::new(states),
        discretes: Items::new(discretes),
        rows: Items::new(rows),
        clauses: Items::new(clauses),
        relative: 0,
    }
}
