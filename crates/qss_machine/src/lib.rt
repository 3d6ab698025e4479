//! Machines: the integer form of a compiled model, with its slopes, events and runs.
//! Main type: `Machine`; it computes slopes, absolute row sums, quanta and the values of forms.
//! Depends on mu_io (lists and names) and mu_num (integer arithmetic).
#![tactic(auto)]

mod compiled_machine;
mod form_values;
mod machine_parts;
mod machine_run_laws;
mod relative_quantum;
mod slope_rows;
mod variable_uses;

pub use compiled_machine::Machine;
pub use form_values::{
    add_form_parts, form_constant_part, form_time_part, multiply_form_coefficient,
    scale_discrete_value,
};
pub use machine_parts::{
    Action, BranchInfo, ClauseInfo, Condition, DiscreteInfo, Entry, Form, Product, Rel, Row,
    RowKind, SlopeRow, StateInfo,
};
pub use machine_run_laws::{
    machine_branches_fire_due, machine_rules_are_free, machine_runs_are_legitimate,
    machine_runs_are_unique, machine_runs_stay_near, machine_slopes_within_weights,
    same_machine_data_equal,
};
pub use slope_rows::{
    entry_coefficient, is_row_in_limits, slope_entry_size, slope_entry_weight, slope_input_at,
    slope_term,
};
pub use variable_uses::Uses;
