//! A machine: a compiled model in integer arithmetic, whose ghost fields guarantee all limits. Its
//! methods evaluate rows, forms and quanta.

ghost use Rattle.std.specs.Prelude.{◌+◌, ◌^◌, pos, length};
ghost use Rattle.qss_machine.specs.Prelude.{tick_limit, relative_limit, IsLevel, AreLevels, AreStates, AreSlopes};
ghost use Rattle.qss_machine.specs.MachineLimits.{HasUnits, AreVariables, AreRows, AreClauses};

use crate::form_values::{add_form_parts, form_constant_part, form_time_part, sum_form_entries};
use crate::machine_parts::{ClauseInfo, DiscreteInfo, Form, SlopeRow, StateInfo};
use crate::relative_quantum::quantum_with_relative;
use crate::slope_rows::{
    absolute_row_sum, row_mode_coefficient, row_mode_coefficient_from, row_modes_fit, row_slope,
    search_slope_coefficient, units_in_one,
};
use mu_io::Items;

/// A compiled model in integer arithmetic. Its ghost fields guarantee all limits.
#[derive(Drop)]
pub struct Machine {
    /// The binary places of coefficients: their unit is 2^-p. At most 32.
    pub p: u8,
    /// The binary places of time: a tick is 2^-k seconds. At most 20.
    pub k: u8,
    /// The binary places of levels, discrete values and quanta: their unit is 2^-f. At most 24.
    pub f: u8,
    /// The last tick, below 2^32.
    pub last: u64,
    pub states: Items<StateInfo>,
    pub discretes: Items<DiscreteInfo>,
    /// The right-hand side of each state's equation.
    pub rows: Items<SlopeRow>,
    pub clauses: Items<ClauseInfo>,
    /// The relative quantum in 4096ths of a level's size, at most 2048. 0 turns it off.
    pub relative: u16,
    pub ghost has_units: { HasUnits p k f last relative },
    pub ghost has_variables: { AreVariables (pos (2 ^ (p + k))) states discretes },
    pub ghost has_rows: { AreRows f (pos (2 ^ (p + k))) states discretes rows },
    pub ghost has_clauses: { AreClauses (length states) (length discretes) clauses },
}

impl Machine {
    ghost use Rattle.std.specs.Prelude.{◌≡◌, ◌<◌, ◌≤◌, IsTrue, unsigned_abs};
    ghost use Rattle.qss_machine.specs.Prelude.{IsWithin};
    ghost use Rattle.qss_machine.specs.MachineLimits.{IsBounded};
    ghost use Rattle.qss_machine.specs.Machines.{state_count, discrete_count, row_at, row_coefficient, mode_coefficient_at, slope_at, weight_at, level_unit, quantum_of, value_of, speed_of};
    ghost use Rattle.qss_machine.specs.Slopes.{mode_fits};

    /// Returns the mode coefficient of a state in a row, in units of 2^-p: its own coefficient plus
    /// the sum of its products divided by 2^f, rounded to the nearest, ties to even.
    pub fn mode_coef(&self, row: u32, state: u32, discretes: &[i64]) -> i128
        requires row { row < state_count self.now }
        requires state { state < state_count self.now }
        requires same_length { length discretes.now ≡ discrete_count self.now }
        requires size_limit { AreLevels discretes.now }
        ensures { result ≡ mode_coefficient_at self.now row state discretes.now }
    {
        let states = self.states.as_slice().len();
        let right_side = &self.rows.as_slice()[row as usize];
        row_mode_coefficient(right_side, self.f, states, discretes, state)
    }

    /// Returns the same value as `mode_coef`. The caller passes the state's coefficient in the row,
    /// which [`Uses`](crate::Uses) stores, so that no search is needed.
    pub fn mode_coef_from(&self, own: i64, row: u32, state: u32, discretes: &[i64]) -> i128
        requires row { row < state_count self.now }
        requires own { own ≡ row_coefficient self.now row state }
        requires same_length { length discretes.now ≡ discrete_count self.now }
        requires size_limit { AreLevels discretes.now }
        ensures { result ≡ mode_coefficient_at self.now row state discretes.now }
    {
        let states = self.states.as_slice().len();
        let right_side = &self.rows.as_slice()[row as usize];
        row_mode_coefficient_from(own, right_side, self.f, states, discretes, state)
    }

    /// Returns the coefficient of a variable in a row, in units of 2^-p, or 0 if the row has none.
    pub(crate) fn coef(&self, row: u32, var: u32) -> i64
        requires { row < state_count self.now }
        ensures { result ≡ row_coefficient self.now row var }
    {
        let right_side = &self.rows.as_slice()[row as usize];
        search_slope_coefficient(right_side.entries.as_slice(), var)
    }

    /// Returns whether all mode coefficients of a row are at most 2^44 in size.
    pub fn mode_fits(&self, row: u32, discretes: &[i64]) -> bool
        requires row { row < state_count self.now }
        requires same_length { length discretes.now ≡ discrete_count self.now }
        requires size_limit { AreLevels discretes.now }
        ensures { result
            ≡ mode_fits self.now.f (state_count self.now) (row_at self.now row) discretes.now }
    {
        let states = self.states.as_slice().len();
        let right_side = &self.rows.as_slice()[row as usize];
        row_modes_fit(right_side, self.f, states, discretes)
    }

    /// Returns the slope of a state: its increment per tick at these levels and discrete values, in
    /// units of 2^-(f+p+k).
    pub fn slope(&self, row: u32, levels: &[i64], discretes: &[i64]) -> i128
        requires row { row < state_count self.now }
        requires levels { length levels.now ≡ state_count self.now }
        requires discretes { length discretes.now ≡ discrete_count self.now }
        requires small_levels { AreLevels levels.now }
        requires small_discretes { AreLevels discretes.now }
        requires modes { IsTrue
            (mode_fits self.now.f (state_count self.now) (row_at self.now row) discretes.now) }
        ensures value { result ≡ slope_at self.now row levels.now discretes.now }
        ensures bound { IsWithin 101 result }
    {
        let right_side = &self.rows.as_slice()[row as usize];
        row_slope(right_side, self.f, levels, discretes)
    }

    /// Returns the absolute row sum: the slope with each term replaced by its absolute value.
    pub fn weight(&self, row: u32, levels: &[i64], discretes: &[i64]) -> i128
        requires row { row < state_count self.now }
        requires levels { length levels.now ≡ state_count self.now }
        requires discretes { length discretes.now ≡ discrete_count self.now }
        requires small_levels { AreLevels levels.now }
        requires small_discretes { AreLevels discretes.now }
        requires modes { IsTrue
            (mode_fits self.now.f (state_count self.now) (row_at self.now row) discretes.now) }
        ensures { result ≡ weight_at self.now row levels.now discretes.now }
    {
        let right_side = &self.rows.as_slice()[row as usize];
        absolute_row_sum(right_side, self.f, levels, discretes)
    }

    /// Returns 2^(p+k), the number of state units in one level unit.
    pub fn level_unit(&self) -> i128
        ensures { result ≡ level_unit self.now }
    {
        units_in_one(self.p + self.k)
    }

    /// Returns the quantum of a state at a level, in units of 2^-f: the greater of its own quantum
    /// and the relative quantum.
    pub fn quantum_at(&self, state: u32, level: i64) -> i64
        requires state { state < state_count self.now }
        requires level { IsLevel level }
        ensures { result ≡ quantum_of self.now state level }
    {
        let own = self.states.as_slice()[state as usize].quantum;
        quantum_with_relative(own, level, self.relative)
    }

    /// Returns the value of a form at states, discrete values, discrete values before the tick, and
    /// a tick, in units of 2^-(f+2p+k).
    pub fn form_value(&self, form: &Form, x: &[i128], d: &[i64], pre: &[i64], tick: u64) -> i128
        requires form { IsBounded form.now }
        requires states { length x.now ≡ state_count self.now }
        requires discretes { length d.now ≡ discrete_count self.now }
        requires before { length pre.now ≡ discrete_count self.now }
        requires small_states { AreStates x.now }
        requires small_discretes { AreLevels d.now }
        requires small_before { AreLevels pre.now }
        requires tick { tick < tick_limit }
        ensures value { result ≡ value_of self.now form.now x.now d.now pre.now tick }
        ensures bound { unsigned_abs result < 2 ^ 127 }
    {
        let own = sum_form_entries(form.entries.as_slice(), x, d, pre, self.p + self.k);
        let time = form_time_part(form.time, tick, self.f + self.p);
        let constant = form_constant_part(form.gamma, self.p + self.k);
        add_form_parts(own, time, constant)
    }

    /// Returns the rate of change of a form: its increment per tick at these slopes.
    pub fn form_speed(&self, form: &Form, slopes: &[i128]) -> i128
        requires form { IsBounded form.now }
        requires same_length { length slopes.now ≡ state_count self.now }
        requires size_limit { AreSlopes slopes.now }
        ensures value { result ≡ speed_of self.now form.now slopes.now }
        ensures bound { unsigned_abs result < 2 ^ 127 }
    {
        let own = sum_form_entries(form.entries.as_slice(), slopes, &[], &[], 0);
        let time = form_time_part(form.time, 1, self.f + self.p);
        add_form_parts(own, time, 0)
    }

    /// Returns this machine with another relative quantum, in 4096ths of a level's size.
    pub fn with_relative(self, n: u16) -> Machine
        requires { n ≤ relative_limit }
        ensures relative { result.relative ≡ n }
        ensures units { (result.p ≡ self.p)
            × (result.k ≡ self.k)
            × (result.f ≡ self.f)
            × (result.last ≡ self.last) }
        ensures lists { (result.states ≡ self.states)
            × (result.discretes ≡ self.discretes)
            × (result.rows ≡ self.rows)
            × (result.clauses ≡ self.clauses) }
    {
        let mut machine = self;
        machine.relative = n;
        machine
    }
}
