//! Exact arithmetic without heap allocation: fractions, rounded quotients, roots and first ticks.
//! Main items: `Ratio`, `floor_div`, `near_div`, `decimal`, `first_tick` and `first_curve`.
//! Depends on no other crate of this repository.
#![tactic(auto)]

mod curves;
mod division;
mod limits;
mod literal;
mod number_laws;
mod powers_of_two;
mod ratio;
mod root;
mod ticks;

pub use curves::first_curve;
pub use division::{ceil_div, floor_div, near_div};
pub use limits::{
    LEVEL_BITS, LOOK_SPAN, SECOND_LEVEL_BITS, SECOND_WEIGHT_BITS, SLOPE_BITS, STATE_BITS,
    SUM_LIMIT, WEIGHT_BITS,
};
pub use literal::decimal;
pub use number_laws::{
    decimals_are_right, lowest_terms_are_right, quotients_are_right, rounding_rules_are_near,
};
pub use powers_of_two::{exceeds_power_of_two, times_power_of_two, unit};
pub use ratio::{Ratio, nearest};
pub use root::root_up;
pub use ticks::{first_tick, first_tick_beyond, ticks_after};

/// Why a number is rejected.
#[derive(Clone, Copy, PartialEq, Eq, Debug, Drop)]
pub enum NumErr {
    /// A term of the value in lowest terms exceeds 2^62, or a literal is out of range.
    Range,
    /// Division by 0.
    ZeroDivisor,
}
