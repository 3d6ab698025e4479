//! The states of a machine at an event: requantization, slopes, absolute row sums, and due ticks.
//! Main type: `States`, which owns lines, levels, slopes and absolute row sums.
//! Depends on qss_quant (quantizers), qss_sched (event queue), qss_hand (handlers) and qss_events.
#![tactic(auto)]

mod event_contexts;
mod kept_weights;
mod requantization;
mod row_sum_changes;
mod safe_bounds;
mod slope_updates;
mod states;
mod sum_marks;

pub use event_contexts::HandlerArrival;
pub use kept_weights::Weights;
pub use row_sum_changes::RowSum;
pub use states::States;
