//! Tests of the program as a function, and of a run that takes too long for `transcript`.
//! Main items: the tests in `bytes` and `large`.
//! Depends on qss_top (the program as a function), qss_cli (commands) and mu_io (streams).
#![tactic(auto)]

#[cfg(test)]
mod bytes;
#[cfg(test)]
mod large;
