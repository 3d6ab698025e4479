//! Tests of the libraries: the language, machines, runs, traces and certificates.
//! Main items: test functions; the crate exports nothing.
//! Depends on the crates under test: files, numbers, compiler, machines, event queue, certificates.
#![tactic(auto)]

#[cfg(test)]
mod agendas;
#[cfg(test)]
mod answers;
#[cfg(test)]
mod candidates;
#[cfg(test)]
mod canonical;
#[cfg(test)]
mod certificate_lines;
#[cfg(test)]
mod chance;
#[cfg(test)]
mod crossings;
#[cfg(test)]
mod grammar;
#[cfg(test)]
mod lists;
#[cfg(test)]
mod machines;
#[cfg(test)]
mod matrices;
#[cfg(test)]
mod numbers;
#[cfg(test)]
mod quanta;
#[cfg(test)]
mod rows;
#[cfg(test)]
mod run_traces;
#[cfg(test)]
mod shelves;
#[cfg(test)]
mod sources;
#[cfg(test)]
mod tokens;
#[cfg(test)]
mod traces;
