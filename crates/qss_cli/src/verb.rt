//! The verbs of the command line, and the options that each verb allows.

ghost use Rattle.std.specs.Prelude.{◌≡◌};
ghost use Rattle.qss_cli.specs.Prelude.{found_of, rows_of};
ghost use Rattle.qss_cli.specs.Verbs as Spec;

use crate::arguments::{has_no_arguments, has_run_arguments};
use clap::ArgMatches;

/// A verb: the first argument of a command.
#[derive(Clone, Copy, Debug)]
pub enum Verb {
    Run,
    Print,
    Certify,
    Upgrade,
    Generate,
    Check,
    Propose,
    Second,
    Compare,
    Devs,
}

/// Returns the verb of this name.
pub(crate) fn verb_named(name: &str) -> Option<Verb>
    ensures { result ≡ Spec.verb_named name.now }
{
    if name == "run" {
        Some(Verb::Run)
    } else if name == "print" {
        Some(Verb::Print)
    } else if name == "certify" {
        Some(Verb::Certify)
    } else if name == "upgrade" {
        Some(Verb::Upgrade)
    } else if name == "gen" {
        Some(Verb::Generate)
    } else if name == "check" {
        Some(Verb::Check)
    } else if name == "propose" {
        Some(Verb::Propose)
    } else if name == "run2" {
        Some(Verb::Second)
    } else if name == "compare" {
        Some(Verb::Compare)
    } else if name == "devs" {
        Some(Verb::Devs)
    } else {
        None
    }
}

/// Returns whether the verb allows all written options.
pub(crate) fn verb_allows_arguments(verb: Verb, matches: &ArgMatches<'_>) -> bool
    ensures { result ≡ Spec.goes_with verb (rows_of (found_of matches.now)) }
{
    match verb {
        Verb::Run => true,
        Verb::Certify => !has_run_arguments(matches),
        _ => has_no_arguments(matches),
    }
}
