//! Theorems about the command line, each stated by the contract of an empty function.

ghost use Rattle.qss_cli.specs.CommandLineLaws.{WordsBehind, WordsWorked};

/// Theorem: after `--` the first argument is the verb, and the others are operands.
pub fn arguments_follow_dashes()
    ensures { WordsBehind }
{}

/// Theorem: the commands of given argument lists.
pub fn argument_lists_are_read()
    ensures { WordsWorked }
{}
