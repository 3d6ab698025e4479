//! Defines the command line for the library `clap`, and reads operands, options and numbers from
//! the parsed arguments.

ghost use Rattle.std.specs.Prelude.{◌≡◌, ◌≢◌, ◌≤◌, true, false, map, None, IfOk, IfSome, MatchOption, MatchResult, option_map, codes, length};
ghost use Rattle.qss_cli.specs.Prelude.{app_of, found_of, rows_of, all_of, first_of, is_given, is_ascii_digit, list_all, digits_value, variable_limit, relative_limit};
ghost use Rattle.qss_cli.specs.CommandLine as LineSpec;
ghost use Rattle.qss_cli.specs.Verbs as VerbSpec;
ghost use Rattle.qss_cli.specs.NumberWords as NumberSpec;

use clap::error::ErrorKind;
use clap::parser::ValueSource;
use clap::{Arg, ArgAction, ArgMatches, Command};
use std::alloc::{AllocError, Global};

/// Returns the parsed arguments, or `None` if `clap` rejects them. Errors: allocation failure.
pub(crate) fn match_arguments<'a>(
    alloc: Global,
    words: &'a [&'a str],
) -> Result<Option<ArgMatches<'a>>, AllocError>
    ensures { IfOk result (λ found. MatchOption found
        (LineSpec.takes (map (λ word. word.now) words.entry.now) ≡ false)
        (λ matches. (LineSpec.takes (map (λ word. word.now) words.entry.now) ≡ true)
        × (rows_of (found_of matches) ≡ LineSpec.matches_in (map (λ word. word.now) words.entry.now)))) }
{
    let line = define_arguments(alloc)?;
    match line.try_get_matches_from(words) {
        Ok(matches) => Ok(Some(matches)),
        Err(error) => refuse_arguments(error.kind()),
    }
}

/// Returns the value of an argument, if it has one.
pub(crate) fn argument_value<'a>(matches: &ArgMatches<'a>, id: &str) -> Option<&'a str>
    ensures { option_map (λ value. value.now) result
        ≡ first_of id.now (rows_of (found_of matches.now)) }
{
    matches.get_str(id)
}

/// Returns the operands: the arguments after the verb, if there are any.
pub(crate) fn operand_arguments<'b, 'a>(matches: &'b ArgMatches<'a>) -> Option<&'b [&'a str]>
    ensures { option_map (λ words. map (λ word. word.now) words.now) result
        ≡ all_of (codes "words") (rows_of (found_of matches.entry.now)) }
{
    matches.get_strs("words")
}

/// Returns whether no option was written.
pub(crate) fn has_no_arguments(matches: &ArgMatches<'_>) -> bool
    ensures { result ≡ VerbSpec.is_bare (rows_of (found_of matches.now)) }
{
    !(has_run_arguments(matches) || is_argument_written(matches, "relative"))
}

/// Returns a relative quantum in 4096ths: 1 to 4 digits, at most 2048.
pub(crate) fn parse_share_argument(text: &[u8]) -> Option<u16>
    ensures value { result ≡ NumberSpec.share_in text.now }
    ensures within { IfSome result (λ share. share ≤ relative_limit) }
{
    let share = parse_number_argument(text, 4, 0, 2048)?;
    Some(share as u16)
}

/// Returns a seed: 1 to 20 digits, at most 2^64 - 1.
pub(crate) fn parse_seed_argument(text: &[u8]) -> Option<u64>
    ensures { result ≡ NumberSpec.seed_in text.now }
{
    let seed = parse_number_argument(text, 20, 0, u64::MAX as u128)?;
    Some(seed as u64)
}

/// Returns a number of cells: 1 to 4 digits, from 1 to 4,096.
pub(crate) fn parse_cells_argument(text: &[u8]) -> Option<u32>
    ensures value { result ≡ NumberSpec.cells_in text.now }
    ensures least { IfSome result (λ cells. 1 ≤ cells) }
    ensures most { IfSome result (λ cells. cells ≤ variable_limit) }
{
    let cells = parse_number_argument(text, 4, 1, 4096)?;
    Some(cells as u32)
}

// Returns the definition: a verb, its operands, and the options. Errors: allocation failure.
fn define_arguments<'a>(alloc: Global) -> Result<Command<'a>, AllocError>
    ensures { IfOk result (λ line. app_of line ≡ LineSpec.command_line) }
{
    Command::new(alloc, "qss")
        .no_binary_name(true)
        .disable_help_flag(true)
        .disable_version_flag(true)
        .arg(Arg::new(alloc, "verb").required(true))?
        .arg(Arg::new(alloc, "words").action(ArgAction::Append))?
        .arg(Arg::new(alloc, "rule").long("rule").default_value("floor"))?
        .arg(Arg::new(alloc, "only").long("only"))?
        .arg(Arg::new(alloc, "relative").long("relative"))
}

// Returns `None` for an error of `clap`, except for allocation failure.
fn refuse_arguments<'a>(kind: ErrorKind) -> Result<Option<ArgMatches<'a>>, AllocError>
    ensures { MatchResult result (λ found. (found ≡ None) × (kind ≢ ErrorKind.OutOfMemory))
        (λ _. kind ≡ ErrorKind.OutOfMemory) }
{
    match kind {
        ErrorKind::OutOfMemory => Err(AllocError),
        _ => Ok(None),
    }
}

/// Returns whether an option was written that only `run` allows.
pub(crate) fn has_run_arguments(matches: &ArgMatches<'_>) -> bool
    ensures { result ≡ VerbSpec.has_run_options (rows_of (found_of matches.now)) }
{
    is_argument_written(matches, "rule") || is_argument_written(matches, "only")
}

/// Returns whether an argument was written, so that its value is not the default.
pub(crate) fn is_argument_written(matches: &ArgMatches<'_>, id: &str) -> bool
    ensures { result ≡ is_given id.now (rows_of (found_of matches.now)) }
{
    match matches.value_source(id) {
        Some(ValueSource::CommandLine) => true,
        Some(ValueSource::DefaultValue) => false,
        None => matches.contains_id(id),
    }
}

// Returns the number of 1 to `width` digits, if it is from `least` to `most`.
fn parse_number_argument(text: &[u8], width: usize, least: u128, most: u128) -> Option<u128>
    requires { width ≤ 20 }
    ensures value { result ≡ NumberSpec.number_in width least most text.now }
    ensures low { IfSome result (λ number. least ≤ number) }
    ensures high { IfSome result (λ number. number ≤ most) }
{
    if text.is_empty() || text.len() > width || !are_argument_digits(text) {
        return None;
    }
    let number = number(text);
    if least <= number && number <= most {
        Some(number)
    } else {
        None
    }
}

// Returns whether all bytes are digits.
fn are_argument_digits(bytes: &[u8]) -> bool
    ensures { result ≡ list_all is_ascii_digit bytes.now }
{
    bytes.iter().all(|byte| byte.is_ascii_digit())
}

// Returns the number that at most 20 digits denote.
fn number(digits: &[u8]) -> u128
    requires digits { list_all is_ascii_digit digits.now ≡ true }
    requires count_limit { length digits.now ≤ 20 }
    ensures { result ≡ digits_value 10 digits.now }
{
    let mut number = 0;
    for digit in digits {
        number = number * 10 + u128::from(*digit - b'0');
    }
    number
}
