//! Converts the parsed arguments to a request. Each verb has its own operands and its own options.

ghost use Rattle.std.specs.Prelude.{◌≡◌, ◌≤◌, Some, map, option_map, IfOk, IfSome};
ghost use Rattle.qss_cli.specs.Prelude.{relative_limit, found_of, rows_of};
ghost use Rattle.qss_cli.specs.RelativeQuanta.{share_of_task};
ghost use Rattle.qss_cli.specs.Requests.{command_in, command_on, command_with, options_in, side_in};
ghost use Rattle.qss_cli.specs.Commands as Spec;

use crate::arguments::{
    argument_value, match_arguments, operand_arguments, parse_cells_argument, parse_seed_argument,
    parse_share_argument,
};
use crate::request::{Generation, Options, Request, Side, Sides, Task, TwoFileTask, TwoFiles};
use crate::verb::{Verb, verb_allows_arguments, verb_named};
use clap::ArgMatches;
use qss_quant::Rule;
use std::alloc::{AllocError, Global};

/// Returns the request of the arguments after the program's name, or `None` if they are no valid
/// command. Errors: allocation failure.
#[inline(never)]
pub fn read_words<'a>(
    alloc: Global,
    words: &'a [&'a str],
) -> Result<Option<Request<'a>>, AllocError>
    ensures { IfOk result
        (λ request. option_map command_in request
        ≡ Spec.command_of (map (λ word. word.now) words.entry.now)) }
{
    match match_arguments(alloc, words)? {
        Some(matches) => Ok(read_request(&matches)),
        None => Ok(None),
    }
}

// Returns the request of the parsed arguments.
fn read_request<'a>(matches: &ArgMatches<'a>) -> Option<Request<'a>>
    ensures { option_map command_in result ≡ Spec.command_given (rows_of (found_of matches.now)) }
{
    let verb = verb_named(argument_value(matches, "verb")?)?;
    let words = operand_arguments(matches).unwrap_or(&[]);
    read_verb_request(verb, words, matches)
}

// Returns the request of a verb with its operands, if the verb allows the written options.
fn read_verb_request<'a>(
    verb: Verb,
    words: &[&'a str],
    matches: &ArgMatches<'a>,
) -> Option<Request<'a>>
    ensures { option_map command_in result
        ≡ Spec.command_by verb (map (λ word. word.now) words.now) (rows_of (found_of matches.now)) }
{
    if !verb_allows_arguments(verb, matches) {
        return None;
    }
    match verb {
        Verb::Run => one_file(words, Task::Run(requested_options(matches)?)),
        Verb::Print => print_request(words),
        Verb::Certify => {
            let share = requested_share(matches)?;
            two_files(words, TwoFileTask::Certify { share })
        }
        Verb::Upgrade => two_files(words, TwoFileTask::Upgrade),
        Verb::Generate => generate_request(words),
        Verb::Check => two_files(words, TwoFileTask::Check),
        Verb::Propose => one_file(words, Task::Propose),
        Verb::Second => one_file(words, Task::Second),
        Verb::Compare => compare_request(words),
        Verb::Devs => one_file(words, Task::Coupled),
    }
}

// Returns a task with the machine of a model: the operand is the model.
fn one_file<'a>(words: &[&'a str], task: Task<'a>) -> Option<Request<'a>>
    ensures { option_map command_in result
        ≡ Spec.of_one (λ model. Some (command_with task.entry model))
        (map (λ word. word.now) words.now) }
{
    match words {
        [model] => Some(Request::Machine { task, model }),
        _ => None,
    }
}

// Returns the options of `run`.
fn requested_options<'a>(matches: &ArgMatches<'a>) -> Option<Options<'a>>
    ensures { option_map options_in result ≡ Spec.options_given (rows_of (found_of matches.now)) }
{
    let rule = requested_rule(argument_value(matches, "rule")?)?;
    let share = requested_share(matches)?;
    let only = argument_value(matches, "only");
    Some(Options { rule, only, share })
}

// Returns the quantizer rule of this name.
fn requested_rule(name: &str) -> Option<Rule>
    ensures { result ≡ Spec.rule_named name.now }
{
    if name == "floor" {
        Some(Rule::Floor)
    } else if name == "near" {
        Some(Rule::Near)
    } else if name == "inward" {
        Some(Rule::Inward)
    } else {
        None
    }
}

// Returns the relative quantum, or 0 if none is given.
fn requested_share(matches: &ArgMatches<'_>) -> Option<u16>
    ensures given { result ≡ Spec.share_given (rows_of (found_of matches.now)) }
    ensures within { IfSome result (λ share. share ≤ relative_limit) }
{
    match argument_value(matches, "relative") {
        Some(digits) => parse_share_argument(digits.as_bytes()),
        None => Some(0),
    }
}

// Parses `print`: write the canonical text of a model.
fn print_request<'a>(words: &[&'a str]) -> Option<Request<'a>>
    ensures { option_map command_in result
        ≡ Spec.of_one (λ model. Some (Spec.print_model model)) (map (λ word. word.now) words.now) }
{
    match words {
        [model] => Some(Request::Print { model }),
        _ => None,
    }
}

// Returns a task with two files: the operands are the model, and a certificate or a trace.
fn two_files<'a>(words: &[&'a str], task: TwoFileTask<'a>) -> Option<Request<'a>>
    requires { share_of_task task ≤ relative_limit }
    ensures { option_map command_in result
        ≡ Spec.of_two (λ model second. Some (command_on task.entry model second))
        (map (λ word. word.now) words.now) }
{
    match words {
        [model, second] => {
            let files = TwoFiles {
                task,
                model,
                second,
            };
            Some(Request::TwoFiles(files))
        }
        _ => None,
    }
}

// Parses `gen`: run a generated model.
fn generate_request<'a>(words: &[&'a str]) -> Option<Request<'a>>
    ensures { option_map command_in result
        ≡ Spec.of_two Spec.generation (map (λ word. word.now) words.now) }
{
    match words {
        [seed, cells] => {
            let generation = requested_generation(seed.as_bytes(), cells.as_bytes())?;
            Some(Request::Generated(generation))
        }
        _ => None,
    }
}

// Returns the generated model's parameters: a seed and a number of cells.
fn requested_generation(seed: &[u8], cells: &[u8]) -> Option<Generation>
    ensures { option_map (λ made. Spec.generate_model made.seed made.cells) result
        ≡ Spec.generation seed.now cells.now }
{
    let seed = parse_seed_argument(seed)?;
    let cells = parse_cells_argument(cells)?;
    Some(Generation { seed, cells })
}

// Parses `compare`: compare two runs of a model by a certificate.
fn compare_request<'a>(words: &[&'a str]) -> Option<Request<'a>>
    ensures { option_map command_in result
        ≡ Spec.of_four
        (λ model certificate one two. Some
        (Spec.compare_runs model certificate (Spec.side_named one) (Spec.side_named two)))
        (map (λ word. word.now) words.now) }
{
    match words {
        [model, second, one, two] => {
            let one = requested_side(one);
            let two = requested_side(two);
            let task = TwoFileTask::Compare(Sides { one, two });
            Some(Request::TwoFiles(TwoFiles {
                task,
                model,
                second,
            }))
        }
        _ => None,
    }
}

// Returns the run that an operand names.
fn requested_side(word: &str) -> Side<'_>
    ensures { side_in result ≡ Spec.side_named word.entry.now }
{
    if word == "first" {
        Side::First
    } else if word == "second" {
        Side::Second
    } else {
        Side::Trace(word)
    }
}
