//! Requests: the valid commands of the command line.

ghost use Rattle.std.specs.Prelude.{◌≤◌};
ghost use Rattle.qss_cli.specs.Prelude.{variable_limit, relative_limit};
ghost use Rattle.qss_cli.specs.RelativeQuanta.{share_of_task};

use qss_quant::Rule;

/// The options of a run: the quantizer rule, the only name whose rows are printed (if given), and
/// the relative quantum in 4096ths of a level.
#[derive(Clone, Copy, Debug)]
pub struct Options<'a> {
    pub rule: Rule,
    pub only: Option<&'a str>,
    pub share: u16,
    pub ghost within: { share ≤ relative_limit },
}

/// The parameters of a generated model: a seed, and 1 to 4,096 cells.
#[derive(Clone, Copy, Debug)]
pub struct Generation {
    pub seed: u64,
    pub cells: u32,
    pub ghost least: { 1 ≤ cells },
    pub ghost most: { cells ≤ variable_limit },
}

/// A task with the machine of a model: write its run, propose a certificate, write its second-order
/// run, or write its run as a coupled model.
#[derive(Clone, Copy, Debug)]
pub enum Task<'a> {
    Run(Options<'a>),
    Propose,
    Second,
    Coupled,
}

/// One of two compared runs: the run by the rule `floor`, the second-order run, or the trace in a
/// named file.
#[derive(Clone, Copy, Debug)]
pub enum Side<'a> {
    First,
    Second,
    Trace(&'a str),
}

/// Two compared runs.
#[derive(Clone, Copy, Debug)]
pub struct Sides<'a> {
    pub one: Side<'a>,
    pub two: Side<'a>,
}

/// A task with a second file: check a certificate, with the relative quantum in 4096ths of a level,
/// upgrade it, check a trace, or compare two runs by a certificate.
#[derive(Clone, Copy, Debug)]
pub enum TwoFileTask<'a> {
    Certify { share: u16 },
    Upgrade,
    Check,
    Compare(Sides<'a>),
}

/// A task with two files: the model, and a certificate or a trace. The relative quantum is at most
/// 2048.
#[derive(Clone, Copy, Debug)]
pub struct TwoFiles<'a> {
    pub task: TwoFileTask<'a>,
    pub model: &'a str,
    pub second: &'a str,
    pub ghost within: { share_of_task task ≤ relative_limit },
}

/// A request: a task with a model, its canonical text, a task with a model and a certificate or
/// trace, or the run of a generated model.
#[derive(Clone, Copy, Debug)]
pub enum Request<'a> {
    Machine { task: Task<'a>, model: &'a str },
    Print { model: &'a str },
    TwoFiles(TwoFiles<'a>),
    Generated(Generation),
}
