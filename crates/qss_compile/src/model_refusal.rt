//! The errors of the compiler, and the line that prints an error: the phase, the number of the
//! error and its fields.

ghost use Rattle.std.specs.Prelude.{◌≡◌, ◌++◌, ◌∷◌, [], map, codes, decimal, IfOk, OnOk};
ghost use Rattle.qss_compile.specs.Prelude.{signed_decimal};
ghost use Rattle.qss_compile.specs.Words.{field_text, without_names};
ghost use Rattle.qss_compile.specs.Causes.{of_forms, of_lexer, of_names, of_order, of_parser, of_rounding, of_unrolling};
ghost use Rattle.qss_compile.specs.RefusalLines as Spec;

use mu_affine::{AffineErr, MachineErr};
use mu_causal::CausalErr;
use mu_grammar::ParseErr;
use mu_io::{Items, Name};
use mu_lexer::LexErr;
use mu_names::NameErr;
use mu_num::{NumErr, Ratio};
use mu_tree::SettingName;
use mu_unroll::UnrollErr;
use std::alloc::{AllocError, Global};

/// A field of an error's line.
#[derive(Clone, Copy)]
pub enum Field {
    Number(u32),
    Whole(i128),
    Share(Ratio),
    Setting(SettingName),
    Variable(u32),
}

/// The error of the first phase that rejects a source, or an allocation failure in any phase.
#[derive(Drop)]
pub enum ModelErr {
    Lex(LexErr),
    Parse(ParseErr),
    Names(NameErr),
    Unroll(UnrollErr),
    Causal(CausalErr),
    Affine(AffineErr),
    Machine(MachineErr),
    Memory,
}

impl From<LexErr> for ModelErr {
    ghost from_gives = { λ fault e. e ≡ of_lexer fault };

    fn from(fault: LexErr) -> ModelErr {
        match fault {
            LexErr::Memory => ModelErr::Memory,
            other => ModelErr::Lex(other),
        }
    }
}

impl From<ParseErr> for ModelErr {
    ghost from_gives = { λ fault e. e ≡ of_parser fault };

    fn from(fault: ParseErr) -> ModelErr {
        match fault {
            ParseErr::Memory => ModelErr::Memory,
            other => ModelErr::Parse(other),
        }
    }
}

impl From<NameErr> for ModelErr {
    ghost from_gives = { λ fault e. e ≡ of_names fault };

    fn from(fault: NameErr) -> ModelErr {
        match fault {
            NameErr::Memory => ModelErr::Memory,
            other => ModelErr::Names(other),
        }
    }
}

impl From<UnrollErr> for ModelErr {
    ghost from_gives = { λ fault e. e ≡ of_unrolling fault };

    fn from(fault: UnrollErr) -> ModelErr {
        match fault {
            UnrollErr::Memory => ModelErr::Memory,
            other => ModelErr::Unroll(other),
        }
    }
}

impl From<CausalErr> for ModelErr {
    ghost from_gives = { λ fault e. e ≡ of_order fault };

    fn from(fault: CausalErr) -> ModelErr {
        match fault {
            CausalErr::Memory => ModelErr::Memory,
            other => ModelErr::Causal(other),
        }
    }
}

impl From<AffineErr> for ModelErr {
    ghost from_gives = { λ fault e. e ≡ of_forms fault };

    fn from(fault: AffineErr) -> ModelErr {
        match fault {
            AffineErr::Memory => ModelErr::Memory,
            other => ModelErr::Affine(other),
        }
    }
}

impl From<MachineErr> for ModelErr {
    ghost from_gives = { λ fault e. e ≡ of_rounding fault };

    fn from(fault: MachineErr) -> ModelErr {
        match fault {
            MachineErr::Memory => ModelErr::Memory,
            other => ModelErr::Machine(other),
        }
    }
}

/// An error, with the names of the flat model's variables by number. The list is empty if the error
/// occurs before there is a flat model.
#[derive(Drop)]
pub struct Refused {
    pub error: ModelErr,
    pub names: Items<Name>,
}

impl Refused {
    /// Creates an error that occurs before there is a flat model.
    pub(crate) fn early_model_refusal(alloc: Global, error: ModelErr) -> Refused
        ensures { result ≡ without_names error }
    {
        Refused {
            error,
            names: Items::new(Vec::new(alloc)),
        }
    }
}

/// Returns the line for standard error: the phase, the number of the error and its fields, with a
/// line feed. An allocation failure has its own line.
pub fn phase_fault_line(alloc: Global, refused: &Refused) -> Result<Vec<u8>, AllocError>
    ensures { IfOk result (λ line. line.items ≡ Spec.line_of refused.now) }
{
    let names = refused.names.as_slice();
    match &refused.error {
        ModelErr::Lex(fault) => lexer_fault_line(alloc, names, fault),
        ModelErr::Parse(fault) => parser_fault_line(alloc, names, fault),
        ModelErr::Names(fault) => names_fault_line(alloc, names, fault),
        ModelErr::Unroll(fault) => unrolling_fault_line(alloc, names, fault),
        ModelErr::Causal(fault) => order_fault_line(alloc, names, fault),
        ModelErr::Affine(fault) => forms_fault_line(alloc, names, fault),
        ModelErr::Machine(fault) => rounding_fault_line(alloc, names, fault),
        ModelErr::Memory => b"out of memory\n".to_vec(alloc),
    }
}

fn lexer_fault_line(alloc: Global, names: &[Name], fault: &LexErr) -> Result<Vec<u8>, AllocError>
    ensures { IfOk result (λ line. line.items ≡ Spec.reason_line (Spec.lexer_reason fault.now)) }
{
    match fault {
        LexErr::NoToken { at } => refusal_reason(alloc, names, b"lex", 1, &[Field::Number(*at)]),
        LexErr::OpenComment { at } => refusal_reason(
            alloc,
            names,
            b"lex",
            2,
            &[Field::Number(*at)],
        ),
        LexErr::OpenString { at } => refusal_reason(alloc, names, b"lex", 3, &[Field::Number(*at)]),
        LexErr::Memory => refusal_reason(alloc, names, b"lex", 4, &[]),
    }
}

// Creates the line of an error.
fn refusal_reason(
    alloc: Global,
    names: &[Name],
    phase: &[u8],
    number: u8,
    fields: &[Field],
) -> Result<Vec<u8>, AllocError>
    ensures { IfOk result
        (λ line. line.items
        ≡ Spec.reason_line
        (Spec.reason phase.now number (map (field_text names.now) fields.now))) }
{
    let number = number.to_string(alloc)?;
    let mut line = b"refused: ".to_vec(alloc)?;
    line.extend_from_slice(phase)?;
    line.extend_from_slice(b" ")?;
    line.extend_from_slice(number.as_bytes())?;
    append_spaced_fields(alloc, names, &mut line, fields)?;
    line.extend_from_slice(b"\n")?;
    Ok(line)
}

// Appends fields, each after one space.
fn append_spaced_fields(
    alloc: Global,
    names: &[Name],
    line: &mut Vec<u8>,
    fields: &[Field],
) -> Result<(), AllocError>
    ensures { OnOk result
        (line.new.items
        ≡ line.old.items ++ Spec.fields_text (map (field_text names.now) fields.now)) }
{
    for field in fields {
        line.push(b' ')?;
        append_fault_field(alloc, names, line, *field)?;
    }
    Ok(())
}

// Appends a field. `names` are the names of the variables.
fn append_fault_field(
    alloc: Global,
    names: &[Name],
    line: &mut Vec<u8>,
    field: Field,
) -> Result<(), AllocError>
    ensures { OnOk result (line.new.items ≡ line.old.items ++ field_text names.now field) }
{
    match field {
        Field::Number(number) => append_natural_number(alloc, line, number),
        Field::Whole(number) => append_integer(alloc, line, number),
        Field::Share(value) => append_fraction(alloc, line, value),
        Field::Setting(which) => line.extend_from_slice(setting_word(which)),
        Field::Variable(var) => line.extend_from_slice(variable_name_at(names, var)),
    }
}

// Appends a natural number.
fn append_natural_number(alloc: Global, line: &mut Vec<u8>, number: u32) -> Result<(), AllocError>
    ensures { OnOk result (line.new.items ≡ line.old.items ++ decimal number) }
{
    let text = number.to_string(alloc)?;
    line.extend_from_slice(text.as_bytes())?;
    Ok(())
}

// Appends an integer.
fn append_integer(alloc: Global, line: &mut Vec<u8>, number: i128) -> Result<(), AllocError>
    ensures { OnOk result (line.new.items ≡ line.old.items ++ signed_decimal number) }
{
    let text = number.to_string(alloc)?;
    line.extend_from_slice(text.as_bytes())?;
    Ok(())
}

// Appends a fraction.
fn append_fraction(alloc: Global, line: &mut Vec<u8>, value: Ratio) -> Result<(), AllocError>
    ensures { OnOk result (line.new.items ≡ line.old.items ++ Spec.ratio_text value) }
{
    let num = value.num().to_string(alloc)?;
    let den = value.den().to_string(alloc)?;
    line.extend_from_slice(num.as_bytes())?;
    line.extend_from_slice(b"/")?;
    line.extend_from_slice(den.as_bytes())?;
    Ok(())
}

// Returns the name of a setting.
fn setting_word(which: SettingName) -> &'static [u8]
    ensures { result.now ≡ Spec.setting_text which }
{
    match which {
        SettingName::StartTime => b"StartTime",
        SettingName::StopTime => b"StopTime",
        SettingName::CoefBits => b"QSS_CoefBits",
        SettingName::TickBits => b"QSS_TickBits",
        SettingName::LevelBits => b"QSS_LevelBits",
        SettingName::Quantum => b"QSS_Quantum",
    }
}

// Returns the name of a variable.
fn variable_name_at(names: &[Name], var: u32) -> &[u8]
    ensures { result.now ≡ Spec.variable_text names.now var }
{
    let var = var as usize;
    if var < names.len() {
        names[var].bytes()
    } else {
        b""
    }
}

fn parser_fault_line(alloc: Global, names: &[Name], fault: &ParseErr) -> Result<Vec<u8>, AllocError>
    ensures { IfOk result (λ line. line.items ≡ Spec.reason_line (Spec.parser_reason fault.now)) }
{
    match fault {
        ParseErr::Syntax { token } => refusal_reason(
            alloc,
            names,
            b"parse",
            1,
            &[Field::Number(*token)],
        ),
        ParseErr::Deep { token } => refusal_reason(
            alloc,
            names,
            b"parse",
            2,
            &[Field::Number(*token)],
        ),
        ParseErr::Memory => refusal_reason(alloc, names, b"parse", 3, &[]),
    }
}

fn names_fault_line(alloc: Global, names: &[Name], fault: &NameErr) -> Result<Vec<u8>, AllocError>
    ensures { IfOk result (λ line. line.items ≡ Spec.reason_line (Spec.names_reason fault.now)) }
{
    match fault {
        NameErr::EndName { at } => refusal_reason(alloc, names, b"names", 1, &[Field::Number(*at)]),
        NameErr::Duplicate { at } => refusal_reason(
            alloc,
            names,
            b"names",
            2,
            &[Field::Number(*at)],
        ),
        NameErr::Unknown { at } => refusal_reason(alloc, names, b"names", 3, &[Field::Number(*at)]),
        NameErr::Misused { at } => refusal_reason(alloc, names, b"names", 4, &[Field::Number(*at)]),
        NameErr::NoValue { at } => refusal_reason(alloc, names, b"names", 5, &[Field::Number(*at)]),
        NameErr::NotWhole { at } => refusal_reason(
            alloc,
            names,
            b"names",
            6,
            &[Field::Number(*at)],
        ),
        NameErr::Size { at, value } => {
            refusal_reason(
                alloc,
                names,
                b"names",
                7,
                &[Field::Number(*at), Field::Whole(*value)],
            )
        }
        NameErr::ConstFault { at, fault } => {
            let fields = [
                Field::Number(*at),
                Field::Number(arithmetic_fault_number(*fault)),
            ];
            refusal_reason(alloc, names, b"names", 8, &fields)
        }
        NameErr::Memory => refusal_reason(alloc, names, b"names", 9, &[]),
    }
}

// Returns the number of an arithmetic fault.
fn arithmetic_fault_number(fault: NumErr) -> u32
    ensures { result ≡ Spec.fault_number fault }
{
    match fault {
        NumErr::Range => 1,
        NumErr::ZeroDivisor => 2,
    }
}

fn unrolling_fault_line(
    alloc: Global,
    names: &[Name],
    fault: &UnrollErr,
) -> Result<Vec<u8>, AllocError>
    ensures { IfOk result
        (λ line. line.items ≡ Spec.reason_line (Spec.unrolling_reason fault.now)) }
{
    match fault {
        UnrollErr::Index { at, value, size } => {
            let fields = [
                Field::Number(*at),
                Field::Whole(*value),
                Field::Number(*size),
            ];
            refusal_reason(alloc, names, b"unroll", 1, &fields)
        }
        UnrollErr::NotWhole { at } => refusal_reason(
            alloc,
            names,
            b"unroll",
            2,
            &[Field::Number(*at)],
        ),
        UnrollErr::TooMany { count } => refusal_reason(
            alloc,
            names,
            b"unroll",
            3,
            &[Field::Number(*count)],
        ),
        UnrollErr::ConstFault { at, fault } => {
            let fields = [
                Field::Number(*at),
                Field::Number(arithmetic_fault_number(*fault)),
            ];
            refusal_reason(alloc, names, b"unroll", 4, &fields)
        }
        UnrollErr::Memory => refusal_reason(alloc, names, b"unroll", 5, &[]),
    }
}

fn order_fault_line(alloc: Global, names: &[Name], fault: &CausalErr) -> Result<Vec<u8>, AllocError>
    ensures { IfOk result
        (λ line. line.items ≡ Spec.reason_line (Spec.order_reason names.now fault.now)) }
{
    match fault {
        CausalErr::NoEquation { var } => {
            refusal_reason(alloc, names, b"causal", 1, &[Field::Variable(*var)])
        }
        CausalErr::TwoEquations { var, first, second } => {
            let fields = [
                Field::Variable(*var),
                Field::Number(*first),
                Field::Number(*second),
            ];
            refusal_reason(alloc, names, b"causal", 2, &fields)
        }
        CausalErr::Loop { vars } => {
            let fields = cycle_fields(alloc, vars.as_slice())?;
            refusal_reason(alloc, names, b"causal", 3, &fields)
        }
        CausalErr::Memory => refusal_reason(alloc, names, b"causal", 4, &[]),
    }
}

// Returns the variables of a cycle as fields.
fn cycle_fields(alloc: Global, vars: &[u32]) -> Result<Vec<Field>, AllocError>
    ensures { IfOk result (λ fields. fields.items ≡ map Field.Variable vars.now) }
{
    vars.iter().map(|var| Field::Variable(*var)).collect(alloc)
}

fn forms_fault_line(alloc: Global, names: &[Name], fault: &AffineErr) -> Result<Vec<u8>, AllocError>
    ensures { IfOk result (λ line. line.items ≡ Spec.reason_line (Spec.forms_reason fault.now)) }
{
    match fault {
        AffineErr::NotAffine { at } => refusal_reason(
            alloc,
            names,
            b"affine",
            1,
            &[Field::Number(*at)],
        ),
        AffineErr::TimeHere { at } => refusal_reason(
            alloc,
            names,
            b"affine",
            2,
            &[Field::Number(*at)],
        ),
        AffineErr::ConstFault { at, fault } => {
            let fields = [
                Field::Number(*at),
                Field::Number(arithmetic_fault_number(*fault)),
            ];
            refusal_reason(alloc, names, b"affine", 3, &fields)
        }
        AffineErr::TooDense { count } => refusal_reason(
            alloc,
            names,
            b"affine",
            4,
            &[Field::Number(*count)],
        ),
        AffineErr::Memory => refusal_reason(alloc, names, b"affine", 5, &[]),
    }
}

fn rounding_fault_line(
    alloc: Global,
    names: &[Name],
    fault: &MachineErr,
) -> Result<Vec<u8>, AllocError>
    ensures { IfOk result
        (λ line. line.items ≡ Spec.reason_line (Spec.rounding_reason names.now fault.now)) }
{
    match fault {
        MachineErr::Setting { which, value } => {
            let fields = [Field::Setting(*which), Field::Share(*value)];
            refusal_reason(alloc, names, b"machine", 1, &fields)
        }
        MachineErr::Start { var } => {
            refusal_reason(alloc, names, b"machine", 2, &[Field::Variable(*var)])
        }
        MachineErr::Quantum { var } => {
            refusal_reason(alloc, names, b"machine", 3, &[Field::Variable(*var)])
        }
        MachineErr::Coefficient { row } => {
            refusal_reason(alloc, names, b"machine", 4, &[Field::Number(*row)])
        }
        MachineErr::Memory => refusal_reason(alloc, names, b"machine", 5, &[]),
    }
}
