//! The phases of the compiler, from the bytes of a source to its machine. The error is that of the
//! first phase that rejects the source.

ghost use Rattle.std.specs.Prelude.{◌≡◌, ◌≤◌, length, map, IfOk, IfErr};
ghost use Rattle.qss_compile.specs.Prelude.{model_length_limit, IsNumbered, flat_model, IsFlatModel, model};
ghost use Rattle.qss_compile.specs.Causes.{with_names, without_names};
ghost use Rattle.qss_compile.specs.Flats.{flat_source};
ghost use Rattle.qss_compile.specs.Compilation as Spec;

use crate::model_refusal::{ModelErr, Refused};
use mu_affine::{normal, to_machine};
use mu_causal::order;
use mu_io::{Items, Name};
use mu_lexer::lex;
use mu_names::roles;
use mu_parser::parse;
use mu_tree::{FlatModel, FlatVar, Model, Settings};
use mu_unroll::unroll;
use qss_machine::Machine;
use std::alloc::{AllocError, Global};

/// A flat model with its settings.
#[derive(Drop)]
pub struct Flat {
    pub model: FlatModel,
    pub settings: Settings,
}

/// Compiles a source to its machine. The error is that of the first phase that rejects it. The
/// source has at most 2^20 bytes.
#[tactic(none)]
pub fn compile(alloc: Global, source: &[u8]) -> Result<Machine, Refused>
    requires { length source.now ≤ model_length_limit }
    ensures means { IfOk result (Spec.CompilesTo source.now) }
    ensures refused { IfErr result (Spec.IsErr (Spec.IsRefused source.now)) }
{
    let tree = match compile_source_to_tree(alloc, source) {
        Ok(tree) => tree,
        Err(error) => return Err(Refused::early_model_refusal(alloc, error)),
    };
    compile_tree(alloc, &tree)
}

/// Parses a source as a model. The error is that of the lexer or the parser.
pub fn compile_source_to_tree(alloc: Global, source: &[u8]) -> Result<Model, ModelErr>
    requires { length source.now ≤ model_length_limit }
    ensures spelled { IfOk result (λ tree. Spec.SourceParsesAs source.now (model tree)) }
    ensures refused { IfErr result
        (λ e. Spec.IsErr (Spec.IsParseRefusal source.now) (without_names e)) }
{
    let tokens = lex(alloc, source)?;
    let tree = parse(alloc, source, &tokens)?;
    Ok(tree)
}

/// Compiles a model to its machine. The error is that of the first phase that rejects it.
#[tactic(none)]
pub fn compile_tree(alloc: Global, tree: &Model) -> Result<Machine, Refused>
    requires { Spec.IsParsedModel (model tree.now) }
    ensures means { IfOk result (Spec.TreeCompilesTo (model tree.now)) }
    ensures refused { IfErr result (Spec.IsErr (Spec.IsTreeRefused (model tree.now))) }
{
    let flat = match compile_to_flat(alloc, tree) {
        Ok(flat) => flat,
        Err(error) => return Err(Refused::early_model_refusal(alloc, error)),
    };
    match compile_flat_machine(alloc, &flat) {
        Ok(machine) => Ok(machine),
        Err(error) => Err(attach_compiled_names(alloc, error, &flat.model)),
    }
}

// Checks the names of a model and unrolls it to a flat model with its settings.
#[tactic(none)]
fn compile_to_flat(alloc: Global, tree: &Model) -> Result<Flat, ModelErr>
    requires { Spec.IsParsedModel (model tree.now) }
    ensures flat { IfOk result (λ flat. Spec.IsFlatOf (model tree.now) (flat_source flat)) }
    ensures model { IfOk result (λ flat. IsFlatModel (flat_model flat.model)) }
    ensures numbered { IfOk result (λ flat. IsNumbered (flat_model flat.model)) }
    ensures refused { IfErr result
        (λ e. Spec.IsErr (Spec.IsNotFlat (model tree.now)) (without_names e)) }
{
    let scope = roles(alloc, tree)?;
    let model = unroll(alloc, tree, &scope)?;
    Ok(Flat {
        model,
        settings: scope.settings,
    })
}

// Compiles a flat model to its machine.
#[tactic(none)]
fn compile_flat_machine(alloc: Global, flat: &Flat) -> Result<Machine, ModelErr>
    requires model { IsFlatModel (flat_model flat.now.model) }
    requires numbered { IsNumbered (flat_model flat.now.model) }
    ensures means { IfOk result (Spec.FlatCompilesTo (flat_source flat.now)) }
    ensures refused { IfErr result
        (λ e. Spec.IsErr (Spec.IsFlatRefused (flat_source flat.now))
        (with_names (flat_model flat.now.model) e)) }
{
    let order = order(alloc, &flat.model)?;
    let forms = normal(alloc, &flat.model, &order)?;
    let machine = to_machine(alloc, &forms, &flat.model, &flat.settings)?;
    Ok(machine)
}

// Adds the names of a flat model's variables to its error.
fn attach_compiled_names(alloc: Global, error: ModelErr, model: &FlatModel) -> Refused
    ensures { Spec.IsErr (λ r. r ≡ with_names (flat_model model.now) error) result }
{
    match compiled_variable_names(alloc, &model.vars) {
        Ok(names) => Refused {
            error,
            names: Items::new(names),
        },
        Err(_) => Refused::early_model_refusal(alloc, ModelErr::Memory),
    }
}

// Returns the names of variables.
fn compiled_variable_names(alloc: Global, vars: &[FlatVar]) -> Result<Vec<Name>, AllocError>
    ensures { IfOk result (λ names. names.items ≡ map (λ v. v.name) vars.now) }
{
    let mut names = Vec::new(alloc);
    for one in vars {
        let name = one.name.copy(alloc)?;
        names.push(name)?;
    }
    Ok(names)
}
