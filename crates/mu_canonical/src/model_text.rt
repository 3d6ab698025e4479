//! Writes the canonical text of a model: its declarations, equations, clauses and settings.

ghost use Rattle.std.specs.Prelude.{◌≡◌, ◌++◌, [], ◌∷◌, codes, map, IfOk, OnOk, true};
ghost use Rattle.std.specs.List.{flat_map};
ghost use Rattle.std.specs.Option.{option_map};
ghost use Rattle.mu_tree.specs.Canonical.{canonical_text, comma, joined, optional, section, setting_name, type, written_annotation, written_declaration, written_kind, written_settings, written_statements};
ghost use Rattle.mu_tree.specs.Expression.{expression};
ghost use Rattle.mu_tree.specs.ModelTree.{declaration, model, setting, statement, statements_of};

use crate::expression_text::{write_expression, write_token_text};
use crate::item_text::write_section;
use mu_tree::{Decl, Expr, Model, Prefix, SettingItem, SettingName, Statement};
use std::alloc::{AllocError, Global};

/// Returns the canonical text of a model. It accepts every tree, and takes linear time in the
/// length of the text. Errors: allocation failure.
pub fn write_model(alloc: Global, m: &Model) -> Result<Vec<u8>, AllocError>
    ensures { IfOk result (λ text. text.items ≡ canonical_text (model m.now)) }
{
    let mut out = Vec::new(alloc);
    write_token_text(&mut out, b"model")?;
    write_token_text(&mut out, m.name.bytes())?;
    write_declarations(&mut out, &m.decls)?;
    write_start_section(&mut out, &m.starts)?;
    write_section(&mut out, b"equation", &m.equations)?;
    write_section(&mut out, b"algorithm", &m.clauses)?;
    write_annotation(&mut out, &m.settings)?;
    write_token_text(&mut out, b"end")?;
    write_token_text(&mut out, m.end_name.bytes())?;
    write_token_text(&mut out, b";")?;
    Ok(out)
}

// Appends the canonical text of declarations.
fn write_declarations(out: &mut Vec<u8>, decls: &[Decl]) -> Result<(), AllocError>
    ensures { OnOk result
        (out.new.items
        ≡ out.old.items ++ joined (flat_map written_declaration (map declaration decls.now))) }
{
    for one in decls {
        write_declaration(out, one)?;
    }
    Ok(())
}

// Appends the canonical text of a declaration.
fn write_declaration(out: &mut Vec<u8>, decl: &Decl) -> Result<(), AllocError>
    ensures { OnOk result
        (out.new.items ≡ out.old.items ++ joined (written_declaration (declaration decl.now))) }
{
    write_declaration_head(out, decl)?;
    write_declaration_start(out, &decl.start)?;
    write_declaration_value(out, &decl.value)?;
    write_declaration_quantum(out, &decl.quantum)?;
    write_token_text(out, b";")
}

// Appends the prefix, type, name and array size of a declaration.
fn write_declaration_head(out: &mut Vec<u8>, decl: &Decl) -> Result<(), AllocError>
    ensures { OnOk result
        (out.new.items
        ≡ out.old.items
        ++ joined
        (written_kind decl.now.prefix decl.now.whole
        ++ decl.now.name
        ∷ optional
        (codes "[" ∷ []) (option_map expression decl.now.size) (codes "]"
        ∷ []))) }
{
    write_declaration_kind(out, decl.prefix, decl.whole)?;
    write_token_text(out, decl.name.bytes())?;
    write_declaration_size(out, &decl.size)
}

// Appends the prefix and the type of a declaration.
fn write_declaration_kind(out: &mut Vec<u8>, prefix: Prefix, whole: bool) -> Result<(), AllocError>
    ensures { OnOk result (out.new.items ≡ out.old.items ++ joined (written_kind prefix whole)) }
{
    match prefix {
        Prefix::Plain => write_declaration_type(out, whole),
        Prefix::Discrete => {
            write_token_text(out, b"discrete")?;
            write_declaration_type(out, whole)
        }
        Prefix::Parameter => {
            write_token_text(out, b"parameter")?;
            write_declaration_type(out, whole)
        }
        Prefix::Constant => {
            write_token_text(out, b"constant")?;
            write_declaration_type(out, whole)
        }
    }
}

// Appends the name of a type.
fn write_declaration_type(out: &mut Vec<u8>, whole: bool) -> Result<(), AllocError>
    ensures { OnOk result (out.new.items ≡ out.old.items ++ joined (type whole)) }
{
    if whole {
        write_token_text(out, b"Integer")
    } else {
        write_token_text(out, b"Real")
    }
}

// Appends the array size of a component, if it has one.
fn write_declaration_size(out: &mut Vec<u8>, size: &Option<Expr>) -> Result<(), AllocError>
    ensures { OnOk result
        (out.new.items
        ≡ out.old.items
        ++ joined
        (optional (codes "[" ∷ []) (option_map expression size.now) (codes "]" ∷ []))) }
{
    match size {
        None => Ok(()),
        Some(size) => {
            write_token_text(out, b"[")?;
            write_expression(out, size)?;
            write_token_text(out, b"]")
        }
    }
}

// Appends the start value of a component, if it has one.
fn write_declaration_start(out: &mut Vec<u8>, start: &Option<Expr>) -> Result<(), AllocError>
    ensures { OnOk result
        (out.new.items
        ≡ out.old.items
        ++ joined
        (optional
        (codes "(" ∷ codes "start" ∷ codes "=" ∷ [])
        (option_map expression start.now) (codes ")"
        ∷ []))) }
{
    match start {
        None => Ok(()),
        Some(start) => {
            write_token_text(out, b"(")?;
            write_token_text(out, b"start")?;
            write_token_text(out, b"=")?;
            write_expression(out, start)?;
            write_token_text(out, b")")
        }
    }
}

// Appends the value of a component, if it has one.
fn write_declaration_value(out: &mut Vec<u8>, value: &Option<Expr>) -> Result<(), AllocError>
    ensures { OnOk result
        (out.new.items
        ≡ out.old.items
        ++ joined (optional (codes "=" ∷ []) (option_map expression value.now) [])) }
{
    match value {
        None => Ok(()),
        Some(value) => {
            write_token_text(out, b"=")?;
            write_expression(out, value)
        }
    }
}

// Appends the quantum of a component, if it has one.
fn write_declaration_quantum(out: &mut Vec<u8>, quantum: &Option<Expr>) -> Result<(), AllocError>
    ensures { OnOk result
        (out.new.items
        ≡ out.old.items
        ++ joined
        (optional
        (codes "annotation"
        ∷ codes "(" ∷ codes "QSS_Quantum" ∷ codes "=" ∷ [])
        (option_map expression quantum.now) (codes ")"
        ∷ []))) }
{
    match quantum {
        None => Ok(()),
        Some(quantum) => {
            write_token_text(out, b"annotation")?;
            write_token_text(out, b"(")?;
            write_token_text(out, b"QSS_Quantum")?;
            write_token_text(out, b"=")?;
            write_expression(out, quantum)?;
            write_token_text(out, b")")
        }
    }
}

// Appends the `initial algorithm` section, if there are start assignments.
fn write_start_section(out: &mut Vec<u8>, starts: &[Statement]) -> Result<(), AllocError>
    ensures { OnOk result
        (out.new.items
        ≡ out.old.items
        ++ joined
        (section (codes "initial" ∷ codes "algorithm" ∷ []) (map statement starts.now)
        (written_statements (statements_of (map statement starts.now))))) }
{
    if starts.is_empty() {
        return Ok(());
    }
    write_token_text(out, b"initial")?;
    write_section(out, b"algorithm", starts)
}

// Appends the annotation with the settings, if there are any.
fn write_annotation(out: &mut Vec<u8>, settings: &[SettingItem]) -> Result<(), AllocError>
    ensures { OnOk result
        (out.new.items ≡ out.old.items ++ joined (written_annotation (map setting settings.now))) }
{
    if settings.is_empty() {
        return Ok(());
    }
    write_experiment_head(out)?;
    write_settings(out, settings)?;
    write_token_text(out, b")")?;
    write_token_text(out, b")")?;
    write_token_text(out, b";")
}

// Appends the text before the settings.
fn write_experiment_head(out: &mut Vec<u8>) -> Result<(), AllocError>
    ensures { OnOk result
        (out.new.items
        ≡ out.old.items
        ++ joined (codes "annotation" ∷ codes "(" ∷ codes "experiment" ∷ codes "(" ∷ [])) }
{
    write_token_text(out, b"annotation")?;
    write_token_text(out, b"(")?;
    write_token_text(out, b"experiment")?;
    write_token_text(out, b"(")
}

// Appends the canonical text of settings, separated by commas.
fn write_settings(out: &mut Vec<u8>, settings: &[SettingItem]) -> Result<(), AllocError>
    ensures { OnOk result
        (out.new.items
        ≡ out.old.items ++ joined (written_settings (map setting settings.now) true)) }
{
    let mut first = true;
    for one in settings {
        write_setting_comma(out, first)?;
        write_token_text(out, setting_text(one.which))?;
        write_token_text(out, b"=")?;
        write_expression(out, &one.value)?;
        first = false;
    }
    Ok(())
}

// Appends a comma, except before the first item.
fn write_setting_comma(out: &mut Vec<u8>, first: bool) -> Result<(), AllocError>
    ensures { OnOk result (out.new.items ≡ out.old.items ++ joined (comma first)) }
{
    if first {
        Ok(())
    } else {
        write_token_text(out, b",")
    }
}

// Returns the name of a setting.
fn setting_text(which: SettingName) -> &'static [u8]
    ensures { result.now ≡ setting_name which }
{
    match which {
        SettingName::StartTime => b"StartTime",
        SettingName::StopTime => b"StopTime",
        SettingName::CoefBits => b"QSS_CoefBits",
        SettingName::TickBits => b"QSS_TickBits",
        SettingName::LevelBits => b"QSS_LevelBits",
        SettingName::Quantum => b"QSS_Quantum",
    }
}
