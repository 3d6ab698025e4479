//! Writes the canonical text of equations, statements and clauses, and of the loops over them.

ghost use Rattle.std.specs.Prelude.{◌≡◌, ◌++◌, [], ◌∷◌, ℕ, List, codes, map, OnOk, refl, true};
ghost use Rattle.std.proofs.Common.{ap};
ghost use Rattle.mu_tree.specs.Canonical.{branch_word, end_for, joined, relation, section, written_branches, written_clause, written_clauses, written_condition, written_equation, written_equations, written_range, written_statement, written_statements};
ghost use Rattle.mu_tree.specs.ModelTree.{Range, branch, clause, clauses_of, condition, equation, equations_of, statement, statements_of};
ghost use Rattle.mu_tree.specs.Nests.{One, range_of};

use crate::expression_text::{write_expression, write_reference, write_token_text};
use mu_tree::{Branch, Clause, Cond, Equation, Nest, Nested, RangeRef, Rel, Statement};
use std::alloc::AllocError;

/// Items that occur in loops and have a canonical text. `texts` are the tokens of an item, and
/// `list_texts` are those of a list of items.
pub(crate) trait WrittenItem: Nest {
    ghost texts: { Self → List (List ℕ) };

    ghost list_texts: { List Self → List (List ℕ) };

    /// Appends the canonical text of an item that is no loop.
    fn write_one(&self, out: &mut Vec<u8>) -> Result<(), AllocError>
        requires { (l : Self.Leaf) × (Self.item (Self.tree self.now) ≡ One l) }
        ensures { OnOk result (out.new.items ≡ out.old.items ++ joined (texts self.now)) };

    ghost no_texts: { list_texts [] ≡ [] };

    ghost more_texts: { (x : Self) (xs : List Self)
        → list_texts (x ∷ xs) ≡ texts x ++ list_texts xs };

    ghost loop_texts: { (x : Self) (r : Range) (body : List Self)
        → Self.Nest.tree x ≡ Self.Nest.each r (map Self.Nest.tree body)
        → texts x ≡ written_range r ++ list_texts body ++ end_for };
}

impl WrittenItem for Equation {
    ghost texts = { λ x. written_equation (equation x) };

    ghost list_texts = { λ xs. written_equations (equations_of (map equation xs)) };

    fn write_one(&self, out: &mut Vec<u8>) -> Result<(), AllocError> {
        match self {
            Equation::Der { target, value } => {
                write_token_text(out, b"der")?;
                write_token_text(out, b"(")?;
                write_reference(out, target)?;
                write_token_text(out, b")")?;
                write_token_text(out, b"=")?;
                write_expression(out, value)?;
                write_token_text(out, b";")
            }
            Equation::Plain { target, value } => {
                write_reference(out, target)?;
                write_token_text(out, b"=")?;
                write_expression(out, value)?;
                write_token_text(out, b";")
            }
            Equation::For { .. } => unreachable!(),
        }
    }

    ghost no_texts = { refl };

    ghost more_texts = { λ x xs. refl };

    ghost loop_texts = { λ x r body e. ap written_equation e };
}

impl WrittenItem for Statement {
    ghost texts = { λ x. written_statement (statement x) };

    ghost list_texts = { λ xs. written_statements (statements_of (map statement xs)) };

    fn write_one(&self, out: &mut Vec<u8>) -> Result<(), AllocError> {
        match self {
            Statement::Set { target, value } => {
                write_reference(out, target)?;
                write_token_text(out, b":=")?;
                write_expression(out, value)?;
                write_token_text(out, b";")
            }
            Statement::Reinit { target, value } => {
                write_token_text(out, b"reinit")?;
                write_token_text(out, b"(")?;
                write_reference(out, target)?;
                write_token_text(out, b",")?;
                write_expression(out, value)?;
                write_token_text(out, b")")?;
                write_token_text(out, b";")
            }
            Statement::For { .. } => unreachable!(),
        }
    }

    ghost no_texts = { refl };

    ghost more_texts = { λ x xs. refl };

    ghost loop_texts = { λ x r body e. ap written_statement e };
}

impl WrittenItem for Clause {
    ghost texts = { λ x. written_clause (clause x) };

    ghost list_texts = { λ xs. written_clauses (clauses_of (map clause xs)) };

    fn write_one(&self, out: &mut Vec<u8>) -> Result<(), AllocError> {
        match self {
            Clause::When { branches } => {
                write_branches(out, branches)?;
                write_clause_end(out)
            }
            Clause::For { .. } => unreachable!(),
        }
    }

    ghost no_texts = { refl };

    ghost more_texts = { λ x xs. refl };

    ghost loop_texts = { λ x r body e. ap written_clause e };
}

/// Appends a section that begins with this keyword, if there are items.
pub(crate) fn write_section<T: WrittenItem>(
    out: &mut Vec<u8>,
    keyword: &[u8],
    items: &[T],
) -> Result<(), AllocError>
    ensures { OnOk result
        (out.new.items
        ≡ out.old.items
        ++ joined
        (section (keyword.now ∷ []) (map T.tree items.now)
        (T.list_texts items.now))) }
{
    if items.is_empty() {
        return Ok(());
    }
    write_token_text(out, keyword)?;
    write_items(out, items)
}

// Appends the canonical text of items and of the loops over items.
fn write_items<T: WrittenItem>(out: &mut Vec<u8>, items: &[T]) -> Result<(), AllocError>
    ensures { OnOk result
        (out.new.items
        ≡ out.old.items ++ joined (T.list_texts items.now)) }
{
    for one in items {
        match one.nested() {
            Nested::One(one) => one.write_one(out)?,
            Nested::Each { range, body } => {
                write_loop_head(out, range)?;
                write_items(out, body)?;
                write_loop_end(out)?;
            }
        }
    }
    Ok(())
}

// Appends the head of a loop.
fn write_loop_head(out: &mut Vec<u8>, range: RangeRef) -> Result<(), AllocError>
    ensures { OnOk result
        (out.new.items ≡ out.old.items ++ joined (written_range (range_of range.entry))) }
{
    write_token_text(out, b"for")?;
    write_token_text(out, range.var.bytes())?;
    write_token_text(out, b"in")?;
    write_expression(out, range.from)?;
    write_token_text(out, b":")?;
    write_expression(out, range.to)?;
    write_token_text(out, b"loop")
}

// Appends the end of a loop.
fn write_loop_end(out: &mut Vec<u8>) -> Result<(), AllocError>
    ensures { OnOk result (out.new.items ≡ out.old.items ++ joined end_for) }
{
    write_token_text(out, b"end")?;
    write_token_text(out, b"for")?;
    write_token_text(out, b";")
}

// Appends the canonical text of branches.
fn write_branches(out: &mut Vec<u8>, branches: &[Branch]) -> Result<(), AllocError>
    ensures { OnOk result
        (out.new.items
        ≡ out.old.items ++ joined (written_branches (map branch branches.now) true)) }
{
    let mut first = true;
    for one in branches {
        write_token_text(out, clause_keyword_text(first))?;
        write_model_condition(out, &one.cond)?;
        write_token_text(out, b"then")?;
        write_items(out, &one.body)?;
        first = false;
    }
    Ok(())
}

// Returns the keyword of a branch: `when` or `elsewhen`.
fn clause_keyword_text(first: bool) -> &'static [u8]
    ensures { result.now ≡ branch_word first }
{
    if first { b"when" } else { b"elsewhen" }
}

// Appends the canonical text of a condition.
fn write_model_condition(out: &mut Vec<u8>, cond: &Cond) -> Result<(), AllocError>
    ensures { OnOk result
        (out.new.items ≡ out.old.items ++ joined (written_condition (condition cond.now))) }
{
    write_expression(out, &cond.left)?;
    write_token_text(out, relation_text(cond.rel))?;
    write_expression(out, &cond.right)
}

// Returns the text of a comparison operator.
fn relation_text(rel: Rel) -> &'static [u8]
    ensures { result.now ≡ relation rel }
{
    match rel {
        Rel::Less => b"<",
        Rel::LessEq => b"<=",
        Rel::Greater => b">",
        Rel::GreaterEq => b">=",
    }
}

// Appends the end of a `when` clause.
fn write_clause_end(out: &mut Vec<u8>) -> Result<(), AllocError>
    ensures { OnOk result
        (out.new.items ≡ out.old.items ++ joined (codes "end" ∷ codes "when" ∷ codes ";" ∷ [])) }
{
    write_token_text(out, b"end")?;
    write_token_text(out, b"when")?;
    write_token_text(out, b";")
}
