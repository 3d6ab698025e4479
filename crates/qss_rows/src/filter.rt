//! Filters of output rows by the name of a variable or of an array.

ghost use Rattle.std.specs.Prelude.{◌≡◌, ◌+◌, ◌<◌};
ghost use Rattle.qss_rows.specs.Prelude.{state_count, discrete_count};
ghost use Rattle.qss_rows.specs.RowTexts.{HasVariable, name_of};
ghost use Rattle.qss_rows.specs.Filters as Spec;

use crate::line_writer::line_variable_name;
use mu_io::Name;
use qss_machine::{Machine, Row, RowKind};
use std::marker::Model;

/// A filter of output rows: it passes the rows of one variable, of all elements of one array, or
/// all rows.
#[derive(Drop)]
pub struct Filter {
    only: Option<Name>,
}

impl Model for Filter {
    ghost use Rattle.std.specs.Prelude.{List, Option, ℕ};

    ghost Value = { Option (List ℕ) };

    ghost view = { λ filter. filter.only };
}

impl Filter {
    /// A filter that passes the rows of the variable with this name, or of all elements of the
    /// array with this name. Without a name it passes all rows.
    pub fn new(only: Option<Name>) -> Filter
        ensures { result ≡ only }
    {
        Filter { only }
    }

    /// Whether a row of a machine passes the filter. Rows of branches that fire and of overflows
    /// always pass. It allocates no memory.
    #[inline(always)]
    pub fn passes(&self, r: &Row, m: &Machine) -> bool
        requires { HasVariable m.now r.now }
        ensures { result ≡ Spec.passes self.now m.now r.now }
    {
        match r.kind {
            RowKind::When { .. } => true,
            RowKind::Overflow => true,
            _ => self.keeps(m, r.var),
        }
    }

    // Whether the filter passes the rows of a variable. Without a name in the filter, no name is
    // looked up.
    #[inline(always)]
    fn keeps(&self, m: &Machine, var: u32) -> bool
        requires { var < state_count m.now + discrete_count m.now }
        ensures { result ≡ Spec.keeps self.now (name_of m.now var) }
    {
        match &self.only {
            Some(only) => is_named_by_filter(only.bytes(), line_variable_name(m, var)),
            None => true,
        }
    }
}

// Whether a name is equal to `only`, or is the name of an element of the array `only`.
#[inline(never)]
fn is_named_by_filter(only: &[u8], name: &[u8]) -> bool
    ensures { result ≡ Spec.is_named only.now name.now }
{
    match name.strip_prefix(only) {
        Some(rest) => rest.is_empty() || rest[0] == b'[',
        None => false,
    }
}
