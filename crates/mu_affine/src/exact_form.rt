//! Exact affine forms: linear combinations of variables, products and the time, with fractions as
//! coefficients. The file also has the forms of a constant, of a variable and of the time.

ghost use Rattle.std.specs.Prelude.{◌≡◌, ◌<◌, ◌^◌, IfOk};
ghost use Rattle.mu_affine.specs.AffineForm.{constant_form, name_form, time_form};
ghost use Rattle.mu_affine.specs.FinishedForms.{form_meaning, IsFinished, MayStand};
ghost use Rattle.mu_affine.specs.declared.exact_form.Place.{Place};

use mu_io::Items;
use mu_num::Ratio;
use std::alloc::{AllocError, Global};

/// A nonzero coefficient of a variable. With n states and g discrete variables, the states have the
/// numbers below n, the discrete variables those from n to n + g - 1, and their previous values
/// those from n + g to n + 2 g - 1.
#[derive(Clone, Copy, Drop)]
pub struct ExactEntry {
    pub var: u32,
    pub coef: Ratio,
}

/// A nonzero coefficient of the product of a state and a discrete variable. Both have the numbers
/// of `ExactEntry`.
#[derive(Clone, Copy, Drop)]
pub struct ExactProduct {
    pub state: u32,
    pub discrete: u32,
    pub coef: Ratio,
}

/// An affine form: the coefficients of variables sorted by number, the coefficients of products
/// sorted by state and then by discrete variable, the coefficient of time, and the constant.
#[derive(Drop)]
pub struct ExactForm {
    pub entries: Items<ExactEntry>,
    pub products: Items<ExactProduct>,
    pub time: Ratio,
    pub constant: Ratio,
}

impl ExactForm {
    /// Creates the form of a constant.
    pub fn constant(alloc: Global, value: Ratio) -> ExactForm
        ensures meaning { form_meaning result ≡ constant_form value }
        ensures finished { (p : Place) → IsFinished p result }
    {
        ExactForm {
            entries: Items::new(Vec::new(alloc)),
            products: Items::new(Vec::new(alloc)),
            time: Ratio::whole(0),
            constant: value,
        }
    }

    /// Creates the form of a variable.
    pub fn name(alloc: Global, var: u32) -> Result<ExactForm, AllocError>
        ensures meaning { IfOk result (λ f. form_meaning f ≡ name_form var) }
        ensures finished { IfOk result (λ f. (p : Place) → MayStand p var → IsFinished p f) }
    {
        let mut entries = Vec::new(alloc);
        entries.push(ExactEntry {
            var,
            coef: Ratio::whole(1),
        })?;
        Ok(ExactForm {
            entries: Items::new(entries),
            products: Items::new(Vec::new(alloc)),
            time: Ratio::whole(0),
            constant: Ratio::whole(0),
        })
    }

    /// Creates the form of the time.
    pub fn time(alloc: Global) -> ExactForm
        ensures meaning { form_meaning result ≡ time_form }
        ensures finished { (p : Place) → IsFinished p result }
    {
        ExactForm {
            entries: Items::new(Vec::new(alloc)),
            products: Items::new(Vec::new(alloc)),
            time: Ratio::whole(1),
            constant: Ratio::whole(0),
        }
    }

    /// Copies a form.
    pub fn copy(&self, alloc: Global) -> Result<ExactForm, AllocError>
        ensures { IfOk result (λ f. f ≡ self.now) }
    {
        let entries = self.entries.as_slice().to_vec(alloc)?;
        let products = self.products.as_slice().to_vec(alloc)?;
        Ok(ExactForm {
            entries: Items::new(entries),
            products: Items::new(products),
            time: self.time,
            constant: self.constant,
        })
    }
}

/// The forms of a flat model: those of the states by number, then, clause by clause, those of each
/// branch's condition and statements.
#[derive(Drop)]
pub struct Forms {
    pub forms: Items<ExactForm>,
}

/// The numbers of states and discrete variables.
#[derive(Clone, Copy, Drop)]
pub struct Sizes {
    pub states: u32,
    pub discretes: u32,
}

/// The context of an expression: an equation, or a condition or statement of a clause. Products of
/// a discrete variable and a state are allowed only in equations.
#[derive(Clone, Copy, Drop)]
pub struct Place {
    pub sizes: Sizes,
    pub in_equation: bool,
}
