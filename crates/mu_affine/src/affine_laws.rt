//! Theorems about the affine forms of flat models and about their machines. Each is the contract of
//! a function with an empty body.

ghost use Rattle.std.specs.Prelude.{◌≡◌, ℕ, List, Ok};
ghost use Rattle.mu_affine.specs.Prelude.{FlatModelTree, IsFlatModel, IsOrder, EachHasOneEquation, IsAlgebraic, DependsOn};
ghost use Rattle.mu_affine.specs.AffineForm.{AffineForm};
ghost use Rattle.mu_affine.specs.FormSequence.{FormsSoFar, forms_of};
ghost use Rattle.mu_affine.specs.MachineLaws.{FinishedFormsAreLaidOut, MachinesAreUnique};
ghost use Rattle.mu_affine.specs.Solution.{sizes_of, IsSolution};

/// The forms that are solved along a causal order are a solution: each algebraic variable has the
/// form of the right-hand side of its equation.
pub fn affine_forms_are_solution()
    ensures { (m : FlatModelTree) (order : List ℕ) (taken : FormsSoFar) → IsFlatModel m
        → EachHasOneEquation m
        → IsOrder (IsAlgebraic m) (DependsOn m) order
        → forms_of m order ≡ Ok taken
        → IsSolution (sizes_of m) m.equations taken.solved }
{}

/// Two solutions of a flat model with a causal order agree on every algebraic variable.
pub fn affine_solutions_are_unique()
    ensures { (m : FlatModelTree) (order : List ℕ) (first second : ℕ → AffineForm) → IsFlatModel m
        → EachHasOneEquation m
        → IsOrder (IsAlgebraic m) (DependsOn m) order
        → IsSolution (sizes_of m) m.equations first
        → IsSolution (sizes_of m) m.equations second
        → (v : ℕ) → IsAlgebraic m v
        → first v ≡ second v }
{}

/// A flat model with its forms and settings has a machine if and only if it has no fault. The
/// machine is unique.
pub fn affine_machines_are_unique()
    ensures { MachinesAreUnique }
{}

/// Finished forms satisfy the layout that a machine requires.
pub fn affine_forms_have_layout()
    ensures { FinishedFormsAreLaidOut }
{}
