//! What names and references denote at a place of the model: declared names, and the variables of
//! the loops around the place.

ghost use Rattle.std.specs.Prelude.{◌≡◌, ◌≤◌, ◌^◌, ◌-◌, length, take, unsigned_abs, IfErr, OnOk};
ghost use Rattle.mu_unroll.specs.Unrolling.{inside};
ghost use Rattle.mu_unroll.specs.VariablePlaces.{loop_value};
ghost use Rattle.mu_unroll.specs.VariableTables.{denoted};
ghost use Rattle.mu_unroll.specs.declared.unroll_fault.UnrollErr.TheVariants.{Memory};

use crate::unroll_fault::UnrollErr;
use mu_io::Name;
use mu_names::find;
use mu_num::Ratio;
use mu_tree::FlatRole;
use std::alloc::Global;
use std::collections::BTreeMap;

/// What a name denotes.
#[derive(Clone, Copy, Drop)]
pub enum NameDenotation {
    /// A parameter or a loop variable, with its value.
    Constant(Ratio),
    /// A variable: its role, the number of its first element, and its array size if it is an array.
    Variable(FlatRole, u32, Option<u32>),
    /// An undeclared name.
    Nothing,
}

/// The result of resolving a reference.
#[derive(Clone, Copy, Drop)]
pub enum ResolvedReference {
    /// A constant, with its value.
    Value(Ratio),
    /// A scalar variable: its role and its number.
    Numbered(FlatRole, u32),
    /// Neither.
    Unfound,
}

/// A loop variable with its current value.
#[derive(Drop)]
pub struct LoopVar {
    pub name: Name,
    pub value: Ratio,
}

/// The names at a place of the model: the declared names and the loop variables around the place.
#[derive(Drop)]
pub struct Environment<'a> {
    pub declared: BTreeMap<&'a [u8], NameDenotation>,
    pub loops: Vec<LoopVar>,
}

impl<'a> Environment<'a> {
    /// Returns what a name denotes. A loop variable hides a declaration.
    pub fn meaning_of(&self, name: &[u8]) -> NameDenotation
        ensures { result ≡ denoted self.now name.now }
    {
        match environment_loop_value(&self.loops, name) {
            Some(value) => NameDenotation::Constant(value),
            None => match find(&self.declared, name) {
                Some(meant) => meant,
                None => NameDenotation::Nothing,
            },
        }
    }

    /// Enters a round of one more loop. Errors: out of memory.
    pub fn enter(&mut self, alloc: Global, var: &Name, value: i128) -> Result<(), UnrollErr>
        requires { unsigned_abs value ≤ 2 ^ 62 }
        ensures loops { OnOk result
            (self.new.loops.items ≡ inside self.old.loops.items var.now value) }
        ensures declared { self.new.declared ≡ self.old.declared }
        ensures err { IfErr result (λ fault. fault ≡ Memory) }
    {
        let name = var.copy(alloc)?;
        self.loops.push(LoopVar {
            name,
            value: Ratio::whole(value),
        })?;
        Ok(())
    }

    /// Leaves a round of the innermost loop.
    pub fn leave(&mut self)
        ensures loops { self.new.loops.items
            ≡ take (length self.old.loops.items - 1) self.old.loops.items }
        ensures declared { self.new.declared ≡ self.old.declared }
    {
        self.loops.pop();
    }
}

// Returns the value of the loop variable with this name.
fn environment_loop_value(loops: &[LoopVar], name: &[u8]) -> Option<Ratio>
    ensures { result ≡ loop_value loops.now name.now }
{
    for one in loops {
        if one.name.bytes() == name {
            return Some(one.value);
        }
    }
    None
}
