//! Fault counts by file name, and the numbers of the calls at which a test double fails.

ghost use Rattle.std.specs.Prelude.{◌≡◌, ◌≤◌, [], ◌↔◌, true, OnOk, ℕ, List, IsTrue, Contains};
ghost use Rattle.mu_io.specs.FaultCounts.{HasOneMoreFault, OnlyCounts};
ghost use Rattle.mu_io.specs.Files.{count_of, is_counted};

use crate::name::{Name, find_name_index};
use std::alloc::{AllocError, Global};
use std::marker::Model;

/// Fault counts: one entry for each name that has a count.
#[derive(Drop)]
pub(crate) struct Counts {
    alloc: Global,
    entries: Vec<(Name, u64)>,
}

impl Model for Counts {
    ghost use Rattle.std.specs.Prelude.{List, ℕ};

    ghost Value = { List (List ℕ × ℕ) };

    ghost view = { λ counts. counts.entries.items };
}

impl Counts {
    /// Returns an empty table: no name has a count.
    pub(crate) fn new(alloc: Global) -> Counts
        ensures { result ≡ [] }
    {
        Counts {
            alloc,
            entries: Vec::new(alloc),
        }
    }

    /// Adds an entry with count 0 if the name has none. Errors: allocation failure.
    pub(crate) fn include_fault_name(&mut self, name: &[u8]) -> Result<(), AllocError>
        ensures counted { OnOk result (is_counted self.new name.now ≡ true) }
        ensures same { (other : List ℕ) → count_of self.new other ≡ count_of self.old other }
        ensures kept { (other : List ℕ) → is_counted self.old other ≡ true
            → is_counted self.new other ≡ true }
    {
        if find_name_index(&self.entries, name).is_some() {
            return Ok(());
        }
        let name = Name::new(self.alloc, name)?;
        self.entries.push((name, 0))?;
        Ok(())
    }

    /// Increments the count of a name. The name must have an entry.
    pub(crate) fn raise_fault_count(&mut self, name: &[u8])
        requires { is_counted self.old name.now ≡ true }
        ensures raised { HasOneMoreFault (count_of self.old name.now) (count_of self.new name.now) }
        ensures only { OnlyCounts name.now (count_of self.old) (count_of self.new) }
        ensures kept { (other : List ℕ) → is_counted self.old other ≡ true
            → is_counted self.new other ≡ true }
    {
        if let Some(i) = find_name_index(&self.entries, name) {
            let count = self.entries[i].1;
            self.entries[i].1 = count_further_fault(count);
        }
    }
}

/// Returns whether the call number is in the list.
pub(crate) fn is_fault_call(listed: &[u32], call: u64) -> bool
    ensures { IsTrue result ↔ Contains listed.now call }
{
    match u32::try_from(call) {
        Ok(call) => listed.contains(&call),
        Err(_) => false,
    }
}

/// Returns the count plus one. The count saturates at 2^64 - 1.
pub(crate) fn count_further_fault(count: u64) -> u64
    ensures rose { HasOneMoreFault count result }
    ensures counts_never_fall { count ≤ result }
{
    if count < u64::MAX { count + 1 } else { count }
}
