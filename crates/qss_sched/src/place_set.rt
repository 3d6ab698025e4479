//! Sets of indices below a count, as a list and a flag for each index.

ghost use Rattle.std.specs.Prelude.{◌≡◌, ◌<◌, All, false, length};
ghost use Rattle.qss_sched.specs.Prelude.{IsWritten};

use crate::equal_lists::repeat_value;
use std::alloc::{AllocError, Global};
use std::marker::Model;

/// A set of indices below a count, as a list and a flag for each index. Iterating and clearing take
/// time proportional to the number of indices in the set. Contracts see the list, in the order of
/// insertion, and the count.
#[derive(Drop)]
pub struct PlaceSet {
    listed: Vec<u32>,
    among: Vec<bool>,
}

impl Model for PlaceSet {
    ghost use Rattle.std.specs.Prelude.{length, vec_capacity};
    ghost use Rattle.qss_sched.specs.PlaceSets.{PlaceList, IsPlaceSet};

    ghost Value = { PlaceList };

    ghost view = { λ s. record { places = s.listed.items; count = length s.among.items } };

    ghost invariant = { λ s. IsPlaceSet s.listed.items s.among.items (vec_capacity s.listed) };
}

impl PlaceSet {
    ghost use Rattle.std.specs.Prelude.{◌≡◌, ℕ, ◌<◌, ◌||◌, ◌==◌, ◌++◌, ◌∷◌, [], All, IfOk, false};
    ghost use Rattle.qss_sched.specs.Prelude.{is_listed};

    /// An empty set of indices below a count. All its memory is allocated here.
    pub fn empty(alloc: Global, count: usize) -> Result<PlaceSet, AllocError>
        ensures { IfOk result (λ made. made ≡ record { places = []; count = count }) }
    {
        let listed = Vec::with_capacity(alloc, count)?;
        let among = repeat_value(alloc, false, count)?;
        Ok(PlaceSet { listed, among })
    }

    // Adds an index that is not in the set.
    fn add(&mut self, place: u32)
        requires place { place < self.old.count }
        requires absent { is_listed self.old.places place ≡ false }
        ensures { self.new ≡ record self.old { places = self.old.places ++ place ∷ [] } }
    {
        let among = self.among.as_mut_slice();
        among[place as usize] = true;
        self.listed.push_reserved(place);
    }

    // Whether an index is in the set.
    fn contains(&self, place: u32) -> bool
        requires { place < self.now.count }
        ensures { result ≡ is_listed self.now.places place }
    {
        let among = self.among.as_slice();
        among[place as usize]
    }

    /// Adds an index, if it is not in the set.
    pub fn insert(&mut self, place: u32)
        requires { place < self.old.count }
        ensures count { self.new.count ≡ self.old.count }
        ensures places { (other : ℕ) → is_listed self.new.places other
            ≡ (is_listed self.old.places other || place == other) }
    {
        if self.contains(place) {
            return;
        }
        self.add(place);
    }

    /// Removes all indices.
    pub fn clear(&mut self)
        ensures { self.new ≡ record self.old { places = [] } }
    {
        unmark(self.listed.as_slice(), self.among.as_mut_slice());
        self.listed.clear();
    }

    /// The indices in the set.
    pub fn places(&self) -> &[u32]
        ensures places { result.now ≡ self.now.places }
        ensures below { All (λ place. place < self.now.count) result.now }
    {
        self.listed.as_slice()
    }
}

// Clears the flags of these indices.
fn unmark(places: &[u32], among: &mut [bool])
    requires { All (λ place. place < length among.old) places.now }
    ensures { IsWritten false (λ place flag. flag ≡ false) places.now among.old among.new }
{
    for place in places {
        among[*place as usize] = false;
    }
}
