//! Three-level bit sets of the places at each slot of a timing wheel. The first place and the first
//! nonempty slot are found by reading a few words.

ghost use Rattle.std.specs.Prelude.{◌≡◌, ◌≢◌, ◌<◌, ◌↔◌, ℕ, IsTrue, IfOk, length, slice_index, vec_len};
ghost use Rattle.qss_sched.specs.Prelude.{wheel_places};
ghost use Rattle.qss_sched.specs.Wheels.{IsBitPut, IsGrouped, IsFirstSlot, IsFirstPlace, IsLowest};

use std::alloc::{AllocError, Global};
use std::marker::Model;

/// The number of bits in a word.
pub(crate) const WORD_BITS: u32 = 64;

/// The number of slots, and of consecutive near ticks. The slot of a tick is the tick modulo
/// `SLOTS`.
pub(crate) const SLOTS: u32 = 64;

/// The number of places that a wheel supports: one bit each in `WORD_BITS` words.
pub(crate) const NEAR_PLACES: u32 = WORD_BITS * WORD_BITS;

/// Three-level bit sets: the places at each slot (64 words per slot), the nonzero words of each
/// slot (one word per slot), and the slots that have a place (one word).
#[derive(Drop)]
pub(crate) struct Marks {
    places: Vec<u64>,
    groups: Vec<u64>,
    slots: u64,
}

impl Model for Marks {
    ghost use Rattle.std.specs.Prelude.{ℕ, List};
    ghost use Rattle.qss_sched.specs.Wheels.{AreMarks};

    ghost Value = { List ℕ };

    ghost view = { λ m. m.places.items };

    ghost invariant = { λ m. AreMarks m.places.items m.groups.items m.slots };
}

impl Marks {
    ghost use Rattle.std.specs.Prelude.{◌≡◌, ◌≢◌, ◌+◌, ◌*◌, ◌<◌, IfOk, MatchOption, slice_index, slice_set};
    ghost use Rattle.qss_sched.specs.Wheels.{place_bit, AreOthersKept, HasNoPlace, HasNoPlaceAt, IsEarliest, IsFirstGroup, IsFirstPlace};

    /// Returns bit sets without places. It allocates all its memory here. Errors: allocation
    /// failure.
    pub(crate) fn without_places(alloc: Global) -> Result<Marks, AllocError>
        ensures { IfOk result HasNoPlace }
    {
        let places = zero_mark_words(alloc, SLOTS * WORD_BITS)?;
        let groups = zero_mark_words(alloc, SLOTS)?;
        Ok(Marks {
            places,
            groups,
            slots: 0,
        })
    }

    /// Adds a place to a slot.
    #[inline(always)]
    pub(crate) fn enter(&mut self, place: u32, slot: u32)
        requires place { place < wheel_places }
        requires slot { slot < 64 }
        ensures there { place_bit self.new slot place ≡ 1 }
        ensures others { AreOthersKept self.old self.new slot place }
    {
        let word = (SLOTS * (place / WORD_BITS) + slot) as usize;
        mark(&mut self.places, word, place % WORD_BITS);
        mark(&mut self.groups, slot as usize, place / WORD_BITS);
        self.slots |= 1u64 << slot;
    }

    /// Removes a place from a slot.
    #[inline(always)]
    pub(crate) fn leave(&mut self, place: u32, slot: u32)
        requires place { place < wheel_places }
        requires slot { slot < 64 }
        requires there { place_bit self.old slot place ≡ 1 }
        ensures gone { place_bit self.new slot place ≡ 0 }
        ensures others { AreOthersKept self.old self.new slot place }
    {
        let word = (SLOTS * (place / WORD_BITS) + slot) as usize;
        if !unmark(&mut self.places, word, place % WORD_BITS) {
            return;
        }
        if !unmark(&mut self.groups, slot as usize, place / WORD_BITS) {
            return;
        }
        self.slots &= !(1u64 << slot);
    }

    /// Returns the distance from a slot to the first nonempty slot, cyclically, and the least place
    /// at it.
    #[inline(always)]
    pub(crate) fn first(&self, from: u32) -> Option<(u32, u32)>
        requires { from < 64 }
        ensures { MatchOption result (HasNoPlace self.now)
            (λ first. IsEarliest self.now from first.0 first.1) }
    {
        if self.slots == 0 {
            return None;
        }
        let later = first_marked_slot(self.slots, from);
        let slot = (from + later) % SLOTS;
        Some((later, first_marked_place(&self.places, &self.groups, slot)))
    }

    /// Returns the least place at a slot.
    #[inline(always)]
    pub(crate) fn first_at(&self, slot: u32) -> Option<u32>
        requires { slot < 64 }
        ensures { MatchOption result (HasNoPlaceAt self.now slot) (IsFirstPlace self.now slot) }
    {
        if self.groups[slot as usize] == 0 {
            return None;
        }
        Some(first_marked_place(&self.places, &self.groups, slot))
    }

    /// Returns the first group of 64 places that has a place at the slot.
    #[inline(always)]
    pub(crate) fn group(&self, slot: u32) -> Option<u32>
        requires { slot < 64 }
        ensures { MatchOption result (HasNoPlaceAt self.now slot) (IsFirstGroup self.now slot) }
    {
        let groups = self.groups[slot as usize];
        if groups == 0 {
            return None;
        }
        Some(lowest_marked_bit(groups))
    }

    /// Returns the places of a group at a slot, as bits.
    #[inline(always)]
    pub(crate) fn word(&self, group: u32, slot: u32) -> u64
        requires group { group < 64 }
        requires slot { slot < 64 }
        ensures { result ≡ slice_index self.now (64 * group + slot) }
    {
        self.places[(SLOTS * group + slot) as usize]
    }

    /// Replaces the places of a group at a slot by the bits of `word`.
    #[inline(always)]
    pub(crate) fn keep(&mut self, group: u32, slot: u32, word: u64)
        requires group { group < 64 }
        requires slot { slot < 64 }
        requires some { slice_index self.old (64 * group + slot) ≢ 0 }
        ensures { self.new ≡ slice_set self.old (64 * group + slot) word }
    {
        self.places[(SLOTS * group + slot) as usize] = word;
        if word != 0 || !unmark(&mut self.groups, slot as usize, group) {
            return;
        }
        self.slots &= !(1u64 << slot);
    }
}

// Returns n words that are 0. Errors: allocation failure.
fn zero_mark_words(alloc: Global, n: u32) -> Result<Vec<u64>, AllocError>
    ensures length { IfOk result (λ words. vec_len words ≡ n) }
    ensures none { IfOk result (λ words. (i : ℕ) → slice_index words.items i ≡ 0) }
{
    let mut words = Vec::with_capacity(alloc, n as usize)?;
    for _ in 0..n {
        words.push(0)?;
    }
    Ok(words)
}

// Sets a bit of a word.
#[inline(always)]
fn mark(words: &mut [u64], index: usize, bit: u32)
    requires index { index < length words.old }
    requires bit { bit < 64 }
    ensures { IsBitPut words.old words.new index bit 1 }
{
    words[index] |= 1u64 << bit;
}

// Clears a bit of a word and returns whether the word is 0 then.
#[inline(always)]
fn unmark(words: &mut [u64], index: usize, bit: u32) -> bool
    requires index { index < length words.old }
    requires bit { bit < 64 }
    ensures unmarked { IsBitPut words.old words.new index bit 0 }
    ensures empty { IsTrue result ↔ (slice_index words.new index ≡ 0) }
{
    let word = words[index] & !(1u64 << bit);
    words[index] = word;
    word == 0
}

// Returns the distance from a slot to the first nonempty slot, cyclically.
#[inline(always)]
fn first_marked_slot(slots: u64, from: u32) -> u32
    requires some { 0 < slots }
    requires from { from < 64 }
    ensures { IsFirstSlot slots from result }
{
    let rest = slots >> from;
    if rest != 0 {
        rest.trailing_zeros()
    } else {
        slots.trailing_zeros() + (SLOTS - from)
    }
}

// Returns the least place at a nonempty slot.
#[inline(always)]
fn first_marked_place(places: &[u64], groups: &[u64], slot: u32) -> u32
    requires grouped { IsGrouped places.now groups.now }
    requires slot { slot < 64 }
    requires some { slice_index groups.now slot ≢ 0 }
    ensures { IsFirstPlace places.now slot result }
{
    let group = groups[slot as usize].trailing_zeros();
    let word = places[(SLOTS * group + slot) as usize];
    WORD_BITS * group + word.trailing_zeros()
}

/// Returns the index of the lowest set bit of a nonzero word.
#[inline(always)]
pub(crate) fn lowest_marked_bit(word: u64) -> u32
    requires { 0 < word }
    ensures { IsLowest word result }
{
    word.trailing_zeros()
}
