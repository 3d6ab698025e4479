//! A timing wheel (Varghese and Lauck 1987) for due ticks of at most 63 ticks after its base.

ghost use Rattle.std.specs.Prelude.{◌≡◌, ◌≢◌, ◌+◌, ◌^◌, ◌<◌, ◌≤◌, ◌↔◌, ◌*◌, ◌%◌, if◌then◌else◌, ℕ, IsTrue, List, Option, None, Some, length, slice_set, vec_len, vec_capacity, IfOk};
ghost use Rattle.qss_sched.specs.Prelude.{wheel_places};
ghost use Rattle.qss_sched.specs.Agendas.{ArePartTaken, AreTaken, IsFirst, IsTakenAt};
ghost use Rattle.qss_sched.specs.Ranks.{due_at, HasNone, IsLeast, IsNextTick};
ghost use Rattle.qss_sched.specs.Wheels.{IsFirstGroup, IsWheel};

use crate::due_heap::{due_tick_at, is_same_due, no_due_ticks, put_due_tick};
use crate::wheel_marks::{Marks, NEAR_PLACES, SLOTS, WORD_BITS, lowest_marked_bit};
use std::alloc::{AllocError, Global};
use std::marker::Model;

/// A timing wheel (Varghese and Lauck 1987) with 64 slots. It stores due ticks from `base` to `base
/// + 63` of places below 4096. The slot of a due tick is the tick modulo 64.
#[derive(Drop)]
pub(crate) struct Wheel {
    due: Vec<Option<u64>>,
    marks: Marks,
    base: u64,
}

impl Model for Wheel {
    ghost use Rattle.std.specs.Prelude.{ℕ, List, Option};
    ghost use Rattle.qss_sched.specs.Wheels.{IsWheel};

    ghost Value = { List (Option ℕ) };

    ghost view = { λ w. w.due.items };

    ghost invariant = { λ w. IsWheel w.due.items w.marks w.base };
}

impl Wheel {
    /// Returns a wheel of n places without due ticks. Errors: allocation failure.
    pub(crate) fn with_places(alloc: Global, n: u32) -> Result<Wheel, AllocError>
        ensures places { IfOk result (λ wheel. length wheel ≡ n) }
        ensures none { IfOk result HasNone }
    {
        let due = no_due_ticks(alloc, n)?;
        let marks = Marks::without_places(alloc)?;
        Ok(Wheel {
            due,
            marks,
            base: 0,
        })
    }

    /// Removes the least place below `places` that is due at a tick, and returns it. Nothing may be
    /// due before the tick. The base increases to the tick and never decreases.
    #[inline(always)]
    pub(crate) fn take(&mut self, tick: u64, places: u32) -> Option<u32>
        requires { (place due : ℕ) → due_at self.old place ≡ Some due → tick ≤ due }
        ensures { IsTakenAt tick places self.old self.new result }
    {
        if self.base > tick {
            return None;
        }
        self.base = tick;
        take_first_in_wheel(&mut self.due, &mut self.marks, tick, places)
    }

    /// Increases the base to a tick. Nothing may be due before the tick. The base never decreases.
    #[inline(always)]
    pub(crate) fn go_to(&mut self, tick: u64)
        requires { (place due : ℕ) → due_at self.old place ≡ Some due → tick ≤ due }
        ensures { self.new ≡ self.old }
    {
        if self.base < tick {
            self.base = tick;
        }
    }

    /// Removes the places in `first..first + count` that are due at a tick, and lists them in
    /// increasing order. Nothing may be due before the tick, and no place below `first` at it.
    #[inline(always)]
    pub(crate) fn take_all(&mut self, tick: u64, first: u32, count: u32, taken: &mut Vec<u32>)
        requires room { count ≤ vec_capacity taken.old }
        requires count_limit { first + count < 2 ^ 32 }
        requires none_before { (place due : ℕ) → due_at self.old place ≡ Some due → tick ≤ due }
        requires none_first { (place : ℕ) → place < first → due_at self.old place ≢ Some tick }
        ensures taken { AreTaken first count tick self.old self.new taken.new.items }
        ensures room { vec_capacity taken.new ≡ vec_capacity taken.old }
    {
        if self.base > tick {
            taken.clear();
            return;
        }
        self.base = tick;
        match self.marks.group((tick % SLOTS as u64) as u32) {
            Some(_) => take_each(&mut self.due, &mut self.marks, tick, first, count, taken),
            None => taken.clear(),
        }
    }

    /// Returns the near due tick of a place.
    #[inline(always)]
    pub(crate) fn tick(&self, place: u32) -> Option<u64>
        requires { place < length self.now }
        ensures { result ≡ due_at self.now place }
    {
        due_tick_at(&self.due, place)
    }

    /// Sets a place's due tick if the tick is near and returns whether it is. A tick that is not
    /// near changes nothing.
    #[inline(always)]
    pub(crate) fn accept(&mut self, place: u32, tick: u64) -> bool
        requires { place < length self.old }
        ensures { self.new ≡ (if result then slice_set self.old place (Some tick) else self.old) }
    {
        if is_same_due(due_tick_at(&self.due, place), Some(tick)) {
            return true;
        }
        if !is_near_in_wheel(self.base, place, tick) {
            return false;
        }
        move_in_wheel(&mut self.due, &mut self.marks, place, tick);
        true
    }

    /// Does the same as `accept`, for a place without a near due tick.
    #[inline(always)]
    pub(crate) fn enter(&mut self, place: u32, tick: u64) -> bool
        requires place { place < length self.old }
        requires none { due_at self.old place ≡ None }
        ensures { self.new ≡ (if result then slice_set self.old place (Some tick) else self.old) }
    {
        if !is_near_in_wheel(self.base, place, tick) {
            return false;
        }
        put_in_wheel(&mut self.due, &mut self.marks, place, tick);
        true
    }

    /// Removes the near due tick of a place.
    #[inline(always)]
    pub(crate) fn clear(&mut self, place: u32)
        requires { place < length self.old }
        ensures { self.new ≡ slice_set self.old place None }
    {
        take_out_of_wheel(&mut self.due, &mut self.marks, place);
    }

    /// Returns the least near due tick and the least place that has it.
    #[inline(always)]
    pub(crate) fn first(&self) -> Option<(u64, u32)>
        ensures { IsFirst self.now result }
    {
        let from = (self.base % SLOTS as u64) as u32;
        match self.marks.first(from) {
            Some((later, place)) => Some((self.base + later as u64, place)),
            None => None,
        }
    }

    /// Returns the least near due tick, or `last` if none is before it.
    #[inline(always)]
    pub(crate) fn next_tick(&self, last: u64) -> u64
        ensures { IsNextTick self.now last result }
    {
        match self.first() {
            Some((tick, _)) => last.min(tick),
            None => last,
        }
    }
}

// Removes the least place below `places` that is due at the base, and returns it.
#[inline(always)]
fn take_first_in_wheel(
    due: &mut [Option<u64>],
    marks: &mut Marks,
    base: u64,
    places: u32,
) -> Option<u32>
    requires { IsWheel due.old marks.old base }
    ensures wheel { IsWheel due.new marks.new base }
    ensures taken { IsTakenAt base places due.old due.new result }
{
    match marks.first_at((base % SLOTS as u64) as u32) {
        Some(place) => {
            if place < places {
                take_from_wheel(due, marks, place, base);
                Some(place)
            } else {
                None
            }
        }
        None => None,
    }
}

// Removes a place's near due tick, which is known.
#[inline(always)]
fn take_from_wheel(due: &mut [Option<u64>], marks: &mut Marks, place: u32, tick: u64)
    requires has { due_at due.old place ≡ Some tick }
    requires wheel { (base : ℕ) × IsWheel due.old marks.old base }
    ensures due { due.new ≡ slice_set due.old place None }
    ensures wheel { (base : ℕ) → IsWheel due.old marks.old base
        → IsWheel due.new marks.new base }
{
    marks.leave(place, (tick % SLOTS as u64) as u32);
    put_due_tick(due, place, None);
}

// Removes the places in `first..first + count` that are due at the base, and lists them in
// increasing order. No place below `first` may be due at it. Often nothing is due, so this part is
// not inlined.
#[inline(never)]
fn take_each(
    due: &mut [Option<u64>],
    marks: &mut Marks,
    base: u64,
    first: u32,
    count: u32,
    taken: &mut Vec<u32>,
)
    requires wheel { IsWheel due.old marks.old base }
    requires room { count ≤ vec_capacity taken.old }
    requires count_limit { first + count < 2 ^ 32 }
    requires none_first { (place : ℕ) → place < first → due_at due.old place ≢ Some base }
    ensures wheel { IsWheel due.new marks.new base }
    ensures taken { AreTaken first count base due.old due.new taken.new.items }
    ensures room { vec_capacity taken.new ≡ vec_capacity taken.old }
{
    taken.clear();
    let slot = (base % SLOTS as u64) as u32;
    for _ in 0..count {
        let group = match marks.group(slot) {
            Some(group) => group,
            None => return,
        };
        let rest = take_wheel_group(due, marks, base, group, first, count, taken);
        marks.keep(group, slot, rest);
        if rest != 0 {
            return;
        }
    }
}

// Lists the places of a group that are due at the base, in increasing order, and removes their due
// ticks, for places below `first + count`. Returns the bits of the places that remain.
#[inline(always)]
fn take_wheel_group(
    due: &mut [Option<u64>],
    marks: &Marks,
    base: u64,
    group: u32,
    first: u32,
    count: u32,
    taken: &mut Vec<u32>,
) -> u64
    requires wheel { IsWheel due.old marks.now base }
    requires group { IsFirstGroup marks.now (base % 64) group }
    requires room { count ≤ vec_capacity taken.old }
    requires count_limit { first + count < 2 ^ 32 }
    requires part { (old : List (Option ℕ))
        × ArePartTaken first count (vec_len taken.old) base old due.old taken.old.items }
    ensures wheel { IsWheel due.new (slice_set marks.now (64 * group + base % 64) result) base }
    ensures part { (old : List (Option ℕ))
        → ArePartTaken first count (vec_len taken.old) base old due.old taken.old.items
        → ArePartTaken first count (vec_len taken.new) base old due.new taken.new.items }
    ensures more { result ≡ 0 → vec_len taken.old < vec_len taken.new }
    ensures rest { result ≢ 0
        → (place : ℕ) → due_at due.new place ≡ Some base → first + count ≤ place }
    ensures room { vec_capacity taken.new ≡ vec_capacity taken.old }
{
    let mut rest = marks.word(group, (base % SLOTS as u64) as u32);
    while rest != 0 {
        let bit = lowest_marked_bit(rest);
        let place = WORD_BITS * group + bit;
        if place >= first + count {
            return rest;
        }
        put_due_tick(due, place, None);
        taken.push_reserved(place - first);
        rest &= !(1u64 << bit);
    }
    rest
}

// Returns whether a place's due tick is near.
#[inline(always)]
fn is_near_in_wheel(base: u64, place: u32, tick: u64) -> bool
    ensures { IsTrue result ↔ ((place < wheel_places) × (base ≤ tick) × (tick < base + 64)) }
{
    place < NEAR_PLACES && tick >= base && tick - base < SLOTS as u64
}

// Sets the near due tick of a place and removes its old one. Most calls set the same tick or the
// first one, so this part is not inlined.
#[inline(never)]
fn move_in_wheel(due: &mut [Option<u64>], marks: &mut Marks, place: u32, tick: u64)
    requires place { place < length due.old }
    requires near { place < wheel_places }
    requires wheel { (base : ℕ) × IsWheel due.old marks.old base }
    ensures due { due.new ≡ slice_set due.old place (Some tick) }
    ensures wheel { (base : ℕ) → base ≤ tick → tick < base + 64
        → IsWheel due.old marks.old base → IsWheel due.new marks.new base }
{
    take_out_of_wheel(due, marks, place);
    put_in_wheel(due, marks, place, tick);
}

// Removes a place's near due tick, if it has one.
#[inline(always)]
fn take_out_of_wheel(due: &mut [Option<u64>], marks: &mut Marks, place: u32)
    requires place { place < length due.old }
    requires wheel { (base : ℕ) × IsWheel due.old marks.old base }
    ensures due { due.new ≡ slice_set due.old place None }
    ensures wheel { (base : ℕ) → IsWheel due.old marks.old base
        → IsWheel due.new marks.new base }
{
    if let Some(tick) = due_tick_at(due, place) {
        take_from_wheel(due, marks, place, tick);
    }
}

// Sets the near due tick of a place that has none.
#[inline(always)]
fn put_in_wheel(due: &mut [Option<u64>], marks: &mut Marks, place: u32, tick: u64)
    requires place { place < length due.old }
    requires near { place < wheel_places }
    requires none { due_at due.old place ≡ None }
    requires wheel { (base : ℕ) × IsWheel due.old marks.old base }
    ensures due { due.new ≡ slice_set due.old place (Some tick) }
    ensures wheel { (base : ℕ) → base ≤ tick → tick < base + 64
        → IsWheel due.old marks.old base → IsWheel due.new marks.new base }
{
    put_due_tick(due, place, Some(tick));
    marks.enter(place, (tick % SLOTS as u64) as u32);
}
