//! A binary heap of due ticks, indexed by place. Its order is that of ranks: the due tick times
//! 2^32 plus the place.

ghost use Rattle.std.specs.Prelude.{◌≡◌, ◌≢◌, ◌+◌, ◌*◌, ◌^◌, ◌<◌, ◌≤◌, ◌/◌, ◌↔◌, ℕ, Option, length, slice_index, slice_set, IsTrue, IfOk, min, vec_len};
ghost use Rattle.qss_sched.specs.Heaps.{rank_of_place, IsIndexed, AreKept, IsOrdered, IsOrderedBut, IsBelowOrdered, IsAboveOrdered, IsFirstBelow};
ghost use Rattle.qss_sched.specs.Ranks.{place_of, due_at, rank_of, AreTicks, HasNone};

use std::alloc::{AllocError, Global};
use std::marker::Model;

// The number of ranks with the same due tick: one for each place.
const PLACES: u128 = 1 << 32;

// The least rank of a place without a due tick.
const NO_TICK: u128 = 1 << 96;

/// A binary heap of due ticks, indexed by place, with the least due tick stored.
#[derive(Drop)]
pub(crate) struct DueHeap {
    due: Vec<Option<u64>>,
    ranks: Vec<u128>,
    positions: Vec<u32>,
    first: u64,
}

impl Model for DueHeap {
    ghost use Rattle.std.specs.Prelude.{ℕ, List, Option};
    ghost use Rattle.qss_sched.specs.Heaps.{IsHeapFrom};

    ghost Value = { List (Option ℕ) };

    ghost view = { λ a. a.due.items };

    ghost invariant = { λ a. IsHeapFrom a.due.items a.ranks.items a.positions.items a.first };
}

impl DueHeap {
    ghost use Rattle.std.specs.Prelude.{◌≡◌, ◌≢◌, ℕ, ◌<◌, ◌≤◌, false, IfOk, MatchOption, Some, length, slice_set};
    ghost use Rattle.qss_sched.specs.Agendas.{IsFirstAt};
    ghost use Rattle.qss_sched.specs.Ranks.{due_at, IsLeast, IsNextTick, HasNone};

    /// Returns a heap of n places without due ticks. It allocates all its memory here. Errors:
    /// allocation failure.
    pub(crate) fn with_places(alloc: Global, n: u32) -> Result<DueHeap, AllocError>
        ensures places { IfOk result (λ heap. length heap ≡ n) }
        ensures none { IfOk result HasNone }
    {
        let due = no_due_ticks(alloc, n)?;
        let ranks = due_ranks_without_ticks(alloc, n)?;
        let positions = heap_positions_below(alloc, n)?;
        Ok(DueHeap {
            due,
            ranks,
            positions,
            first: u64::MAX,
        })
    }

    /// Sets the due tick of a place.
    #[inline(always)]
    pub(crate) fn set(&mut self, place: u32, due: Option<u64>)
        requires { place < length self.old }
        ensures { self.new ≡ slice_set self.old place due }
    {
        if !is_same_due(due_tick_at(&self.due, place), due) {
            self.change(place, due);
        }
    }

    // Sets the due tick of a place and restores the heap order. Most calls of `set` change nothing,
    // so this part is not inlined there.
    #[inline(never)]
    fn change(&mut self, place: u32, due: Option<u64>)
        requires { place < length self.old }
        ensures { self.new ≡ slice_set self.old place due }
    {
        put_due_tick(&mut self.due, place, due);
        replace_in_heap(&mut self.ranks, &mut self.positions, due_rank(due, place));
        self.first = due_tick_before(self.ranks[0], u64::MAX);
    }

    /// Returns the least due tick and the least place that has it.
    pub(crate) fn next(&self) -> Option<(u64, u32)>
        ensures { MatchOption result (HasNone self.now)
            (λ first. IsLeast self.now first.0 first.1) }
    {
        if self.ranks.is_empty() {
            return None;
        }
        let place = place_of_due_rank(self.ranks[0]);
        let tick = due_tick_at(&self.due, place);
        match tick {
            Some(tick) => Some((tick, place)),
            None => None,
        }
    }

    /// Returns the least due tick, or `last` if none is before it.
    #[inline(always)]
    pub(crate) fn next_tick(&self, last: u64) -> u64
        ensures { IsNextTick self.now last result }
    {
        last.min(self.first)
    }

    /// Returns whether a place may be due at a tick. Nothing may be due before the tick. `false`
    /// means that no place is due at it.
    #[inline(always)]
    pub(crate) fn may_be_due_at(&self, tick: u64) -> bool
        requires { (place due : ℕ) → due_at self.now place ≡ Some due → tick ≤ due }
        ensures { result ≡ false → (place : ℕ) → due_at self.now place ≢ Some tick }
    {
        self.first == tick
    }

    /// Returns the least place below `places` that is due at a tick. Nothing may be due before the
    /// tick.
    #[inline(always)]
    pub(crate) fn first_at(&self, tick: u64, places: u32) -> Option<u32>
        requires { (place due : ℕ) → due_at self.now place ≡ Some due → tick ≤ due }
        ensures { IsFirstAt self.now tick places result }
    {
        if self.ranks.is_empty() {
            return None;
        }
        let rank = self.ranks[0];
        let place = place_of_due_rank(rank);
        if is_due_rank_at(rank, tick) && place < places {
            Some(place)
        } else {
            None
        }
    }
}

/// Returns `None` for each of n places. Errors: allocation failure.
pub(crate) fn no_due_ticks(alloc: Global, n: u32) -> Result<Vec<Option<u64>>, AllocError>
    ensures length { IfOk result (λ ticks. vec_len ticks ≡ n) }
    ensures none { IfOk result (λ ticks. HasNone ticks.items) }
{
    let mut ticks = Vec::with_capacity(alloc, n as usize)?;
    for _ in 0..n {
        ticks.push(None)?;
    }
    Ok(ticks)
}

/// Returns the ranks of n places without due ticks, in increasing order. Errors: allocation
/// failure.
pub(crate) fn due_ranks_without_ticks(alloc: Global, n: u32) -> Result<Vec<u128>, AllocError>
    ensures length { IfOk result (λ ranks. vec_len ranks ≡ n) }
    ensures each { IfOk result (λ ranks. (i : ℕ) → i < n → slice_index ranks.items i ≡ 2 ^ 96 + i) }
{
    let mut ranks = Vec::with_capacity(alloc, n as usize)?;
    for place in 0..n {
        ranks.push(due_rank(None, place))?;
    }
    Ok(ranks)
}

/// Returns the rank of a place: the due tick times 2^32 plus the place. Without a due tick it is
/// 2^96 plus the place.
#[tactic(auto, unfolding(crate::specs::Ranks::place_of))]
pub(crate) fn due_rank(tick: Option<u64>, place: u32) -> u128
    ensures rank { result ≡ rank_of tick place }
    ensures place { place_of result ≡ place }
{
    match tick {
        Some(tick) => tick as u128 * PLACES + place as u128,
        None => NO_TICK + place as u128,
    }
}

/// Returns the numbers below n in increasing order. Errors: allocation failure.
pub(crate) fn heap_positions_below(alloc: Global, n: u32) -> Result<Vec<u32>, AllocError>
    ensures length { IfOk result (λ numbers. vec_len numbers ≡ n) }
    ensures each { IfOk result (λ numbers. (i : ℕ) → i < n → slice_index numbers.items i ≡ i) }
{
    let mut numbers = Vec::with_capacity(alloc, n as usize)?;
    for number in 0..n {
        numbers.push(number)?;
    }
    Ok(numbers)
}

/// Returns whether two optional due ticks are equal.
pub(crate) fn is_same_due(tick: Option<u64>, other: Option<u64>) -> bool
    ensures { IsTrue result ↔ (tick ≡ other) }
{
    match (tick, other) {
        (Some(tick), Some(other)) => tick == other,
        (None, None) => true,
        _ => false,
    }
}

/// Returns the due tick of a place.
#[inline(always)]
pub(crate) fn due_tick_at(due: &[Option<u64>], place: u32) -> Option<u64>
    requires { place < length due.now }
    ensures { result ≡ due_at due.now place }
{
    due[place as usize]
}

/// Sets the due tick of a place.
#[inline(always)]
pub(crate) fn put_due_tick(due: &mut [Option<u64>], place: u32, tick: Option<u64>)
    requires place { place < length due.old }
    requires size_limit { AreTicks due.old }
    ensures put { due.new ≡ slice_set due.old place tick }
    ensures size_limit { AreTicks due.new }
{
    due[place as usize] = tick;
}

/// Replaces the rank of a place and restores the heap order.
pub(crate) fn replace_in_heap(ranks: &mut [u128], positions: &mut [u32], rank: u128)
    requires indexed { IsIndexed ranks.old positions.old }
    requires ordered { IsOrdered (slice_index ranks.old) (length ranks.old) }
    requires count_limit { length ranks.old < 2 ^ 32 }
    requires place { place_of rank < length ranks.old }
    ensures indexed { IsIndexed ranks.new positions.new }
    ensures ordered { IsOrdered (slice_index ranks.new) (length ranks.new) }
    ensures takes { rank_of_place ranks.new positions.new (place_of rank) ≡ rank }
    ensures others { (place : ℕ) → place < length ranks.old
        → place ≢ place_of rank
        → rank_of_place ranks.new positions.new place ≡ rank_of_place ranks.old positions.old place }
{
    let position = positions[place_of_due_rank(rank) as usize] as usize;
    ranks[position] = rank;
    mend_heap(ranks, positions, position);
}

/// Returns the place of a rank.
#[inline(always)]
#[tactic(auto, unfolding(crate::specs::Ranks::place_of))]
pub(crate) fn place_of_due_rank(rank: u128) -> u32
    ensures { result ≡ place_of rank }
{
    (rank % PLACES) as u32
}

// Restores the heap order after a change of the rank at position i.
fn mend_heap(ranks: &mut [u128], positions: &mut [u32], i: usize)
    requires indexed { IsIndexed ranks.old positions.old }
    requires count_limit { length ranks.old < 2 ^ 32 }
    requires i { i < length ranks.old }
    requires but { IsOrderedBut (slice_index ranks.old) (length ranks.old) i }
    ensures indexed { IsIndexed ranks.new positions.new }
    ensures kept { AreKept ranks.old positions.old ranks.new positions.new }
    ensures ordered { IsOrdered (slice_index ranks.new) (length ranks.new) }
{
    if i > 0 && ranks[i] < ranks[(i - 1) / 2] {
        sift_up_heap(ranks, positions, i);
    } else {
        sift_down_heap(ranks, positions, i);
    }
}

// Moves a rank up while it is less than the rank of its parent (sift up).
fn sift_up_heap(ranks: &mut [u128], positions: &mut [u32], from: usize)
    requires indexed { IsIndexed ranks.old positions.old }
    requires count_limit { length ranks.old < 2 ^ 32 }
    requires from { from < length ranks.old }
    requires but { IsOrderedBut (slice_index ranks.old) (length ranks.old) from }
    requires below { IsBelowOrdered (slice_index ranks.old) (length ranks.old) from }
    ensures indexed { IsIndexed ranks.new positions.new }
    ensures kept { AreKept ranks.old positions.old ranks.new positions.new }
    ensures ordered { IsOrdered (slice_index ranks.new) (length ranks.new) }
{
    let rank = ranks[from];
    let mut hole = from;
    while hole > 0 && rank < ranks[(hole - 1) / 2] {
        let above = (hole - 1) / 2;
        let higher = ranks[above];
        hold_in_heap(ranks, positions, hole, higher);
        hole = above;
    }
    hold_in_heap(ranks, positions, hole, rank);
}

// Stores a rank at a heap position, and the position of the rank's place.
fn hold_in_heap(ranks: &mut [u128], positions: &mut [u32], position: usize, rank: u128)
    requires count_limit { length ranks.old ≤ 2 ^ 32 }
    requires position { position < length ranks.old }
    requires place { place_of rank < length positions.old }
    ensures ranks { ranks.new ≡ slice_set ranks.old position rank }
    ensures positions { positions.new ≡ slice_set positions.old (place_of rank) position }
{
    ranks[position] = rank;
    positions[place_of_due_rank(rank) as usize] = position as u32;
}

// Moves a rank down while a child has a lesser rank (sift down).
fn sift_down_heap(ranks: &mut [u128], positions: &mut [u32], from: usize)
    requires indexed { IsIndexed ranks.old positions.old }
    requires count_limit { length ranks.old < 2 ^ 32 }
    requires from { from < length ranks.old }
    requires but { IsOrderedBut (slice_index ranks.old) (length ranks.old) from }
    requires above { IsAboveOrdered (slice_index ranks.old) from }
    ensures indexed { IsIndexed ranks.new positions.new }
    ensures kept { AreKept ranks.old positions.old ranks.new positions.new }
    ensures ordered { IsOrdered (slice_index ranks.new) (length ranks.new) }
{
    let rank = ranks[from];
    let mut hole = from;
    while 2 * hole + 1 < ranks.len() {
        let below = first_heap_child(ranks, hole);
        let lower = ranks[below];
        if rank <= lower {
            break;
        }
        hold_in_heap(ranks, positions, hole, lower);
        hole = below;
    }
    hold_in_heap(ranks, positions, hole, rank);
}

// Returns the child position with the lesser rank.
fn first_heap_child(ranks: &[u128], i: usize) -> usize
    requires count_limit { length ranks.now < 2 ^ 32 }
    requires some { 2 * i + 1 < length ranks.now }
    ensures { IsFirstBelow ranks.now i result }
{
    let left = 2 * i + 1;
    let right = left + 1;
    if right < ranks.len() {
        // Arithmetic instead of a branch, which would be taken about half of the time.
        left + (ranks[right] < ranks[left]) as usize
    } else {
        left
    }
}

/// Returns the due tick of a rank, or `last` if it has none before that.
#[inline(always)]
pub(crate) fn due_tick_before(rank: u128, last: u64) -> u64
    ensures { result ≡ min (rank / 2 ^ 32) last }
{
    let tick = rank / PLACES;
    if tick < last as u128 {
        tick as u64
    } else {
        last
    }
}

/// Returns whether a rank has this due tick.
#[inline(always)]
pub(crate) fn is_due_rank_at(rank: u128, tick: u64) -> bool
    ensures { IsTrue result ↔ (rank / 2 ^ 32 ≡ tick) }
{
    rank / PLACES == tick as u128
}
