//! The states affected by a requantization: the requantized states, and those whose rows read one
//! of them.

ghost use Rattle.std.specs.Prelude.{◌≡◌, ◌<◌, ◌||◌, ℕ, All, true, length, map};
ghost use Rattle.qss_order2.specs.Prelude.{is_listed, state_count};
ghost use Rattle.qss_order2.specs.Fixed.{IsUnion, column_at, rows_in};
ghost use Rattle.qss_order2.specs.Stores.{AreQuiet, IsAffected};

use crate::fixed_machine::FixedMachine;
use qss_machine::Entry;
use qss_sched::PlaceSet;

/// Makes a set hold the states that left, the states whose rows read one of them, and no others.
pub(crate) fn touch(f: &FixedMachine, left: &[u32], affected: &mut PlaceSet)
    requires left { All (λ j. j < state_count f.now.machine) left.now }
    requires count { affected.old.count ≡ state_count f.now.machine }
    ensures count { affected.new.count ≡ state_count f.now.machine }
    ensures own { (j : ℕ) → is_listed left.now j ≡ true → is_listed affected.new.places j ≡ true }
    ensures quiet { AreQuiet f.now.machine (is_listed left.now) (is_listed affected.new.places) }
    ensures only { (j : ℕ) → is_listed affected.new.places j ≡ true
        → IsAffected f.now.machine (is_listed left.now) j }
{
    affected.clear();
    touch_states(left, affected);
    for state in left {
        touch_readers(f, *state, affected);
    }
}

/// Adds all states to a set.
pub(crate) fn touch_all(count: u32, affected: &mut PlaceSet)
    requires { affected.old.count ≡ count }
    ensures count { affected.new.count ≡ count }
    ensures places { (j : ℕ) → j < count → is_listed affected.new.places j ≡ true }
{
    for state in 0..count {
        affected.insert(state);
    }
}

// Adds the states of a list to a set.
fn touch_states(list: &[u32], affected: &mut PlaceSet)
    requires { All (λ j. j < affected.old.count) list.now }
    ensures count { affected.new.count ≡ affected.old.count }
    ensures places { IsUnion affected.old.places list.now affected.new.places }
{
    for state in list {
        affected.insert(*state);
    }
}

// Adds the states whose rows read a state to a set.
fn touch_readers(f: &FixedMachine, state: u32, affected: &mut PlaceSet)
    requires state { state < state_count f.now.machine }
    requires count { affected.old.count ≡ state_count f.now.machine }
    ensures count { affected.new.count ≡ affected.old.count }
    ensures places { IsUnion affected.old.places (rows_in (column_at f.now.columns.items state)) affected.new.places }
{
    touch_rows(f.columns[state as usize].as_slice(), affected);
}

// Adds the rows of a column to a set.
fn touch_rows(column: &[Entry], affected: &mut PlaceSet)
    requires { All (λ entry. entry.var < affected.old.count) column.now }
    ensures count { affected.new.count ≡ affected.old.count }
    ensures places { IsUnion affected.old.places (rows_in column.now) affected.new.places }
{
    for entry in column {
        affected.insert(entry.var);
    }
}
