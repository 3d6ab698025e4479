//! Tests of the event queue.

ghost use Rattle.std.specs.Prelude.{◌<◌};

use qss_sched::Agenda;
use std::alloc::{AllocError, Global};
use std::prelude::HostRuntime;

#[test]
fn the_least_tick_is_next(rt: HostRuntime) -> Result<(), AllocError> {
    let mut agenda = Agenda::with_places(rt.alloc(), 4)?;
    assert!(&rt; agenda.next().is_none());
    agenda.set(2, Some(7));
    agenda.set(1, Some(7));
    agenda.set(3, Some(9));
    assert!(&rt; agenda.next() == Some((7, 1)));
    agenda.set(1, None);
    assert!(&rt; agenda.next() == Some((7, 2)));
    Ok(())
}

#[test]
fn all_that_is_due_is_taken(rt: HostRuntime) -> Result<(), AllocError> {
    let near = are_taken(rt.alloc(), 80, &[1, 69, 79], 9)?;
    assert!(&rt; near);
    let far = are_taken(rt.alloc(), 4096, &[1, 69, 4095], 9)?;
    assert!(&rt; far);
    let behind = are_taken(rt.alloc(), 4098, &[1, 69], 7)?;
    assert!(&rt; behind);
    Ok(())
}

// Whether `take_all` takes exactly these indices at tick 7, and the next due tick is `next`.
// Indices count from place 1, over 4097 places. Places 2, 70 and `last` are due at tick 7, place 3
// at tick 9.
fn are_taken(alloc: Global, last: u32, wanted: &[u32], next: u64) -> Result<bool, AllocError>
    requires after { 3 < last }
    requires place { last < 4100 }
{
    let mut agenda = Agenda::with_places(alloc, 4100)?;
    agenda.set(70, Some(7));
    agenda.set(2, Some(7));
    agenda.set(3, Some(9));
    agenda.set(last, Some(7));
    let mut taken = Vec::with_capacity(alloc, 4097)?;
    agenda.take_all(7, 1, 4097, &mut taken);
    Ok(taken.as_slice() == wanted && agenda.next_tick(20) == next)
}
