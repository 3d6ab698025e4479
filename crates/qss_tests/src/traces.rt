//! Tests of the comparison of two traces of one state.

use cert_matrix::Matrix;
use qss_trace::{Greatest, Trace, compare, read_trace};
use std::test::Fail;

// The run of the decay machine under the rule `floor`, one point per tick.
const OWN: &[u8] =
    b"trace,1\nscale,1\nrefine,1\nQ,4\nat,262144,64\nat,245760,60\nat,230400,60\nat,215040,52\nat,201728,52\nat,188416,46\nat,176640,46\nat,164864,40\nat,154624,40\nat,144384,35\nat,135424,35\nat,126464,30\nat,118784,30\nat,111104,30\nat,103424,25\nat,97024,25\nat,90624,25\n";

// Three points of a run with two points per tick.
const FINER: &[u8] = b"trace,1\nscale,1\nrefine,2\nQ,4\nat,262144,64\nat,253952,62\nat,246016,60\n";

#[test]
fn two_traces_are_compared_at_their_common_ticks(rt: HostRuntime) -> Result<(), Fail> {
    let alloc = rt.alloc();
    let (Ok(own), Ok(finer)) = (read_trace(alloc, OWN, 1), read_trace(alloc, FINER, 1)) else {
        assert!(rt; false);
        return Ok(());
    };
    assert_eq!(rt; compared(1, 432, &own, &finer), found(2, 1, 2, 65536));
    // The bound exceeds 2^126, or the form does at the second common tick.
    let most = 85070591730234615865843651857942052864;
    assert_eq!(rt; compared(1, most, &own, &finer), range(0, 0));
    assert_eq!(rt; compared(most, 432, &own, &finer), range(1, 2));
    Ok(())
}

// The result of a comparison of two traces of one state, with a form of one coefficient.
fn compared(p: i128, c: i128, first: &Trace, second: &Trace) -> Option<Greatest> {
    if first.n != 1 || second.n != 1 {
        return None;
    }
    let mut form = Matrix::new(1);
    form.set(0, 0, p);
    Some(compare(&form, c, 4096, first, second))
}

// The greatest value is at this pair of points, below the bound for 432 in these units.
fn found(common: u64, place1: u32, place2: u32, value: i128) -> Option<Greatest> {
    let bound = 7247757312;
    Some(Greatest::Found {
        common,
        place1,
        place2,
        value,
        bound,
    })
}

// A number is out of range at this pair of points.
fn range(place1: u32, place2: u32) -> Option<Greatest> {
    Some(Greatest::Range { place1, place2 })
}
