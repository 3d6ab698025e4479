//! A test of a run with millions of events, which takes too long for the golden test `transcript`.

use mu_io::{MemShelf, MemSink, Name};
use qss_top::{Status, qss_main};
use std::alloc::Global;
use std::test::Fail;

const ONE_CHANGES: &str =
    "model m Real x; Real u[4095]; equation der(x) = 1; for i in 1:4095 loop der(u[i]) = -u[i]; end for; annotation(experiment(StopTime = 33554431, QSS_CoefBits = 0, QSS_TickBits = 0, QSS_LevelBits = 0, QSS_Quantum = 1)); end m;";

const HEADER: &str = "tick,event,name,level,state\n";

// One state changes its level at each of 33,554,431 ticks, and thousands of states stay constant.
#[test]
fn one_state_changes_among_thousands(rt: HostRuntime) -> Result<(), Fail> {
    let alloc = rt.alloc();
    let text = resting_text(alloc, 33554431, 4095)?;
    let (got, out, err) = outcome(alloc, ONE_CHANGES, text.len())?;
    assert_eq!(rt; err.bytes(), b"".as_slice());
    assert_eq!(rt; got, Status::Ok);
    assert_eq!(rt; out.bytes(), text.as_slice());
    Ok(())
}

// The text of a run that prints only the elements of u, which stay at 0 up to the last tick.
fn resting_text(alloc: Global, last: u64, elements: u32) -> Result<Vec<u8>, Fail> {
    let mut text = HEADER.as_bytes().to_vec(alloc)?;
    add_rows(alloc, &mut text, 0, "start", elements)?;
    add_rows(alloc, &mut text, last, "end", elements)?;
    Ok(text)
}

// Appends a row of this kind for each of the first elements of u, all at 0.
fn add_rows(
    alloc: Global,
    text: &mut Vec<u8>,
    tick: u64,
    kind: &str,
    elements: u32,
) -> Result<(), Fail> {
    for element in 1..=elements {
        let row = format!(in alloc; "{},{},u[{}],0,0\n", tick, kind, element)?;
        text.extend_from_slice(row.as_bytes())?;
    }
    Ok(())
}

// The status, out and err of a run that prints only the elements of u.
fn outcome(alloc: Global, source: &str, room: usize) -> Result<(Status, MemSink, MemSink), Fail> {
    let mut files = Vec::new(alloc);
    files.push((Name::new(alloc, b"M")?, source.as_bytes().to_vec(alloc)?))?;
    let mut shelf = MemShelf::new(alloc, files, Vec::new(alloc));
    let mut out = MemSink::with_room(alloc, room, Vec::new(alloc))?;
    let mut err = MemSink::with_room(alloc, 1000, Vec::new(alloc))?;
    let words = ["run", "M", "--only", "u"];
    let status = qss_main(alloc, &words, &mut shelf, &mut out, &mut err);
    Ok((status, out, err))
}
