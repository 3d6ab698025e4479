//! Tests of the formatting of one row, which no run calls.

ghost use Rattle.std.specs.Prelude.{◌≡◌, IfOk, length};

use crate::lists::{none, one};
use mu_io::Name;
use qss_machine::{DiscreteInfo, Machine, Row, RowKind};
use qss_rows::{row_bytes, writer_lines_are_plain};
use std::alloc::{AllocError, Global};
use std::test::Fail;

#[test]
fn the_line_of_a_row(rt: HostRuntime) -> Result<(), Fail> {
    let bytes = line(rt.alloc(), b"c", RowKind::Start, 12)?;
    assert_eq!(rt; bytes.as_slice(), b"7,start,c,-5,\n".as_slice());
    writer_lines_are_plain();
    Ok(())
}

// The state has more than 64 bits.
#[test]
fn the_line_of_a_wide_state(rt: HostRuntime) -> Result<(), Fail> {
    let bytes = line(rt.alloc(), b"c", RowKind::Level, -1180591620717411303424)?;
    let wanted = b"7,level,c,-5,-1180591620717411303424\n".as_slice();
    assert_eq!(rt; bytes.as_slice(), wanted);
    Ok(())
}

// The name has a comma and a quotation mark.
#[test]
fn the_line_of_a_name_with_quotes(rt: HostRuntime) -> Result<(), Fail> {
    let bytes = line(rt.alloc(), b"a,\"b", RowKind::Level, 12)?;
    let wanted = b"7,level,\"a,\"\"b\",-5,12\n".as_slice();
    assert_eq!(rt; bytes.as_slice(), wanted);
    Ok(())
}

// The line of a row of a machine whose only variable has this name.
fn line(alloc: Global, name: &[u8], kind: RowKind, state: i128) -> Result<Vec<u8>, AllocError> {
    let m = machine(alloc, name)?;
    let row = row_of(kind, state);
    row_bytes(alloc, &row, &m)
}

// A machine with one discrete variable.
fn machine(alloc: Global, name: &[u8]) -> Result<Machine, AllocError>
    ensures { IfOk result (λ m. length m.discretes ≡ 1) }
{
    let name = Name::new(alloc, name)?;
    let discretes = one(alloc, DiscreteInfo { name, d0: 0 })?;
    Ok(Machine {
        p: 0,
        k: 0,
        f: 0,
        last: 0,
        states: none(alloc),
        discretes,
        rows: none(alloc),
        clauses: none(alloc),
        relative: 0,
    })
}

// A row of the only variable.
fn row_of(kind: RowKind, state: i128) -> Row
    ensures { result.var ≡ 0 }
{
    Row {
        tick: 7,
        kind,
        var: 0,
        level: -5,
        state,
    }
}
