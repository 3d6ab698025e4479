//! Tests of each public call on a small machine: x' = -2 x.

ghost use Rattle.std.specs.Prelude.{◌≡◌, [], ◌∷◌, pos, negsuc, IfOk, IsTrue};
ghost use Rattle.qss_machine.specs.MachineLimits.{IsBounded};
ghost use Rattle.qss_machine.specs.Machines.{state_count, row_at};
ghost use Rattle.qss_machine.specs.Slopes.{mode_fits};

use crate::lists::{none, one};
use mu_io::{Items, Name};
use qss_machine::{
    ClauseInfo, DiscreteInfo, Entry, Form, Machine, Product, SlopeRow, StateInfo, Uses,
};
use std::alloc::{AllocError, Global};
use std::test::Fail;

#[test]
fn gives_rates_and_quanta(rt: HostRuntime) -> Result<(), Fail> {
    let machine = falling(rt.alloc())?;
    assert_eq!(rt; machine.slope(0, &[5], &[]), -10);
    assert_eq!(rt; machine.weight(0, &[5], &[]), 10);
    assert_eq!(rt; machine.mode_coef(0, 0, &[]), -2);
    assert!(rt; machine.mode_fits(0, &[]));
    assert_eq!(rt; machine.quantum_at(0, -9), 1);
    let machine = machine.with_relative(2048);
    assert_eq!(rt; machine.quantum_at(0, -9), 4);
    Ok(())
}

#[test]
fn gives_forms(rt: HostRuntime) -> Result<(), Fail> {
    let machine = falling(rt.alloc())?;
    let form = form(rt.alloc())?;
    assert_eq!(rt; machine.form_value(&form, &[10], &[], &[], 2), 4);
    assert_eq!(rt; machine.form_speed(&form, &[-20]), -23);
    Ok(())
}

#[test]
fn tells_readers(rt: HostRuntime) -> Result<(), Fail> {
    let machine = falling(rt.alloc())?;
    let uses = Uses::new(rt.alloc(), &machine)?;
    assert_eq!(rt; uses.rows_of(0), [0].as_slice());
    assert_eq!(rt; uses.coefficients_of(0), [-2].as_slice());
    assert!(rt; uses.conditions_of(0).is_empty());
    Ok(())
}

// The machine, with one tick per second and one tick.
fn falling(alloc: Global) -> Result<Machine, AllocError>
    ensures states { IfOk result (λ m. state_count m ≡ 1) }
    ensures discretes { IfOk result (λ m. m.discretes ≡ []) }
    ensures modes { IfOk result (λ m. IsTrue (mode_fits m.f (state_count m) (row_at m 0) [])) }
{
    let states = states(alloc)?;
    let rows = rows(alloc)?;
    Ok(Machine {
        p: 0,
        k: 0,
        f: 0,
        last: 1,
        states,
        discretes: none(alloc),
        rows,
        clauses: none(alloc),
        relative: 0,
    })
}

// A state with start value 1 and quantum 1.
fn states(alloc: Global) -> Result<Items<StateInfo>, AllocError>
    ensures { IfOk result
        (λ states. states ≡ record { name = 120 ∷ []; x0 = pos 1; quantum = pos 1 } ∷ []) }
{
    let name = Name::new(alloc, b"x")?;
    one(
        alloc,
        StateInfo {
            name,
            x0: 1,
            quantum: 1,
        },
    )
}

// The right side -2 x.
fn rows(alloc: Global) -> Result<Items<SlopeRow>, AllocError>
    ensures { IfOk result
        (λ rows. rows
        ≡ record {
          entries = record { var = 0; coef = negsuc 1 } ∷ [];
          products = [];
          beta = pos 0;
        }
        ∷ []) }
{
    let entries = one(alloc, Entry { var: 0, coef: -2 })?;
    one(
        alloc,
        SlopeRow {
            entries,
            products: none(alloc),
            beta: 0,
        },
    )
}

// The form x - 3 t.
fn form(alloc: Global) -> Result<Form, AllocError>
    ensures { IfOk result IsBounded }
{
    Ok(Form {
        entries: one(alloc, Entry { var: 0, coef: 1 })?,
        time: -3,
        gamma: 0,
    })
}
