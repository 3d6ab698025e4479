//! Tests of numbers with examples from other sources.

use mu_num::{
    NumErr, Ratio, ceil_div, decimal, first_tick, first_tick_beyond, floor_div, near_div, nearest,
    root_up, ticks_after,
};
use std::test::Fail;

#[test]
fn decimals(rt: HostRuntime) -> Result<(), Fail> {
    let values: [(&[u8], i128, i128); 7] = [
        (b"0.10", 1, 10),
        (b".5", 1, 2),
        (b"0e-30", 0, 1),
        (b"100e-20", 1, 1_000_000_000_000_000_000),
        (b"4611686018427387904", 1 << 62, 1),
        (b"0.00000000000000000000001E+23", 1, 1),
        (b"0e99999999999999999999999999", 0, 1),
    ];
    for (token, num, den) in &values {
        assert!(rt; is(decimal(*token), *num, *den));
    }
    let refused: [&[u8]; 3] = [
        b"1e-19",
        b"4611686018427387905",
        b"1e99999999999999999999999999",
    ];
    for token in &refused {
        assert!(rt; is_range(decimal(*token)));
    }
    Ok(())
}

#[test]
fn fractions(rt: HostRuntime) -> Result<(), Fail> {
    let tenth = decimal(b"0.1").ok().ok_or("tenth")?;
    let two = Ratio::whole(2);
    assert!(rt; is(tenth.add(tenth), 1, 5));
    assert!(rt; is(tenth.sub(two), -19, 10));
    assert!(rt; is(tenth.mul(two), 1, 5));
    assert!(rt; is(two.div(tenth), 20, 1));
    assert!(rt; is(tenth.pow(3), 1, 1000));
    assert!(rt; is_range(tenth.pow(19)));
    assert_eq!(rt; nearest(tenth, 8), 26);
    assert!(rt; two.div(Ratio::whole(0)) == Err(NumErr::ZeroDivisor));
    Ok(())
}

#[test]
fn quotients_and_ticks(rt: HostRuntime) -> Result<(), Fail> {
    assert_eq!(rt; floor_div(-7, 2), -4);
    assert_eq!(rt; ceil_div(-7, 2), -3);
    assert_eq!(rt; near_div(5, 2), 2);
    assert_eq!(rt; near_div(7, 2), 4);
    assert_eq!(rt; near_div(-7, 2), -4);
    assert_eq!(rt; first_tick(10, 5), Some(2));
    assert_eq!(rt; first_tick(-10, -20), None);
    assert_eq!(rt; first_tick(1 << 33, 2), Some(1 << 32));
    assert_eq!(rt; first_tick_beyond(10, 5), Some(3));
    assert_eq!(rt; ticks_after(1, Some(1 << 32)), None);
    assert_eq!(rt; root_up(17), 5);
    Ok(())
}

fn is(answer: Result<Ratio, NumErr>, num: i128, den: i128) -> bool {
    match answer {
        Ok(value) => value.num() == num && value.den() == den,
        Err(_) => false,
    }
}

fn is_range(answer: Result<Ratio, NumErr>) -> bool {
    match answer {
        Ok(_) => false,
        Err(fault) => fault == NumErr::Range,
    }
}
