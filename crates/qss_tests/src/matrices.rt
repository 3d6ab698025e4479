//! Tests of matrices, of the Gram test, and of sums at their limit.

ghost use Rattle.std.specs.Prelude.{◌≡◌, ◌<◌, length};

use cert_matrix::{Matrix, RangedSum, Test, gram_row, gram_test, quad, weigh};
use std::test::Fail;

#[test]
fn matrices_are_read_and_tested(rt: HostRuntime) -> Result<(), Fail> {
    let zero = square(0, 0, 0, 0);
    let m = square(1, -2, -2, 1);
    assert_eq!(rt; m.size(), 2);
    assert_eq!(rt; m.get(1, 0), -2);
    // The test uses the absolute values off the diagonal, so -2 does not satisfy it.
    assert_eq!(rt;
        gram_test(1, &m, &zero),
        Test::Fails {
            row: 1,
            left: 1,
            right: 2
        }
    );
    assert_eq!(rt; gram_test(1, &square(3, 1, 1, 2), &zero), Test::Holds);
    // (2, 1; 1, 1) is the transpose of (1, 0; 1, 1) times (1, 0; 1, 1), so the difference is 0.
    assert_eq!(rt;
        gram_test(1, &square(2, 1, 1, 1), &square(1, 0, 1, 1)),
        Test::Holds
    );
    // The square of 2^64 exceeds 2^126.
    let large = square(0, 0, 0, 1 << 64);
    assert_eq!(rt; gram_test(1, &zero, &large), Test::Range { row: 2 });
    let sides = gram_row(&1, &m, &zero, 1).ok_or("out of range")?;
    assert_eq!(rt; sides.left, 1);
    assert_eq!(rt; sides.right, 2);
    Ok(())
}

#[test]
fn sums_end_at_their_limit(rt: HostRuntime) -> Result<(), Fail> {
    let half = 1i128 << 63;
    assert_eq!(rt; weigh(&[(3, -4), (5, 2)]), Some(-2));
    assert_eq!(rt; weigh(&[(half, -half)]), Some(-(1 << 126)));
    // Absolute values are added: 2^126 and 1 exceed the limit, although the sum is small.
    assert_eq!(rt; weigh(&[(half, half), (-1, 1)]), None);
    let m = square(3, 1, 1, 2);
    assert_eq!(rt; quad(&m, &[2, -1]), Some(10));
    assert_eq!(rt; quad(&m, &[half, 0]), None);
    let sum = RangedSum::new().plus(2, 3).and_then(|sum| sum.minus(1, 4));
    assert_eq!(rt; sum.map(|sum| sum.total()), Some(2));
    let size = RangedSum::new().plus_size(-2, 3);
    assert_eq!(rt; size.map(|sum| sum.total()), Some(6));
    Ok(())
}

/// The matrix with the rows (a, b) and (c, d).
fn square(a: i128, b: i128, c: i128, d: i128) -> Matrix
    ensures { length result ≡ 2 }
{
    let mut m = Matrix::new(2);
    put(&mut m, 0, 0, a);
    put(&mut m, 0, 1, b);
    put(&mut m, 1, 0, c);
    put(&mut m, 1, 1, d);
    m
}

/// Sets the entry in row `i` and column `j`.
fn put(m: &mut Matrix, i: u8, j: u8, value: i128)
    requires row { i < length m.old }
    requires column { j < length m.old }
    ensures { length m.new ≡ length m.old }
{
    m.set(i, j, value);
}
