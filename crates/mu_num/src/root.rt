//! Computes integer square roots, rounded up.

ghost use Rattle.std.specs.Prelude.{◌≤◌, ◌^◌, ◌≤ℤ◌, pos, unsigned_abs};
ghost use Rattle.mu_num.specs.Limits.{sum_limit};
ghost use Rattle.mu_num.specs.Roots.{IsRootUp};

/// Returns the square root rounded up: the least natural number whose square is at least v. v is
/// from 0 to 2^126.
pub fn root_up(v: i128) -> i128
    requires from_zero { pos 0 ≤ℤ v }
    requires at_most { v ≤ℤ pos sum_limit }
    ensures from_zero { pos 0 ≤ℤ result }
    ensures root { IsRootUp (unsigned_abs v) (unsigned_abs result) }
{
    find_root_up(v as u128) as i128
}

// Returns the least integer whose square is at least v.
fn find_root_up(v: u128) -> u128
    requires { v ≤ sum_limit }
    ensures root { IsRootUp v result }
    ensures size { result ≤ 2 ^ 63 }
{
    let mut low: u128 = 0;
    let mut high: u128 = 1 << 63;
    while low < high {
        let middle = low + (high - low) / 2;
        if middle * middle >= v {
            high = middle;
        } else {
            low = middle + 1;
        }
    }
    high
}
