//! The first tick at which a distance is covered at a constant speed.

ghost use Rattle.std.specs.Prelude.{◌≡◌, ◌+◌, ◌*◌, ◌/◌, ◌<◌, ◌≤◌, ◌*ℤ◌, ◌<ℤ◌, ◌≤ℤ◌, ℕ, pos};
ghost use Rattle.mu_num.specs.Limits.{tick_limit};
ghost use Rattle.mu_num.specs.Ticks.{FirstAfter, later_tick};

use crate::powers_of_two::is_below_u64_power;

/// Returns the first tick n from 1 to 2^32 with `dist <= n * speed`, or `None`.
pub fn first_tick(dist: i128, speed: i128) -> Option<u64>
    ensures { FirstAfter (λ n. dist ≤ℤ (pos n *ℤ speed)) 0 result }
{
    if is_below_u64_power(dist) && is_below_u64_power(speed) {
        return short_tick(dist as u64, speed as u64);
    }
    if dist <= speed {
        return Some(1);
    }
    later_tick_beyond(dist - 1, speed)
}

/// Returns the first tick n from 1 to 2^32 with `dist < n * speed`, or `None`. It divides only if
/// the result is greater than 1.
pub fn first_tick_beyond(dist: i128, speed: i128) -> Option<u64>
    ensures { FirstAfter (λ n. dist <ℤ (pos n *ℤ speed)) 0 result }
{
    if dist < speed {
        return Some(1);
    }
    later_tick_beyond(dist, speed)
}

/// Returns from + ticks, or `None` if that exceeds 2^32.
pub fn ticks_after(from: u64, ticks: Option<u64>) -> Option<u64>
    requires { from ≤ tick_limit }
    ensures { result ≡ later_tick from ticks }
{
    match ticks {
        Some(ticks) if ticks <= (1 << 32) - from => Some(from + ticks),
        _ => None,
    }
}

// Returns the first tick n with `dist <= n * speed`, for 64-bit numbers.
fn short_tick(dist: u64, speed: u64) -> Option<u64>
    ensures { FirstAfter (λ n. dist ≤ n * speed) 0 result }
{
    if dist <= speed {
        return Some(1);
    }
    short_tick_beyond(dist - 1, speed)
}

// Returns the first tick n with `dist < n * speed`, for 64-bit numbers. The speed may be 0.
fn short_tick_beyond(dist: u64, speed: u64) -> Option<u64>
    ensures { FirstAfter (λ n. dist < n * speed) 0 result }
{
    if dist / (1 << 32) >= speed {
        return None;
    }
    Some(dist / speed + 1)
}

// Returns the first tick n with `dist < n * speed`, if that is not tick 1.
fn later_tick_beyond(dist: i128, speed: i128) -> Option<u64>
    requires { speed ≤ℤ dist }
    ensures { FirstAfter (λ n. dist <ℤ (pos n *ℤ speed)) 0 result }
{
    if speed <= 0 {
        return None;
    }
    wide_tick_beyond(dist as u128, speed as u128)
}

// Returns the first tick n with `dist < n * speed`, for a positive speed.
fn wide_tick_beyond(dist: u128, speed: u128) -> Option<u64>
    requires { 0 < speed }
    ensures { FirstAfter (λ n. dist < n * speed) 0 result }
{
    if dist / (1 << 32) >= speed {
        return None;
    }
    Some(divide_distance_by_speed(dist, speed) as u64 + 1)
}

// Returns the quotient. A 64-bit division is used if both numbers fit, because it is much faster.
fn divide_distance_by_speed(n: u128, d: u128) -> u128
    requires { 0 < d }
    ensures { result ≡ n / d }
{
    if n <= u128::from(u64::MAX) && d <= u128::from(u64::MAX) {
        return u128::from(n as u64 / d as u64);
    }
    n / d
}
