//! Zero-crossing detectors: a value that changes at a constant speed is compared with 0. A detector
//! computes the next tick at which the truth of the comparison changes.

ghost use Rattle.std.specs.Prelude.{◌≡◌, ◌≢◌, ◌^◌, ◌≤◌, ◌+ℤ◌, ◌*ℤ◌, ◌≤ℤ◌, pos, int_le};
ghost use Rattle.qss_cross.specs.Prelude.{FirstAfter, tick_limit, w128, int_wrap};
ghost use Rattle.qss_cross.specs.Crossing.{IsSmall, bound_of, CrossesOnce};

use mu_num::{first_tick_beyond, ticks_after};
use qss_machine::Rel;
use std::marker::Model;

/// A zero-crossing detector: a value at a tick, its change per tick (`speed`), and its comparison
/// with 0. The value is that of a form, in units of 2^-(f+2p+k).
#[derive(Clone, Copy)]
pub struct Detector {
    pub rel: Rel,
    pub tick: u64,
    pub value: i128,
    pub speed: i128,
}

impl Model for Detector {
    ghost use Rattle.qss_cross.specs.Crossing.{DetectorView, IsDetectorView};

    ghost Value = { DetectorView };

    ghost view = { λ d. record { rel = d.rel; tick = d.tick; value = d.value; speed = d.speed } };

    ghost invariant = { λ d. IsDetectorView (record { rel = d.rel; tick = d.tick; value = d.value; speed = d.speed }) };

    ghost inverse = { λ w. record { rel = w.rel; tick = w.tick; value = w.value; speed = w.speed } };
}

impl Detector {
    ghost use Rattle.std.specs.Prelude.{◌≡◌, ◌≢◌, ◌≤◌, ◌^◌};
    ghost use Rattle.qss_cross.specs.Prelude.{FirstAfter, compares};
    ghost use Rattle.qss_cross.specs.Crossing.{IsSmall, value_at, holds_at};

    /// Whether the comparison with 0 holds at the tick of the detector.
    pub fn truth(&self) -> bool
        ensures { result ≡ compares self.now.rel self.now.value }
    {
        match self.rel {
            Rel::Less => self.value < 0,
            Rel::LessEq => self.value <= 0,
            Rel::Greater => self.value > 0,
            Rel::GreaterEq => self.value >= 0,
        }
    }

    /// The first tick, after the tick of the detector, at which the truth of the comparison
    /// differs, if the speed stays constant.
    pub fn next_change(&self) -> Option<u64>
        ensures { FirstAfter (λ tick. holds_at self.now tick ≢ compares self.now.rel self.now.value)
            self.now.tick result }
    {
        ticks_after(
            self.tick,
            first_detector_crossing(self.value, detector_bound(self.rel), self.speed),
        )
    }

    /// Moves the detector to a tick at its constant speed.
    pub fn move_to(&mut self, tick: u64)
        requires later { self.old.tick ≤ tick }
        requires tick_limit { tick ≤ tick_limit }
        requires size_limit { IsSmall (value_at self.old tick) }
        ensures { self.new ≡ record self.old { tick = tick; value = value_at self.old tick } }
    {
        self.value = move_detector_value(self.value, tick - self.tick, self.speed);
        self.tick = tick;
    }

    /// Sets the value and the speed at the tick of the detector.
    pub fn set(&mut self, value: i128, speed: i128)
        requires value { IsSmall value }
        requires speed { IsSmall speed }
        ensures { self.new ≡ record self.old { value = value; speed = speed } }
    {
        self.value = value;
        self.speed = speed;
    }
}

/// Theorem: at a constant speed a comparison with 0 changes its truth at most once.
pub fn detector_crosses_once()
    ensures { CrossesOnce }
{}

// The number of ticks, at least 1, until the value is first on the other side of the bound.
fn first_detector_crossing(value: i128, bound: i128, speed: i128) -> Option<u64>
    requires value { IsSmall value }
    requires speed { IsSmall speed }
    requires low { pos 0 ≤ℤ bound }
    requires high { bound ≤ℤ pos 1 }
    ensures { FirstAfter (λ n. int_le bound (value +ℤ pos n *ℤ speed) ≢ int_le bound value) 0
        result }
{
    if value >= bound {
        first_tick_beyond(value - bound, -speed)
    } else {
        first_tick_beyond(bound - 1 - value, speed)
    }
}

// The threshold of a comparison with 0: the comparison changes its truth between the values below
// this bound and the values from it on.
fn detector_bound(rel: Rel) -> i128
    ensures value { result ≡ bound_of rel }
    ensures low { pos 0 ≤ℤ result }
    ensures high { result ≤ℤ pos 1 }
{
    match rel {
        Rel::Less | Rel::GreaterEq => 0,
        Rel::LessEq | Rel::Greater => 1,
    }
}

// A value after a number of ticks. Its change may wrap even if the sum does not overflow.
fn move_detector_value(value: i128, ticks: u64, speed: i128) -> i128
    requires { IsSmall (value +ℤ pos ticks *ℤ speed) }
    ensures { result ≡ value +ℤ pos ticks *ℤ speed }
{
    value.wrapping_add(detector_gain(i128::from(ticks), speed))
}

// The change of a value over a number of ticks, wrapped to 128 bits.
fn detector_gain(ticks: i128, speed: i128) -> i128
    ensures { result ≡ int_wrap w128 (ticks *ℤ speed) }
{
    ticks.wrapping_mul(speed)
}
