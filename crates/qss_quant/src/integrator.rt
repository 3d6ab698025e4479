//! Quantized integrators: a state moves at a constant slope until it is one quantum away from its
//! level.

ghost use Rattle.std.specs.Prelude.{◌+ℤ◌, ◌-ℤ◌, ◌*ℤ◌, ◌≤ℤ◌, pos, unsigned_abs};
ghost use Rattle.qss_quant.specs.Prelude.{FirstAfter, IsWithin, IsPositiveWithin, tick_limit, IsLevel, IsQuantum, IsSlope};
ghost use Rattle.qss_quant.specs.IntegratorLines.{IsLineWithinQuantum};

use crate::level_gaps::{room_above, room_below};
use crate::steps::Steps;
use mu_num::{first_tick, ticks_after};
use std::marker::Model;
use std::sync::ledger::Ledger;

/// A quantized integrator (Kofman and Junco 2001): a state `x` at a tick, its slope per tick, and
/// its level. `x` and `slope` are in units of 2^-(f+p+k), `level` in units of 2^-f.
#[derive(Clone, Copy)]
pub struct Integrator {
    pub tick: u64,
    pub x: i128,
    pub slope: i128,
    pub level: i64,
}

impl Model for Integrator {
    ghost use Rattle.qss_quant.specs.IntegratorLines.{Line, IsLine};

    ghost Value = { Line };

    ghost view = { λ i. record { tick = i.tick; x = i.x; slope = i.slope; level = i.level } };

    ghost invariant = { λ i. IsLine (record { tick = i.tick; x = i.x; slope = i.slope; level = i.level }) };

    ghost inverse = { λ i. record { tick = i.tick; x = i.x; slope = i.slope; level = i.level } };
}

impl Integrator {
    ghost use Rattle.std.specs.Prelude.{◌≡◌, ℕ, ◌+◌, ◌^◌, ◌≤◌};
    ghost use Rattle.qss_quant.specs.Prelude.{FirstAfter, IsWithin, IsPositiveWithin};
    ghost use Rattle.qss_quant.specs.IntegratorLines.{state_at, IsLineWithinQuantum, IsAway};

    /// The first tick at which the state is at least one quantum away from its level. It is after
    /// the tick of the integrator and at most 2^32, or `None` if there is no such tick.
    #[inline(always)]
    pub fn due(&self, quantum: i64, unit: i128) -> Option<u64>
        requires quantum { IsQuantum quantum }
        requires unit { IsPositiveWithin 44 unit }
        requires near { IsLineWithinQuantum unit self.now.x self.now.level quantum }
        ensures { FirstAfter (λ tick. IsAway unit (state_at self.now tick) self.now.level quantum)
            self.now.tick result }
    {
        let ticks = first_integrator_leaving(self.x, self.level, self.slope, quantum, unit);
        ticks_after(self.tick, ticks)
    }

    /// The state at a tick, if the slope stays constant.
    pub fn value_at(&self, tick: u64) -> i128
        requires later { self.now.tick ≤ tick }
        requires tick_limit { tick ≤ tick_limit }
        ensures { result ≡ state_at self.now tick }
    {
        self.x + i128::from(tick - self.tick) * self.slope
    }

    /// Moves the integrator to a tick at its constant slope. `steps` counts one step.
    pub fn move_to<L: Ledger>(&mut self, tick: u64, steps: &mut Steps<L>)
        requires later { self.old.tick ≤ tick }
        requires tick_limit { tick ≤ tick_limit }
        requires size_limit { IsWithin 89 (state_at self.old tick) }
        ensures moved { self.new ≡ record self.old { tick = tick; x = state_at self.old tick } }
        ensures counted { steps.new ≡ steps.old + 1 }
    {
        let x = self.value_at(tick);
        self.x = x;
        self.tick = tick;
        steps.tick();
    }

    /// Sets the slope from the tick of the integrator on.
    pub fn set_slope(&mut self, slope: i128)
        requires { IsSlope slope }
        ensures { self.new ≡ record self.old { slope = slope } }
    {
        self.slope = slope;
    }
}

// The number of ticks, at least 1, until a state that changes by `speed` per tick is first at least
// one quantum away from its level.
#[inline(always)]
fn first_integrator_leaving(
    x: i128,
    level: i64,
    speed: i128,
    quantum: i64,
    unit: i128,
) -> Option<u64>
    requires state { IsWithin 89 x }
    requires level { IsLevel level }
    requires speed { IsSlope speed }
    requires quantum { IsLevel quantum }
    requires unit { IsPositiveWithin 44 unit }
    requires near { IsLineWithinQuantum unit x level quantum }
    ensures { FirstAfter
        (λ n. (unit *ℤ quantum) ≤ℤ pos (unsigned_abs ((x -ℤ unit *ℤ level) +ℤ pos n *ℤ speed)))
        0 result }
{
    if speed < 0 {
        first_tick(room_below(x, level, quantum, unit), -speed)
    } else {
        first_tick(room_above(x, level, quantum, unit), speed)
    }
}
