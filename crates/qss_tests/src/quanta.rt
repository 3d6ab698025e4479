//! Tests of quantizers and of quantized integrators.

ghost use Rattle.std.specs.Prelude.{None, Some, false};
ghost use Rattle.qss_quant.specs.LevelRules.{IsAsked, IsAnswer};
ghost use Rattle.qss_quant.specs.declared.quantizer.Rule.TheVariants.{Floor};
ghost use Rattle.qss_order2.specs.SlopeRules as Slopes;

use mu_num::{ceil_div, floor_div};
use qss_order2::SlopeRule;
use qss_quant::{Integrator, Quantizer, Rule};
use std::prelude::HostRuntime;

#[test]
fn a_quantizer_keeps_a_level_within_its_quantum(rt: HostRuntime) {
    let quantizer = Quantizer::new(floor_rule, Some(Rule::Floor));
    assert!(&rt; quantizer.level(246784, 60, 4, 4096) == 60);
    assert!(&rt; quantizer.level(215040, 60, 4, 4096) == 52);
}

// 53 is the least level that is not below the state 215040 / 4096.
#[test]
fn a_quantizer_without_a_name_takes_the_level_of_its_rule(rt: HostRuntime) {
    let quantizer = Quantizer::new(ceiling_rule, None);
    assert!(&rt; quantizer.level(246784, 60, 4, 4096) == 60);
    assert!(&rt; quantizer.level(215040, 60, 4, 4096) == 53);
}

// The rule takes the greatest change that is not above the quotient, 1.75 or -1.75.
#[test]
fn a_slope_rule_need_not_take_the_nearest_slope(rt: HostRuntime) {
    let rule = SlopeRule::new(floor_slope_rule, false);
    assert!(&rt; rule.change(28672, 16384) == 1);
    assert!(&rt; rule.change(-28672, 16384) == -2);
}

#[test]
fn an_integrator_leaves_its_quantum_on_time(rt: HostRuntime) {
    let mut line = Integrator {
        tick: 1,
        x: 245760,
        slope: -15360,
        level: 60,
    };
    assert!(&rt; line.due(4, 4096) == Some(3));
    assert!(&rt; line.value_at(3) == 215040);
    line.set_slope(0);
    assert!(&rt; line.due(4, 4096).is_none());
}

// The floor of a state: the greatest level not above it.
fn floor_rule(x: i128, old: i64, unit: i128) -> i128
    requires { IsAsked x old unit }
    ensures { IsAnswer (Some Floor) x old unit result }
{
    floor_div(x, unit)
}

// A rule without a name: the least level that is not below the state.
fn ceiling_rule(x: i128, old: i64, unit: i128) -> i128
    requires { IsAsked x old unit }
    ensures { IsAnswer None x old unit result }
{
    ceil_div(x, unit)
}

// A rule whose slopes are not the nearest ones: the greatest slope that is not above the state's.
fn floor_slope_rule(rise: i128, unit: i128) -> i128
    requires { Slopes.IsAsked rise unit }
    ensures { Slopes.IsAnswer false rise unit result }
{
    floor_div(rise, unit)
}
