//! Quantizers with hysteresis, and the three named rules for new levels.

ghost use Rattle.std.specs.Prelude.{◌≡◌, ℤ, Some};
ghost use Rattle.qss_quant.specs.Prelude.{IsQuantum};
ghost use Rattle.qss_quant.specs.LevelRules.{IsAsked, IsAnswer};
ghost use Rattle.qss_quant.specs.declared.quantizer.Rule.TheVariants.{Floor, Near, Inward};

use crate::level_gaps::{is_gap_inside, levels_in_units, quantum_in_units, signed_gap};
use mu_num::{ceil_div, floor_div, near_div};

/// A rule for new levels. It takes a state, its old level, and the number of units of a state in a
/// level. It returns the new level.
pub type LevelRule = fn(i128, i64, i128) -> i128;

/// A quantizer: a rule with a proof that its result is less than one level away from the state. If
/// the quantizer has a name, its results are those of the named rule.
#[derive(Clone, Copy)]
pub struct Quantizer {
    pub rule: LevelRule,
    pub name: Option<Rule>,
    pub ghost callable: { (state old unit : ℤ) → IsAsked state old unit → LevelRule.pre rule state old unit },
    pub ghost keeps: { (state old unit answer : ℤ) → IsAsked state old unit → LevelRule.post rule state old unit answer → IsAnswer name state old unit answer },
}

impl Quantizer {
    ghost use Rattle.qss_quant.specs.IntegratorLines.{IsLineWithinQuantum, IsAway};

    /// A quantizer with this rule, and a name if the rule has one.
    pub fn new(rule: LevelRule, name: Option<Rule>) -> Quantizer
        requires callable { (state old unit : ℤ) → IsAsked state old unit
            → LevelRule.pre rule state old unit }
        requires keeps { (state old unit answer : ℤ) → IsAsked state old unit
            → LevelRule.post rule state old unit answer
            → IsAnswer name state old unit answer }
        ensures rule { result.rule ≡ rule }
        ensures name { result.name ≡ name }
    {
        Quantizer { rule, name }
    }

    /// Quantizes a state with hysteresis: the old level if the state is less than one quantum away
    /// from it, else the result of the rule.
    pub fn level(&self, x: i128, old: i64, quantum: i64, unit: i128) -> i128
        requires asked { IsAsked x old unit }
        requires quantum { IsQuantum quantum }
        ensures kept { IsLineWithinQuantum unit x old quantum → result ≡ old }
        ensures taken { IsAway unit x old quantum → IsAnswer self.now.name x old unit result }
        ensures ruled { IsAway unit x old quantum → LevelRule.post self.now.rule x old unit result }
    {
        if is_gap_inside(signed_gap(x, old, unit), quantum_in_units(quantum, unit)) {
            return i128::from(old);
        }
        self.answer(x, old, unit)
    }

    /// The result of the rule: the new level of a state that is at least one quantum away from the
    /// old level.
    pub fn answer(&self, x: i128, old: i64, unit: i128) -> i128
        requires { IsAsked x old unit }
        ensures answer { IsAnswer self.now.name x old unit result }
        ensures ruled { LevelRule.post self.now.rule x old unit result }
    {
        (self.rule)(x, old, unit)
    }
}

/// The rule that selects the new level of a state that left its quantum. `Floor`: the greatest
/// level at most the state. `Near`: the nearest level, ties to even. `Inward`: the next level on
/// the side of the old level.
#[derive(Clone, Copy, PartialEq, Eq, Debug, Drop)]
pub enum Rule {
    Floor,
    Near,
    Inward,
}

// The greatest level at most the state.
pub fn quantize_to_floor_level(state: i128, old: i64, unit: i128) -> i128
    requires { IsAsked state old unit }
    ensures { IsAnswer (Some Floor) state old unit result }
{
    floor_div(state, unit)
}

// The nearest level, ties to even.
pub fn quantize_to_near_level(state: i128, old: i64, unit: i128) -> i128
    requires { IsAsked state old unit }
    ensures { IsAnswer (Some Near) state old unit result }
{
    near_div(state, unit)
}

// The level next to the state on the side of the old level.
pub fn quantize_to_inward_level(state: i128, old: i64, unit: i128) -> i128
    requires { IsAsked state old unit }
    ensures { IsAnswer (Some Inward) state old unit result }
{
    if levels_in_units(old, unit) < state {
        floor_div(state, unit)
    } else {
        ceil_div(state, unit)
    }
}
