//! Theorems about quotients, fractions, number tokens and levels, each stated by the contract of an
//! empty function.

ghost use Rattle.mu_num.specs.Decimal.{DecimalsAreRight};
ghost use Rattle.mu_num.specs.Fraction.{LowestTermsAreRight};
ghost use Rattle.mu_num.specs.Levels.{RulesStayWithinOneLevel};
ghost use Rattle.mu_num.specs.Rounding.{QuotientsAreRight};

/// The rounding functions satisfy their defining inequalities, and no other integers do.
pub fn quotients_are_right()
    ensures { QuotientsAreRight }
{}

/// Reduction to lowest terms keeps the value, leaves no common divisor, and is unique for each
/// value.
pub fn lowest_terms_are_right()
    ensures { LowestTermsAreRight }
{}

/// Each named quantizer rule returns a level less than one level away from the state.
pub fn rounding_rules_are_near()
    ensures { RulesStayWithinOneLevel }
{}

/// A number token has its written value if that is in range, and else the error `Range`.
pub fn decimals_are_right()
    ensures { DecimalsAreRight }
{}
