//! Checks the inequalities of a certificate in order, each at all of its places. The verdict
//! reports the first inequality that fails or has a sum out of range.

ghost use Rattle.std.specs.Prelude.{◌≡◌, ◌*ℤ◌, ◌↔◌, ◌<◌, ◌≤◌, Option, IsSome, IfSome, ℕ, pos};
ghost use Rattle.cert_check.specs.Prelude.{state_count};
ghost use Rattle.cert_check.specs.Words.{fails_by, judgement, IsProductInRange, certificate_data, system, AreSumsInRange, IsFaultOf, IsFirstFaultOf, IsWellFormed, inequalities, fault_of, number_of, places_of, relation_of, start_of, Holds, IsInScope, system_of, BoundsAreGuaranteed, CoversOwnRuns};

use crate::affine_data::AffineSystem;
use crate::certificate::Certificate;
use crate::inequality_sides::{Inequality, count_side_pairs, sides_of_inequality};
use crate::machine_system::affine_system;
use cert_matrix::RangedSum;
use qss_machine::Machine;

/// All inequalities, in the order of the check.
const ALL: [Inequality; 30] = [
    Inequality::SignP,
    Inequality::SignMu,
    Inequality::SignLambda,
    Inequality::SignH1,
    Inequality::SignH2,
    Inequality::SignR,
    Inequality::SignZ,
    Inequality::SignS,
    Inequality::SignSigmaR,
    Inequality::SignC,
    Inequality::SignSigmaC,
    Inequality::SignE,
    Inequality::Symmetric,
    Inequality::BoundParts,
    Inequality::Bound,
    Inequality::DecayProducts,
    Inequality::DecayParts,
    Inequality::Decay,
    Inequality::FirstStart,
    Inequality::SecondStart,
    Inequality::StartsApart,
    Inequality::Reach,
    Inequality::Slope,
    Inequality::CentreGain,
    Inequality::CentreSum,
    Inequality::PairGain,
    Inequality::PairSum,
    Inequality::Distance,
    Inequality::Quantum,
    Inequality::Share,
];

/// The two sides of an inequality at a place.
#[derive(Clone, Copy)]
pub struct Sides {
    pub left: i128,
    pub right: i128,
}

/// The relation that the two sides of an inequality must satisfy.
#[derive(Clone, Copy, Debug, PartialEq, Eq)]
pub enum Relation {
    AtLeast,
    AtMost,
    Equal,
}

/// The failure that rejects a certificate: the number of an inequality (1 to 13) and a place in it.
/// `Rejected`: the relation of `left` and `right` fails. `Range`: a sum is out of range.
#[derive(Clone, Copy, Debug, PartialEq, Eq)]
pub enum Fault {
    Rejected {
        number: u32,
        place: u32,
        left: i128,
        right: i128,
    },
    Range {
        number: u32,
        place: u32,
    },
}

/// The result of a check. A failure has the number of the inequality, the place in it, and the two
/// sides. `Range` means that a sum is out of range.
#[derive(Clone, Copy, Debug, PartialEq, Eq)]
pub enum Verdict {
    Accepted,
    Rejected {
        number: u32,
        place: u32,
        left: i128,
        right: i128,
    },
    Range {
        number: u32,
        place: u32,
    },
}

/// Checks a certificate of a machine. The verdict reports the first failure in the order of the
/// inequalities and their places, or acceptance.
#[inline(never)]
pub fn check(m: &Machine, c: &Certificate) -> Verdict
    requires scope { IsInScope m.now }
    requires size { c.now.n ≡ state_count m.now }

    // Not accepted: the first sum that is out of range or inequality that fails.
    ensures verdict { IsFirstFaultOf (system_of m.now) (certificate_data c.now) inequalities
        (fault_of result) }

    // Accepted if and only if all inequalities hold and all sums that compute them are in range.
    ensures accepted { (result ≡ Verdict.Accepted)
        ↔ (Holds (system_of m.now) (certificate_data c.now) × AreSumsInRange (system_of m.now) (certificate_data c.now)) }

    // If accepted, every two legitimate runs from the certificate's starts stay within its bounds.
    // If one of the two starts is the machine's, the machine's own runs are legitimate.
    ensures bounds_guaranteed { result ≡ Verdict.Accepted → BoundsAreGuaranteed m.now c.now }
    ensures own_runs_covered { result ≡ Verdict.Accepted → CoversOwnRuns m.now c.now }
{
    let affine = affine_system(m);
    certificate_verdict(check_inequalities_in_order(&affine, c, &ALL))
}

/// The product, or `None` if it is out of range.
pub fn multiply_side_terms(a: i128, b: i128) -> Option<i128>
    ensures in_range { IsSome result ↔ IsProductInRange a b }
    ensures value { IfSome result (λ value. value ≡ a *ℤ b) }
{
    let sum = RangedSum::new().plus(a, b)?;
    Some(sum.total())
}

/// The number of places of an inequality for `n` states: one for each state, pair or side.
fn count_inequality_places(n: u8, inequality: Inequality) -> u8
    requires { n ≤ 16 }
    ensures { result ≡ places_of n inequality }
{
    match inequality {
        Inequality::SignLambda
        | Inequality::SignH1
        | Inequality::SignH2
        | Inequality::SignR
        | Inequality::SignC
        | Inequality::CentreSum
        | Inequality::PairSum
        | Inequality::FirstStart
        | Inequality::SecondStart
        | Inequality::StartsApart => 1,
        Inequality::Symmetric => count_side_pairs(n),
        _ => n,
    }
}

/// The verdict that reports a failure, or acceptance if there is none.
fn certificate_verdict(fault: Option<Fault>) -> Verdict
    ensures { fault_of result ≡ fault }
{
    match fault {
        None => Verdict::Accepted,
        Some(
            Fault::Rejected {
                number,
                place,
                left,
                right,
            },
        ) => Verdict::Rejected {
            number,
            place,
            left,
            right,
        },
        Some(Fault::Range { number, place }) => Verdict::Range { number, place },
    }
}

/// The number of an inequality, from 1 to 13.
fn number(inequality: Inequality) -> u32
    ensures { result ≡ number_of inequality }
{
    match inequality {
        Inequality::Symmetric => 2,
        Inequality::BoundParts | Inequality::Bound => 3,
        Inequality::DecayProducts | Inequality::DecayParts | Inequality::Decay => 4,
        Inequality::FirstStart | Inequality::SecondStart | Inequality::StartsApart => 5,
        Inequality::Reach => 6,
        Inequality::Slope => 7,
        Inequality::CentreGain => 8,
        Inequality::CentreSum => 9,
        Inequality::PairGain => 10,
        Inequality::PairSum => 11,
        Inequality::Distance => 12,
        Inequality::Quantum | Inequality::Share => 13,
        _ => 1,
    }
}

/// The first failure of these inequalities, in order.
#[inline(never)]
pub fn check_inequalities_in_order(
    m: &AffineSystem,
    x: &Certificate,
    inequalities: &[Inequality],
) -> Option<Fault>
    requires { IsWellFormed m.now x.now }
    ensures { IsFirstFaultOf (system m.now) (certificate_data x.now) inequalities.now result }
{
    for inequality in inequalities {
        let fault = check_inequality(m, x, *inequality);
        if fault.is_some() {
            return fault;
        }
    }
    None
}

/// The first failure of an inequality, over its places in order.
pub fn check_inequality(m: &AffineSystem, x: &Certificate, inequality: Inequality) -> Option<Fault>
    requires { IsWellFormed m.now x.now }
    ensures { IsFaultOf (system m.now) (certificate_data x.now) inequality result }
{
    let start = start(m.n, inequality);
    for k in 0..count_inequality_places(m.n, inequality) {
        let place = start + u32::from(k) + 1;
        let fault = judge_inequality(
            number(inequality),
            place,
            inequality_relation(inequality),
            sides_of_inequality(m, x, inequality, k),
        );
        if fault.is_some() {
            return fault;
        }
    }
    None
}

/// The offset of the places of an inequality. Its first place has this number plus 1.
fn start(n: u8, inequality: Inequality) -> u32
    requires { n ≤ 16 }
    ensures { result ≡ start_of n inequality }
{
    let n = u32::from(n);
    match inequality {
        Inequality::SignMu => n,
        Inequality::SignLambda => 2 * n,
        Inequality::SignH1 => 2 * n + 1,
        Inequality::SignH2 => 2 * n + 2,
        Inequality::SignR => 2 * n + 3,
        Inequality::SignZ => 2 * n + 4,
        Inequality::SignS => 3 * n + 4,
        Inequality::SignSigmaR => 4 * n + 4,
        Inequality::SignC => 5 * n + 4,
        Inequality::SignSigmaC => 5 * n + 5,
        Inequality::SignE => 6 * n + 5,
        Inequality::Share => n,
        Inequality::SecondStart => 1,
        Inequality::StartsApart => 2,
        _ => 0,
    }
}

/// The failure at a place, or `None`. `sides` is `None` if a sum is out of range.
pub fn judge_inequality(
    number: u32,
    place: u32,
    relation: Relation,
    sides: Option<Sides>,
) -> Option<Fault>
    ensures { result ≡ judgement number place relation sides }
{
    match sides {
        None => Some(Fault::Range { number, place }),
        Some(Sides { left, right }) => {
            if is_inequality_violated(relation, &left, &right) {
                Some(Fault::Rejected {
                    number,
                    place,
                    left,
                    right,
                })
            } else {
                None
            }
        }
    }
}

/// Whether the two sides violate the relation.
fn is_inequality_violated(relation: Relation, left: &i128, right: &i128) -> bool
    ensures { result ≡ fails_by relation left.now right.now }
{
    match relation {
        Relation::AtLeast => *left < *right,
        Relation::AtMost => *right < *left,
        Relation::Equal => *left < *right || *right < *left,
    }
}

/// The relation that the two sides of an inequality must satisfy.
fn inequality_relation(inequality: Inequality) -> Relation
    ensures { result ≡ relation_of inequality }
{
    match inequality {
        Inequality::Symmetric => Relation::Equal,
        Inequality::FirstStart | Inequality::SecondStart | Inequality::StartsApart =>
            Relation::AtMost,
        _ => Relation::AtLeast,
    }
}
