//! A certificate: numbers that bound the distance of any two legitimate runs of a machine. Ghost
//! fields state the size of each list and matrix and the limit of its numbers.

ghost use Rattle.cert_check.specs.CertificateLimits.{IsSize, IsNumber, IsVector, IsSquareTable};

use cert_matrix::HeapMatrix;
use mu_io::Items;

/// A certificate for `n` states. A matrix has `n` rows, a list has `n` numbers.
/// Each number is at most 2^126 in absolute value.
///
/// V(y), the sum of `pm[i][j] * y[i] * y[j]`, is a Lyapunov function of the system x' = A x + b.
/// States are in units of 2^-(f+p+k), levels in units of 2^-f, where f, p and k are the machine's
/// bits of levels, coefficients and ticks.
#[derive(Drop)]
pub struct Certificate {
    /// The number of states.
    pub n: u8,
    /// P, the symmetric matrix of V.
    pub pm: HeapMatrix,
    /// V(y) is at least the sum of `p[i] * y[i]^2`.
    pub p: Items<i128>,
    /// Bounds of the decrease of V: -(P A + A^T P) less diag(`mu`) less `lambda` P is positive
    /// semidefinite.
    pub mu: Items<i128>,
    /// The factor of P in this bound.
    pub lambda: i128,
    /// Factor and matrix of the Gram test that P less diag(`p`) is positive semidefinite.
    pub h1: i128,
    pub g1: HeapMatrix,
    /// Factor and matrix of the Gram test for this bound.
    pub h2: i128,
    pub g2: HeapMatrix,
    /// The centre of the invariant set, in levels.
    pub c: Items<i128>,
    /// R: each state x of a run satisfies V(x - c) <= R, in squares of levels.
    pub r: i128,
    /// Z: the greatest distance of each state from the centre, in levels.
    pub z: Items<i128>,
    /// S: the greatest change of each state in a tick, in levels.
    pub s: Items<i128>,
    /// The greatest amount that quantization of each state adds to V(x - c) in a tick.
    pub sigma_r: Items<i128>,
    /// C: the difference y of two runs satisfies V(y) <= C, in squares of levels.
    pub cc: i128,
    /// The greatest amount that quantization of each state adds to V of a difference in a tick.
    pub sigma_c: Items<i128>,
    /// E: the greatest distance of two runs in each state, in levels.
    pub e: Items<i128>,
    /// The start states of the two runs, in units of states.
    pub start1: Items<i128>,
    pub start2: Items<i128>,
    /// Q: the quanta of the certified runs, in levels.
    pub q: Items<i128>,
    pub ghost has_size: { IsSize n },
    pub ghost has_pm: { IsSquareTable n pm },
    pub ghost has_p: { IsVector n p },
    pub ghost has_mu: { IsVector n mu },
    pub ghost has_lambda: { IsNumber lambda },
    pub ghost has_h1: { IsNumber h1 },
    pub ghost has_g1: { IsSquareTable n g1 },
    pub ghost has_h2: { IsNumber h2 },
    pub ghost has_g2: { IsSquareTable n g2 },
    pub ghost has_c: { IsVector n c },
    pub ghost has_r: { IsNumber r },
    pub ghost has_z: { IsVector n z },
    pub ghost has_s: { IsVector n s },
    pub ghost has_sigma_r: { IsVector n sigma_r },
    pub ghost has_cc: { IsNumber cc },
    pub ghost has_sigma_c: { IsVector n sigma_c },
    pub ghost has_e: { IsVector n e },
    pub ghost has_start1: { IsVector n start1 },
    pub ghost has_start2: { IsVector n start2 },
    pub ghost has_q: { IsVector n q },
}
