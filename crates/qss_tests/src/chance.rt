//! Pseudorandom numbers from a seed.

/// A linear congruential generator with 64 bits of state. It returns upper bits.
#[derive(Drop)]
pub(crate) struct Chance {
    number: u64,
}

impl Chance {
    pub(crate) fn new(seed: u64) -> Chance {
        Chance { number: seed }
    }

    /// A number below a bound, or 0 if the bound is 0.
    pub(crate) fn below(&mut self, bound: usize) -> usize {
        self.number = self
            .number
            .wrapping_mul(6_364_136_223_846_793_005)
            .wrapping_add(1_442_695_040_888_963_407);
        let upper = (self.number >> 33) as usize;
        upper.checked_rem(bound).unwrap_or(0)
    }
}
