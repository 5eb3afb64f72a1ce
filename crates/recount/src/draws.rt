//! Numbers drawn at random, the same in each run.

#[derive(Drop)]
pub(crate) struct Draws {
    state: u32,
}

impl Draws {
    pub(crate) fn seeded(state: u32) -> Draws {
        Draws { state }
    }

    // A number below 2 to the power of `bits`, of 31 at most: the high bits of a linear congruential step.
    pub(crate) fn bits(&mut self, bits: u32) -> u32 {
        self.state = self
            .state
            .wrapping_mul(1_664_525)
            .wrapping_add(1_013_904_223);
        self.state
            .checked_shr(32u32.saturating_sub(bits))
            .unwrap_or(0)
    }
}
