//! Keys drawn among the first of all numbers, the same in each run.

use crate::coded::Coded;

const FACTOR: u64 = 6_364_136_223_846_793_005;

const STEP: u64 = 1_442_695_040_888_963_407;

#[derive(Drop)]
pub(crate) struct Draws {
    state: u64,
}

impl Draws {
    pub(crate) fn fresh() -> Draws {
        Draws { state: 0 }
    }

    // A key of a number below `keys`.
    pub(crate) fn key_among<K: Coded>(&mut self, keys: u32) -> K {
        self.state = self.state.wrapping_mul(FACTOR).wrapping_add(STEP);
        let number = (self.state >> 33) % keys.max(1) as u64;
        K::numbered(number as u32)
    }
}
