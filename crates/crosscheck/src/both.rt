//! A ring and a ladder that get the same calls.

use crate::counted::Counted;
use crate::side::Side;
use keeper::Refusal;
use ladder::Ladder;
use likeness::AddressKey;
use ring::Ring;
use settings::Setting;
use std::alloc::{AllocError, Global};

#[derive(Drop)]
pub(crate) struct Both {
    pub(crate) ring: Side<Ring>,
    pub(crate) ladder: Side<Ladder>,
}

impl Both {
    pub(crate) fn fresh(setting: Setting, heap: Global) -> Result<Both, AllocError> {
        Ok(Both {
            ring: Side::fresh(setting, heap)?,
            ladder: Side::fresh(setting, heap)?,
        })
    }

    // How many keys the window holds.
    pub(crate) fn size(&self) -> u32 {
        self.ring.size()
    }

    // A put; whether both answered the same.
    pub(crate) fn put(&mut self, key: AddressKey) -> bool {
        self.ring.put(key) == self.ladder.put(key)
    }

    // A drop; whether both answered the same.
    pub(crate) fn drop_oldest(&mut self) -> bool {
        self.ring.drop_oldest() == self.ladder.drop_oldest()
    }

    // What both count of a key, if neither refuses it.
    pub(crate) fn count(&self, key: &AddressKey) -> Result<Counted, Refusal> {
        Ok(Counted {
            size: self.size(),
            exact: self.ring.count(key)?,
            bracket: self.ladder.count(key)?,
        })
    }
}
