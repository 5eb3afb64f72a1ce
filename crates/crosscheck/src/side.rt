//! A keeper with tables of its own.

use keeper::{Entry, Keeper, Lengths, Refusal};
use likeness::AddressKey;
use settings::Setting;
use std::alloc::{AllocError, Global};
use tally::{Head, Row};

// What the tables hold before anything came: high counts of a key that comes, and heads that never were.
const ODD_ROW: Row<AddressKey> = Row {
    key: AddressKey { bytes: *b"SDAAA" },
    count: u32::MAX,
};

const ODD_HEAD: Head = Head {
    used: u32::MAX,
    lost: u32::MAX - 1,
};

#[derive(Drop)]
pub(crate) struct Side<P> {
    keeper: P,
    rows: Vec<Row<AddressKey>>,
    heads: Vec<Head>,
}

impl<P: Keeper<AddressKey> + Drop> Side<P> {
    pub(crate) fn fresh(setting: Setting, heap: Global) -> Result<Side<P>, AllocError> {
        let keeper = P::fresh(setting);
        let Lengths { rows, heads } = keeper.needs();
        Ok(Side {
            keeper,
            rows: vec![in heap; ODD_ROW; rows]?,
            heads: vec![in heap; ODD_HEAD; heads]?,
        })
    }

    pub(crate) fn size(&self) -> u32 {
        self.keeper.size()
    }

    pub(crate) fn put(&mut self, key: AddressKey) -> Result<(), Refusal> {
        self.keeper.put(&mut self.rows, &mut self.heads, key)
    }

    pub(crate) fn drop_oldest(&mut self) -> Result<(), Refusal> {
        self.keeper.drop_oldest()
    }

    pub(crate) fn count(&self, key: &AddressKey) -> Result<(u32, u32), Refusal> {
        self.keeper.count(&self.rows, &self.heads, key)
    }

    // The entries of a list, at the front of the room that is given for them.
    pub(crate) fn list<'a>(
        &self,
        threshold: u32,
        room: &'a mut [Entry<AddressKey>],
    ) -> Result<&'a [Entry<AddressKey>], Refusal> {
        let named = self.keeper.list(&self.rows, &self.heads, threshold, room)?;
        Ok(&room[..named])
    }
}
