//! A slot, to be read: how much of it is read, and looking for a key there.

ghost use Rattle.std.specs.Prelude.{◌≡◌, ◌<◌, length, IfSome};
ghost use Rattle.tally.specs.Laws.{FirstAlike};
ghost use Rattle.tally.specs.Slots.{held, in_use, room};
ghost use Rattle.tally.specs.Steps.{place, count_in};

use crate::rows::{Head, Row};
use likeness::Likeness;

/// What rows in use count of the key: the count of the first that is alike, or 0.
// The key is copied, since the search is faster with a key that nobody else can reach. A loop, since `find` with `map_or` takes
// half as long again, or more, where few rows are looked at.
pub fn count_among<K: Likeness>(rows: &[Row<K>], key: &K) -> u32
    ensures { result ≡ count_in K.alike rows.now key.now }
{
    let key = *key;
    for row in rows {
        if row.key.is_alike(&key) {
            return row.count;
        }
    }
    0
}

/// A slot as it lies in a table, with its head. Rows and head may hold anything.
#[derive(Clone, Copy, Debug)]
pub struct Slot<'a, K> {
    pub rows: &'a [Row<K>],
    pub head: Head,
}

impl<'a, K: Likeness> Slot<'a, K> {
    /// How many rows can be used: all, but no more than `used` can count.
    pub(crate) fn room(&self) -> usize
        ensures { result ≡ room self.now.rows.now }
    {
        self.rows.len().min(u32::MAX as usize)
    }

    /// How many rows are in use.
    pub(crate) fn in_use(&self) -> usize
        ensures { result ≡ in_use self.now.rows.now self.now.head }
    {
        (self.head.used as usize).min(self.room())
    }

    /// The rows in use, oldest first.
    pub fn live(&self) -> &'a [Row<K>]
        ensures { result.now ≡ (held self.now.rows.now self.now.head).rows }
    {
        &self.rows[..self.in_use()]
    }

    /// The place of the first row in use that is alike to the key.
    pub fn find(&self, key: &K) -> Option<usize>
        ensures value { result ≡ place K.alike (held self.now.rows.now self.now.head).rows key.now }
        ensures first { FirstAlike K.alike (held self.now.rows.now self.now.head).rows key.now result }
        ensures within { IfSome result (λ i. i < length self.now.rows.now) }
    {
        self.live().iter().position(|row| row.key.is_alike(key))
    }

    /// What the slot counts of the key: the count of the first row in use that is alike, or 0.
    pub fn count_of(&self, key: &K) -> u32
        ensures { result ≡ count_in K.alike (held self.now.rows.now self.now.head).rows key.now }
    {
        count_among(self.live(), key)
    }
}
