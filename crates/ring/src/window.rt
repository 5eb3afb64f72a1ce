//! A window as it lies in the rows.

ghost use Rattle.std.specs.Prelude.{◌≡◌, ◌^◌, ◌<◌, length, map};
ghost use Rattle.keeper.specs.Listing.{all_keys, among, keys_in};
ghost use Rattle.likeness.specs.Counts.{true_count};
ghost use Rattle.ring.specs.Rings.{exactly};

use keeper::{Source, pieces_hold};
use likeness::Likeness;
use tally::Row;

// The window's rows, oldest first, in two pieces. If there are newer ones, they begin at the table's front, and the older ones end at
// the last row that the ring uses.
#[derive(Drop)]
pub(crate) struct Window<'a, K> {
    pub(crate) pieces: [&'a [Row<K>]; 2],
    ghost short: { length (all_keys (map (λ rows. rows.now) pieces)) < 2 ^ 32 },
}

// Whether a row's key is alike to this one. It looks back from the end, since the last alike key is the nearest: over a whole list that
// takes no more than one pass for each of the keys that differ.
fn holds<K: Likeness>(rows: &[Row<K>], key: &K) -> bool
    ensures { result ≡ among K.alike (keys_in rows.now) key.now }
{
    let key = *key;
    rows.iter().rev().any(|row| row.key.is_alike(&key))
}

// How many rows have a key that is alike to this one. Each row adds 0 or 1, without a branch, so that several can be taken at once.
fn count_alike<K: Likeness>(rows: &[Row<K>], key: &K) -> usize
    ensures { result ≡ true_count K.alike (keys_in rows.now) key.now }
{
    let key = *key;
    let mut count = 0;
    for row in rows {
        count += row.key.is_alike(&key) as usize;
    }
    count
}

impl<'a, K: Likeness> Window<'a, K> {
    // How often the window has a key that is alike to this one, as floor and as ceiling.
    pub(crate) fn bracket_of(&self, key: &K) -> (u32, u32)
        ensures { result ≡ exactly K.alike (all_keys (map (λ rows. rows.now) self.now.pieces)) key.now }
    {
        let pieces = &self.pieces[..];
        self.bracket_from(0, pieces[0], key)
    }
}

impl<'a, K: Likeness> Source<K> for Window<'a, K> {
    ghost pieces = { λ w. map (λ rows. rows.now) w.pieces };

    ghost bracket = { λ w. exactly K.Likeness.alike (all_keys (map (λ rows. rows.now) w.pieces)) };

    fn pieces(&self) -> &[&[Row<K>]] {
        &self.pieces
    }

    fn is_known_before(&self, number: usize, before: &[Row<K>], key: &K) -> bool {
        holds(before, key) || pieces_hold(&self.pieces, number, key)
    }

    fn bracket_from(&self, number: usize, rows: &[Row<K>], key: &K) -> (u32, u32) {
        let pieces = &self.pieces[..];
        let mut count = count_alike(rows, key);
        if number == 0 {
            count = count.saturating_add(count_alike(pieces[1], key));
        }
        let count = count.min(u32::MAX as usize) as u32;
        (count, count)
    }
}
