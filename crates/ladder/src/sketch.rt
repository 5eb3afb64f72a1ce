//! A window as the tallies of its blocks have it.

ghost use Rattle.std.specs.Prelude.{◌^◌, ◌<◌, ◌≤◌, length, map, take};
ghost use Rattle.keeper.specs.Listing.{all_keys};

use tally::Row;

// How many blocks a cover has at most, at the highest accuracy.
pub(crate) const MOST_BLOCKS: usize = 20;

// What the slots of a window's cover hold, worked out once: the rows in use of each, oldest block first, in the first places of an
// array (no heap); and how many arrivals at most they do not count, since they lost them or the cover ignores them.
#[derive(Drop)]
pub(crate) struct Sketch<'a, K> {
    pub(crate) pieces: [&'a [Row<K>]; MOST_BLOCKS],
    pub(crate) count: usize,
    pub(crate) uncounted: u32,
    ghost within: { count ≤ 20 },
    ghost few: { length (all_keys (map (λ rows. rows.now) (take count pieces))) < 2 ^ 32 },
}
