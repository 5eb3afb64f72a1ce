//! What a window's tallies count of a key.

ghost use Rattle.std.specs.Prelude.{◌≡◌};
ghost use Rattle.layout.specs.Laws.{IsWindow};
ghost use Rattle.ladder.specs.Sums.{bracket_of};
ghost use Rattle.ladder.specs.Tables.{HasRoom, tables, tally_at};

use crate::asking::slot_in;
use layout::Layout;
use likeness::Likeness;
use tally::{Head, Row};

// The bracket of a key in the newest `size` of so many arrivals, in tables with room for all slots. No sketch is made first, since each
// slot is asked but once.
pub(crate) fn bracket_of<K: Likeness>(
    rows: &[Row<K>],
    heads: &[Head],
    layout: &Layout,
    arrivals: u32,
    size: u32,
    key: &K,
) -> (u32, u32)
    requires room { HasRoom layout.now rows.now heads.now }
    requires window { IsWindow layout.now arrivals size }
    ensures { result ≡ bracket_of K.alike (tally_at (tables rows.now heads.now)) layout.now arrivals size key.now }
{
    let cover = layout.cover(arrivals, size);
    let mut floor: u32 = 0;
    let mut uncounted = cover.ignored;
    for block in cover.blocks {
        let slot = slot_in(rows, heads, block.place());
        floor = floor.saturating_add(slot.count_of(key));
        uncounted = uncounted.saturating_add(slot.head.lost);
    }
    (floor, floor.saturating_add(uncounted))
}
