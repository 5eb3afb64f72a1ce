//! What a list is made from: the tallies of a window.

ghost use Rattle.std.specs.Prelude.{◌≡◌, ◌+◌, get_or};
ghost use Rattle.layout.specs.Covers.{cover_of, ignored_of};
ghost use Rattle.layout.specs.Inside.{IsShape};
ghost use Rattle.layout.specs.Laws.{IsWindow};
ghost use Rattle.ladder.specs.Sketches.{bracket_seen, pieces_seen};
ghost use Rattle.ladder.specs.Sums.{capped, lost, rows_in};
ghost use Rattle.ladder.specs.Tables.{empty_head, HasRoom, Lies, part, tables, tally_at};

use crate::sketch::{MOST_BLOCKS, Sketch};
use keeper::{Source, pieces_hold, rows_hold};
use layout::{Layout, Place};
use likeness::Likeness;
use tally::{Head, Row, Slot, count_among};

// The slot at a place of the tables. A function of its own, where what is known of the place is a bound of a parameter.
pub(crate) fn slot_in<'a, K>(rows: &'a [Row<K>], heads: &[Head], place: Place) -> Slot<'a, K>
    requires { Lies place rows.now heads.now }
    ensures rows { result.rows.now ≡ part place rows.now }
    ensures head { result.head ≡ get_or heads.now place.head empty_head }
{
    Slot {
        rows: &rows[place.start..place.start + place.rows],
        head: heads[place.head],
    }
}

impl<'a, K: Likeness> Sketch<'a, K> {
    // The newest `size` of so many arrivals, in tables with room for all slots.
    pub(crate) fn of(
        rows: &'a [Row<K>],
        heads: &[Head],
        layout: &Layout,
        arrivals: u32,
        size: u32,
    ) -> Sketch<'a, K>
        requires room { HasRoom layout.now rows.now heads.now }
        requires levels { IsShape layout.now.top layout.now.scales }
        requires window { IsWindow layout.now arrivals size }
        ensures pieces { pieces_seen result ≡ rows_in (tally_at (tables rows.now heads.now)) (cover_of layout.now arrivals size) }
        ensures uncounted { result.uncounted ≡ capped (ignored_of layout.now arrivals size + lost (tally_at (tables rows.now heads.now)) (cover_of layout.now arrivals size)) }
    {
        let cover = layout.cover(arrivals, size);
        let mut pieces: [&'a [Row<K>]; MOST_BLOCKS] = [&[]; MOST_BLOCKS];
        let mut count = 0;
        let mut uncounted = cover.ignored;
        for block in cover.blocks {
            let slot = slot_in(rows, heads, block.place());
            pieces[count] = slot.live();
            count += 1;
            uncounted = uncounted.saturating_add(slot.head.lost);
        }
        Sketch {
            pieces,
            count,
            uncounted,
        }
    }
}

impl<'a, K: Likeness> Source<K> for Sketch<'a, K> {
    ghost pieces = { pieces_seen };

    ghost bracket = { bracket_seen K.Likeness.alike };

    fn pieces(&self) -> &[&[Row<K>]] {
        &self.pieces[..self.count]
    }

    // Earlier pieces come first, since of the keys in one slot no two are alike, as long as nobody but the ladder writes there.
    fn is_known_before(&self, number: usize, before: &[Row<K>], key: &K) -> bool {
        pieces_hold(self.pieces(), number, key) || rows_hold(before, key)
    }

    // Nothing before these rows counts the key, since none is alike there.
    fn bracket_from(&self, number: usize, rows: &[Row<K>], key: &K) -> (u32, u32) {
        let pieces = self.pieces();
        let next = pieces.len().min(number.saturating_add(1));
        let mut floor = count_among(rows, key);
        for later in &pieces[next..] {
            floor = floor.saturating_add(count_among(later, key));
        }
        (floor, floor.saturating_add(self.uncounted))
    }
}
