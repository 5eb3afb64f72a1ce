//! What the ring does at each call. These stand apart from the trait's methods, so that what a keeper owes of its answers
//! is owed at one return.

ghost use Rattle.std.specs.Prelude.{◌≡◌, ◌%◌, ◌^◌, ◌<◌, ◌≤◌, true, false, length, map, is_ok, if◌then◌else◌};
ghost use Rattle.keeper.specs.Figures.{grown, shrunk};
ghost use Rattle.keeper.specs.Listing.{all_keys};
ghost use Rattle.keeper.specs.Refusals.{count_answer, drop_answer, list_answer, put_answer};
ghost use Rattle.keeper.specs.Tables.{lengths};
ghost use Rattle.tally.specs.Slots.{over};
ghost use Rattle.ring.specs.Rings.{exactly, listing_of, need_of, stored, window_of};

use crate::figures::Ring;
use crate::window::Window;
use keeper::{
    Entry, Lengths, Refusal, Source, admit_drop, admit_list, admit_put, admit_tables, list_from,
};
use likeness::Likeness;
use tally::{Head, Row};

impl Ring {
    // How many rows it uses, in turn: as many as its window can hold keys.
    pub(crate) fn capacity(&self) -> u32
        ensures value { result ≡ 2 ^ self.now.span }
        ensures some { 1 ≤ result }
    {
        1 << self.setting.span()
    }

    // The row of the next put.
    fn next_row(&self) -> usize
        ensures value { result ≡ self.now.puts % 2 ^ self.now.span }
        ensures within { result < 2 ^ self.now.span }
    {
        (self.puts % self.capacity()) as usize
    }

    // The window, in a table that is long enough.
    fn window<'a, K: Likeness>(&self, rows: &'a [Row<K>]) -> Window<'a, K>
        requires { 2 ^ self.now.span ≤ length rows.now }
        ensures { all_keys (map (λ rows. rows.now) result.pieces) ≡ window_of self.now rows.now }
    {
        let end = self.next_row();
        let size = self.size as usize;
        if size <= end {
            return Window {
                pieces: [&rows[end - size..end], &[]],
            };
        }
        let capacity = self.capacity() as usize;
        Window {
            pieces: [&rows[capacity - (size - end)..capacity], &rows[..end]],
        }
    }

    // A key takes the row of its put.
    pub(crate) fn store<K: Likeness>(
        &mut self,
        rows: &mut [Row<K>],
        heads: &[Head],
        key: K,
    ) -> Result<(), Refusal>
        ensures answer { result ≡ put_answer (need_of self.old.accuracy self.old.span) (lengths rows.old heads.now) self.old }
        ensures tells { self.new ≡ (if is_ok result then grown self.old else self.old) }
        ensures rows { rows.new ≡ (if is_ok result then stored self.old rows.old key else rows.old) }
    {
        admit_put(self, Lengths::of(rows, heads))?;
        rows[self.next_row()] = Row { key, count: 1 };
        self.puts += 1;
        self.size += 1;
        Ok(())
    }

    // The oldest key is no longer the window's. Its row stays as it is.
    pub(crate) fn forget(&mut self) -> Result<(), Refusal>
        ensures answer { result ≡ drop_answer self.old }
        ensures tells { self.new ≡ (if is_ok result then shrunk self.old else self.old) }
    {
        admit_drop(self)?;
        self.size -= 1;
        Ok(())
    }

    // The answer of a count.
    pub(crate) fn answer_count<K: Likeness>(
        &self,
        rows: &[Row<K>],
        heads: &[Head],
        key: &K,
    ) -> Result<(u32, u32), Refusal>
        ensures { result ≡ count_answer (need_of self.now.accuracy self.now.span) (lengths rows.now heads.now)
            (exactly K.alike (window_of self.now rows.now) key.now) }
    {
        admit_tables(self, Lengths::of(rows, heads))?;
        Ok(self.window(rows).bracket_of(key))
    }

    // The answer of a list, and its entries.
    pub(crate) fn answer_list<K: Likeness>(
        &self,
        rows: &[Row<K>],
        heads: &[Head],
        threshold: u32,
        list: &mut [Entry<K>],
    ) -> Result<usize, Refusal>
        ensures answer { result ≡ list_answer (need_of self.now.accuracy self.now.span) (lengths rows.now heads.now) self.now threshold
            (length list.old) (length (listing_of K.alike (window_of self.now rows.now) threshold)) }
        ensures written { is_ok result ≡ true → list.new ≡ over (listing_of K.alike (window_of self.now rows.now) threshold) list.old }
        ensures kept { is_ok result ≡ false → list.new ≡ list.old }
    {
        admit_list(self, Lengths::of(rows, heads), threshold)?;
        list_from(&self.window(rows), threshold, list)
    }
}
