//! What the ladder does at each call. These stand apart from the trait's methods, so that what a keeper owes of its answers
//! is owed at one return.

ghost use Rattle.std.specs.Prelude.{◌≡◌, ◌+◌, ◌^◌, ◌<◌, true, false, length, is_ok, if◌then◌else◌};
ghost use Rattle.keeper.specs.Figures.{grown, shrunk};
ghost use Rattle.keeper.specs.Refusals.{count_answer, drop_answer, list_answer, put_answer};
ghost use Rattle.keeper.specs.Tables.{lengths};
ghost use Rattle.tally.specs.Slots.{over};
ghost use Rattle.ladder.specs.Ladders.{bracket, listing, need_of, shape_at, stored};
ghost use Rattle.layout.specs.Covers.{cover_of, ignored_of};
ghost use Rattle.ladder.specs.Sketches.{pieces_seen};
ghost use Rattle.ladder.specs.Sums.{capped, lost, rows_in};
ghost use Rattle.ladder.specs.Tables.{HasRoom, tables, tally_at};

use crate::counting::bracket_of;
use crate::figures::Ladder;
use crate::putting::visit_all;
use crate::sketch::Sketch;
use keeper::{
    Entry, Lengths, Refusal, Source, admit_drop, admit_list, admit_put, admit_tables, list_from,
};
use likeness::Likeness;
use tally::{Head, Row};

impl Ladder {
    // How many rows and heads the slots take.
    pub(crate) fn need(&self) -> Lengths
        ensures value { result ≡ need_of self.now.accuracy self.now.span }
        ensures few_rows { result.rows < 2 ^ 21 }
        ensures few_heads { result.heads < 2 ^ 16 }
    {
        Lengths {
            rows: self.layout.rows(),
            heads: self.layout.heads(),
        }
    }

    // The window, in tables that are long enough.
    fn sketch<'a, K: Likeness>(&self, rows: &'a [Row<K>], heads: &[Head]) -> Sketch<'a, K>
        requires { HasRoom (shape_at self.now) rows.now heads.now }
        ensures pieces { pieces_seen result ≡ rows_in (tally_at (tables rows.now heads.now)) (cover_of (shape_at self.now) self.now.puts self.now.size) }
        ensures uncounted { result.uncounted ≡ capped (ignored_of (shape_at self.now) self.now.puts self.now.size + lost (tally_at (tables rows.now heads.now)) (cover_of (shape_at self.now) self.now.puts self.now.size)) }
    {
        Sketch::of(rows, heads, &self.layout, self.puts, self.size)
    }

    // The bracket of a key, in tables that are long enough.
    fn bracket_in<K: Likeness>(&self, rows: &[Row<K>], heads: &[Head], key: &K) -> (u32, u32)
        requires { HasRoom (shape_at self.now) rows.now heads.now }
        ensures { result ≡ bracket K.alike self.now rows.now heads.now key.now }
    {
        bracket_of(rows, heads, &self.layout, self.puts, self.size, key)
    }

    // A key is counted in each block of its arrival.
    pub(crate) fn store<K: Likeness>(
        &mut self,
        rows: &mut [Row<K>],
        heads: &mut [Head],
        key: K,
    ) -> Result<(), Refusal>
        ensures answer { result ≡ put_answer (need_of self.old.accuracy self.old.span) (lengths rows.old heads.old) self.old }
        ensures tells { self.new ≡ (if is_ok result then grown self.old else self.old) }
        ensures tables { tables rows.new heads.new ≡ (if is_ok result then stored K.alike self.old rows.old heads.old key else tables rows.old heads.old) }
    {
        admit_put(self, Lengths::of(rows, heads))?;
        visit_all(rows, heads, &self.layout, self.puts, key);
        self.puts += 1;
        self.size += 1;
        Ok(())
    }

    // The oldest key is no longer the window's. No tally changes.
    pub(crate) fn forget(&mut self) -> Result<(), Refusal>
        ensures answer { result ≡ drop_answer self.old }
        ensures tells { self.new ≡ (if is_ok result then shrunk self.old else self.old) }
    {
        admit_drop(self)?;
        self.size -= 1;
        Ok(())
    }

    // The answer of a count.
    pub(crate) fn answer_count<K: Likeness>(
        &self,
        rows: &[Row<K>],
        heads: &[Head],
        key: &K,
    ) -> Result<(u32, u32), Refusal>
        ensures { result ≡ count_answer (need_of self.now.accuracy self.now.span) (lengths rows.now heads.now)
            (bracket K.alike self.now rows.now heads.now key.now) }
    {
        admit_tables(self, Lengths::of(rows, heads))?;
        Ok(self.bracket_in(rows, heads, key))
    }

    // The answer of a list, and its entries.
    pub(crate) fn answer_list<K: Likeness>(
        &self,
        rows: &[Row<K>],
        heads: &[Head],
        threshold: u32,
        list: &mut [Entry<K>],
    ) -> Result<usize, Refusal>
        ensures answer { result ≡ list_answer (need_of self.now.accuracy self.now.span) (lengths rows.now heads.now) self.now threshold
            (length list.old) (length (listing K.alike self.now rows.now heads.now threshold)) }
        ensures written { is_ok result ≡ true → list.new ≡ over (listing K.alike self.now rows.now heads.now threshold) list.old }
        ensures kept { is_ok result ≡ false → list.new ≡ list.old }
    {
        admit_list(self, Lengths::of(rows, heads), threshold)?;
        list_from(&self.sketch(rows, heads), threshold, list)
    }
}
