//! A tally over a part of a lent row table.

ghost use Rattle.std.specs.Prelude.{◌≡◌, ◌^◌, ◌<◌, length};
ghost use Rattle.tally.specs.Cases.{Runs};
ghost use Rattle.tally.specs.Laws.{StillTells, Tells};
ghost use Rattle.tally.specs.Steps.{run};
ghost use Rattle.tally.specs.Slots.{held, stepped, head_of, over, room};

use crate::rows::{EMPTY, Head, Row};
use crate::slot::Slot;
use crate::steps::step;
use likeness::Likeness;

/// The tally in one slot: the slot's rows, lent by whoever owns the row table, and its head.
#[derive(Drop)]
pub struct Tally<'a, K> {
    pub rows: &'a mut [Row<K>],
    pub head: Head,
}

impl<'a, K: Likeness> Tally<'a, K> {
    /// The tally of a slot. Rows and head may hold anything.
    pub fn new(rows: &'a mut [Row<K>], head: Head) -> Tally<'a, K>
        ensures rows { result.rows.now ≡ rows.old }
        ensures named { result.rows.ghost_name ≡ rows.entry.ghost_name }
        ensures head { result.head ≡ head }
    {
        Tally { rows, head }
    }

    /// The slot's head as it stands.
    pub fn head(&self) -> Head
        ensures { result ≡ self.now.head }
    {
        self.head
    }

    /// The slot as it stands, to be asked.
    pub fn slot(&self) -> Slot<'_, K>
        ensures rows { result.rows.now ≡ self.now.rows.now }
        ensures head { result.head ≡ self.now.head }
    {
        Slot {
            rows: self.rows,
            head: self.head,
        }
    }

    /// One key comes.
    pub fn step(&mut self, key: K)
        ensures named { self.new.rows.ghost_name ≡ self.old.rows.ghost_name }
        ensures head { self.new.head ≡ head_of (stepped K.alike self.old.rows.now self.old.head key) }
        ensures rows { self.new.rows.now ≡ over (stepped K.alike self.old.rows.now self.old.head key).rows self.old.rows.now }
        ensures tells { StillTells K.alike key self.old.rows.now self.old.head self.new.rows.now self.new.head }
        ensures long { length self.new.rows.now ≡ length self.old.rows.now }
    {
        self.head = step(self.rows, self.head, key);
    }

    // The keys of a list come to the empty tally, one by one.
    fn fill(&mut self, keys: &[K])
        requires { self.old.head ≡ record { used = 0; lost = 0 } }
        ensures named { self.new.rows.ghost_name ≡ self.old.rows.ghost_name }
        ensures head { self.new.head ≡ head_of (run K.alike (room self.old.rows.now) keys.now) }
        ensures held { held self.new.rows.now self.new.head ≡ run K.alike (room self.old.rows.now) keys.now }
    {
        for key in keys {
            self.step(*key);
        }
    }
}

/// The tally of a list of keys, oldest first, made in a slot whatever it held before. Answers the slot's head.
///
/// Up to 4,294,967,295 keys, its counts bracket how often each key came.
pub fn tally_of<K: Likeness>(rows: &mut [Row<K>], keys: &[K]) -> Head
    ensures head { result ≡ head_of (run K.alike (room rows.old) keys.now) }
    ensures held { held rows.new result ≡ run K.alike (room rows.old) keys.now }
    ensures tells { length keys.now < 2 ^ 32 → Tells K.alike (room rows.old) keys.now (held rows.new result) }
    ensures worked { Runs }
{
    let mut tally = Tally::new(rows, EMPTY);
    tally.fill(keys);
    tally.head()
}
