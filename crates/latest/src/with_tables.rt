//! A window of the latest keys with tables of its own.

ghost use Rattle.std.specs.Prelude.{◌≡◌, ◌≤◌, IfOk, length};
ghost use Rattle.keeper.specs.Rules.{Listed};
ghost use Rattle.keeper.specs.Tables.{lengths, needed};
ghost use Rattle.verdicts.specs.Rules.{Judged, said};
ghost use Rattle.latest.specs.WithTables.{list_answer_in, TakenIn, verdict_answer_in};

use crate::latest::Latest;
use keeper::{Entry, Keeper, Lengths, Record, Refusal};
use likeness::{Likeness, SoundingKey};
use std::alloc::{AllocError, Global};
use std::marker::Model;
use std::mem;
use tally::{EMPTY, Head, Row};
use verdicts::{Judgement, VerdictRefusal};

/// A window of the latest keys and the tables that its keeper works on, which are long enough. So no call is refused for its tables.
#[derive(Drop)]
pub struct WithTables<K, P: Record> {
    window: Latest<P>,
    rows: Vec<Row<K>>,
    heads: Vec<Head>,
}

impl<K, P: Record> Model for WithTables<K, P> {
    ghost use Rattle.latest.specs.WithTables.{InTables, IsLongEnough};

    ghost Value = { InTables K P };

    ghost view = { λ w. record { window = w.window; rows = w.rows.items; heads = w.heads.items } };

    ghost invariant = { λ w. IsLongEnough P.Record.figures P.Record.need (record { window = w.window; rows = w.rows.items; heads = w.heads.items }) };
}

impl<K: Likeness, P: Keeper<K> + Drop> WithTables<K, P> {
    /// Gives a window its tables. They are full of a key that no answer depends on.
    pub fn new(window: Latest<P>, blank: K, heap: Global) -> Result<WithTables<K, P>, AllocError>
        ensures { IfOk result (λ made. (made.window ≡ window) × (lengths made.rows made.heads ≡ needed P.Record.figures P.Record.need window.keeper)) }
    {
        let row = Row {
            key: blank,
            count: 0,
        };
        let Lengths { rows, heads } = window.needs();
        Ok(WithTables {
            window,
            rows: vec![in heap; row; rows]?,
            heads: vec![in heap; EMPTY; heads]?,
        })
    }

    /// How many keys the window holds.
    pub fn size(&self) -> u32
        ensures value { result ≡ (P.Record.figures self.now.window.keeper).size }
        ensures within { result ≤ self.now.window.goal }
    {
        self.window.size()
    }

    // An empty window like this one.
    fn emptied(&self) -> Latest<P> {
        let keeper = <P as Keeper<K>>::fresh(self.window.setting());
        Latest::new(keeper, self.window.goal()).unwrap()
    }

    /// One key more: once the window has its size, the oldest goes for it. Refused where 2^30 keys were taken, and then nothing
    /// changes.
    pub fn take(&mut self, key: K) -> Result<(), Refusal>
        ensures { TakenIn P.Record.figures P.Keeper.holds self.old key result self.new }
    {
        // A window is moved to take a key. Meanwhile an empty one stands in its place.
        let empty = self.emptied();
        let window = mem::replace(&mut self.window, empty);
        match window.take(&mut self.rows, &mut self.heads, key) {
            Ok(window) => {
                self.window = window;
                Ok(())
            }
            Err(back) => {
                self.window = back.value;
                Err(Refusal::Spent)
            }
        }
    }

    /// The keeper's list at a threshold.
    pub fn list(&self, threshold: u32, list: &mut [Entry<K>]) -> Result<usize, Refusal>
        ensures listed { Listed P.Record.figures P.Keeper.holds P.Record.need K.Likeness.alike P.Keeper.bracket P.Keeper.listing
            self.now.window.keeper self.now.rows self.now.heads threshold list.old result list.new }
        ensures answer { result ≡ list_answer_in (P.Record.figures self.now.window.keeper) threshold (length list.old)
            (length (P.Keeper.listing self.now.window.keeper self.now.rows self.now.heads threshold)) }
    {
        self.window.list(&self.rows, &self.heads, threshold, list)
    }
}

impl<P: Keeper<SoundingKey> + Drop> WithTables<SoundingKey, P> {
    /// Whether a ferry of this class can come in, from the keeper's counts of the sounder's keys.
    pub fn verdict(&self, sounder: [u8; 2], class: u8) -> Result<Judgement, VerdictRefusal>
        ensures judged { Judged P.Record.figures P.Keeper.holds P.Record.need P.Keeper.bracket
            self.now.window.keeper self.now.rows self.now.heads sounder class result }
        ensures answer { result ≡ verdict_answer_in class (said P.Record.figures P.Keeper.holds P.Record.need P.Keeper.bracket
            self.now.window.keeper self.now.rows self.now.heads sounder class) }
    {
        self.window.verdict(&self.rows, &self.heads, sounder, class)
    }
}
