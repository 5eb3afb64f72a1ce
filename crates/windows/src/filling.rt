//! A window that is being filled.

ghost use Rattle.std.specs.Prelude.{◌≡◌, ◌≤◌, ◌^◌, ◌<◌};
ghost use Rattle.keeper.specs.Rules.{Counted, Listed};
ghost use Rattle.verdicts.specs.Rules.{Judged};
ghost use Rattle.windows.specs.Windows.{Made, PutWhileFilling, Turned};

use crate::fixed::{Filling, Sliding};
use crate::refusal::{Returned, WindowRefusal};
use keeper::{Entry, Keeper, Lengths, Record, Refusal, admit_put};
use likeness::{Likeness, SoundingKey};
use settings::Setting;
use tally::{Head, Row};
use verdicts::{Judgement, VerdictRefusal, verdict};

/// It tells what its keeper tells: setting, puts, how many keys the window holds, and what the tables need.
impl<P: Record> Record for Filling<P> {
    ghost figures = { λ w. P.Record.figures w.keeper };

    ghost need = { P.Record.need };

    fn setting(&self) -> Setting {
        self.keeper.setting()
    }

    fn puts(&self) -> u32 {
        self.keeper.puts()
    }

    fn size(&self) -> u32
        ensures value { result ≡ (P.Record.figures self.now.keeper).size }
        ensures within { result ≤ self.now.goal }
    {
        self.keeper.size()
    }

    fn needs(&self) -> Lengths {
        self.keeper.needs()
    }
}

impl<P: Record> Filling<P> {
    /// A window on a keeper, which is to be filled to the size `goal`. The size is from 1 to 2^span − 1, since a full window
    /// takes one key more before it lets its oldest go; and the keeper's window is empty. Otherwise the keeper is handed back.
    pub fn new(keeper: P, goal: u32) -> Result<Filling<P>, Returned<P>>
        ensures { Made P.Record.figures keeper goal result }
    {
        if goal < 1 || goal >= 1 << keeper.setting().span() || keeper.size() > 0 {
            return Err(Returned {
                value: keeper,
                refusal: WindowRefusal::Unfit,
            });
        }
        Ok(Filling { keeper, goal })
    }

    /// The size that the window is to have.
    pub fn goal(&self) -> u32
        ensures value { result ≡ self.now.goal }
        ensures some { 1 ≤ result }
        ensures fits { result < 2 ^ (P.Record.figures self.now.keeper).span }
    {
        self.goal
    }

    /// One key more at the window's end. Refused where a table is too short, 2^30 puts were accepted or the window has its size.
    pub fn put<K: Likeness>(
        &mut self,
        rows: &mut [Row<K>],
        heads: &mut [Head],
        key: K,
    ) -> Result<(), Refusal>
    where
        P: Keeper<K>,
        ensures { PutWhileFilling P.Record.figures P.Keeper.holds P.Record.need self.old rows.old heads.old key result self.new rows.new heads.new }
    {
        if self.keeper.size() == self.goal {
            admit_put(&self.keeper, Lengths::of(rows, heads))?;
            return Err(Refusal::Full);
        }
        self.keeper.put(rows, heads, key)
    }

    /// The window slides from now on, once it has its size. Otherwise it is handed back.
    pub fn turn(self) -> Result<Sliding<P>, Returned<Filling<P>>>
        ensures { Turned P.Record.figures self result }
    {
        if self.keeper.size() < self.goal {
            return Err(Returned {
                value: self,
                refusal: WindowRefusal::Unfilled,
            });
        }
        let Filling { keeper, goal } = self;
        Ok(Sliding { keeper, goal })
    }

    /// The keeper's count of a key.
    pub fn count<K: Likeness>(
        &self,
        rows: &[Row<K>],
        heads: &[Head],
        key: &K,
    ) -> Result<(u32, u32), Refusal>
    where
        P: Keeper<K>,
        ensures { Counted P.Record.figures P.Keeper.holds P.Record.need K.Likeness.alike P.Keeper.bracket
            self.now.keeper rows.now heads.now key.now result }
    {
        self.keeper.count(rows, heads, key)
    }

    /// The keeper's list at a threshold.
    pub fn list<K: Likeness>(
        &self,
        rows: &[Row<K>],
        heads: &[Head],
        threshold: u32,
        list: &mut [Entry<K>],
    ) -> Result<usize, Refusal>
    where
        P: Keeper<K>,
        ensures { Listed P.Record.figures P.Keeper.holds P.Record.need K.Likeness.alike P.Keeper.bracket P.Keeper.listing
            self.now.keeper rows.now heads.now threshold list.old result list.new }
    {
        self.keeper.list(rows, heads, threshold, list)
    }

    /// Whether a ferry of this class can come in, from the keeper's counts of the sounder's keys.
    pub fn verdict(
        &self,
        rows: &[Row<SoundingKey>],
        heads: &[Head],
        sounder: [u8; 2],
        class: u8,
    ) -> Result<Judgement, VerdictRefusal>
    where
        P: Keeper<SoundingKey>,
        ensures { Judged P.Record.figures P.Keeper.holds P.Record.need P.Keeper.bracket
            self.now.keeper rows.now heads.now sounder class result }
    {
        verdict(&self.keeper, rows, heads, sounder, class)
    }
}
