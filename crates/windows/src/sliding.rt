//! A window that keeps its size.

ghost use Rattle.std.specs.Prelude.{◌≡◌, ◌≤◌, ◌^◌, ◌<◌};
ghost use Rattle.keeper.specs.Rules.{Counted, Listed};
ghost use Rattle.verdicts.specs.Rules.{Judged};
ghost use Rattle.windows.specs.Windows.{Slid};

use crate::fixed::Sliding;
use keeper::{Entry, Keeper, Lengths, Record, Refusal};
use likeness::{Likeness, SoundingKey};
use settings::Setting;
use tally::{Head, Row};
use verdicts::{Judgement, VerdictRefusal, verdict};

/// It tells what its keeper tells. How many keys the window holds is always the size that it was to have.
impl<P: Record> Record for Sliding<P> {
    ghost figures = { λ w. P.Record.figures w.keeper };

    ghost need = { P.Record.need };

    fn setting(&self) -> Setting {
        self.keeper.setting()
    }

    fn puts(&self) -> u32 {
        self.keeper.puts()
    }

    fn size(&self) -> u32
        ensures value { result ≡ (P.Record.figures self.now.keeper).size }
        ensures goal { result ≡ self.now.goal }
        ensures some { 1 ≤ result }
        ensures fits { result < 2 ^ (P.Record.figures self.now.keeper).span }
    {
        self.goal
    }

    fn needs(&self) -> Lengths {
        self.keeper.needs()
    }
}

impl<P: Record> Sliding<P> {
    /// A key comes at the window's end, and its oldest goes. Refused where a table is too short or 2^30 puts were accepted.
    pub fn slide<K: Likeness>(
        &mut self,
        rows: &mut [Row<K>],
        heads: &mut [Head],
        key: K,
    ) -> Result<(), Refusal>
    where
        P: Keeper<K>,
        ensures { Slid P.Record.figures P.Keeper.holds P.Record.need self.old rows.old heads.old key result self.new rows.new heads.new }
    {
        self.keeper.put(rows, heads, key)?;
        self.keeper.drop_oldest()
    }

    /// The keeper's count of a key.
    pub fn count<K: Likeness>(
        &self,
        rows: &[Row<K>],
        heads: &[Head],
        key: &K,
    ) -> Result<(u32, u32), Refusal>
    where
        P: Keeper<K>,
        ensures { Counted P.Record.figures P.Keeper.holds P.Record.need K.Likeness.alike P.Keeper.bracket
            self.now.keeper rows.now heads.now key.now result }
    {
        self.keeper.count(rows, heads, key)
    }

    /// The keeper's list at a threshold.
    pub fn list<K: Likeness>(
        &self,
        rows: &[Row<K>],
        heads: &[Head],
        threshold: u32,
        list: &mut [Entry<K>],
    ) -> Result<usize, Refusal>
    where
        P: Keeper<K>,
        ensures { Listed P.Record.figures P.Keeper.holds P.Record.need K.Likeness.alike P.Keeper.bracket P.Keeper.listing
            self.now.keeper rows.now heads.now threshold list.old result list.new }
    {
        self.keeper.list(rows, heads, threshold, list)
    }

    /// Whether a ferry of this class can come in, from the keeper's counts of the sounder's keys.
    pub fn verdict(
        &self,
        rows: &[Row<SoundingKey>],
        heads: &[Head],
        sounder: [u8; 2],
        class: u8,
    ) -> Result<Judgement, VerdictRefusal>
    where
        P: Keeper<SoundingKey>,
        ensures { Judged P.Record.figures P.Keeper.holds P.Record.need P.Keeper.bracket
            self.now.keeper rows.now heads.now sounder class result }
    {
        verdict(&self.keeper, rows, heads, sounder, class)
    }
}
