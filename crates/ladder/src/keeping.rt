//! The ladder as a keeper.

ghost use Rattle.std.specs.Prelude.{◌≡◌, ◌^◌, ◌≤◌, is_ok, if◌then◌else◌, true};
ghost use Rattle.keeper.specs.Figures.{most_puts};
ghost use Rattle.keeper.specs.Rules.{Counted, Listed, Put};
ghost use Rattle.ladder.specs.Cases.{CountCases, ListCases};
ghost use Rattle.ladder.specs.Exact.{CountsExactly, ListsExactly};
ghost use Rattle.ladder.specs.Ladders.{bracket, listing, need_of, shape_at, stored};
ghost use Rattle.ladder.specs.Tables.{tables, TakesSteps};
ghost use Rattle.ladder.specs.Truth.{HoldsWindow};

use crate::figures::Ladder;
use keeper::{Entry, Keeper, Lengths, Record, Refusal};
use layout::Layout;
use likeness::Likeness;
use settings::Setting;
use tally::{Head, Row};

impl Record for Ladder {
    ghost figures = { λ s. s };

    ghost need = { need_of };

    fn setting(&self) -> Setting {
        self.setting
    }

    fn puts(&self) -> u32
        ensures value { result ≡ self.now.puts }
        ensures counted { result ≤ most_puts }
    {
        self.puts
    }

    fn size(&self) -> u32
        ensures value { result ≡ self.now.size }
        ensures came { result ≤ self.now.puts }
        ensures stored { result ≤ 2 ^ self.now.span }
    {
        self.size
    }

    fn needs(&self) -> Lengths {
        self.need()
    }
}

impl<K: Likeness> Keeper<K> for Ladder {
    ghost holds = { HoldsWindow K.Likeness.alike };

    ghost bracket = { bracket K.Likeness.alike };

    ghost listing = { listing K.Likeness.alike };

    fn fresh(setting: Setting) -> Ladder {
        Ladder {
            setting,
            layout: Layout::of(setting),
            puts: 0,
            size: 0,
        }
    }

    fn put(&mut self, rows: &mut [Row<K>], heads: &mut [Head], key: K) -> Result<(), Refusal>
        ensures keeper { Put (λ s. s) (HoldsWindow K.Likeness.alike) need_of self.old rows.old heads.old key result self.new rows.new heads.new }
        ensures tables { tables rows.new heads.new ≡ (if is_ok result then stored K.Likeness.alike self.old rows.old heads.old key else tables rows.old heads.old) }
        ensures slots { is_ok result ≡ true → TakesSteps K.Likeness.alike self.old.puts key (shape_at self.old) (tables rows.old heads.old) (tables rows.new heads.new) }
    {
        self.store(rows, heads, key)
    }

    fn drop_oldest(&mut self) -> Result<(), Refusal> {
        self.forget()
    }

    fn count(&self, rows: &[Row<K>], heads: &[Head], key: &K) -> Result<(u32, u32), Refusal>
        ensures keeper { Counted (λ s. s) (HoldsWindow K.Likeness.alike) need_of K.Likeness.alike (bracket K.Likeness.alike) self.now rows.now heads.now key.now result }
        ensures exactly { CountsExactly K.Likeness.alike self.now rows.now heads.now key.now }
        ensures worked { CountCases }
    {
        self.answer_count(rows, heads, key)
    }

    fn list(
        &self,
        rows: &[Row<K>],
        heads: &[Head],
        threshold: u32,
        list: &mut [Entry<K>],
    ) -> Result<usize, Refusal>
        ensures keeper { Listed (λ s. s) (HoldsWindow K.Likeness.alike) need_of K.Likeness.alike (bracket K.Likeness.alike) (listing K.Likeness.alike)
            self.now rows.now heads.now threshold list.old result list.new }
        ensures exactly { ListsExactly K.Likeness.alike self.now rows.now heads.now threshold }
        ensures worked { ListCases }
    {
        self.answer_list(rows, heads, threshold, list)
    }
}
