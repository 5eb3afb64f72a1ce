//! The ring as a keeper.

ghost use Rattle.std.specs.Prelude.{◌≡◌, ◌^◌, ◌≤◌, is_ok, if◌then◌else◌};
ghost use Rattle.keeper.specs.Figures.{most_puts};
ghost use Rattle.keeper.specs.Rules.{Put};
ghost use Rattle.ring.specs.Rings.{exactly, HoldsWindow, listing_of, need_of, stored, window_of};

use crate::figures::Ring;
use keeper::{Entry, Keeper, Lengths, Record, Refusal};
use likeness::Likeness;
use settings::Setting;
use tally::{Head, Row};

impl Record for Ring {
    ghost figures = { λ s. s };

    ghost need = { need_of };

    fn setting(&self) -> Setting {
        self.setting
    }

    fn puts(&self) -> u32
        ensures value { result ≡ self.now.puts }
        ensures counted { result ≤ most_puts }
    {
        self.puts
    }

    fn size(&self) -> u32
        ensures value { result ≡ self.now.size }
        ensures came { result ≤ self.now.puts }
        ensures stored { result ≤ 2 ^ self.now.span }
    {
        self.size
    }

    fn needs(&self) -> Lengths {
        Lengths {
            rows: self.capacity() as usize,
            heads: 0,
        }
    }
}

impl<K: Likeness> Keeper<K> for Ring {
    ghost holds = { HoldsWindow };

    ghost bracket = { λ s rows heads key. exactly K.Likeness.alike (window_of s rows) key };

    ghost listing = { λ s rows heads threshold. listing_of K.Likeness.alike (window_of s rows) threshold };

    fn fresh(setting: Setting) -> Ring {
        Ring {
            setting,
            puts: 0,
            size: 0,
        }
    }

    fn put(&mut self, rows: &mut [Row<K>], heads: &mut [Head], key: K) -> Result<(), Refusal>
        ensures keeper { Put (λ s. s) HoldsWindow need_of self.old rows.old heads.old key result self.new rows.new heads.new }
        ensures rows { rows.new ≡ (if is_ok result then stored self.old rows.old key else rows.old) }
        ensures heads { heads.new ≡ heads.old }
    {
        self.store(rows, heads, key)
    }

    fn drop_oldest(&mut self) -> Result<(), Refusal> {
        self.forget()
    }

    fn count(&self, rows: &[Row<K>], heads: &[Head], key: &K) -> Result<(u32, u32), Refusal> {
        self.answer_count(rows, heads, key)
    }

    fn list(
        &self,
        rows: &[Row<K>],
        heads: &[Head],
        threshold: u32,
        list: &mut [Entry<K>],
    ) -> Result<usize, Refusal> {
        self.answer_list(rows, heads, threshold, list)
    }
}
