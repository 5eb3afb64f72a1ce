//! What makes a type a keeper.

ghost use Rattle.std.specs.Prelude.{◌≡◌, ℕ, ◌^◌, ◌≤◌, List};
ghost use Rattle.tally.specs.declared.rows.Head.{Head};
ghost use Rattle.tally.specs.declared.rows.Row.{Row};
ghost use Rattle.keeper.specs.declared.entry.Entry.{Entry};
ghost use Rattle.keeper.specs.declared.lengths.Lengths.{Lengths};
ghost use Rattle.keeper.specs.Figures.{Figures};
ghost use Rattle.keeper.specs.Tables.{needed};
ghost use Rattle.keeper.specs.Rules.{Counted, Dropped, Fresh, Listed, Put};

use crate::entry::Entry;
use crate::lengths::Lengths;
use crate::refusal::Refusal;
use likeness::Likeness;
use settings::Setting;
use tally::{Head, Row};

/// A keeper's own numbers, whatever its keys are.
pub trait Record: Sized {
    // Accuracy, span, puts and size.
    ghost figures: { Self → Figures };

    // What the tables need: it follows from accuracy and span alone.
    ghost need: { ℕ → ℕ → Lengths };

    /// The setting that it was made from.
    fn setting(&self) -> Setting
        ensures { (result.accuracy ≡ (figures self.now).accuracy) × (result.span ≡ (figures self.now).span) };

    /// How many puts have been accepted.
    fn puts(&self) -> u32
        ensures { result ≡ (figures self.now).puts };

    /// How many keys the window holds.
    fn size(&self) -> u32
        ensures { result ≡ (figures self.now).size };

    /// How long the tables have to be that are lent to it. At most 2^32 of each, since a need beyond all memory would refuse
    /// every call.
    fn needs(&self) -> Lengths
        ensures value { result ≡ needed figures need self.now }
        ensures within { (result.rows ≤ 2 ^ 32) × (result.heads ≤ 2 ^ 32) };
}

// The two tables go side by side, since the caller owns them and lends them to each call: as a struct they would be two types,
// of shared and of `&mut` loans, each made anew for a call, and the clauses of the second would speak of loans.
/// A window counter. Its record holds numbers only; the tables are the caller's, who lends the same ones to each call
/// and writes nothing to them in between. No keeper is to be copied: of two that go on over the same tables, each spoils the
/// other's.
pub trait Keeper<K: Likeness>: Record {
    // When record and tables are true to a window, after the keys of a past were let go; both oldest first.
    ghost holds: { Self → List (Row K) → List Head → List K → List K → Type 0 };

    // What a count of a key answers.
    ghost bracket: { Self → List (Row K) → List Head → K → ℕ × ℕ };

    // What a list at a threshold has.
    ghost listing: { Self → List (Row K) → List Head → ℕ → List (Entry K) };

    /// A keeper of the empty window. It needs nothing of the tables yet: they may hold anything.
    fn fresh(setting: Setting) -> Self
        ensures { Fresh Self.Record.figures holds setting.accuracy setting.span result };

    /// One key more at the window's end. Refused where a table is too short, 2^30 puts were accepted or the window is full.
    fn put(&mut self, rows: &mut [Row<K>], heads: &mut [Head], key: K) -> Result<(), Refusal>
        ensures { Put Self.Record.figures holds Self.Record.need self.old rows.old heads.old key result self.new rows.new heads.new };

    /// The window's oldest key is let go. Refused where there is none.
    fn drop_oldest(&mut self) -> Result<(), Refusal>
        ensures { Dropped Self.Record.figures holds self.old result self.new };

    /// Floor and ceiling: how often the window holds a key alike to this one, at least and at most. Refused where a table is
    /// too short.
    fn count(&self, rows: &[Row<K>], heads: &[Head], key: &K) -> Result<(u32, u32), Refusal>
        ensures { Counted Self.Record.figures holds Self.Record.need K.Likeness.alike bracket self.now rows.now heads.now key.now result };

    /// Writes an entry for each key that may stand `threshold` times or more in the window, and answers how many. Refused where
    /// a table is too short, the threshold too low for a window of this size, or the list too short for the entries.
    fn list(
        &self,
        rows: &[Row<K>],
        heads: &[Head],
        threshold: u32,
        list: &mut [Entry<K>],
    ) -> Result<usize, Refusal>
        ensures { Listed Self.Record.figures holds Self.Record.need K.Likeness.alike bracket listing
            self.now rows.now heads.now threshold list.old result list.new };
}
