//! A window of the latest keys, which fills and then slides by itself.

ghost use Rattle.std.specs.Prelude.{◌≡◌, ◌^◌, ◌<◌, ◌≤◌};
ghost use Rattle.keeper.specs.Rules.{Listed};
ghost use Rattle.verdicts.specs.Rules.{Judged};
ghost use Rattle.windows.specs.Windows.{Made};
ghost use Rattle.latest.specs.Latest.{Taken};

use keeper::{Entry, Keeper, Lengths, Record, Refusal};
use likeness::{Likeness, SoundingKey};
use settings::Setting;
use std::marker::Model;
use tally::{Head, Row};
use verdicts::{Judgement, VerdictRefusal};
use windows::{Filling, Returned, Sliding, WindowRefusal};

/// A fixed window that turns as soon as it has its size: it holds the latest keys of all that came.
// By value, since a window that turns is another one from then on.
#[derive(Drop)]
pub struct Latest<P: Record> {
    state: State<P>,
}

#[derive(Drop)]
enum State<P: Record> {
    Filling(Filling<P>),
    Sliding(Sliding<P>),
}

impl<P: Record> Model for Latest<P> {
    ghost use Rattle.windows.specs.Fixed.{Fixed};

    ghost Value = { Fixed P };

    ghost use Rattle.latest.specs.States.{fixed_of, IsSettled};

    ghost view = { λ w. fixed_of w.state };

    ghost invariant = { λ w. IsSettled P.Record.figures w.state };
}

impl<P: Record> State<P> {
    ghost use Rattle.std.specs.Prelude.{◌≤◌, true, false};
    ghost use Rattle.latest.specs.States.{fixed_of, IsSettled, Moved, slides};

    // It slides from now on, if it has its size.
    fn turned(self) -> State<P>
        requires some { 1 ≤ (fixed_of self).goal }
        requires filling { slides self ≡ false → (P.Record.figures (fixed_of self).keeper).size ≤ (fixed_of self).goal }
        requires sliding { slides self ≡ true → (P.Record.figures (fixed_of self).keeper).size ≡ (fixed_of self).goal }
        ensures same { fixed_of result ≡ fixed_of self }
        ensures settled { IsSettled P.Record.figures result }
    {
        match self {
            State::Filling(window) => match window.turn() {
                Ok(window) => State::Sliding(window),
                Err(back) => State::Filling(back.value),
            },
            State::Sliding(window) => State::Sliding(window),
        }
    }

    // A put while it fills, and then a slide.
    fn put<K: Likeness>(
        &mut self,
        rows: &mut [Row<K>],
        heads: &mut [Head],
        key: K,
    ) -> Result<(), Refusal>
    where
        P: Keeper<K>,
        ensures { Moved P.Record.figures P.Keeper.holds P.Record.need self.old rows.old heads.old key result self.new rows.new heads.new }
    {
        match self {
            State::Filling(window) => window.put(rows, heads, key),
            State::Sliding(window) => window.slide(rows, heads, key),
        }
    }
}

/// It tells what its keeper tells.
impl<P: Record> Record for Latest<P> {
    ghost figures = { λ w. P.Record.figures w.keeper };

    ghost need = { P.Record.need };

    fn setting(&self) -> Setting {
        match &self.state {
            State::Filling(window) => window.setting(),
            State::Sliding(window) => window.setting(),
        }
    }

    fn puts(&self) -> u32 {
        match &self.state {
            State::Filling(window) => window.puts(),
            State::Sliding(window) => window.puts(),
        }
    }

    fn size(&self) -> u32
        ensures value { result ≡ (P.Record.figures self.now.keeper).size }
        ensures within { result ≤ self.now.goal }
    {
        match &self.state {
            State::Filling(window) => window.size(),
            State::Sliding(window) => window.size(),
        }
    }

    fn needs(&self) -> Lengths {
        match &self.state {
            State::Filling(window) => window.needs(),
            State::Sliding(window) => window.needs(),
        }
    }
}

impl<P: Record> Latest<P> {
    /// An empty window on a keeper, which is to hold the latest `goal` keys. As for `Filling`, the size is from 1 to 2^span − 1,
    /// and the keeper's window is empty. Otherwise the keeper is handed back.
    pub fn new(keeper: P, goal: u32) -> Result<Latest<P>, Returned<P>>
        ensures { Made P.Record.figures keeper goal result }
    {
        let window = Filling::new(keeper, goal)?;
        Ok(Latest {
            state: State::Filling(window),
        })
    }

    /// How many keys the window is to hold.
    pub fn goal(&self) -> u32
        ensures value { result ≡ self.now.goal }
        ensures some { 1 ≤ result }
        ensures fits { result < 2 ^ (P.Record.figures self.now.keeper).span }
    {
        match &self.state {
            State::Filling(window) => window.goal(),
            State::Sliding(window) => window.size(),
        }
    }

    /// One key more: once the window has its size, the oldest goes for it. Refused where a table is too short or 2^30 puts were
    /// accepted, and then the window is handed back.
    pub fn take<K: Likeness>(
        self,
        rows: &mut [Row<K>],
        heads: &mut [Head],
        key: K,
    ) -> Result<Latest<P>, Returned<Latest<P>>>
    where
        P: Keeper<K>,
        ensures { Taken P.Record.figures P.Keeper.holds P.Record.need self rows.old heads.old key result rows.new heads.new }
    {
        let Latest { mut state } = self;
        match state.put(rows, heads, key) {
            Ok(()) => Ok(Latest {
                state: state.turned(),
            }),
            Err(refusal) => Err(Returned {
                value: Latest { state },
                refusal: WindowRefusal::Keeper(refusal),
            }),
        }
    }

    /// The keeper's list at a threshold.
    pub fn list<K: Likeness>(
        &self,
        rows: &[Row<K>],
        heads: &[Head],
        threshold: u32,
        list: &mut [Entry<K>],
    ) -> Result<usize, Refusal>
    where
        P: Keeper<K>,
        ensures { Listed P.Record.figures P.Keeper.holds P.Record.need K.Likeness.alike P.Keeper.bracket P.Keeper.listing
            self.now.keeper rows.now heads.now threshold list.old result list.new }
    {
        match &self.state {
            State::Filling(window) => window.list(rows, heads, threshold, list),
            State::Sliding(window) => window.list(rows, heads, threshold, list),
        }
    }

    /// Whether a ferry of this class can come in, from the keeper's counts of the sounder's keys.
    pub fn verdict(
        &self,
        rows: &[Row<SoundingKey>],
        heads: &[Head],
        sounder: [u8; 2],
        class: u8,
    ) -> Result<Judgement, VerdictRefusal>
    where
        P: Keeper<SoundingKey>,
        ensures { Judged P.Record.figures P.Keeper.holds P.Record.need P.Keeper.bracket
            self.now.keeper rows.now heads.now sounder class result }
    {
        match &self.state {
            State::Filling(window) => window.verdict(rows, heads, sounder, class),
            State::Sliding(window) => window.verdict(rows, heads, sounder, class),
        }
    }
}
