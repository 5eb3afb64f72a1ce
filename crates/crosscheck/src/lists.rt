//! What is found of lists.

ghost use Rattle.std.specs.Prelude.{◌≡◌, ◌+◌, ◌-◌, ◌^◌, min, if◌then◌else◌};

use crate::score::Score;
use std::fmt;

// How many, how many keys they name, and how many of these truly count the threshold.
#[derive(Drop)]
pub(crate) struct Lists {
    score: Score,
    named: u64,
    enough: u64,
}

impl Lists {
    pub(crate) fn none() -> Lists {
        Lists {
            score: Score::none(),
            named: 0,
            enough: 0,
        }
    }

    // One more list, of so many keys.
    pub(crate) fn note(&mut self, right: bool, named: usize, enough: usize)
        ensures lists { self.new.score.answers ≡ min (self.old.score.answers + 1) (2 ^ 64 - 1) }
        ensures wrong { self.new.score.wrong ≡ (if right then self.old.score.wrong else min (self.old.score.wrong + 1) (2 ^ 64 - 1)) }
    {
        self.score.note(right);
        self.named = self.named.saturating_add(named as u64);
        self.enough = self.enough.saturating_add(enough as u64);
    }

    pub(crate) fn add(&mut self, other: &Lists) {
        self.score.add(&other.score);
        self.named = self.named.saturating_add(other.named);
        self.enough = self.enough.saturating_add(other.enough);
    }
}

impl fmt::Display for Lists {
    fn fmt<W: fmt::Write>(&self, f: &mut fmt::Formatter<W>) -> fmt::Result {
        let Lists {
            score,
            named,
            enough,
        } = self;
        write!(
            f,
            "{score}; {named} keys named, of which {enough} truly count the threshold"
        )
    }
}
