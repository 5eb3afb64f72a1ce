//! How many answers were compared, and how many of them are wrong.

ghost use Rattle.std.specs.Prelude.{◌≡◌, ◌+◌, ◌-◌, ◌^◌, ◌++◌, min, if◌then◌else◌, Some, codes, decimal};

use std::fmt;

#[derive(Drop)]
pub(crate) struct Score {
    answers: u64,
    wrong: u64,
}

impl Score {
    pub(crate) fn none() -> Score
        ensures { result ≡ record { answers = 0; wrong = 0 } }
    {
        Score {
            answers: 0,
            wrong: 0,
        }
    }

    // One more answer.
    pub(crate) fn note(&mut self, right: bool)
        ensures answers { self.new.answers ≡ min (self.old.answers + 1) (2 ^ 64 - 1) }
        ensures wrong { self.new.wrong ≡ (if right then self.old.wrong else min (self.old.wrong + 1) (2 ^ 64 - 1)) }
    {
        self.answers = self.answers.saturating_add(1);
        if !right {
            self.wrong = self.wrong.saturating_add(1);
        }
    }

    // All answers of another score besides.
    pub(crate) fn add(&mut self, other: &Score)
        ensures answers { self.new.answers ≡ min (self.old.answers + other.now.answers) (2 ^ 64 - 1) }
        ensures wrong { self.new.wrong ≡ min (self.old.wrong + other.now.wrong) (2 ^ 64 - 1) }
    {
        self.answers = self.answers.saturating_add(other.answers);
        self.wrong = self.wrong.saturating_add(other.wrong);
    }
}

impl fmt::Display for Score {
    ghost output = { λ s. Some (decimal s.answers ++ (codes " compared, " ++ (decimal s.wrong ++ codes " wrong"))) };

    fn fmt<W: fmt::Write>(&self, f: &mut fmt::Formatter<W>) -> fmt::Result {
        let Score { answers, wrong } = self;
        write!(f, "{answers} compared, {wrong} wrong")
    }
}
