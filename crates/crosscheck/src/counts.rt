//! What is found of counts.

ghost use Rattle.std.specs.Prelude.{◌≡◌, ◌+◌, ◌-◌, ◌^◌, min, IsOkAnd, IfOk, IfErr};
ghost use Rattle.crosscheck.specs.Gaps.{gap_of, wider};
ghost use Rattle.crosscheck.specs.Right.{IsRight};

use crate::counted::Counted;
use crate::gap::Gap;
use crate::score::Score;
use keeper::Refusal;
use settings::Setting;
use std::fmt;

// How many, and the bracket that was the widest for its window.
#[derive(Drop)]
pub(crate) struct Counts {
    setting: Setting,
    pub(crate) score: Score,
    widest: Gap,
}

impl Counts {
    pub(crate) fn none(setting: Setting) -> Counts {
        Counts {
            setting,
            score: Score::none(),
            // exact: every other is as wide at least
            widest: Gap { width: 0, size: 1 },
        }
    }

    // One more key, counted by both, or refused, which is wrong.
    pub(crate) fn note(&mut self, counted: Result<Counted, Refusal>)
        ensures counts { self.new.score.answers ≡ min (self.old.score.answers + 1) (2 ^ 64 - 1) }
        ensures right { IsOkAnd counted (IsRight self.old.setting.accuracy) → self.new.score.wrong ≡ self.old.score.wrong }
        ensures wrong { ¬ (IsOkAnd counted (IsRight self.old.setting.accuracy)) → self.new.score.wrong ≡ min (self.old.score.wrong + 1) (2 ^ 64 - 1) }
        ensures widest { IfOk counted (λ c. self.new.widest ≡ wider self.old.widest (gap_of c)) }
        ensures kept { IfErr counted (λ _. self.new.widest ≡ self.old.widest) }
    {
        match counted {
            Ok(counted) => {
                self.score.note(counted.is_right(self.setting));
                self.widest = self.widest.or_wider(counted.gap());
            }
            Err(_) => self.score.note(false),
        }
    }
}

impl fmt::Display for Counts {
    fn fmt<W: fmt::Write>(&self, f: &mut fmt::Formatter<W>) -> fmt::Result {
        let score = &self.score;
        let Gap { width, size } = self.widest;
        if width == 0 {
            return write!(f, "{score}; widest bracket 0");
        }
        let accuracy = self.setting.accuracy();
        let percent = self.widest.percent(self.setting);
        write!(
            f,
            "{score}; widest bracket {width}, {percent}% of {size} / 2^{accuracy}"
        )
    }
}
