//! The rule of the verdicts.

ghost use Rattle.std.specs.Prelude.{◌≡◌, Some};
ghost use Rattle.verdicts.specs.Cases.{VerdictCases};
ghost use Rattle.verdicts.specs.Verdicts.{judged, judgement_text, verdict_text};

use std::fmt;

/// What is said of a class: whether the sounder's soundings that were too shallow for it are a quarter of all in the window, or more.
#[derive(Clone, Copy, PartialEq, Eq, Debug)]
pub enum Verdict {
    /// They are: a ferry of this class is held.
    Held,
    /// They are less: the berth is clear for it.
    Clear,
    /// The counts are too far apart to say either, or the window is empty.
    Unsure,
}

/// A verdict, and the sums that it was taken from.
#[derive(Clone, Copy, PartialEq, Eq, Debug)]
pub struct Judgement {
    pub verdict: Verdict,
    /// At least so many of the sounder's soundings were too shallow.
    pub floor: u64,
    /// At most so many were.
    pub ceiling: u64,
}

impl Judgement {
    /// The verdict from these sums in a window of `size` keys.
    // Sums that would wrap stay at the highest number, which is more than any size.
    pub fn of(size: u32, floor: u64, ceiling: u64) -> Judgement
        ensures value { result ≡ judged size (floor, ceiling) }
        ensures worked { VerdictCases }
    {
        let size = u64::from(size);
        let verdict = if size >= 1 && floor.saturating_mul(4) >= size {
            Verdict::Held
        } else if ceiling.saturating_mul(4) < size {
            Verdict::Clear
        } else {
            Verdict::Unsure
        };
        Judgement {
            verdict,
            floor,
            ceiling,
        }
    }
}

impl fmt::Display for Verdict {
    ghost output = { λ verdict. Some (verdict_text verdict) };

    fn fmt<W: fmt::Write>(&self, f: &mut fmt::Formatter<W>) -> fmt::Result {
        f.write_str(match self {
            Verdict::Held => "held",
            Verdict::Clear => "clear",
            Verdict::Unsure => "unsure",
        })
    }
}

impl fmt::Display for Judgement {
    ghost output = { λ judgement. Some (judgement_text judgement) };

    fn fmt<W: fmt::Write>(&self, f: &mut fmt::Formatter<W>) -> fmt::Result {
        write!(f, "{} {} {}", self.verdict, self.floor, self.ceiling)
    }
}
