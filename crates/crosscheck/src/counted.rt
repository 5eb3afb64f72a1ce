//! What both keepers count of one key.

ghost use Rattle.std.specs.Prelude.{◌≡◌, ◌-◌, ◌*◌, ◌^◌, ◌↔◌, IsTrue, nat_lt};
ghost use Rattle.keeper.specs.Rules.{Bracket};

use crate::gap::Gap;
use settings::Setting;

// In a window of so many keys: floor and ceiling of the ring, which should be one number, and of the ladder.
#[derive(Clone, Copy)]
pub(crate) struct Counted {
    pub(crate) size: u32,
    pub(crate) exact: (u32, u32),
    pub(crate) bracket: (u32, u32),
}

impl Counted {
    ghost use Rattle.crosscheck.specs.Gaps.{gap_of};
    ghost use Rattle.crosscheck.specs.Right.{IsRight};

    // Whether the ring is sure, and the ladder's bracket is right.
    pub(crate) fn is_right(&self, setting: Setting) -> bool
        ensures { IsTrue result ↔ IsRight setting.accuracy self.now }
    {
        let (count, same) = self.exact;
        count == same && is_bracket(setting, self.size, count, self.bracket)
    }

    // How wide the ladder's bracket is.
    pub(crate) fn gap(&self) -> Gap
        ensures { result ≡ gap_of self.now }
    {
        let (floor, ceiling) = self.bracket;
        Gap {
            width: ceiling.saturating_sub(floor),
            size: self.size,
        }
    }
}

// Whether a keeper may answer this bracket, in a window of so many keys, of a key that counts so much.
fn is_bracket(setting: Setting, size: u32, count: u32, bracket: (u32, u32)) -> bool
    ensures { IsTrue result ↔ Bracket setting.accuracy size count bracket }
{
    let (floor, ceiling) = bracket;
    if size == 0 {
        return count == 0 && floor == 0 && ceiling == 0;
    }
    floor <= count && count <= ceiling && is_near(setting, size, floor, ceiling)
}

// Whether two numbers are less than the share of a window apart that the accuracy allows.
pub(crate) fn is_near(setting: Setting, size: u32, low: u32, high: u32) -> bool
    ensures { result ≡ nat_lt ((high - low) * 2 ^ setting.accuracy) size }
{
    let distance = high.saturating_sub(low) as u64;
    distance << setting.accuracy() < size as u64
}
