//! How wide a bracket is, beside the size of the window that it is for.

use settings::Setting;

#[derive(Clone, Copy)]
pub(crate) struct Gap {
    pub(crate) width: u32,
    pub(crate) size: u32,
}

impl Gap {
    ghost use Rattle.std.specs.Prelude.{◌≡◌, ◌≤◌, ◌*◌, ◌/◌, ◌^◌};
    ghost use Rattle.crosscheck.specs.Gaps.{wider};

    // The one that is more of its window; the first where both are as much.
    pub(crate) fn or_wider(self, other: Gap) -> Gap
        ensures { result ≡ wider self other }
    {
        if self.width as u64 * (other.size as u64) < other.width as u64 * self.size as u64 {
            other
        } else {
            self
        }
    }

    // In whole hundredths of what is too wide, the window's size / 2^accuracy; 0 of an empty window.
    #[tactic(auto, using(crate::proofs::Hundredths::scaled_whole))]
    pub(crate) fn percent(self, setting: Setting) -> u64
        ensures { 1 ≤ self.size → result ≡ 100 * self.width * 2 ^ setting.accuracy / self.size }
    {
        if self.size == 0 {
            return 0;
        }
        ((100 * self.width as u64) << setting.accuracy()) / self.size as u64
    }
}
