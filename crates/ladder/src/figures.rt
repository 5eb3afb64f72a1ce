//! The ladder's own numbers.

use layout::Layout;
use settings::Setting;
use std::marker::Model;

/// The keeper that has a tally for each block of arrivals, at every level of every scale, and answers for a window from the
/// blocks that cover it. So what its counts can be off by is measured by the window's size, however long the window was before.
// The tallies lie in the caller's tables, who lends them: no heap.
#[derive(Debug, Drop)]
pub struct Ladder {
    pub(crate) setting: Setting,
    // where the tallies lie; it follows from the setting
    pub(crate) layout: Layout,
    pub(crate) puts: u32,
    pub(crate) size: u32,
}

impl Model for Ladder {
    ghost use Rattle.keeper.specs.Figures.{Figures};
    ghost use Rattle.ladder.specs.Inside.{figures_in, IsInRange};

    ghost Value = { Figures };

    ghost view = { figures_in };

    ghost invariant = { IsInRange };
}
