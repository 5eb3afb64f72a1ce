//! The ring's own numbers.

use settings::Setting;
use std::marker::Model;

/// The keeper that stores its whole window, so that it counts exactly. The key of put number m, from 0 on, lies in row
/// m mod 2^span. It has no use for heads.
// The numbers stand beside the rows, and the rows are in no deque, since they are the caller's, who lends them: no heap.
#[derive(Debug, Drop)]
pub struct Ring {
    pub(crate) setting: Setting,
    pub(crate) puts: u32,
    pub(crate) size: u32,
}

impl Model for Ring {
    ghost use Rattle.keeper.specs.Figures.{Figures, InRange};
    ghost use Rattle.ring.specs.Inside.{figures_in};

    ghost Value = { Figures };

    ghost view = { figures_in };

    ghost invariant = { λ r. InRange (figures_in r) };
}
