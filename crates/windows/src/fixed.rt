//! The two states of a fixed window.

use keeper::Record;
use std::marker::Model;

/// A fixed window that is being filled: it takes puts until it has its size, and then `turn` makes it slide.
#[derive(Drop)]
pub struct Filling<P: Record> {
    pub(crate) keeper: P,
    // the size that the window is to have
    pub(crate) goal: u32,
}

/// A fixed window that has its size, and keeps it: each key that comes lets the oldest go.
#[derive(Drop)]
pub struct Sliding<P: Record> {
    pub(crate) keeper: P,
    pub(crate) goal: u32,
}

impl<P: Record> Model for Filling<P> {
    ghost use Rattle.windows.specs.Fixed.{Fixed, IsFilling};

    ghost Value = { Fixed P };

    ghost view = { λ w. record { keeper = w.keeper; goal = w.goal } };

    ghost invariant = { λ w. IsFilling P.Record.figures (record { keeper = w.keeper; goal = w.goal }) };
}

impl<P: Record> Model for Sliding<P> {
    ghost use Rattle.windows.specs.Fixed.{Fixed, IsSliding};

    ghost Value = { Fixed P };

    ghost view = { λ w. record { keeper = w.keeper; goal = w.goal } };

    ghost invariant = { λ w. IsSliding P.Record.figures (record { keeper = w.keeper; goal = w.goal }) };
}
