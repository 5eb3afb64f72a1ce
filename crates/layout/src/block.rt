//! A block of arrivals.

ghost use Rattle.std.specs.Prelude.{◌≡◌};

use crate::level::Level;
use crate::place::Place;
use std::marker::Model;

/// A block: so many arrivals in a row, of a level of a scale. The blocks of a level are numbered from the first arrival on.
#[derive(Clone, Copy, PartialEq, Eq, Debug)]
pub struct Block {
    pub(crate) level: Level,
    pub(crate) number: u32,
}

impl Model for Block {
    ghost use Rattle.layout.specs.Blocks.{Stretch};
    ghost use Rattle.layout.specs.Inside.{IsStretch};

    ghost Value = { Stretch };

    ghost view = { λ b. record { top = b.level.top; scale = b.level.scale; level = b.level.number; number = b.number } };

    ghost invariant = { λ b. IsStretch b.level.top b.level.scale b.level.number b.number };

    ghost inverse = { λ b. record { level = record { top = b.top; scale = b.scale; number = b.level }; number = b.number } };
}

impl Block {
    ghost use Rattle.layout.specs.Blocks.{first, size, slot_of};

    /// The number of its first arrival.
    pub fn first(&self) -> u32
        ensures { result ≡ first self.now }
    {
        self.number << self.level.exponent()
    }

    /// How many arrivals it holds.
    pub fn size(&self) -> u32
        ensures { result ≡ size self.now }
    {
        1 << self.level.exponent()
    }

    /// The place of the slot that it uses.
    pub fn place(&self) -> Place
        ensures { result ≡ slot_of self.now }
    {
        let turn = (self.number % self.level.slots()) as usize;
        let rows = self.level.rows();
        Place {
            start: self.level.first_row() + turn * rows,
            rows,
            head: self.level.first_head() + turn,
        }
    }
}
