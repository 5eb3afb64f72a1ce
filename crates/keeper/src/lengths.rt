//! How long tables are, and how long they have to be.

use tally::{Head, Row};

/// How many rows and heads there are: in the tables that are lent, or in those that a keeper needs.
#[derive(Clone, Copy, PartialEq, Eq, Debug)]
pub struct Lengths {
    pub rows: usize,
    pub heads: usize,
}

impl Lengths {
    ghost use Rattle.std.specs.Prelude.{◌≡◌};
    ghost use Rattle.keeper.specs.Tables.{lengths, short};

    /// The lengths of two tables.
    pub fn of<K>(rows: &[Row<K>], heads: &[Head]) -> Lengths
        ensures { result ≡ lengths rows.now heads.now }
    {
        Lengths {
            rows: rows.len(),
            heads: heads.len(),
        }
    }

    /// Whether one of these tables is shorter than is needed.
    pub fn is_short_of(self, need: Lengths) -> bool
        ensures { result ≡ short need self }
    {
        self.rows < need.rows || self.heads < need.heads
    }
}
