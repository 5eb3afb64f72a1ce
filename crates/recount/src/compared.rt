//! How many values were compared, and how many of them differ.

ghost use Rattle.std.specs.Prelude.{◌≡◌, ◌+◌, ◌-◌, ◌^◌, ◌++◌, min, if◌then◌else◌, Some, codes, decimal};

use std::fmt;

#[derive(Drop)]
pub(crate) struct Compared {
    values: u64,
    differ: u64,
}

impl Compared {
    pub(crate) fn none() -> Compared
        ensures { result ≡ record { values = 0; differ = 0 } }
    {
        Compared {
            values: 0,
            differ: 0,
        }
    }

    // One more value.
    pub(crate) fn note(&mut self, same: bool)
        ensures values { self.new.values ≡ min (self.old.values + 1) (2 ^ 64 - 1) }
        ensures differ { self.new.differ ≡ (if same then self.old.differ else min (self.old.differ + 1) (2 ^ 64 - 1)) }
    {
        self.values = self.values.saturating_add(1);
        if !same {
            self.differ = self.differ.saturating_add(1);
        }
    }
}

impl fmt::Display for Compared {
    ghost output = { λ c. Some (decimal c.values ++ (codes " compared, " ++ (decimal c.differ ++ codes " differ"))) };

    fn fmt<W: fmt::Write>(&self, f: &mut fmt::Formatter<W>) -> fmt::Result {
        let Compared { values, differ } = self;
        write!(f, "{values} compared, {differ} differ")
    }
}
