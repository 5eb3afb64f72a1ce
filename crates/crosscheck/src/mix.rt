//! How many keys there are in a trace, and how often each comes.

use rand::RngExt;
use rand_pcg::Pcg32;
use std::fmt;

const FEW: u32 = 3;

const DIGITS: u32 = 14;

const MANY: u32 = 1 << DIGITS;

#[derive(Clone, Copy)]
pub(crate) enum Mix {
    // three keys, each as often as the others
    Few,
    // many keys, of which some come often and most seldom
    Uneven,
    // many keys, each as often as the others
    Many,
}

// The number of a key that comes in no mix.
pub(crate) const ABSENT: u32 = MANY;

impl Mix {
    // The number of the next key.
    pub(crate) fn draw(self, numbers: &mut Pcg32) -> u32 {
        match self {
            Mix::Few => numbers.random_range(0..FEW),
            Mix::Uneven => {
                let digits = numbers.random_range(0..DIGITS + 1);
                numbers.random_range(0..1 << digits)
            }
            Mix::Many => numbers.random_range(0..MANY),
        }
    }
}

impl fmt::Display for Mix {
    fn fmt<W: fmt::Write>(&self, f: &mut fmt::Formatter<W>) -> fmt::Result {
        match self {
            Mix::Few => write!(f, "{FEW} keys evenly"),
            Mix::Uneven => write!(f, "{MANY} keys unevenly"),
            Mix::Many => write!(f, "{MANY} keys evenly"),
        }
    }
}
