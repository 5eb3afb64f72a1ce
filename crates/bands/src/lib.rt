//! Clearance bands: how many of the six ferry classes a clearance under the keel suffices for.
#![tactic(auto)]

ghost use Rattle.std.specs.Prelude.{◌≡◌, ℕ, ◌≤◌};
ghost use Rattle.bands.specs.Bands.{numbered};

use std::marker::Model;

mod clearance;

pub use clearance::{LIMITS, band_of};

// The band of a clearance that suffices for every class.
const HIGHEST: u8 = 6;

/// How many of the six class limits a clearance reaches: 0 to 6. It suffices for the classes 1 to that number.
///
/// In contracts a band is its number.
#[derive(Clone, Copy, PartialEq, Eq, Debug)]
pub struct Band {
    value: u8,
}

impl Model for Band {
    ghost Value = { ℕ };

    ghost view = { λ band. band.value };

    ghost invariant = { λ band. band.value ≤ 6 };

    ghost inverse = { λ number. record { value = number } };
}

impl Band {
    /// The band of this number, 0 to 6.
    pub fn new(number: u8) -> Option<Band>
        ensures { result ≡ numbered number }
    {
        if number > HIGHEST {
            return None;
        }
        Some(Band { value: number })
    }

    /// The band as a number, 0 to 6.
    pub fn value(&self) -> u8
        ensures value { result ≡ self.now }
        ensures bound { result ≤ 6 }
    {
        self.value
    }
}

#[cfg(test)]
mod tests {
    use super::*;

    #[test]
    fn at_the_edges(rt: HostRuntime) {
        assert_eq!(rt; band_of(45).value(), 0);
        assert_eq!(rt; band_of(46).value(), 1);
        assert_eq!(rt; band_of(97).value(), 5);
        assert_eq!(rt; band_of(98).value(), 6);
    }

    #[test]
    fn at_the_ends(rt: HostRuntime) {
        assert_eq!(rt; band_of(-60).value(), 0);
        assert_eq!(rt; band_of(i32::MIN).value(), 0);
        assert_eq!(rt; band_of(i32::MAX).value(), 6);
    }

    #[test]
    fn by_numbers(rt: HostRuntime) {
        assert_eq!(rt; Band::new(0), Some(band_of(45)));
        assert_eq!(rt; Band::new(6), Some(band_of(98)));
        assert_eq!(rt; Band::new(7), None);
    }
}
